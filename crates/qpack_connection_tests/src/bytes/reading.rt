//! What bytes are read as (RFC 7541, section 5; RFC 9204, sections 4.1 and 4.3 to 4.5).

ghost use Rattle.std.specs.Prelude.{◌≤◌};

use crate::bytes::{show_result, streams};
use bstr::ByteSlice;
use qpack_base::coding::{BufExt, Cursor};
use qpack_base::prefix_string::HpackStringDecode;
use qpack_base::{prefix_int, prefix_string};
use qpack_testing::cases::Call;
use qpack_wire::block::{
    BlockLine, HeaderPrefix, Indexed, IndexedWithPostBase, Literal, LiteralWithNameRef,
    LiteralWithPostBaseNameRef, read_block,
};
use qpack_wire::stream::{
    DecoderLine, Duplicate, DynamicTableSizeUpdate, EncoderLine, HeaderAck, InsertCountIncrement,
    InsertWithNameRef, InsertWithoutNameRef, StreamCancel,
};

/// Makes a call for the bytes of the first word.
pub(crate) fn make(word: &str, call: &mut Call<'_>) {
    let bytes = &call.bytes();
    match word {
        "bytes" => show_bytes_read(call, bytes),
        "integer" => show_integer(call, bytes),
        "string" => show_string(call, bytes),
        "payload" => show_payload_read(call, bytes),
        "prefix" => show_prefix(call, bytes),
        "encoder" => streams::show_next::<EncoderLine>(call, bytes),
        "decoder" => streams::show_next::<DecoderLine>(call, bytes),
        "waits" => streams::show_waiting(call, bytes),
        "cuts" => streams::show_cuts(call, bytes),
        "turns" => streams::show_all(call, bytes),
        "block" => show_result(call, &read_block(call.alloc(), bytes)),
        _ => show_line(call, word, &mut Cursor::new(bytes)),
    }
}

/// Appends the line at the front of the bytes, of the form that a word names.
fn show_line(call: &mut Call<'_>, word: &str, buf: &mut Cursor) {
    let alloc = call.alloc();
    match word {
        "line" => show_result(call, &BlockLine::decode(alloc, buf)),
        "indexed" => show_result(call, &Indexed::decode(buf)),
        "post-base" => show_result(call, &IndexedWithPostBase::decode(buf)),
        "name" => show_result(call, &LiteralWithNameRef::decode(alloc, buf)),
        "post-base-name" => show_result(call, &LiteralWithPostBaseNameRef::decode(alloc, buf)),
        "literal" => show_result(call, &Literal::decode(alloc, buf)),
        _ => show_instruction(call, word, buf),
    }
}

/// Appends the instruction at the front of the bytes, of the form that a word names.
fn show_instruction(call: &mut Call<'_>, word: &str, buf: &mut Cursor) {
    let alloc = call.alloc();
    match word {
        "insert-name" => show_result(call, &InsertWithNameRef::decode(alloc, buf)),
        "insert" => show_result(call, &InsertWithoutNameRef::decode(alloc, buf)),
        "duplicate" => show_result(call, &Duplicate::decode(buf)),
        "capacity" => show_result(call, &DynamicTableSizeUpdate::decode(buf)),
        "acknowledgment" => show_result(call, &HeaderAck::decode(buf)),
        "cancellation" => show_result(call, &StreamCancel::decode(buf)),
        "increment" => show_result(call, &InsertCountIncrement::decode(buf)),
        _ => call.fail("there is no such call"),
    }
}

/// Reads how many bits a prefix has, at least this many.
pub(crate) fn read_size(call: &mut Call<'_>, least: u8) -> u8
    requires { least ≤ 8 }
    ensures least { least ≤ result }
    ensures most { result ≤ 8 }
{
    match call.word().parse::<u8>() {
        Ok(size) if least <= size && size <= 8 => size,
        _ => {
            call.fail("no prefix has this size");
            8
        }
    }
}

/// Appends the first byte and the second, how many are passed and left then, and what another cursor sees that stayed,
/// and has left then.
fn show_bytes_read(call: &mut Call<'_>, bytes: &[u8]) {
    let mut cursor = Cursor::new(bytes);
    let mut ahead = cursor.fork();
    show_result(call, &cursor.get::<u8>());
    show_result(call, &cursor.get::<u8>());
    let seen = ahead.chunk();
    ahead.advance(ahead.remaining());
    call.say_number("; ", cursor.position());
    call.say_number(", ", cursor.remaining());
    call.say("; ");
    call.show_parts(&seen);
    call.say_number(", ", ahead.remaining());
}

/// Appends the integer at the front of the bytes, under its flags, and how many bytes are left after it.
fn show_integer(call: &mut Call<'_>, bytes: &[u8]) {
    let size = read_size(call, 1);
    let mut cursor = Cursor::new(bytes);
    let read = prefix_int::decode(size, &mut cursor);
    show_result(call, &read);
    if read.is_ok() {
        call.say_number(", ", cursor.remaining());
        call.say(" left");
    }
}

/// Appends the string at the front of the bytes. An empty one takes no memory.
fn show_string(call: &mut Call<'_>, bytes: &[u8]) {
    let size = read_size(call, 2);
    match prefix_string::decode(call.alloc(), size, &mut Cursor::new(bytes)) {
        Ok(text) => show_text(call, &text),
        Err(error) => call.show_error(&error),
    }
}

/// Appends a text that was read.
fn show_text(call: &mut Call<'_>, text: &Vec<u8>) {
    let is_lean = !text.is_empty() || text.capacity() == 0;
    call.holds(is_lean, "an empty text takes memory");
    call.show_parts(&text.as_slice().as_bstr());
}

/// Appends each byte that a payload spells, up to its fault.
fn show_payload_read(call: &mut Call<'_>, payload: &Vec<u8>) {
    for byte in payload.hpack_decode() {
        show_result(call, &byte);
    }
}

/// Appends the encoded insert count of a prefix, and what the prefix means at a total of insertions and a maximum
/// capacity, also read strictly.
fn show_prefix(call: &mut Call<'_>, bytes: &[u8]) {
    let (total, capacity) = (call.count(), call.count());
    let count = HeaderPrefix::decode(&mut Cursor::new(bytes)).map(|it| it.encoded_insert_count());
    show_result(call, &count);
    let prefix = HeaderPrefix::decode(&mut Cursor::new(bytes));
    show_result(call, &prefix.and_then(|it| it.get(total, capacity)));
    let prefix = HeaderPrefix::decode(&mut Cursor::new(bytes));
    show_result(call, &prefix.and_then(|it| it.get_strict(total, capacity)));
}
