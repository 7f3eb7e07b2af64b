//! What is written, to vectors that have room, that grow, and that can't.

use crate::bytes::reading::read_size;
use linked_list_allocator::LocalHeap;
use qpack_base::coding::{BufMutExt, Cursor, NoMemory};
use qpack_base::prefix_string::{Coding, Error, HpackStringEncode};
use qpack_base::{prefix_int, prefix_string};
use qpack_testing::cases::Call;
use qpack_wire::block::{
    BlockLine, HeaderPrefix, Literal, LiteralWithNameRef, LiteralWithPostBaseNameRef,
};
use qpack_wire::stream::{
    DecoderLine, EncoderLine, InsertWithNameRef, InsertWithoutNameRef, Wire, next_line,
};
use std::alloc::Allocator;

/// Appends what items are written as in a vector of this room, which stays its capacity unless it is 0.
pub(crate) fn show_written(call: &mut Call<'_>) {
    let room = call.count();
    match Vec::with_capacity(call.alloc(), room) {
        Ok(mut out) => show_written_to(call, room, &mut out),
        Err(_) => call.lack_memory(),
    }
}

/// Appends what items are written as in an empty vector of this room.
fn show_written_to(call: &mut Call<'_>, room: usize, out: &mut Vec<u8>) {
    let items = call.rest();
    for item in items.split(" | ") {
        write_twice(call, item, out);
    }
    call.set_rest("");
    let has_grown = room > 0 && out.capacity() != room;
    call.holds(!has_grown, "memory was taken beside the room");
    call.show_bytes(out);
}

/// Writes an item, or appends why it is not written.
fn write_twice<'a>(call: &mut Call<'a>, item: &'a str, out: &mut Vec<u8>) {
    if write_item(call, item, out).is_ok() {
        return;
    }
    // To the same vector a second time, in case memory was refused: that must leave it.
    if let Err(error) = write_item(call, item, out) {
        call.show(&error);
        call.say("; ");
    }
}

/// How often `fills` writes an item.
const TIMES: usize = 200;

/// Writes an item again and again to a vector of a small heap. Appends why it was refused, and whether it was written.
pub(crate) fn show_filling(call: &mut Call<'_>) {
    let size = call.count();
    match LocalHeap::new(call.alloc(), size) {
        Ok(heap) => fill(call, &mut Vec::new(&heap)),
        Err(_) => call.lack_memory(),
    }
}

/// Writes an item again and again to a vector.
fn fill(call: &mut Call<'_>, out: &mut Vec<u8, &LocalHeap>) {
    let (length, room) = (call.count(), call.count());
    let item = call.rest();
    for _ in 0..TIMES {
        write_or_leave(call, item, (length, room), out);
    }
    call.set_rest("");
    call.say(", written ");
    call.show(&!out.is_empty());
}

/// Writes an item of this length. If it is refused the vector must be as before, with less than this room: the answer is
/// why.
fn write_or_leave<'a>(
    call: &mut Call<'a>,
    item: &'a str,
    (length, room): (usize, usize),
    out: &mut Vec<u8, &LocalHeap>,
) {
    let (before, capacity) = (out.len(), out.capacity());
    let written = write_item(call, item, out);
    let added = out.len().saturating_sub(before);
    call.holds(out.len() >= before, "bytes were taken away");
    match written {
        Ok(()) => call.holds(added == length, "other bytes were written"),
        Err(error) => {
            let is_full = capacity.saturating_sub(before) < room;
            call.holds(
                is_full && added == 0,
                "a refused item was written, or had room",
            );
            call.clear();
            call.show(&error);
        }
    }
}

/// Appends the payload of the text that is left.
pub(crate) fn show_payload(call: &mut Call<'_>) {
    let text = call.text();
    match text.hpack_encode() {
        Ok(payload) => call.show_bytes(&payload),
        Err(_) => call.lack_memory(),
    }
}

/// Returns why a write is refused that needs memory alone.
fn refusal_of(written: Result<(), NoMemory>) -> Result<(), Error> {
    match written {
        Ok(()) => Ok(()),
        Err(_) => Err(Error::Memory),
    }
}

/// Writes an item.
fn write_item<'a, A: Allocator>(
    call: &mut Call<'a>,
    item: &'a str,
    out: &mut Vec<u8, A>,
) -> Result<(), Error> {
    call.set_rest(item);
    match call.word() {
        "byte" => write_byte(call, out),
        "integer" => write_integer(call, out),
        "string" => write_string(call, out),
        "reads" => read_onto(call, out),
        "prefix" => write_prefix(call, out),
        "line" => write_line(call, out),
        "encoder" => write_instruction::<EncoderLine, A>(call, out),
        "decoder" => write_instruction::<DecoderLine, A>(call, out),
        "made" => write_made(call, out),
        "shorter" => write_shorter(call, out),
        form => write_lent(form, Coding::Always, call, out),
    }
}

/// Reads a number that a byte has.
pub(crate) fn read_byte(call: &mut Call<'_>) -> u8 {
    let byte = call.word().parse::<u8>();
    call.holds(byte.is_ok(), "a word is no byte");
    byte.unwrap_or(0)
}

/// Writes a byte.
fn write_byte<A: Allocator>(call: &mut Call<'_>, out: &mut Vec<u8, A>) -> Result<(), Error> {
    refusal_of(out.write(read_byte(call)))
}

/// Writes an integer with a prefix of a size, under flags.
fn write_integer<A: Allocator>(call: &mut Call<'_>, out: &mut Vec<u8, A>) -> Result<(), Error> {
    let size = read_size(call, 1);
    let (flags, value) = (read_byte(call), call.number());
    refusal_of(prefix_int::encode(size, flags, value, out))
}

/// Writes the string of the text that is left with a prefix of a size, under flags.
fn write_string<A: Allocator>(call: &mut Call<'_>, out: &mut Vec<u8, A>) -> Result<(), Error> {
    let size = read_size(call, 2);
    let flags = read_byte(call);
    let text = call.text();
    prefix_string::encode(size, flags, &text, out)
}

/// Writes an item whose strings are coded only where that makes them shorter.
fn write_shorter<A: Allocator>(call: &mut Call<'_>, out: &mut Vec<u8, A>) -> Result<(), Error> {
    let form = call.word();
    if form != "string" {
        return write_lent(form, Coding::WhereShorter, call, out);
    }
    let size = read_size(call, 2);
    let flags = read_byte(call);
    let text = call.text();
    prefix_string::encode_under(Coding::WhereShorter, size, flags, &text, out)
}

/// Reads a string with a prefix of a size, and writes its text.
fn read_onto<A: Allocator>(call: &mut Call<'_>, out: &mut Vec<u8, A>) -> Result<(), Error> {
    let size = read_size(call, 2);
    let bytes = call.bytes();
    prefix_string::decode_within(size, bytes.len() * 2, &mut Cursor::new(&bytes), out)?;
    Ok(())
}

/// Writes the prefix of a required insert count, a base, a number of insertions and a maximum capacity.
fn write_prefix<A: Allocator>(call: &mut Call<'_>, out: &mut Vec<u8, A>) -> Result<(), Error> {
    let (required, base) = (call.count(), call.count());
    let (inserted, capacity) = (call.count(), call.count());
    let is_possible = required <= inserted && capacity >= 32;
    if is_possible || required == 0 || capacity == 0 {
        return refusal_of(HeaderPrefix::new(required, base, inserted, capacity).encode(out));
    }
    call.fail("no section has the prefix");
    Ok(())
}

/// Reads a line, and writes it.
fn write_line<A: Allocator>(call: &mut Call<'_>, out: &mut Vec<u8, A>) -> Result<(), Error> {
    let bytes = call.bytes();
    match BlockLine::decode(call.alloc(), &mut Cursor::new(&bytes)) {
        Ok(line) => line.encode(out),
        Err(_) => Err(Error::UnexpectedEnd),
    }
}

/// Reads an instruction, and writes it.
fn write_instruction<W: Wire, A: Allocator>(
    call: &mut Call<'_>,
    out: &mut Vec<u8, A>,
) -> Result<(), Error> {
    let bytes = call.bytes();
    match next_line::<W>(call.alloc(), &mut Cursor::new(&bytes)) {
        Ok(Some(instruction)) => refusal_of(instruction.encode(out)),
        _ => Err(Error::UnexpectedEnd),
    }
}

/// Writes a line or an instruction that owns an index or a name, and a value.
fn write_made<A: Allocator>(call: &mut Call<'_>, out: &mut Vec<u8, A>) -> Result<(), Error> {
    let (form, index) = (call.word(), call.first_number() as usize);
    let name = call.word();
    let value = call.copy(call.rest().as_bytes());
    match form {
        "static-name" => LiteralWithNameRef::new_static(index, value).encode(out),
        "name" => LiteralWithNameRef::new_dynamic(index, value).encode(out),
        "post-base-name" => LiteralWithPostBaseNameRef::new(index, value).encode(out),
        "insert-static-name" => InsertWithNameRef::new_static(index, value).encode(out),
        "insert-name" => InsertWithNameRef::new_dynamic(index, value).encode(out),
        _ => write_named(form, call.copy(name.as_bytes()), value, call, out),
    }
}

/// Writes a line or an instruction that owns a name and a value.
fn write_named<A: Allocator>(
    form: &str,
    name: Vec<u8>,
    value: Vec<u8>,
    call: &mut Call<'_>,
    out: &mut Vec<u8, A>,
) -> Result<(), Error> {
    match form {
        "literal" => Literal::new(name, value).encode(out),
        "insert" => InsertWithoutNameRef::new(name, value).encode(out),
        _ => {
            call.fail("there is no such form");
            Ok(())
        }
    }
}

/// Writes a line or an instruction of an index or a name, and a value, that are lent.
fn write_lent<A: Allocator>(
    form: &str,
    coding: Coding,
    call: &mut Call<'_>,
    out: &mut Vec<u8, A>,
) -> Result<(), Error> {
    let index = call.first_number() as usize;
    let name = call.word().as_bytes();
    let value = call.rest().as_bytes();
    match form {
        "static-name" => {
            LiteralWithNameRef::write_static_marked(coding, index, value, false, out)
        }
        "name" => LiteralWithNameRef::write_dynamic_marked(coding, index, value, false, out),
        "post-base-name" => {
            LiteralWithPostBaseNameRef::write_marked(coding, index, value, false, out)
        }
        "literal" => Literal::write_marked(coding, name, value, false, out),
        "insert-static-name" => InsertWithNameRef::write_static(coding, index, value, out),
        "insert-name" => InsertWithNameRef::write_dynamic(coding, index, value, out),
        "insert" => InsertWithoutNameRef::write(coding, name, value, out),
        _ => {
            call.fail("there is no such form");
            Ok(())
        }
    }
}
