//! Header fields, and the static table (RFC 9204, section 3.1 and Appendix A).

use bstr::ByteSlice;
use qpack_base::field::{
    HeaderField, equal_fields_hash_alike, equality_is_of_bytes, order_is_of_bytes,
};
use qpack_base::static_::StaticTable;
use qpack_testing::cases::Call;
use std::hash::{DefaultHasher, Hasher};

/// Makes a call for the first of the fields that are left.
pub(crate) fn make(word: &str, call: &mut Call<'_>) {
    let fields = call.headers();
    call.holds(!fields.is_empty(), "no field is named");
    if let Some((field, others)) = fields.split_first() {
        make_for(word, call, field, others);
    }
}

/// Makes a call for a field, and others.
fn make_for(word: &str, call: &mut Call<'_>, field: &HeaderField, others: &[HeaderField]) {
    match word {
        "compares" => show_comparison(call, field, others.first().unwrap_or(field)),
        "alters" => show_altered(call, field, others.first().unwrap_or(field)),
        "finds" => show_found(call, field),
        "changes" => show_changed(call, field),
        _ => show_field(call, field),
    }
}

/// Appends the size of a field, its order to another, whether they are equal, by two calls, and whether they hash alike.
fn show_comparison(call: &mut Call<'_>, field: &HeaderField, other: &HeaderField) {
    let mut first = DefaultHasher::new();
    let mut second = DefaultHasher::new();
    let is_equal = equal_fields_hash_alike(field, other, &mut first, &mut second);
    call.show(&field.mem_size());
    call.say(", ");
    call.show_parts(&order_is_of_bytes(field, other));
    call.say(", ");
    call.show(&is_equal);
    call.say(", ");
    call.show(&equality_is_of_bytes(field, other));
    call.say(", ");
    call.show(&(first.finish() == second.finish()));
}

/// Appends the indexes that the static table has of a field and of its name, and what one search finds.
fn show_found(call: &mut Call<'_>, field: &HeaderField) {
    let (name, value) = (field.name.as_slice(), field.value.as_slice());
    call.show_parts(&StaticTable::find(field));
    call.say(", ");
    call.show_parts(&StaticTable::find_name(name));
    call.say(", ");
    call.show_parts(&StaticTable::lookup(name, value));
}

/// Appends how the first field of the same name in the static table, which is borrowed, compares with a field, and what
/// it is with the same value.
fn show_changed(call: &mut Call<'_>, field: &HeaderField) {
    let index = StaticTable::find_name(field.name.as_slice());
    call.holds(index.is_some(), "no field has the name");
    if let Ok(named) = StaticTable::get(index.unwrap_or(0)) {
        show_altered(call, &named, field);
    }
}

/// Appends how a field compares with another, and what it is with the value of that one.
fn show_altered(call: &mut Call<'_>, field: &HeaderField, other: &HeaderField) {
    show_comparison(call, field, other);
    let value = call.copy(other.value.as_slice());
    match field.with_value(value) {
        Ok(changed) => show_parts(call, changed),
        Err(_) => call.lack_memory(),
    }
}

/// Appends the parts that a field gives away.
fn show_parts(call: &mut Call<'_>, field: HeaderField) {
    let (name, value) = field.into_inner();
    call.say("; ");
    call.show_parts(&name.as_slice().as_bstr());
    call.say(", ");
    call.show_parts(&value.as_slice().as_bstr());
}

/// Appends a field as text, and as it is printed.
fn show_field(call: &mut Call<'_>, field: &HeaderField) {
    match field.to_text(call.alloc()) {
        Ok(text) => call.show_parts(&text.as_str()),
        Err(_) => call.lack_memory(),
    }
    call.say(", ");
    call.show(field);
}
