//! Fields as text that can be read one way only: `NAME: VALUE`. A backslash is written twice. A byte that is no
//! printable character of ASCII, and in a name a blank too, is written as `\x` and two digits. So the first colon with
//! a blank after it separates name and value.

ghost use Rattle.qpk_view.specs.Texts.{Extends};

use crate::text::Text;
use qpack_base::field::HeaderField;

/// Appends a field.
pub(crate) fn push_field(text: &mut Text, field: &HeaderField)
    ensures { Extends text.old text.new }
{
    push_name(text, field);
    text.push_str(": ");
    push_bytes(text, field.value.as_slice(), b' ');
}

/// Appends the name of a field.
pub(crate) fn push_name(text: &mut Text, field: &HeaderField)
    ensures { Extends text.old text.new }
{
    push_bytes(text, field.name.as_slice(), b'!');
}

/// Appends bytes; those from `least` to the tilde, except the backslash, as they are.
pub(crate) fn push_bytes(text: &mut Text, bytes: &[u8], least: u8)
    ensures { Extends text.old text.new }
{
    for byte in bytes {
        push_byte(text, *byte, least);
    }
}

/// Appends a byte.
fn push_byte(text: &mut Text, byte: u8, least: u8)
    ensures { Extends text.old text.new }
{
    if byte == b'\\' {
        text.push_str("\\\\");
    } else if byte < least || byte > b'~' {
        text.push_str("\\x");
        text.push_digits(byte);
    } else {
        text.push(char::from(byte));
    }
}
