//! The parts of a script's line, separated by TABs.

ghost use Rattle.std.specs.Prelude.{◌≡◌, ◌∷◌};
ghost use Rattle.qpk.specs.Scripts.{parts_of, parts_behind, number_of, fields_of_parts, ReadsPairs};

use crate::text::Fault;
use h3_qpack::HeaderField;
use qpk_qif::lines::split_field;
use std::alloc::Global;
use std::str;

/// Returns the first part, and the text after its TAB, if it has one.
pub fn split_part(text: &[u8]) -> (&[u8], Option<&[u8]>)
    ensures { parts_of text.now ≡ result.0.now ∷ parts_behind result.1 }
{
    match split_field(text) {
        Some((part, rest)) => (part, Some(rest)),
        None => (text, None),
    }
}

/// Returns the number that a part says.
pub fn read_number(part: &[u8]) -> Option<u64>
    ensures { result ≡ number_of part.now }
{
    str::from_utf8(part).ok()?.parse().ok()
}

/// Returns the fields of names and values by turns.
pub fn read_field_parts(
    alloc: Global,
    parts: Option<&[u8]>,
) -> Result<Option<Vec<HeaderField>>, Fault>
    ensures { ReadsPairs result (fields_of_parts (parts_behind parts.entry)) }
{
    let mut fields = Vec::new(alloc);
    let mut rest = parts;
    while let Some(text) = rest {
        let (name, Some(behind)) = split_part(text) else {
            return Ok(None);
        };
        let (value, after) = split_part(behind);
        fields.push(HeaderField::from_pair(alloc, name, value)?)?;
        rest = after;
    }
    Ok(Some(fields))
}
