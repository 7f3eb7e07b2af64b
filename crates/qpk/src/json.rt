//! The fields of a block as an object of JSON.

ghost use Rattle.std.specs.Prelude.{◌≡◌, ◌++◌, ◌∷◌, [], IfOk, string_bytes};
ghost use Rattle.serde_json.specs.View.{view};
ghost use Rattle.qpack_base.specs.HeaderFields.{field_of};
ghost use Rattle.qpack_spec.specs.Field.{total_size};
ghost use Rattle.qpack_spec.specs.Stateless.{saturated_size};
ghost use Rattle.qpack_codec.specs.Stateless.{fields_in};
ghost use Rattle.qpk.specs.Json.{bytes_data, field_data, fields_data, section_data, section_json};

use h3_qpack::{Decoded, HeaderField};
use serde_json::{Value, json};
use std::alloc::{AllocError, Global};
use std::str;

/// Returns the object of the fields that a block was decoded to, and the sum of their sizes, in a line.
pub fn section_json(alloc: Global, decoded: &Decoded) -> Result<String, AllocError>
    requires { decoded.now.mem_size ≡ saturated_size (total_size (fields_in decoded.now.fields.items)) }
    ensures { IfOk result (λ text. string_bytes text ≡ section_json (fields_in decoded.now.fields.items)) }
{
    let section = section_value(alloc, decoded)?;
    let mut text = section.to_string(alloc)?;
    text.push('\n')?;
    Ok(text)
}

/// Returns the object as a value.
fn section_value(alloc: Global, decoded: &Decoded) -> Result<Value, AllocError>
    requires { decoded.now.mem_size ≡ saturated_size (total_size (fields_in decoded.now.fields.items)) }
    ensures { IfOk result (λ v. view v ≡ section_data (fields_in decoded.now.fields.items)) }
{
    let fields = fields_value(alloc, &decoded.fields)?;
    json!(in alloc; {"fields": fields, "size": decoded.mem_size})
}

/// Returns an array of fields.
fn fields_value(alloc: Global, fields: &[HeaderField]) -> Result<Value, AllocError>
    ensures { IfOk result (λ v. view v ≡ fields_data (fields_in fields.now)) }
{
    let mut values = Vec::new(alloc);
    for field in fields {
        values.push(field_value(alloc, field)?)?;
    }
    Ok(Value::Array(values))
}

/// Returns the object of a field.
fn field_value(alloc: Global, field: &HeaderField) -> Result<Value, AllocError>
    ensures { IfOk result (λ v. view v ≡ field_data (field_of field.now)) }
{
    let name = bytes_value(alloc, field.name.as_slice())?;
    let value = bytes_value(alloc, field.value.as_slice())?;
    json!(in alloc; {"name": name, "value": value})
}

/// Bytes: text if they are UTF-8, otherwise an object that has them in hexadecimal.
fn bytes_value(alloc: Global, bytes: &[u8]) -> Result<Value, AllocError>
    ensures { IfOk result (λ v. view v ≡ bytes_data bytes.now) }
{
    match str::from_utf8(bytes) {
        Ok(text) => Ok(Value::String(String::from_str(alloc, text)?)),
        Err(_) => {
            let digits = hex::encode(alloc, bytes)?;
            json!(in alloc; {"hex": digits})
        }
    }
}
