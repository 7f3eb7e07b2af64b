//! Lines of text, and the name and the value of a line: `name TAB value`.

ghost use Rattle.std.specs.Prelude.{◌≡◌, ◌+◌, ◌<◌, ◌==◌, ◌∷◌, ℕ, Some, None, MatchOption, length, take, drop, position};
ghost use Rattle.qpk_qif.specs.Lines.{lines_of, field_of_line};

/// Returns the bytes before the first such byte, and those after it.
fn split_at_byte(bytes: &[u8], byte: u8) -> Option<(&[u8], &[u8])>
    ensures { MatchOption result (position (λ b. b == byte) bytes.now ≡ None) (λ parts. (index : ℕ)
        × (position (λ b. b == byte) bytes.now ≡ Some index)
        × (parts.0.now ≡ take index bytes.now) × (parts.1.now ≡ drop (index + 1) bytes.now)) }
{
    let index = index_of(bytes, byte)?;
    Some((&bytes[..index], &bytes[index + 1..]))
}

/// Returns the index of the first such byte.
fn index_of(bytes: &[u8], byte: u8) -> Option<usize>
    ensures { result ≡ position (λ b. b == byte) bytes.now }
{
    bytes.iter().position(|b| *b == byte)
}

/// Returns the first line of a text that is not empty, without its line feed, and the text after it.
pub fn split_line(text: &[u8]) -> (&[u8], &[u8])
    requires { 0 < length text.now }
    ensures lines { lines_of text.now ≡ result.0.now ∷ lines_of result.1.now }
    ensures shorter { length result.1.now < length text.now }
{
    split_at_byte(text, b'\n').unwrap_or((text, &[]))
}

/// Returns the name and the value of a line, separated by its first TAB.
pub fn split_field(line: &[u8]) -> Option<(&[u8], &[u8])>
    ensures { MatchOption result (field_of_line line.now ≡ None) (λ parts.
        field_of_line line.now ≡ Some (record { name = parts.0.now; value = parts.1.now })) }
{
    split_at_byte(line, b'\t')
}
