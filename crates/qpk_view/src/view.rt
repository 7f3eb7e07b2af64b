//! What is printed of an input.

ghost use Rattle.std.specs.Prelude.{◌≡◌, false, IfOk, string_bytes};

use crate::fault::Fault;
use crate::text::Text;

/// What is printed, and whether something was refused.
#[derive(Drop)]
pub struct View {
    /// What is printed.
    pub text: String,
    /// Whether something was refused, or found.
    pub has_found: bool,
}

impl View {
    /// Returns what is printed. Fails if memory for some of it was refused.
    pub fn new(text: Text, has_found: bool) -> Result<View, Fault>
        ensures text { IfOk result (λ view. (text.lacks_memory ≡ false) × (string_bytes view.text ≡ text.bytes)) }
        ensures found { IfOk result (λ view. view.has_found ≡ has_found) }
    {
        match text.finish() {
            Ok(text) => Ok(View { text, has_found }),
            Err(_) => Err(Fault::Memory),
        }
    }
}
