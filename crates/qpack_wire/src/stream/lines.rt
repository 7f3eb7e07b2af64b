//! Reading a stream line by line, however it is cut into pieces.

ghost use Rattle.std.specs.Prelude.{◌≡◌, ℕ, List, Result, Err};
ghost use Rattle.qpack_base.specs.Writes.{Writes};
ghost use Rattle.qpack_base.specs.declared.parse_error.ParseError.TheVariants.{Memory};
ghost use Rattle.qpack_wire.specs.Alone.{KindFault};
ghost use Rattle.qpack_wire.specs.StreamAnswers.{DecodesInstruction, StaysUnlessRead, ReadsStream, without_end};
ghost use Rattle.qpack_wire.specs.WireLaws.{WrittenIsSpelled, WrittenIsReadBack, SpellingsHaveOneInstruction};
ghost use Rattle.qpack_wire.specs.WireLaws.{NoInstructionBeginsAnother};

use qpack_base::coding::{Cursor, NoMemory};
use qpack_base::parse_error::ParseError;
use qpack_base::{prefix_int, prefix_string};
use std::alloc::{Allocator, Global};

/// A line of a stream.
pub trait Wire: Sized + Drop {
    /// The lines of the stream, as its definition has them.
    ghost Line: { Type 0 };

    /// The line that a value represents.
    ghost line_of: { Self → Line };

    /// The bytes are a spelling of the line.
    ghost spells: { List ℕ → Line → Type 0 };

    /// The bytes are refused, for this reason.
    ghost refuses: { List ℕ → KindFault → Type 0 };

    /// The line at the front of the bytes, and the bytes after it.
    ghost read: { List ℕ → Result (Line × List ℕ) KindFault };

    /// The line can be written.
    ghost writable: { Line → Type 0 };

    /// The one spelling that is written.
    ghost written: { Line → List ℕ };

    /// Reading may ask for memory, if the bytes begin so.
    ghost asks_for_memory: { List ℕ → Type 0 };

    /// Reads the line at the cursor, or returns `None` if it is truncated. If none is read, the cursor's position is
    /// unspecified.
    fn decode(alloc: Global, buf: &mut Cursor) -> Result<Option<Self>, ParseError>
        ensures decodes { DecodesInstruction line_of spells refuses buf.old buf.new result }
        ensures memory { result ≡ Err Memory → asks_for_memory buf.old.rest }
        // The clauses above as one function, which reads from left to right.
        ensures exact { ReadsStream line_of buf.old buf.new result (read buf.old.rest) };

    /// Appends the written spelling of the line. On error the vector is unchanged; with free room for the spelling it
    /// succeeds and takes no memory.
    fn encode<A: Allocator>(&self, buf: &mut Vec<u8, A>) -> Result<(), NoMemory>
        ensures writes { Writes (written (line_of self.now)) buf.old buf.new result };

    /// What is written is a spelling.
    ghost written_is_spelled: { WrittenIsSpelled spells writable written };

    /// A written line is read back whole, whatever follows.
    ghost written_is_read_back: { WrittenIsReadBack read writable written };

    /// One spelling is of one line.
    ghost spellings_have_one_line: { SpellingsHaveOneInstruction spells };

    /// No spelling or refusal begins another.
    ghost no_line_begins_another: { NoInstructionBeginsAnother spells refuses };
}

/// Reads the line at the cursor and moves past exactly it. If the line is truncated or refused, the cursor does not
/// move.
#[inline(always)]
pub fn next_line<W: Wire>(alloc: Global, cursor: &mut Cursor) -> Result<Option<W>, ParseError>
    ensures decodes { DecodesInstruction W.line_of W.spells W.refuses cursor.old cursor.new result }
    ensures stays { StaysUnlessRead cursor.old cursor.new result }
    ensures memory { result ≡ Err Memory → W.asks_for_memory cursor.old.rest }
    // The clauses above as one function, which reads from left to right.
    ensures exact { ReadsStream W.line_of cursor.old cursor.new result (W.read cursor.old.rest) }
{
    let mut ahead = cursor.fork();
    match W::decode(alloc, &mut ahead) {
        Ok(Some(line)) => {
            *cursor = ahead;
            Ok(Some(line))
        }
        Ok(None) => Ok(None),
        Err(e) => Err(e),
    }
}

/// Returns the result, with `None` in place of an early end: the rest of the line has not come yet.
pub(crate) fn or_none<T: Drop>(answer: Result<T, ParseError>) -> Result<Option<T>, ParseError>
    ensures { result ≡ without_end answer }
{
    match answer {
        Ok(value) => Ok(Some(value)),
        Err(ParseError::Integer(prefix_int::Error::UnexpectedEnd)) => Ok(None),
        Err(ParseError::String(prefix_string::Error::UnexpectedEnd)) => Ok(None),
        Err(error) => Err(error),
    }
}
