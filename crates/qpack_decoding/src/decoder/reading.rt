//! The decoding end, over sections that come in pieces.

ghost use Rattle.std.specs.Prelude.{◌≡◌, length, Err};
ghost use Rattle.qpack_decoding.specs.Decoders.{end_of};
ghost use Rattle.qpack_decoding.specs.FieldSections.{GrowsWithin};
ghost use Rattle.qpack_decoding.specs.PieceDecoders.{ReadsPiece, Follows, answer_to_next, answer_to_progress, next_here};
ghost use Rattle.qpack_decoding.specs.PieceDecoders.{NeedsMemoryForPiece, NeedsMemoryToFollow};
ghost use Rattle.qpack_decoding.specs.Pieces.{KeepsWithin};
ghost use Rattle.qpack_shared.specs.Unsent.{KeepsRoom};
ghost use Rattle.qpack_decoding.specs.declared.decoder.DecodingError.TheVariants.{Memory};

use crate::decoder::{ConnectionDecoder, DecodingError};
use crate::field_section::FieldSection;
use crate::section::SectionError;
use crate::section::reader::{Progress, SectionReader};
use qpack_base::coding::Cursor;

impl ConnectionDecoder {
    /// Reads on in a field section that comes in pieces (RFC 9204, section 2.2): at the cursor, whose bytes continue those
    /// of earlier calls with this reader. With `last`, the section ends with them. Unless it returns `Progress::Field`,
    /// `fields` is empty.
    ///
    /// Once the prefix says that the section waits for insertions, the stream counts as blocked while they are missing;
    /// once `next_ready` returns the stream, call again. At the end it acknowledges a section that requires insertions, as
    /// `decode` does, and the reader is at the start of the stream's next section. If you stop reading the stream, call
    /// `cancel`, and drop the reader.
    ///
    /// # Errors
    ///
    /// Fails, checking in this order, after an error that ended the connection, with that error; with `NoStream` if the
    /// stream number is invalid; with `Section` as before, if the section was rejected, if it is too long, and if
    /// `read_section` rejects the prefix or the line; and with `TooManyBlocked` if one stream too many would be blocked.
    /// After `Section` the stream is no longer blocked. Any other error without a code changes nothing, except that
    /// increments may have been written before memory ran out.
    pub fn read(
        &mut self,
        reader: &mut SectionReader,
        buf: &mut Cursor,
        last: bool,
        fields: &mut FieldSection,
    ) -> Result<Progress, DecodingError>
        ensures reads { ReadsPiece (end_of self.old) (end_of self.new) last reader.old.section reader.new.section
            buf.old.rest buf.new.rest fields.new.fields result }
        // Memory is refused only for bytes that wait and do not fit; for a line, if `fields` has less room than the limit
        // allows; if the stream may become blocked and is not counted with this count; or if there is no room for the
        // acknowledgment and the increments before it.
        ensures memory { result ≡ Err Memory → NeedsMemoryForPiece self.old last reader.old buf.old.rest fields.old }
        // No more bytes wait than a section within the limit can have, and there is memory for no more.
        ensures kept { KeepsWithin self.old.settings.max_section_size reader.old reader.new }
        ensures unsent { KeepsRoom (length (answer_to_next reader.old.section.stream
            (next_here (end_of self.old) last reader.old.section buf.old.rest) (end_of self.old))) self.old.unsent
            self.new.unsent }
        ensures room { GrowsWithin self.old.settings.max_section_size fields.old fields.new }
        ensures total { buf.new.total ≡ buf.old.total }
    {
        fields.clear();
        let stream = reader.stream();
        self.check(stream)?;
        let limit = self.settings.max_section_size;
        match reader.read(&self.table, limit, buf, last, fields) {
            Ok(progress) => {
                self.follow(stream, progress)?;
                if let Progress::Ends { .. } = progress {
                    reader.begin();
                }
                Ok(progress)
            }
            Err(SectionError::Memory) => Err(DecodingError::Memory),
            Err(error) => {
                self.blocked.forget(stream);
                Err(self.refuse(DecodingError::Section { stream, error }))
            }
        }
    }

    /// Acts on what a section gave that comes on a stream: at its end it is acknowledged, and while it waits for insertions
    /// the stream counts as blocked.
    fn follow(&mut self, stream: u64, progress: Progress) -> Result<(), DecodingError>
        ensures follows { Follows (end_of self.old) (end_of self.new) stream progress result }
        ensures unsent { KeepsRoom (length (answer_to_progress stream progress (end_of self.old))) self.old.unsent
            self.new.unsent }
        ensures memory { result ≡ Err Memory → NeedsMemoryToFollow self.old stream progress }
    {
        match progress {
            Progress::Blocked { required } => self.block(stream, required),
            Progress::Ends { required } => self.acknowledge(stream, required),
            Progress::Waits | Progress::Prefix { .. } | Progress::Field => {
                self.blocked.forget(stream);
                Ok(())
            }
        }
    }
}
