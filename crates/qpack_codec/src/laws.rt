//! Laws of streams that come in pieces, for the calls that take instructions.

ghost use Rattle.qpack_codec.specs.Hearing as hearing;
ghost use Rattle.qpack_codec.specs.Hearing.{Hears};
ghost use Rattle.qpack_codec.specs.Pieces.{PiecesChangeNothing};
ghost use Rattle.qpack_codec.specs.Receiving.{TakesInstructions, refusal_of};
ghost use Rattle.qpack_codec.specs.Sections.{form_fault_of};
ghost use Rattle.qpack_codec.specs.declared.error.DecoderError.TheVariants.{Memory};
ghost use Rattle.qpack_codec.specs.declared.error.EncoderError.TheVariants.{Memory as EncoderMemory};

/// However a stream is cut, `on_encoder_recv` and `on_decoder_recv` take the same of it. The first refusal is the same. Up
/// to it the table is the same, with what waits for an acknowledgment, and so is the rest. Unread bytes are passed again,
/// and no call is refused for memory.
pub fn pieces_change_nothing()
    ensures encoder_stream { PiecesChangeNothing form_fault_of refusal_of Memory TakesInstructions }
    ensures decoder_stream { PiecesChangeNothing hearing.form_fault_of hearing.refusal_of EncoderMemory Hears }
{}
