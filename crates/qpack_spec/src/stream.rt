//! Laws of the two instruction streams, however they are cut (RFC 9204, sections 4.2 to 4.4).

ghost use Rattle.qpack_spec.specs.StreamLaws.{StreamsHaveOneReading, PiecesHoldFronts};
ghost use Rattle.qpack_spec.specs.StreamLaws.{PiecesAreNeverRefused};
ghost use Rattle.qpack_spec.specs.Instruction.{encoder_instruction_form, decoder_instruction_form};

/// A byte list holds one list of instructions, and leaves one rest.
pub fn streams_have_one_reading()
    ensures instructions { StreamsHaveOneReading encoder_instruction_form }
    ensures decoder_instructions { StreamsHaveOneReading decoder_instruction_form }
{}

/// Any piece of a stream holds the next of its instructions, and leaves the others with what comes after it.
pub fn pieces_hold_fronts()
    ensures instructions { PiecesHoldFronts encoder_instruction_form }
    ensures decoder_instructions { PiecesHoldFronts decoder_instruction_form }
{}

/// No piece of a stream of instructions is refused for its bytes.
pub fn pieces_are_never_refused()
    ensures instructions { PiecesAreNeverRefused encoder_instruction_form }
    ensures decoder_instructions { PiecesAreNeverRefused decoder_instruction_form }
{}
