//! Laws of the two instruction streams, however they are cut (RFC 9204, sections 4.2 to 4.4).

ghost use Rattle.qpack_spec.specs.StreamLaws.{EveryStreamHasAReading};
ghost use Rattle.qpack_spec.specs.Instruction.{encoder_instruction_form, decoder_instruction_form};
ghost use Rattle.qpack_rules.specs.LawfulStreams.{LawfulStreamsAreNeverRefused, LawfulStreamsAreTaken};

/// Every byte list holds one list of instructions, and leaves a rest that is truncated or refused.
pub fn every_stream_has_a_reading()
    ensures instructions { EveryStreamHasAReading encoder_instruction_form }
    ensures decoder_instructions { EveryStreamHasAReading decoder_instruction_form }
{}

/// A strict decoder refuses nothing of an encoder stream of which it would apply every instruction in turn, however the
/// bytes are cut: not the beginning of an insertion either, whose field may still fit (RFC 9204, sections 2.2 and 3.2.2).
pub fn lawful_streams_are_taken()
    ensures never_refused { LawfulStreamsAreNeverRefused }
    ensures taken { LawfulStreamsAreTaken }
{}
