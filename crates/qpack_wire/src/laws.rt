//! Laws of the forms that are read alone, and of streams that come in pieces.

ghost use Rattle.qpack_spec.specs.Instruction.{SpellsEncoderInstruction, SpellsDecoderInstruction};
ghost use Rattle.qpack_wire.specs.Cuttings.{CuttingChangesNothing};
ghost use Rattle.qpack_wire.specs.KindLaws.{EncodersHaveFourKinds, DecodersHaveThreeKinds};
ghost use Rattle.qpack_wire.specs.LineLaws.{LinesHaveFiveForms};
ghost use Rattle.qpack_wire.specs.NextLines.{NextLinesAreTheReading};
ghost use Rattle.qpack_wire.specs.StreamLines.{encoder_instruction_of, decoder_instruction_of};
ghost use Rattle.qpack_wire.specs.StreamLines.{RefusesEncoderLine, RefusesDecoderLine};

/// The five forms make up the lines: a spelling of a line is a spelling in one of them.
pub fn lines_have_five_forms()
    ensures { LinesHaveFiveForms }
{}

/// The four kinds make up the encoder instructions, and the three the decoder instructions: a spelling
/// of an instruction is a spelling of one of them.
pub fn instructions_have_their_kinds()
    ensures encoder { EncodersHaveFourKinds }
    ensures decoder { DecodersHaveThreeKinds }
{}

/// The lines that are read of a stream do not depend on how it was cut into pieces, if the unread rest is passed again
/// each time.
pub fn cutting_changes_nothing()
    ensures instructions { CuttingChangesNothing SpellsEncoderInstruction }
    ensures decoder_instructions { CuttingChangesNothing SpellsDecoderInstruction }
{}

/// Successive calls of `next_line`, until one reads no line, find the instructions that the bytes hold, and leave the
/// cursor at the rest. That is the only reading of these bytes, as `streams_have_one_reading` says.
pub fn next_lines_are_the_reading()
    ensures encoder { NextLinesAreTheReading encoder_instruction_of SpellsEncoderInstruction RefusesEncoderLine }
    ensures decoder { NextLinesAreTheReading decoder_instruction_of SpellsDecoderInstruction RefusesDecoderLine }
{}
