//! Laws of the bytes of lines, encoder instructions and decoder instructions (RFC 9204, sections 4.3 to 4.5).

ghost use Rattle.qpack_spec.specs.FormLaws.{FormsHaveOneValue, NoFormBeginsAnother, ReadingFindsForms};
ghost use Rattle.qpack_spec.specs.FormLaws.{ReadingFindsFormRefusals, ReadingFindsFormTruncation};
ghost use Rattle.qpack_spec.specs.Line.{line_form};
ghost use Rattle.qpack_spec.specs.Instruction.{encoder_instruction_form, decoder_instruction_form};
ghost use Rattle.qpack_spec.specs.WrittenLaws.{WrittenLinesAreSpellings, WrittenEncoderInstructionsAreSpellings};
ghost use Rattle.qpack_spec.specs.WrittenLaws.{WrittenDecoderInstructionsAreSpellings};

/// One spelling is of one line, one encoder instruction, one decoder instruction.
pub fn spellings_have_one_value()
    ensures lines { FormsHaveOneValue line_form }
    ensures instructions { FormsHaveOneValue encoder_instruction_form }
    ensures decoder_instructions { FormsHaveOneValue decoder_instruction_form }
{}

/// No spelling or refusal begins another, so where a line or an instruction ends is never in doubt, however a stream
/// is cut.
pub fn no_spelling_begins_another()
    ensures lines { NoFormBeginsAnother line_form }
    ensures instructions { NoFormBeginsAnother encoder_instruction_form }
    ensures decoder_instructions { NoFormBeginsAnother decoder_instruction_form }
{}

/// Reading a line from left to right is the relation of spellings, of refusals and of truncation.
pub fn reading_lines_is_the_relation()
    ensures spellings { ReadingFindsForms line_form }
    ensures refusals { ReadingFindsFormRefusals line_form }
    ensures truncation { ReadingFindsFormTruncation line_form }
{}

/// Reading an encoder instruction from left to right is the relation of spellings, of refusals and of truncation.
pub fn reading_instructions_is_the_relation()
    ensures spellings { ReadingFindsForms encoder_instruction_form }
    ensures refusals { ReadingFindsFormRefusals encoder_instruction_form }
    ensures truncation { ReadingFindsFormTruncation encoder_instruction_form }
{}

/// Reading a decoder instruction from left to right is the relation of spellings, of refusals and of truncation.
pub fn reading_decoder_instructions_is_the_relation()
    ensures spellings { ReadingFindsForms decoder_instruction_form }
    ensures refusals { ReadingFindsFormRefusals decoder_instruction_form }
    ensures truncation { ReadingFindsFormTruncation decoder_instruction_form }
{}

/// What is written is a spelling of what was written.
pub fn written_forms_are_spellings()
    ensures lines { WrittenLinesAreSpellings }
    ensures instructions { WrittenEncoderInstructionsAreSpellings }
    ensures decoder_instructions { WrittenDecoderInstructionsAreSpellings }
{}
