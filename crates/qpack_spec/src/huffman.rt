//! Laws of the Huffman code (RFC 7541, section 5.2 and Appendix B).

ghost use Rattle.qpack_spec.specs.HuffmanLaws.{NoCodeBeginsAnother, NoCodeBeginsEos, PayloadsHaveOneText};
ghost use Rattle.qpack_spec.specs.HuffmanLaws.{TextsHaveOnePayload, WrittenPayloadsMeanTheirText, PayloadsMeanOrDont};
ghost use Rattle.qpack_spec.specs.HuffmanLaws.{PayloadsDontMeanBoth, PayloadsHaveOneFault, ReadingFindsTexts};
ghost use Rattle.qpack_spec.specs.HuffmanLaws.{ReadingFindsPayloadFaults};

/// No code begins another, and EOS begins with none.
pub fn no_code_begins_another()
    ensures codes { NoCodeBeginsAnother }
    ensures eos { NoCodeBeginsEos }
{}

/// A payload means one text at most.
pub fn payloads_have_one_text()
    ensures { PayloadsHaveOneText }
{}

/// A text has one payload, the written one.
pub fn texts_have_one_payload()
    ensures one { TextsHaveOnePayload }
    ensures written { WrittenPayloadsMeanTheirText }
{}

/// A payload means a text, or nothing for one fault, and never both.
pub fn payloads_mean_or_dont()
    ensures either { PayloadsMeanOrDont }
    ensures apart { PayloadsDontMeanBoth }
    ensures one_fault { PayloadsHaveOneFault }
{}

/// Reading a payload from left to right is the relation of meanings, and of each fault.
pub fn reading_payloads_is_the_relation()
    ensures texts { ReadingFindsTexts }
    ensures faults { ReadingFindsPayloadFaults }
{}
