//! Laws of the two instruction streams, for a peer that follows the standard, and of two ends in bytes.

ghost use Rattle.qpack_connection.specs.LawfulDecoders.{EncodersAreCareful, LawfulDecodersAreUnderstood};
ghost use Rattle.qpack_connection.specs.LawfulEncoders.{LawfulEncodersAreUnderstood};
ghost use Rattle.qpack_connection.specs.ArrivedSections.{SectionsArrive};
ghost use Rattle.qpack_connection.specs.LawfulVerdicts.{TakenStreamsAreLawful, ReadSectionsAreLawful};
ghost use Rattle.qpack_connection.specs.LawfulVerdicts.{HeardStreamsAreLawful};
ghost use Rattle.qpack_connection.specs.RecordedRows.{OtherEncodersAreLawful};
ghost use Rattle.qpack_connection.specs.RecordedDecoders.{OtherDecodersAreLawful};
ghost use Rattle.qpack_connection.specs.LateSettings.{NewEndsAreUnused, EndsWithoutATableStayUnused};
ghost use Rattle.qpack_connection.specs.LateSettings.{LateSettingsAreAsEarly};
ghost use Rattle.qpack_connection.specs.LowerCapacities.{LowerCapacitiesCome};
ghost use Rattle.qpack_connection.specs.LawfulEnds.{EncodersKeepToTheStandard, DecodersWriteWhatTheyMay};
ghost use Rattle.qpack_connection.specs.LawfulEnds.{EncodersAreWriters, HeardFrontsLeaveTheRest};
ghost use Rattle.qpack_connection.specs.LawfulRows.{AppendixEncoderIsLawful, AppendixSectionsAreLawful};
ghost use Rattle.qpack_connection.specs.LawfulRows.{AppendixDecoderIsLawful, AppendixSectionsAreInOrder};
ghost use Rattle.qpack_connection.specs.LawfulRows.{AppendixDecoderIsPeer};
ghost use Rattle.qpack_connection.specs.PieceRows.{AppendixPiecesAreLawful};
ghost use Rattle.qpack_connection.specs.LawfulPieces.{EncoderStreamsAreNeverRefused, DecoderStreamsAreNeverRefused};
ghost use Rattle.qpack_connection.specs.RefinedConnections.{NewConnectionsAreRefined, EncodesAreRefined};
ghost use Rattle.qpack_connection.specs.RefinedConnections.{CapacitiesAreRefined, ShrinksAreRefined};
ghost use Rattle.qpack_connection.specs.RefinedConnections.{CancellationsAreRefined};
ghost use Rattle.qpack_connection.specs.RefinedDecodes.{DecodesAreRefined};
ghost use Rattle.qpack_connection.specs.RefinedRefusals.{RefusedEncodesAreRefined, RefusedCapacitiesAreRefined};
ghost use Rattle.qpack_connection.specs.RefinedRefusals.{RefusedShrinksAreRefined, RefusedCancellationsAreRefined};
ghost use Rattle.qpack_connection.specs.RefinedStreams.{HearingsAreRefined, ReceptionsAreRefined};
ghost use Rattle.qpack_connection.specs.SettledSections.{SectionsSettle};
ghost use Rattle.qpack_connection.specs.TwoEndsHeadline.{TwoEndsAnswerWhatWasHanded};

/// What [`EncoderStream::receive`](crate::EncoderStream::receive) and
/// [`DecoderStream::receive`](crate::DecoderStream::receive) promise: of a stream whose instructions a strict end
/// applies, up to the last, no piece is refused, wherever the stream is cut (RFC 9204, sections 4.2 to 4.4).
pub fn lawful_streams_are_never_refused()
    ensures encoder_stream { EncoderStreamsAreNeverRefused }
    ensures decoder_stream { DecoderStreamsAreNeverRefused }
{}

/// A connection of two ends in bytes is a session of two strict ends in values (RFC 9204, section 2). This holds of a
/// new one, and after each section that is encoded, each capacity that is set or waits, each stream that is cancelled, each
/// call that receives all bytes of a stream, each section that is decoded, and each call that is refused.
pub fn connections_are_sessions()
    ensures new { NewConnectionsAreRefined }
    ensures encodes { EncodesAreRefined }
    ensures capacities { CapacitiesAreRefined }
    ensures shrinks { ShrinksAreRefined }
    ensures cancellations { CancellationsAreRefined }
    ensures hearings { HearingsAreRefined }
    ensures receptions { ReceptionsAreRefined }
    ensures decodes { DecodesAreRefined }
    ensures refused_encodes { RefusedEncodesAreRefined }
    ensures refused_capacities { RefusedCapacitiesAreRefined }
    ensures refused_shrinks { RefusedShrinksAreRefined }
    ensures refused_cancellations { RefusedCancellationsAreRefined }
{}

/// The theorem of two ends, over calls and their results (RFC 9204, sections 2.1.2, 2.2, 3.2, 4.2 to 4.5 and 7.1.3). It
/// holds for a new connection, any sections with any marks, any capacities and cancellations, any cuts of both streams,
/// and any refusals of memory. Neither end refuses what the other sent. Each section is decoded to exactly the fields
/// that were passed to its encode, with their marks, or waits for as many insertions as that encode returned, while
/// fewer were received. No more streams are blocked than may be.
pub fn two_ends_answer_what_was_handed()
    ensures { TwoEndsAnswerWhatWasHanded }
{}

/// What [`ConnectionDecoder`](crate::ConnectionDecoder) promises with any encoder that follows the standard, in any
/// spelling, with any cuts of its stream, and any refusals of memory (RFC 9204, sections 2.1, 2.2, 3.2 and 4.3 to 4.5).
/// Nothing of the encoder stream is refused. Each section that is not acknowledged is decoded to exactly the fields
/// that it means by the insertions that the encoder made, with their marks, or waits for as many insertions as it
/// requires, while fewer were received. A section that comes in pieces, with any cuts, gives these fields in turn, and
/// then its end, if their sizes are within the decoder's limit. No error ends the connection.
pub fn lawful_encoders_are_understood()
    ensures { LawfulEncodersAreUnderstood }
{}

/// What [`ConnectionEncoder`](crate::ConnectionEncoder) promises with any decoder, whatever it writes (RFC 9204,
/// sections 2.1.1 and 2.1.2). Each section that is written counts as unacknowledged, with exactly the entries that its
/// lines reference. After each call nothing is evicted that an unacknowledged section references or that is not known
/// to be received, and no more sections are blocked than may be.
pub fn encoders_are_careful()
    ensures { EncodersAreCareful }
{}

/// What [`ConnectionEncoder`](crate::ConnectionEncoder) promises with any decoder that follows the standard, in any
/// spelling, with any cuts of its stream (RFC 9204, sections 2.1, 2.2.2 and 4.4). Nothing of the decoder stream is
/// refused, and no error ends the connection. Whenever nothing is under way, a new field that the caller wishes to be
/// inserted is inserted.
pub fn lawful_decoders_are_understood()
    ensures { LawfulDecodersAreUnderstood }
{}

/// What [`ConnectionEncoder::shrink`](crate::ConnectionEncoder::shrink) promises with any decoder, whatever it writes.
/// While a capacity waits, a section references no entry, nothing is inserted, and the table changes only by what the
/// peer acknowledges, cancels and reports. The first section announces it that is encoded once no section is
/// unacknowledged and the peer is known to have received what is evicted (RFC 9204, sections 2.1.1 and 3.2.3).
pub fn lower_capacities_come()
    ensures { LowerCapacitiesCome }
{}

/// An encoder may be made before the peer's SETTINGS arrive (RFC 9204, section 3.2.3). A new encoder of maximum 0 is
/// unused, and stays so after any calls, unless an error ended the connection: it writes nothing on the encoder stream.
/// [`ConnectionEncoder::set_peer_settings`](crate::ConnectionEncoder::set_peer_settings) then makes an unused encoder of
/// the peer's settings. The laws of an encoder hold for all calls of an unused one.
pub fn settings_may_come_late()
    ensures new { NewEndsAreUnused }
    ensures before { EndsWithoutATableStayUnused }
    ensures after { LateSettingsAreAsEarly }
{}

/// A section is not blocked once the bytes were received that its own end had written by then, also if more was written
/// since: after a call that receives them and succeeds, all insertions are there that the section requires (RFC 9204,
/// section 2.1.2).
pub fn sections_arrive()
    ensures { SectionsArrive }
{}

/// A stream whose section was passed to [`ConnectionDecoder::decode`](crate::ConnectionDecoder::decode) is not ready
/// after it, whether the section was decoded, waits for more insertions or was refused. So a loop that decodes the
/// sections of ready streams ends (RFC 9204, section 2.2.1).
pub fn sections_settle()
    ensures { SectionsSettle }
{}

/// What the laws ask of a peer is met by the ends of RFC 9204, appendix B, at each of its moments: its encoder stream,
/// however it is cut; its sections, also marked ones, those with a base above, at and below their count, and those that
/// wait; the pieces of a section, byte for byte; and its decoder stream, also if more than one insertion is reported at
/// once. Its sections are decoded in order, and its decoder is a peer of its encoder.
pub fn ends_of_the_standard_are_lawful()
    ensures encoder_stream { AppendixEncoderIsLawful }
    ensures sections { AppendixSectionsAreLawful }
    ensures pieces { AppendixPiecesAreLawful }
    ensures decoder_stream { AppendixDecoderIsLawful }
    ensures order { AppendixSectionsAreInOrder }
    ensures peers { AppendixDecoderIsPeer }
{}

/// What the laws ask of a peer is met by what other encoders wrote, as it was recorded: the encoder streams of Chromium
/// and Firefox as they begin, a section of each that references all of its insertions, below its base and above it, and
/// the encoder stream of nghttp3, which evicts entries.
pub fn other_encoders_are_lawful()
    ensures { OtherEncodersAreLawful }
{}

/// What the law of an encoder asks of a peer is met by what other decoders wrote, as it was recorded, however it is cut:
/// the decoder streams of Chromium, Firefox and nghttp3 as they begin, with acknowledgments, increments and the
/// cancellation of a stream (RFC 9204, section 4.4).
pub fn other_decoders_are_lawful()
    ensures { OtherDecodersAreLawful }
{}

/// What a strict end takes is what a peer that keeps to the standard may have written. So what an end answers of a
/// recording is the verdict of the definitions. An encoder stream that is taken is lawful for an encoder that knows the
/// evicted insertions to be received. A section that is read is lawful, if the last insertion that it requires is not
/// evicted. A decoder stream that is heard is one of a decoder that has received all insertions (RFC 9204, sections 2.1,
/// 3.2, 4.4 and 4.5).
pub fn what_is_read_is_lawful()
    ensures encoder_stream { TakenStreamsAreLawful }
    ensures sections { ReadSectionsAreLawful }
    ensures decoder_stream { HeardStreamsAreLawful }
{}

/// What [`ConnectionEncoder`](crate::ConnectionEncoder) writes is what the laws of a decoder ask of its peer, whatever
/// its own peer writes. After each call all that it wrote on the encoder stream is lawful, however much of it has come;
/// each section is lawful while it is neither acknowledged nor cancelled; and no more streams are at risk than may be
/// blocked (RFC 9204, sections 2.1, 3.2, 4.3 and 4.5). All calls of a new encoder are such calls.
pub fn encoders_keep_to_the_standard()
    ensures keep { EncodersKeepToTheStandard }
    ensures writers { EncodersAreWriters }
{}

/// What [`ConnectionDecoder`](crate::ConnectionDecoder) writes is what the laws of an encoder ask of its peer. That
/// holds with any encoder that follows the standard, whose sections are decoded in order on each stream, whole or in
/// pieces. After any calls all that was written is acknowledgments of sections that were decoded, each once,
/// cancellations, and increments of no more insertions than were received. Once a front of it was heard, the rest is
/// still what may be written (RFC 9204, sections 2.1.4, 2.2.2 and 4.4).
pub fn decoders_write_what_they_may()
    ensures written { DecodersWriteWhatTheyMay }
    ensures rest { HeardFrontsLeaveTheRest }
{}
