//! The two ends of a connection, as a user of the libraries writes them (RFC 9204, section 2).
#![tactic(auto)]

use anyhow::Result;
use qpack_ends::{
    ConnectionDecoder, ConnectionEncoder, Cursor, DecoderSettings, EncoderSettings, FieldLine,
    FieldSection, Reading,
};
use std::str;

/// What the decoding end sends as its settings: the encoder is made from the first two.
const SETTINGS: DecoderSettings = DecoderSettings {
    max_capacity: 4096,
    max_blocked: 16,
    max_section_size: 65_536,
};

/// Encodes a request for stream 4.
fn encode(encoder: &mut ConnectionEncoder, section: &mut Vec<u8>) -> Result<()> {
    let request = [
        FieldLine::new(b":method", b"GET"),
        FieldLine::new(b"user-agent", b"curl/8"),
        FieldLine::never_indexed(b"authorization", b"Basic Og=="),
    ];
    encoder.encode(4, &request, section)?;
    Ok(())
}

/// Decodes the section of stream 4, which comes before the instructions that it waits for.
fn decode(
    rt: &HostRuntime,
    decoder: &mut ConnectionDecoder,
    section: &[u8],
    instructions: &[u8],
    fields: &mut FieldSection,
) -> Result<()> {
    if let Reading::Blocked { required } = decoder.decode(4, section, fields)? {
        println!(rt; "blocked until insertion {required}")?;
    }
    decoder.receive(&mut Cursor::new(instructions))?;
    if let Some(stream) = decoder.next_ready() {
        decoder.decode(stream, section, fields)?;
    }
    for field in fields.iter() {
        let name = str::from_utf8(field.name)?;
        let mark = if field.never_indexed {
            " (never indexed)"
        } else {
            ""
        };
        println!(rt; "{name}: {}{mark}", str::from_utf8(field.value)?)?;
    }
    Ok(())
}

/// A request goes from one end to the other, and its response goes back.
fn connect(
    rt: &HostRuntime,
    encoder: &mut ConnectionEncoder,
    decoder: &mut ConnectionDecoder,
) -> Result<()> {
    let mut section = Vec::new(rt.alloc());
    let mut fields = FieldSection::new(rt.alloc());
    encode(encoder, &mut section)?;
    decode(rt, decoder, &section, encoder.encoder_stream(), &mut fields)?;
    let sent = encoder.encoder_stream().len();
    encoder.sent(sent);
    encoder.receive(&mut Cursor::new(decoder.decoder_stream()))?;
    let answered = decoder.decoder_stream().len();
    decoder.sent(answered);
    println!(rt; "{} bytes, {answered} of answers", section.len())?;
    Ok(())
}

fn main(rt: HostRuntime) -> Result<()> {
    let mut encoder = ConnectionEncoder::new(rt.alloc(), EncoderSettings::new(4096, 16))?;
    let mut decoder = ConnectionDecoder::new(rt.alloc(), SETTINGS)?;
    connect(&rt, &mut encoder, &mut decoder)
}
