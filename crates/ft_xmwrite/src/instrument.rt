//! Instruments.

ghost use Rattle.std.specs.Prelude.{◌≡◌, ◌≤◌, ◌++◌, length, flat_map, replicate, All, OnOk};
ghost use Rattle.ft_types.specs.Valid.{IsValidInstrument};
ghost use Rattle.ft_format.specs.declared.layout.TheConstants.{UNUSED};
ghost use Rattle.ft_format.specs.Instrument.{head_text, point_text, pair_text, turns_of, turns_text, shapes_text, shapes_of, envelopes_text, vibrato_text, extra_text};
ghost use Rattle.ft_format.specs.Canon.{sample_header_bytes, sample_data, instrument_head_of, extra_of, instrument_bytes};

use crate::bytes::{put, put_byte, put_u16, put_u32, put_zeros};
use crate::sample::{put_sample_headers, put_samples_data, samples_len};
use ft_format::{
    Envelopes, Extra, InstrumentHead, LONG_HEAD, Pair, SAMPLE_HEADER, SHORT_HEAD, Shapes, Turns,
    UNUSED, canonical_parts, canonical_sizes,
};
use ft_types::{Envelope, Instrument, NoMemory, Point, Vibrato};

/// The head of an instrument, whose size is that of a head without samples or with some.
fn instrument_head_of(instrument: &Instrument) -> InstrumentHead
    requires { IsValidInstrument instrument.now }
    ensures { result ≡ instrument_head_of instrument.now }
{
    let samples = instrument.samples.len();
    InstrumentHead {
        size: if samples == 0 { SHORT_HEAD } else { LONG_HEAD },
        name: instrument.name,
        kind: 0,
        samples: samples as u16,
    }
}

/// What is in the head of an instrument with samples.
fn extra_of(instrument: &Instrument) -> Extra
    ensures { result ≡ extra_of instrument.now }
{
    Extra {
        header_size: SAMPLE_HEADER,
        map: instrument.map,
        envelopes: Envelopes {
            volume: instrument.volume,
            panning: instrument.panning,
        },
        vibrato: instrument.vibrato,
        fadeout: instrument.fadeout,
    }
}

/// The points at which an envelope stays or turns.
fn turns_of(envelope: &Envelope) -> Turns
    ensures { result ≡ turns_of envelope.now }
{
    Turns {
        sustain: envelope.sustain,
        loop_start: envelope.loop_start,
        loop_end: envelope.loop_end,
    }
}

/// What two envelopes say behind their points.
fn shapes_of(envelopes: &Envelopes) -> Shapes
    ensures { result ≡ shapes_of envelopes.now }
{
    let (volume, panning) = (&envelopes.volume, &envelopes.panning);
    Shapes {
        counts: Pair {
            volume: volume.count,
            panning: panning.count,
        },
        volume: turns_of(volume),
        panning: turns_of(panning),
        flags: Pair {
            volume: volume.flags,
            panning: panning.flags,
        },
    }
}

/// The head of an instrument, 29 bytes.
fn put_head(bytes: &mut Vec<u8>, head: &InstrumentHead) -> Result<(), NoMemory>
    ensures { OnOk result (bytes.new.items ≡ bytes.old.items ++ head_text head.now) }
{
    put_u32(bytes, head.size)?;
    put(bytes, &head.name)?;
    put_byte(bytes, head.kind)?;
    put_u16(bytes, head.samples)
}

/// A point of an envelope, 4 bytes: its tick and its value.
fn put_point(bytes: &mut Vec<u8>, point: &Point) -> Result<(), NoMemory>
    ensures { OnOk result (bytes.new.items ≡ bytes.old.items ++ point_text point.now) }
{
    put_u16(bytes, point.x)?;
    put_u16(bytes, point.y)
}

/// The points of an envelope, 48 bytes.
fn put_points(bytes: &mut Vec<u8>, points: &[Point]) -> Result<(), NoMemory>
    ensures { OnOk result (bytes.new.items ≡ bytes.old.items ++ flat_map point_text points.now) }
{
    for point in points {
        put_point(bytes, point)?;
    }
    Ok(())
}

/// The points at which an envelope stays or turns, 3 bytes.
fn put_turns(bytes: &mut Vec<u8>, turns: Turns) -> Result<(), NoMemory>
    ensures { OnOk result (bytes.new.items ≡ bytes.old.items ++ turns_text turns) }
{
    put(bytes, &[turns.sustain, turns.loop_start, turns.loop_end])
}

/// A byte of both envelopes.
fn put_pair(bytes: &mut Vec<u8>, pair: Pair) -> Result<(), NoMemory>
    ensures { OnOk result (bytes.new.items ≡ bytes.old.items ++ pair_text pair) }
{
    put(bytes, &[pair.volume, pair.panning])
}

/// What two envelopes say behind their points, 10 bytes.
fn put_shapes(bytes: &mut Vec<u8>, shapes: &Shapes) -> Result<(), NoMemory>
    ensures { OnOk result (bytes.new.items ≡ bytes.old.items ++ shapes_text shapes.now) }
{
    put_pair(bytes, shapes.counts)?;
    put_turns(bytes, shapes.volume)?;
    put_turns(bytes, shapes.panning)?;
    put_pair(bytes, shapes.flags)
}

/// The two envelopes, 106 bytes: the points of both, and then the rest of both.
fn put_envelopes(bytes: &mut Vec<u8>, envelopes: &Envelopes) -> Result<(), NoMemory>
    ensures { OnOk result (bytes.new.items ≡ bytes.old.items ++ envelopes_text envelopes.now) }
{
    put_points(bytes, &envelopes.volume.points)?;
    put_points(bytes, &envelopes.panning.points)?;
    put_shapes(bytes, &shapes_of(envelopes))
}

/// The automatic vibrato, 4 bytes.
fn put_vibrato(bytes: &mut Vec<u8>, vibrato: &Vibrato) -> Result<(), NoMemory>
    ensures { OnOk result (bytes.new.items ≡ bytes.old.items ++ vibrato_text vibrato.now) }
{
    put(
        bytes,
        &[vibrato.kind, vibrato.sweep, vibrato.depth, vibrato.rate],
    )
}

/// What is in the head of an instrument with samples, 212 bytes.
#[tactic(auto, unfolding(ft_format::specs::Instrument::extra_text))]
fn put_extra(bytes: &mut Vec<u8>, extra: &Extra) -> Result<(), NoMemory>
    ensures { OnOk result (bytes.new.items ≡ bytes.old.items ++ extra_text extra.now) }
{
    put_u32(bytes, extra.header_size)?;
    put(bytes, &extra.map)?;
    put_envelopes(bytes, &extra.envelopes)?;
    put_vibrato(bytes, &extra.vibrato)?;
    put_u16(bytes, extra.fadeout)
}

/// What follows the first 29 bytes of the head of an instrument with samples: the rest of the head,
/// all sample headers, and then the data of each sample.
fn put_rest(bytes: &mut Vec<u8>, instrument: &Instrument) -> Result<(), NoMemory>
    requires { IsValidInstrument instrument.now }
    ensures { OnOk result (bytes.new.items ≡ bytes.old.items
        ++ (extra_text (extra_of instrument.now) ++ (replicate UNUSED 0
        ++ (flat_map sample_header_bytes instrument.now.samples
        ++ flat_map sample_data instrument.now.samples)))) }
{
    let samples = instrument.samples.as_slice();
    put_extra(bytes, &extra_of(instrument))?;
    put_zeros(bytes, UNUSED)?;
    put_sample_headers(bytes, samples)?;
    put_samples_data(bytes, samples)
}

/// An instrument: its head, and where it has samples what follows it.
fn put_instrument(bytes: &mut Vec<u8>, instrument: &Instrument) -> Result<(), NoMemory>
    requires { IsValidInstrument instrument.now }
    ensures { OnOk result (bytes.new.items ≡ bytes.old.items ++ instrument_bytes instrument.now) }
{
    canonical_parts();
    put_head(bytes, &instrument_head_of(instrument))?;
    if instrument.samples.len() == 0 {
        return Ok(());
    }
    put_rest(bytes, instrument)
}

/// The number of bytes of an instrument.
fn instrument_len(instrument: &Instrument) -> usize
    requires { IsValidInstrument instrument.now }
    ensures value { result ≡ length (instrument_bytes instrument.now) }
    ensures few { result ≤ 125830023 }
{
    canonical_sizes();
    let samples = instrument.samples.as_slice();
    if samples.is_empty() {
        return SHORT_HEAD as usize;
    }
    LONG_HEAD as usize + samples_len(samples)
}

/// The number of bytes of instruments.
pub fn instruments_len(instruments: &[Instrument]) -> usize
    requires few { length instruments.now ≤ 128 }
    requires valid { All IsValidInstrument instruments.now }
    ensures value { result ≡ length (flat_map instrument_bytes instruments.now) }
    ensures few { result ≤ 16106242944 }
{
    let mut len = 0;
    for instrument in instruments {
        len += instrument_len(instrument);
    }
    len
}

/// Instruments, one after the other.
pub fn put_instruments(bytes: &mut Vec<u8>, instruments: &[Instrument]) -> Result<(), NoMemory>
    requires { All IsValidInstrument instruments.now }
    ensures { OnOk result (bytes.new.items ≡ bytes.old.items
        ++ flat_map instrument_bytes instruments.now) }
{
    for instrument in instruments {
        put_instrument(bytes, instrument)?;
    }
    Ok(())
}
