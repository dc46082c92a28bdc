//! Note map, envelopes and automatic vibrato: what the head of an instrument with samples says
//! beside its name.

ghost use Rattle.std.specs.Prelude.{◌≡◌, map, min};
ghost use Rattle.ft_format.specs.Instrument.{point_of, envelope_of, vibrato_of, instrument_with};
ghost use Rattle.ft_xmread.specs.Reader.{FileReads};
ghost use Rattle.ft_xmread.specs.Instrument.{point_spelled_at, points_at, pair_at, turns_at, vibrato_at, shapes_at, shaped, envelopes_at, extra_at};

use crate::fault::XmFault;
use crate::reader::Reader;
use ft_format::{Envelopes, Extra, InstrumentHead, Pair, Shapes, Turns};
use ft_types::{Envelope, Instrument, Point, Sample, Samples, Vibrato};

/// The highest value of an envelope.
const MOST_VALUE: u16 = 64;

/// The most points that count.
const MOST_POINTS: u8 = 12;

const LAST_POINT: u8 = 11;

const LAST_SAMPLE: u8 = 15;

const ORIGIN: Point = Point { x: 0, y: 0 };

#[tactic(auto, unfolding(crate::specs::Instrument::point_spelled_at))]
fn read_point(reader: &mut Reader) -> Result<Point, XmFault>
    ensures { FileReads (λ x. x) result reader.new (point_spelled_at reader.old) }
{
    let x = reader.u16()?;
    let y = reader.u16()?;
    Ok(Point { x, y })
}

fn read_points(reader: &mut Reader) -> Result<[Point; 12], XmFault>
    ensures { FileReads (λ x. x) result reader.new (points_at reader.old) }
{
    let mut points = [ORIGIN; 12];
    for k in 0..12 {
        points[k] = read_point(reader)?;
    }
    Ok(points)
}

/// The same byte of both envelopes.
#[tactic(auto, unfolding(crate::specs::Instrument::pair_at))]
fn read_pair(reader: &mut Reader) -> Result<Pair, XmFault>
    ensures { FileReads (λ x. x) result reader.new (pair_at reader.old) }
{
    let volume = reader.byte()?;
    let panning = reader.byte()?;
    Ok(Pair { volume, panning })
}

#[tactic(auto, unfolding(crate::specs::Instrument::turns_at))]
fn read_turns(reader: &mut Reader) -> Result<Turns, XmFault>
    ensures { FileReads (λ x. x) result reader.new (turns_at reader.old) }
{
    let sustain = reader.byte()?;
    let loop_start = reader.byte()?;
    let loop_end = reader.byte()?;
    Ok(Turns {
        sustain,
        loop_start,
        loop_end,
    })
}

#[tactic(auto, unfolding(crate::specs::Instrument::vibrato_at))]
fn read_vibrato(reader: &mut Reader) -> Result<Vibrato, XmFault>
    ensures { FileReads (λ x. x) result reader.new (vibrato_at reader.old) }
{
    let kind = reader.byte()?;
    let sweep = reader.byte()?;
    let depth = reader.byte()?;
    let rate = reader.byte()?;
    Ok(Vibrato {
        kind,
        sweep,
        depth,
        rate,
    })
}

/// What two envelopes say behind their points.
#[tactic(auto, unfolding(crate::specs::Instrument::shapes_at))]
fn read_shapes(reader: &mut Reader) -> Result<Shapes, XmFault>
    ensures { FileReads (λ x. x) result reader.new (shapes_at reader.old) }
{
    let counts = read_pair(reader)?;
    let volume = read_turns(reader)?;
    let panning = read_turns(reader)?;
    let flags = read_pair(reader)?;
    Ok(Shapes {
        counts,
        volume,
        panning,
        flags,
    })
}

/// An envelope of these points.
fn shaped(points: [Point; 12], count: u8, turns: Turns, flags: u8) -> Envelope
    ensures { result ≡ shaped points count turns flags }
{
    Envelope {
        points,
        count,
        sustain: turns.sustain,
        loop_start: turns.loop_start,
        loop_end: turns.loop_end,
        flags,
    }
}

/// Both envelopes: the points of both, and then the rest of both.
#[tactic(auto, unfolding(crate::specs::Instrument::envelopes_at))]
fn read_envelopes(reader: &mut Reader) -> Result<Envelopes, XmFault>
    ensures { FileReads (λ x. x) result reader.new (envelopes_at reader.old) }
{
    let volume = read_points(reader)?;
    let panning = read_points(reader)?;
    let shapes = read_shapes(reader)?;
    let (counts, flags) = (shapes.counts, shapes.flags);
    Ok(Envelopes {
        volume: shaped(volume, counts.volume, shapes.volume, flags.volume),
        panning: shaped(panning, counts.panning, shapes.panning, flags.panning),
    })
}

#[tactic(auto, unfolding(crate::specs::Instrument::extra_at))]
pub fn read_extra(reader: &mut Reader) -> Result<Extra, XmFault>
    ensures { FileReads (λ x. x) result reader.new (extra_at reader.old) }
{
    let header_size = reader.u32()?;
    let map = reader.array()?;
    let envelopes = read_envelopes(reader)?;
    let vibrato = read_vibrato(reader)?;
    let fadeout = reader.u16()?;
    Ok(Extra {
        header_size,
        map,
        envelopes,
        vibrato,
        fadeout,
    })
}

/// A point, with a value of at most 64.
fn point_of(point: Point) -> Point
    ensures { result ≡ point_of point }
{
    Point {
        x: point.x,
        y: point.y.min(MOST_VALUE),
    }
}

/// The points of an envelope, with values of at most 64.
fn points_of(points: [Point; 12]) -> [Point; 12]
    ensures { result ≡ map point_of points }
{
    let mut low = points;
    for k in 0..12 {
        low[k] = point_of(points[k]);
    }
    low
}

/// An envelope, brought into range.
#[tactic(auto, unfolding(ft_format::specs::Instrument::envelope_of))]
fn envelope_of(envelope: Envelope) -> Envelope
    ensures { result ≡ envelope_of envelope }
{
    let points = points_of(envelope.points);
    Envelope {
        points,
        count: envelope.count.min(MOST_POINTS),
        sustain: envelope.sustain.min(LAST_POINT),
        loop_start: envelope.loop_start.min(LAST_POINT),
        loop_end: envelope.loop_end.min(LAST_POINT),
        flags: envelope.flags % 8,
    }
}

/// An automatic vibrato, brought into range.
#[tactic(auto, unfolding(ft_format::specs::Instrument::vibrato_of))]
fn vibrato_of(vibrato: Vibrato) -> Vibrato
    ensures { result ≡ vibrato_of vibrato }
{
    Vibrato {
        kind: if vibrato.kind <= 3 { vibrato.kind } else { 0 },
        sweep: vibrato.sweep,
        depth: vibrato.depth.min(15),
        rate: vibrato.rate.min(63),
    }
}

/// A note map, with samples of at most 15.
fn map_of(samples: [u8; 96]) -> [u8; 96]
    ensures { result ≡ map (min 15) samples }
{
    let mut low = samples;
    for k in 0..96 {
        low[k] = samples[k].min(LAST_SAMPLE);
    }
    low
}

/// The instrument of a head, what is in it, and its samples, brought into range.
#[tactic(auto, unfolding(ft_format::specs::Instrument::instrument_with))]
pub fn instrument_with(head: InstrumentHead, extra: Extra, samples: Vec<Sample>) -> Instrument
    ensures { result ≡ instrument_with head extra samples.items }
{
    let (name, map) = (head.name, map_of(extra.map));
    let Envelopes { volume, panning } = extra.envelopes;
    let (volume, panning) = (envelope_of(volume), envelope_of(panning));
    Instrument {
        name,
        map,
        volume,
        panning,
        vibrato: vibrato_of(extra.vibrato),
        fadeout: extra.fadeout,
        samples: Samples::from_vec(samples),
    }
}
