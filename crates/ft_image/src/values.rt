//! Values put into words.

ghost use Rattle.std.specs.Prelude.{◌≡◌, ◌≤◌, ◌<◌, ◌+◌, ◌*◌, ◌-◌, ℕ, pos, List, length, slice_index, slice_index_or};
ghost use Rattle.std.specs.Int.{w8, w16, cast_unsigned};
ghost use Rattle.std.specs.List.{range_with_len};
ghost use Rattle.ft_types.specs.Valid.{IsValid, IsValidCell, IsValidInstrument, IsValidSample};
ghost use Rattle.ft_segments.specs.Packing.{packed, bytes_word, ids_word};
ghost use Rattle.ft_image.specs.Values as values;
ghost use Rattle.ft_image.specs.Values.{count_bytes, envelope_bytes};

use ft_types::{Cell, Instrument, Module, Point, Sample};

/// A byte of a row; 0 past its end.
fn byte_or_zero(bytes: &[u8], at: usize) -> u64
    ensures value { result ≡ slice_index bytes.now at }
    ensures low { result < 256 }
{
    if at < bytes.len() {
        return u64::from(bytes[at]);
    }
    0
}

/// Four bytes of a row in the lower half of a word.
fn half_word(bytes: &[u8], first: usize) -> u64
    requires { first ≤ 4096 }
    ensures value { result ≡ packed 256 4 (λ i. slice_index bytes.now (first + i)) }
    ensures low { result < 4294967296 }
{
    let a = byte_or_zero(bytes, first);
    let b = byte_or_zero(bytes, first + 1);
    let c = byte_or_zero(bytes, first + 2);
    let d = byte_or_zero(bytes, first + 3);
    a + 256 * (b + 256 * (c + 256 * d))
}

/// A word of a row of bytes.
pub fn bytes_word(bytes: &[u8], k: u8) -> u64
    ensures { result ≡ bytes_word bytes.now k }
{
    let first = usize::from(k) * 8;
    half_word(bytes, first) + 4294967296 * half_word(bytes, first + 4)
}

/// Four numbers of 16 bits in a word.
fn four(a: u16, b: u16, c: u16, d: u16) -> u64
    ensures { result ≡ a + 65536 * (b + 65536 * (c + 65536 * d)) }
{
    let low = u64::from(a) + 65536 * u64::from(b);
    let high = u64::from(c) + 65536 * u64::from(d);
    low + 4294967296 * high
}

/// An id of a row; 0 past its end.
fn id_or_zero(ids: &[u16], at: usize) -> u16
    ensures { result ≡ slice_index ids.now at }
{
    if at < ids.len() {
        return ids[at];
    }
    0
}

/// A word of a row of ids.
#[tactic(auto, unfolding(ft_segments::specs::Packing::ids_word))]
pub fn ids_word(ids: &[u16], k: u8) -> u64
    ensures { result ≡ ids_word ids.now k }
{
    let first = usize::from(k) * 4;
    let a = id_or_zero(ids, first);
    let b = id_or_zero(ids, first + 1);
    let c = id_or_zero(ids, first + 2);
    let d = id_or_zero(ids, first + 3);
    four(a, b, c, d)
}

/// An id of that many that follow each other; 0 past their end.
fn run_id(first: u16, count: u16, at: u16) -> u16
    requires { first + count ≤ 65536 }
    ensures { result ≡ slice_index (range_with_len first count) at }
{
    if at < count {
        return first + at;
    }
    0
}

/// A word of a row of ids that follow each other.
#[tactic(auto, unfolding(ft_segments::specs::Packing::ids_word))]
pub fn run_word(first: u16, count: u16, k: u8) -> u64
    requires { first + count ≤ 65536 }
    ensures { result ≡ ids_word (range_with_len first count) k }
{
    let at = u16::from(k) * 4;
    let a = run_id(first, count, at);
    let b = run_id(first, count, at + 1);
    let c = run_id(first, count, at + 2);
    let d = run_id(first, count, at + 3);
    four(a, b, c, d)
}

/// The word of a cell.
#[tactic(auto, unfolding(crate::specs::Values::cell_word))]
pub fn cell_word(cell: Cell) -> u64
    ensures { result ≡ values.cell_word cell }
{
    let low = u64::from(cell.note) + 256 * u64::from(cell.instrument);
    let high = u64::from(cell.volume) + 256 * u64::from(cell.effect);
    low + 65536 * (high + 65536 * u64::from(cell.parameter))
}

/// A frame in two's complement of 16 bits; 0 past the end.
fn frame_or_zero(frames: &[i16], at: usize) -> u16
    ensures { result ≡ cast_unsigned w16 (slice_index_or frames.now at (pos 0)) }
{
    if at < frames.len() {
        return frames[at].cast_unsigned();
    }
    0
}

/// A word of a row of frames.
#[tactic(auto, unfolding(crate::specs::Values::frames_word))]
pub fn frames_word(frames: &[i16], k: usize) -> u64
    requires { k ≤ 16777216 }
    ensures { result ≡ values.frames_word frames.now k }
{
    let first = k * 4;
    let a = frame_or_zero(frames, first);
    let b = frame_or_zero(frames, first + 1);
    let c = frame_or_zero(frames, first + 2);
    let d = frame_or_zero(frames, first + 3);
    four(a, b, c, d)
}

/// A word of an envelope's points.
#[tactic(auto, unfolding(crate::specs::Values::points_word))]
pub fn points_word(points: &[Point; 12], k: u8) -> u64
    requires { k < 6 }
    ensures { result ≡ values.points_word points.now k }
{
    let first = points[usize::from(2 * k)];
    let second = points[usize::from(2 * k + 1)];
    four(first.x, first.y, second.x, second.y)
}

/// The first word of an instrument.
pub fn counts_of(instrument: &Instrument) -> u64
    requires { IsValidInstrument instrument.now }
    ensures { result ≡ bytes_word (count_bytes instrument.now) 0 }
{
    let bytes = [
        instrument.samples.len() as u8,
        instrument.volume.count,
        instrument.panning.count,
        instrument.vibrato.kind,
        instrument.vibrato.sweep,
        instrument.vibrato.depth,
        instrument.vibrato.rate,
    ];
    bytes_word(&bytes, 0)
}

/// The second word of an instrument.
pub fn envelopes_of(instrument: &Instrument) -> u64
    ensures { result ≡ bytes_word (envelope_bytes instrument.now) 0 }
{
    let bytes = [
        instrument.volume.sustain,
        instrument.volume.loop_start,
        instrument.volume.loop_end,
        instrument.volume.flags,
        instrument.panning.sustain,
        instrument.panning.loop_start,
        instrument.panning.loop_end,
        instrument.panning.flags,
    ];
    bytes_word(&bytes, 0)
}

/// The first word of a sample.
#[tactic(auto, unfolding(crate::specs::Values::lengths_word))]
pub fn lengths_of(sample: &Sample) -> u64
    requires { IsValidSample sample.now }
    ensures { result ≡ values.lengths_word sample.now }
{
    sample.frames.len() as u64 + 4294967296 * u64::from(sample.loop_start)
}

/// The second word of a sample.
#[tactic(auto, unfolding(crate::specs::Values::loop_word))]
pub fn loops_of(sample: &Sample) -> u64
    requires { IsValidSample sample.now }
    ensures { result ≡ values.loop_word sample.now }
{
    let kind = u64::from(sample.loop_kind) + 256 * u64::from(sample.wide);
    let sound = u64::from(sample.volume) + 256 * u64::from(sample.panning);
    u64::from(sample.loop_len) + 4294967296 * (kind + 65536 * sound)
}

/// The third word of a sample.
#[tactic(auto, unfolding(crate::specs::Values::tuning_word))]
pub fn tuning_of(sample: &Sample) -> u64
    ensures { result ≡ values.tuning_word sample.now }
{
    let finetune = u64::from(sample.finetune.cast_unsigned());
    finetune + 256 * u64::from(sample.relative.cast_unsigned())
}

/// The first word of a song.
#[tactic(auto, unfolding(crate::specs::Values::head_word))]
pub fn head_of(song: &Module) -> u64
    requires { IsValid song.now }
    ensures { result ≡ values.head_word song.now }
{
    let places = song.orders.len() as u64 + 65536 * u64::from(song.restart);
    let kind = u64::from(song.channels) + 256 * u64::from(song.linear);
    let time = u64::from(song.tempo) + 256 * u64::from(song.bpm);
    places + 4294967296 * (kind + 65536 * time)
}

/// The second word of a song.
#[tactic(auto, unfolding(crate::specs::Values::counts_word))]
pub fn counts_in(song: &Module) -> u64
    requires { IsValid song.now }
    ensures { result ≡ values.counts_word song.now }
{
    song.patterns.len() as u64 + 65536 * song.instruments.len() as u64
}
