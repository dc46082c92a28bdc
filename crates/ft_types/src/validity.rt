//! Whether a module is valid, part by part.

ghost use Rattle.std.specs.Prelude.{◌≡◌, ◌<◌, ◌≤◌, ◌↔◌, IsTrue, All, FitsSigned, length};
ghost use Rattle.ft_types.specs.Valid.{IsBytes, width_of, IsValidCell, IsValidPattern, IsValidPoint, IsValidEnvelope, IsValidVibrato, IsValidLoop, IsValidSample, IsZeroPoint, IsZeroEnvelope, IsZeroInstrument, IsValidInstrument, IsValid};

use crate::instrument::{Envelope, Instrument, Point, Vibrato};
use crate::module::Module;
use crate::pattern::{Cell, Pattern};
use crate::sample::Sample;

/// Whether these are that many raw bytes; any bytes will do.
fn is_bytes(bytes: &[u8], count: usize) -> bool
    ensures { IsTrue result ↔ IsBytes count bytes.now }
{
    bytes.len() == count
}

/// Whether a cell is valid: only a note can be out of range.
fn is_valid_cell(cell: Cell) -> bool
    ensures { IsTrue result ↔ IsValidCell cell }
{
    cell.note <= 97
}

/// Whether each cell is valid.
fn has_valid_cells(cells: &[Cell]) -> bool
    ensures { IsTrue result ↔ All IsValidCell cells.now }
{
    cells.iter().all(|cell| is_valid_cell(*cell))
}

/// Whether a pattern is valid in a song of that many channels.
fn is_valid_pattern(pattern: &Pattern, channels: u8) -> bool
    ensures { IsTrue result ↔ IsValidPattern channels pattern.now }
{
    if pattern.rows < 1 || pattern.rows > 256 {
        return false;
    }
    if pattern.cells.len() != pattern.rows as usize * channels as usize {
        return false;
    }
    has_valid_cells(pattern.cells.as_slice())
}

/// Whether each pattern is valid in a song of that many channels.
fn has_valid_patterns(patterns: &[Pattern], channels: u8) -> bool
    ensures { IsTrue result ↔ All (IsValidPattern channels) patterns.now }
{
    patterns
        .iter()
        .all(|pattern| is_valid_pattern(pattern, channels))
}

/// Whether a point of an envelope is valid.
fn is_valid_point(point: Point) -> bool
    ensures { IsTrue result ↔ IsValidPoint point }
{
    point.y <= 64
}

/// Whether each point is valid.
fn has_valid_points(points: &[Point]) -> bool
    ensures { IsTrue result ↔ All IsValidPoint points.now }
{
    points.iter().all(|point| is_valid_point(*point))
}

/// Whether an envelope is valid.
fn is_valid_envelope(envelope: &Envelope) -> bool
    ensures { IsTrue result ↔ IsValidEnvelope envelope.now }
{
    if envelope.count > 12 {
        return false;
    }
    if envelope.sustain > 11 {
        return false;
    }
    if envelope.loop_start > 11 || envelope.loop_end > 11 {
        return false;
    }
    if envelope.flags > 7 {
        return false;
    }
    has_valid_points(&envelope.points)
}

/// Whether an automatic vibrato is valid.
fn is_valid_vibrato(vibrato: Vibrato) -> bool
    ensures { IsTrue result ↔ IsValidVibrato vibrato }
{
    if vibrato.kind > 3 {
        return false;
    }
    if vibrato.depth > 15 {
        return false;
    }
    vibrato.rate <= 63
}

/// Whether each entry of an instrument's note map names one of 16 samples.
fn has_valid_map(map: &[u8]) -> bool
    ensures { IsTrue result ↔ All (λ sample. sample ≤ 15) map.now }
{
    map.iter().all(|sample| *sample <= 15)
}

/// Whether a frame has as many bits as its sample says.
fn is_valid_frame(frame: i16, wide: bool) -> bool
    ensures { IsTrue result ↔ FitsSigned (width_of wide) frame }
{
    if wide {
        return true;
    }
    frame >= -128 && frame <= 127
}

/// Whether each frame has as many bits as its sample says.
fn has_valid_frames(frames: &[i16], wide: bool) -> bool
    ensures { IsTrue result ↔ All (FitsSigned (width_of wide)) frames.now }
{
    frames.iter().all(|frame| is_valid_frame(*frame, wide))
}

/// Whether the loop of a sample has at least one frame and lies within the sample, or is none.
fn is_valid_loop(sample: &Sample) -> bool
    ensures { IsTrue result
        ↔ IsValidLoop sample.now.loop_kind sample.now.loop_start sample.now.loop_len
        (length sample.now.frames) }
{
    if sample.loop_kind > 2 {
        return false;
    }
    if sample.loop_kind == 0 {
        return sample.loop_start == 0 && sample.loop_len == 0;
    }
    if sample.loop_len < 1 {
        return false;
    }
    u64::from(sample.loop_start) + u64::from(sample.loop_len) <= sample.frames.len() as u64
}

/// Whether a sample is valid.
fn is_valid_sample(sample: &Sample) -> bool
    ensures { IsTrue result ↔ IsValidSample sample.now }
{
    if !is_bytes(&sample.name, 22) {
        return false;
    }
    // Any panning, finetune and relative note will do; they are read for the ranges of their types.
    let _panning = sample.panning;
    let _finetune = sample.finetune;
    let _relative = sample.relative;
    if sample.volume > 64 {
        return false;
    }
    if !is_valid_loop(sample) {
        return false;
    }
    if sample.frames.len() > 3_932_160 {
        return false;
    }
    has_valid_frames(sample.frames.as_slice(), sample.wide)
}

/// Whether a point of an envelope is all 0.
fn is_zero_point(point: Point) -> bool
    ensures { IsTrue result ↔ IsZeroPoint point }
{
    point.x == 0 && point.y == 0
}

/// Whether each point is all 0.
fn has_zero_points(points: &[Point]) -> bool
    ensures { IsTrue result ↔ All IsZeroPoint points.now }
{
    points.iter().all(|point| is_zero_point(*point))
}

/// Whether an envelope is all 0.
fn is_zero_envelope(envelope: &Envelope) -> bool
    ensures { IsTrue result ↔ IsZeroEnvelope envelope.now }
{
    if envelope.count != 0 {
        return false;
    }
    if envelope.sustain != 0 {
        return false;
    }
    if envelope.loop_start != 0 || envelope.loop_end != 0 {
        return false;
    }
    if envelope.flags != 0 {
        return false;
    }
    has_zero_points(&envelope.points)
}

/// Whether a note map names sample 0 alone.
fn has_zero_map(map: &[u8]) -> bool
    ensures { IsTrue result ↔ All (λ sample. sample ≡ 0) map.now }
{
    map.iter().all(|sample| *sample == 0)
}

/// Whether an instrument says nothing but its name and samples.
fn is_zero_instrument(instrument: &Instrument) -> bool
    ensures { IsTrue result ↔ IsZeroInstrument instrument.now }
{
    if !has_zero_map(&instrument.map) {
        return false;
    }
    if !is_zero_envelope(&instrument.volume) {
        return false;
    }
    if !is_zero_envelope(&instrument.panning) {
        return false;
    }
    if instrument.vibrato.kind != 0 || instrument.vibrato.sweep != 0 {
        return false;
    }
    if instrument.vibrato.depth != 0 || instrument.vibrato.rate != 0 {
        return false;
    }
    instrument.fadeout == 0
}

/// Whether each sample is valid.
fn has_valid_samples(samples: &[Sample]) -> bool
    ensures { IsTrue result ↔ All IsValidSample samples.now }
{
    samples.iter().all(|sample| is_valid_sample(sample))
}

/// Whether an instrument is valid.
fn is_valid_instrument(instrument: &Instrument) -> bool
    ensures { IsTrue result ↔ IsValidInstrument instrument.now }
{
    if !is_bytes(&instrument.name, 22) {
        return false;
    }
    if !has_valid_map(&instrument.map) {
        return false;
    }
    if !is_valid_envelope(&instrument.volume) {
        return false;
    }
    if !is_valid_envelope(&instrument.panning) {
        return false;
    }
    if !is_valid_vibrato(instrument.vibrato) {
        return false;
    }
    // Any fadeout will do; it is read for the range of its type.
    let _fadeout = instrument.fadeout;
    if instrument.samples.len() > 16 {
        return false;
    }
    if instrument.samples.len() == 0 {
        return is_zero_instrument(instrument);
    }
    has_valid_samples(instrument.samples.as_slice())
}

/// Whether each instrument is valid.
fn has_valid_instruments(instruments: &[Instrument]) -> bool
    ensures { IsTrue result ↔ All IsValidInstrument instruments.now }
{
    instruments
        .iter()
        .all(|instrument| is_valid_instrument(instrument))
}

/// Whether there are 1 to 256 orders; each may name any pattern.
fn has_valid_orders(orders: &[u8]) -> bool
    ensures { IsTrue result ↔ (1 ≤ length orders.now) × (length orders.now ≤ 256)
        × All (λ order. order < 256) orders.now }
{
    orders.len() >= 1 && orders.len() <= 256
}

/// Whether a module is valid: whether each value is in the range that the format gives it, each
/// pattern has a cell for each row and channel, each loop lies within its sample, and instruments
/// without samples say nothing but their names.
pub fn valid(song: &Module) -> bool
    ensures { IsTrue result ↔ IsValid song.now }
{
    if !is_bytes(&song.name, 20) || !is_bytes(&song.tracker, 20) {
        return false;
    }
    if !has_valid_orders(song.orders.as_slice()) {
        return false;
    }
    if usize::from(song.restart) >= song.orders.len() {
        return false;
    }
    if song.channels < 1 || song.channels > 32 {
        return false;
    }
    if song.tempo < 1 || song.tempo > 31 {
        return false;
    }
    if song.bpm < 32 {
        return false;
    }
    if song.patterns.len() > 256 || song.instruments.len() > 128 {
        return false;
    }
    if !has_valid_patterns(song.patterns.as_slice(), song.channels) {
        return false;
    }
    has_valid_instruments(song.instruments.as_slice())
}
