//! Samples, and the instruments that are made of them.

ghost use Rattle.std.specs.Prelude.{◌≡◌, ◌+◌, ◌-◌, ◌*◌, ◌<◌, ◌≤◌, ◌^◌, length, take, map, IfOk, if◌then◌else◌};
ghost use Rattle.std.specs.Int.{w8, cast_signed};
ghost use Rattle.ft_modread.specs.declared.layout.TheConstants.{HEADERS_AT, HEADER, SAMPLES, PATTERNS_AT};
ghost use Rattle.ft_modread.specs.Layout.{high_first, filled_up, each};
ghost use Rattle.ft_modread.specs.Samples.{data_bytes, finetune_from, loop_from, loop_size, is_looping, sample_made, samples_made, instrument_made};
ghost use Rattle.ft_modread.specs.Songs.{pattern_count_in, header_in, data_place, instrument_in};

use crate::layout::{HEADER, HEADERS_AT, SAMPLE_NAME, SAMPLES};
use crate::part::part_of;
use ft_format::{NO_ENVELOPE, NO_VIBRATO};
use ft_types::{Frames, Instrument, NoMemory, Sample, Samples};
use std::alloc::Global;

/// A number of two bytes, the high one first.
fn number(header: &[u8], at: usize) -> u32
    requires { at + 1 < length header.now }
    ensures value { result ≡ high_first header.now at }
    ensures small { result < 2 ^ 16 }
{
    256 * u32::from(header[at]) + u32::from(header[at + 1])
}

/// The bytes of a sample's data.
fn data_bytes(header: &[u8]) -> u32
    requires { length header.now ≡ HEADER }
    ensures value { result ≡ data_bytes header.now }
    ensures small { result < 2 ^ 17 }
{
    2 * number(header, 22)
}

/// The finetune: a signed number of four bits, in eighths of a semitone.
fn finetune(header: &[u8]) -> i8
    requires { length header.now ≡ HEADER }
    ensures { result ≡ finetune_from header.now }
{
    (16 * (header[24] % 16)).cast_signed()
}

/// A loop: its kind, and its first frame and its length in frames. Without one all are 0.
#[derive(Clone, Copy)]
struct Looping {
    kind: u8,
    start: u32,
    len: u32,
}

/// The loop of a sample, brought into its frames.
fn loop_of(header: &[u8]) -> Looping
    requires { length header.now ≡ HEADER }
    ensures kind { result.kind ≡ (if is_looping header.now then 1 else 0) }
    ensures start { result.start ≡ (if is_looping header.now then loop_from header.now else 0) }
    ensures len { result.len ≡ (if is_looping header.now then loop_size header.now else 0) }
{
    let frames = data_bytes(header);
    let pairs = number(header, 28);
    let start = frames.min(2 * number(header, 26));
    let len = (frames - start).min(2 * pairs);
    if pairs <= 1 || len == 0 {
        return Looping {
            kind: 0,
            start: 0,
            len: 0,
        };
    }
    Looping {
        kind: 1,
        start,
        len,
    }
}

/// A frame, from two's complement.
fn frame_of(byte: u8) -> i16
    ensures { result ≡ cast_signed w8 byte }
{
    i16::from(byte.cast_signed())
}

/// As many frames as the size says, of bytes that may be fewer.
fn frames_of(alloc: Global, size: usize, bytes: &[u8]) -> Result<Vec<i16>, NoMemory>
    requires { length bytes.now ≤ size }
    ensures { IfOk result (λ frames. frames.items ≡ map (cast_signed w8) (filled_up size bytes.now)) }
{
    let mut frames = Vec::with_capacity(alloc, size)?;
    for byte in bytes {
        frames.push_reserved(frame_of(*byte));
    }
    for _ in bytes.len()..size {
        frames.push_reserved(0);
    }
    Ok(frames)
}

/// The name at the front of a header.
fn name_of(header: &[u8]) -> [u8; 22]
    requires { length header.now ≡ HEADER }
    ensures { result ≡ take 22 header.now }
{
    let mut name = [0; 22];
    name.copy_from_slice(&header[..SAMPLE_NAME]);
    name
}

/// The sample of a header and its data, of which there may be too little.
#[tactic(auto, unfolding(crate::specs::Samples::sample_made))]
fn sample_of(alloc: Global, header: &[u8], bytes: &[u8]) -> Result<Sample, NoMemory>
    requires whole { length header.now ≡ HEADER }
    requires few { length bytes.now ≤ data_bytes header.now }
    ensures { IfOk result (λ sample. sample ≡ sample_made header.now bytes.now) }
{
    let frames = frames_of(alloc, data_bytes(header) as usize, bytes)?;
    let looped = loop_of(header);
    Ok(Sample {
        name: name_of(header),
        volume: header[25].min(64),
        finetune: finetune(header),
        relative: 0,
        panning: 128,
        wide: false,
        loop_kind: looped.kind,
        loop_start: looped.start,
        loop_len: looped.len,
        frames: Frames::from_vec(frames),
    })
}

/// The one sample, or none where the length is 0.
fn samples_of(alloc: Global, header: &[u8], bytes: &[u8]) -> Result<Vec<Sample>, NoMemory>
    requires whole { length header.now ≡ HEADER }
    requires few { length bytes.now ≤ data_bytes header.now }
    ensures { IfOk result (λ samples. samples.items ≡ samples_made header.now bytes.now) }
{
    if data_bytes(header) == 0 {
        return Ok(Vec::new(alloc));
    }
    let sample = sample_of(alloc, header, bytes)?;
    let mut samples = Vec::with_capacity(alloc, 1)?;
    samples.push_reserved(sample);
    Ok(samples)
}

/// The instrument of a header and its data.
#[tactic(auto, unfolding(crate::specs::Samples::instrument_made))]
fn instrument_of(alloc: Global, header: &[u8], bytes: &[u8]) -> Result<Instrument, NoMemory>
    requires whole { length header.now ≡ HEADER }
    requires few { length bytes.now ≤ data_bytes header.now }
    ensures { IfOk result (λ instrument. instrument ≡ instrument_made header.now bytes.now) }
{
    let samples = samples_of(alloc, header, bytes)?;
    Ok(Instrument {
        name: name_of(header),
        map: [0; 96],
        volume: NO_ENVELOPE,
        panning: NO_ENVELOPE,
        vibrato: NO_VIBRATO,
        fadeout: 0,
        samples: Samples::from_vec(samples),
    })
}

/// The header of sample `i`, from 0.
fn header_at(file: &[u8], i: usize) -> &[u8]
    requires whole { PATTERNS_AT ≤ length file.now }
    requires low { i < SAMPLES }
    ensures value { result.now ≡ header_in file.now i }
    ensures len { length result.now ≡ HEADER }
{
    part_of(
        file,
        HEADERS_AT as usize + HEADER as usize * i,
        HEADER as usize,
    )
}

/// The instrument of sample `i`, whose data begins at a place.
fn instrument_at(alloc: Global, file: &[u8], i: usize, place: usize) -> Result<Instrument, NoMemory>
    requires whole { PATTERNS_AT ≤ length file.now }
    requires low { i < SAMPLES }
    requires place { place ≡ data_place file.now i }
    ensures { IfOk result (λ instrument. instrument ≡ instrument_in file.now i) }
{
    let header = header_at(file, i);
    let bytes = part_of(file, place, data_bytes(header) as usize);
    instrument_of(alloc, header, bytes)
}

/// The instruments of a file whose samples' data begins at a place.
pub fn instruments_of(alloc: Global, file: &[u8], at: usize) -> Result<Vec<Instrument>, NoMemory>
    requires whole { PATTERNS_AT ≤ length file.now }
    requires place { at ≡ data_place file.now 0 }
    requires near { at < 2 ^ 32 }
    ensures { IfOk result (λ instruments. instruments.items
        ≡ each SAMPLES (instrument_in file.now)) }
{
    let mut instruments = Vec::with_capacity(alloc, SAMPLES as usize)?;
    let mut place = at;
    for i in 0..SAMPLES as usize {
        instruments.push_reserved(instrument_at(alloc, file, i, place)?);
        place += data_bytes(header_at(file, i)) as usize;
    }
    Ok(instruments)
}
