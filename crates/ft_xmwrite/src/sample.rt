//! Samples: their headers and their data.

ghost use Rattle.std.specs.Prelude.{◌≡◌, ◌≤◌, ◌+◌, ◌*◌, ◌++◌, length, flat_map, All, OnOk};
ghost use Rattle.ft_types.specs.Valid.{IsValidSample};
ghost use Rattle.ft_format.specs.declared.limits.TheConstants.{MOST_FRAMES};
ghost use Rattle.ft_format.specs.Sample.{lengths_text, numbers_text, sample_header_text};
ghost use Rattle.ft_format.specs.Canon.{frame_size, sample_header_of, sample_header_bytes, sample_data};

use crate::bytes::{put, put_u32};
use crate::deltas::{put_narrow, put_wide};
use ft_format::{SAMPLE_HEADER, SampleHeader, canonical_sizes};
use ft_types::{NoMemory, Sample};

/// The bit of a type byte that says 16-bit frames.
const WIDE: u8 = 16;

/// A number of frames as one of bytes.
fn in_bytes(sample: &Sample, frames: u32) -> u32
    requires { frames ≤ MOST_FRAMES }
    ensures { result ≡ frame_size sample.now * frames }
{
    if sample.wide { 2 * frames } else { frames }
}

/// The type byte: the kind of loop, and whether frames have 16 bits.
fn kind_of(sample: &Sample) -> u8
    requires { sample.now.loop_kind ≤ 2 }
    ensures { result ≡ (sample_header_of sample.now).kind }
{
    sample.loop_kind + if sample.wide { WIDE } else { 0 }
}

/// The header of a sample, whose length and loop count bytes.
fn sample_header_of(sample: &Sample) -> SampleHeader
    requires { IsValidSample sample.now }
    ensures { result ≡ sample_header_of sample.now }
{
    SampleHeader {
        length: in_bytes(sample, sample.frames.len() as u32),
        loop_start: in_bytes(sample, sample.loop_start),
        loop_len: in_bytes(sample, sample.loop_len),
        volume: sample.volume,
        finetune: sample.finetune.cast_unsigned(),
        kind: kind_of(sample),
        panning: sample.panning,
        relative: sample.relative.cast_unsigned(),
        skipped: 0,
        name: sample.name,
    }
}

/// Bytes 0 to 11 of a sample header: its length and its loop.
fn put_lengths(bytes: &mut Vec<u8>, header: &SampleHeader) -> Result<(), NoMemory>
    ensures { OnOk result (bytes.new.items ≡ bytes.old.items ++ lengths_text header.now) }
{
    put_u32(bytes, header.length)?;
    put_u32(bytes, header.loop_start)?;
    put_u32(bytes, header.loop_len)
}

/// Bytes 12 to 17: volume, finetune, type, panning, relative note, and one that is skipped.
fn put_numbers(bytes: &mut Vec<u8>, header: &SampleHeader) -> Result<(), NoMemory>
    ensures { OnOk result (bytes.new.items ≡ bytes.old.items ++ numbers_text header.now) }
{
    let numbers = [
        header.volume,
        header.finetune,
        header.kind,
        header.panning,
        header.relative,
        header.skipped,
    ];
    put(bytes, &numbers)
}

/// A sample header, 40 bytes, of which the last 22 are the name.
#[tactic(auto, unfolding(ft_format::specs::Sample::sample_header_text))]
fn put_header(bytes: &mut Vec<u8>, header: &SampleHeader) -> Result<(), NoMemory>
    ensures { OnOk result (bytes.new.items ≡ bytes.old.items ++ sample_header_text header.now) }
{
    put_lengths(bytes, header)?;
    put_numbers(bytes, header)?;
    put(bytes, &header.name)
}

/// The data of a sample: its frames as steps.
#[tactic(auto, unfolding(ft_format::specs::Canon::sample_data))]
fn put_sample_data(bytes: &mut Vec<u8>, sample: &Sample) -> Result<(), NoMemory>
    requires { IsValidSample sample.now }
    ensures { OnOk result (bytes.new.items ≡ bytes.old.items ++ sample_data sample.now) }
{
    if sample.wide {
        return put_wide(bytes, sample.frames.as_slice());
    }
    put_narrow(bytes, sample.frames.as_slice())
}

/// The number of bytes of a sample, its header and its data.
fn sample_len(sample: &Sample) -> usize
    requires { IsValidSample sample.now }
    ensures value { result
        ≡ length (sample_header_bytes sample.now) + length (sample_data sample.now) }
    ensures few { result ≤ 7864360 }
{
    canonical_sizes();
    SAMPLE_HEADER as usize + in_bytes(sample, sample.frames.len() as u32) as usize
}

/// The number of bytes of samples, their headers and their data.
pub fn samples_len(samples: &[Sample]) -> usize
    requires few { length samples.now ≤ 16 }
    requires valid { All IsValidSample samples.now }
    ensures value { result ≡ length (flat_map sample_header_bytes samples.now)
        + length (flat_map sample_data samples.now) }
    ensures few { result ≤ 125829760 }
{
    let mut len = 0;
    for sample in samples {
        len += sample_len(sample);
    }
    len
}

/// Sample headers, one after the other.
pub fn put_sample_headers(bytes: &mut Vec<u8>, samples: &[Sample]) -> Result<(), NoMemory>
    requires { All IsValidSample samples.now }
    ensures { OnOk result (bytes.new.items ≡ bytes.old.items
        ++ flat_map sample_header_bytes samples.now) }
{
    for sample in samples {
        put_header(bytes, &sample_header_of(sample))?;
    }
    Ok(())
}

/// The data of samples, one after the other.
pub fn put_samples_data(bytes: &mut Vec<u8>, samples: &[Sample]) -> Result<(), NoMemory>
    requires { All IsValidSample samples.now }
    ensures { OnOk result (bytes.new.items ≡ bytes.old.items
        ++ flat_map sample_data samples.now) }
{
    for sample in samples {
        put_sample_data(bytes, sample)?;
    }
    Ok(())
}
