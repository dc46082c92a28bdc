//! Samples: their headers, and the values that they give.

ghost use Rattle.std.specs.Prelude.{◌≡◌, IfOk, IfErr, if◌then◌else◌};
ghost use Rattle.ft_format.specs.Sample.{is_stereo, is_wide, in_frames, frame_count, loop_kind_of, loop_start_of, loop_len_of, is_unlooped, narrow_frames, wide_frames, sample_from};
ghost use Rattle.ft_xmread.specs.Reader.{FileReads};
ghost use Rattle.ft_xmread.specs.Sample.{sample_fields_at, whole_header_at, sample_header_at};

use crate::deltas::{narrow_frames, wide_frames};
use crate::fault::XmFault;
use crate::reader::Reader;
use ft_format::{MOST_FRAMES, SAMPLE_HEADER, SampleHeader};
use ft_types::{Frames, Sample};
use std::alloc::Global;

const MOST_VOLUME: u8 = 64;

const PING_PONG: u8 = 2;

/// The fields of a sample header.
#[tactic(auto, unfolding(crate::specs::Sample::sample_fields_at))]
fn read_fields(reader: &mut Reader) -> Result<SampleHeader, XmFault>
    ensures { FileReads (λ x. x) result reader.new (sample_fields_at reader.old) }
{
    let (length, loop_start, loop_len) = (reader.u32()?, reader.u32()?, reader.u32()?);
    let volume = reader.byte()?;
    let finetune = reader.byte()?;
    let kind = reader.byte()?;
    let panning = reader.byte()?;
    let relative = reader.byte()?;
    let skipped = reader.byte()?;
    let name = reader.array()?;
    Ok(SampleHeader {
        length,
        loop_start,
        loop_len,
        volume,
        finetune,
        kind,
        panning,
        relative,
        skipped,
        name,
    })
}

fn is_stereo(header: &SampleHeader) -> bool
    ensures { result ≡ is_stereo header.now }
{
    header.kind / 32 % 2 == 1
}

fn is_wide(header: &SampleHeader) -> bool
    ensures { result ≡ is_wide header.now }
{
    header.kind / 16 % 2 == 1
}

/// A number of bytes as one of frames.
fn in_frames(header: &SampleHeader, bytes: u32) -> u32
    ensures { result ≡ in_frames header.now bytes }
{
    if is_wide(header) { bytes / 2 } else { bytes }
}

/// The number of frames.
fn frame_count(header: &SampleHeader) -> u32
    ensures { result ≡ frame_count header.now }
{
    in_frames(header, header.length)
}

/// A whole header, which is one field.
fn read_whole_header(reader: &mut Reader) -> Result<SampleHeader, XmFault>
    ensures { FileReads (λ x. x) result reader.new (whole_header_at reader.old) }
{
    let mut piece = reader.piece(SAMPLE_HEADER)?;
    read_fields(&mut piece)
}

/// The header of a sample. Instruments count from 1 and samples from 0 in its faults.
#[tactic(auto, unfolding(crate::specs::Sample::sample_header_at))]
pub fn read_sample_header(
    reader: &mut Reader,
    instrument: u16,
    number: u16,
) -> Result<SampleHeader, XmFault>
    ensures { FileReads (λ x. x) result reader.new (sample_header_at instrument number reader.old) }
{
    let header = read_whole_header(reader)?;
    if is_stereo(&header) {
        return Err(XmFault::Stereo {
            instrument,
            sample: number,
        });
    }
    let frames = frame_count(&header);
    if frames > MOST_FRAMES {
        return Err(XmFault::TooLong {
            instrument,
            sample: number,
            frames,
        });
    }
    Ok(header)
}

/// A loop: its kind, and its first frame and its length in frames. Without one all are 0.
#[derive(Clone, Copy)]
struct Loop {
    kind: u8,
    start: u32,
    len: u32,
}

/// The loop of a sample, brought into its frames.
fn loop_of(header: &SampleHeader) -> Loop
    ensures kind { result.kind ≡ (if is_unlooped header.now then 0 else loop_kind_of header.now) }
    ensures start { result.start ≡ (if is_unlooped header.now then 0 else loop_start_of header.now) }
    ensures len { result.len ≡ (if is_unlooped header.now then 0 else loop_len_of header.now) }
{
    let frames = frame_count(header);
    let kind = PING_PONG.min(header.kind % 4);
    let start = frames.min(in_frames(header, header.loop_start));
    let len = (frames - start).min(in_frames(header, header.loop_len));
    if kind == 0 || len == 0 {
        return Loop {
            kind: 0,
            start: 0,
            len: 0,
        };
    }
    Loop { kind, start, len }
}

/// The frames that steps give.
fn frames_from(alloc: Global, wide: bool, steps: &[u8]) -> Result<Vec<i16>, XmFault>
    ensures value { IfOk result (λ frames. frames.items
        ≡ (if wide then wide_frames steps.now else narrow_frames steps.now)) }
    ensures wanting { IfErr result (λ fault. fault ≡ XmFault.NoMemory) }
{
    if wide {
        wide_frames(alloc, steps)
    } else {
        narrow_frames(alloc, steps)
    }
}

/// The sample of a header and its data, brought into range.
#[tactic(auto, unfolding(ft_format::specs::Sample::sample_from))]
pub fn sample_from(alloc: Global, header: &SampleHeader, steps: &[u8]) -> Result<Sample, XmFault>
    ensures value { IfOk result (λ sample. sample ≡ sample_from header.now steps.now) }
    ensures wanting { IfErr result (λ fault. fault ≡ XmFault.NoMemory) }
{
    let wide = is_wide(header);
    let frames = frames_from(alloc, wide, steps)?;
    let looped = loop_of(header);
    Ok(Sample {
        name: header.name,
        volume: MOST_VOLUME.min(header.volume),
        finetune: header.finetune.cast_signed(),
        relative: header.relative.cast_signed(),
        panning: header.panning,
        wide,
        loop_kind: looped.kind,
        loop_start: looped.start,
        loop_len: looped.len,
        frames: Frames::from_vec(frames),
    })
}
