//! Instruments.

ghost use Rattle.std.specs.Prelude.{◌≤◌, ◌+◌, IfOk};
ghost use Rattle.ft_format.specs.declared.layout.TheConstants.{SHORT_HEAD};
ghost use Rattle.ft_format.specs.declared.limits.TheConstants.{MOST_INSTRUMENTS};
ghost use Rattle.ft_xmread.specs.Reader.{FileReads, seen, in_piece, times};
ghost use Rattle.ft_xmread.specs.Sample.{sample_header_at};
ghost use Rattle.ft_xmread.specs.Instrument.{head_at, sized_head_at, extra_at, samples_spelled_at, headers_and_samples_at, rest_at, instrument_spelled_at};

use crate::envelopes::{instrument_with, read_extra};
use crate::fault::XmFault;
use crate::reader::Reader;
use crate::sample::{read_sample_header, sample_from};
use ft_format::{
    Extra, InstrumentHead, LEAST_LONG_HEAD, MOST_SAMPLES, NO_EXTRA, SHORT_HEAD, SampleHeader,
};
use ft_types::{Instrument, Sample};
use std::alloc::Global;

#[tactic(auto, unfolding(crate::specs::Instrument::head_at))]
fn read_head(reader: &mut Reader) -> Result<InstrumentHead, XmFault>
    ensures value { FileReads (λ x. x) result reader.new (head_at reader.old) }
    ensures size { IfOk result (λ head. SHORT_HEAD ≤ head.size) }
{
    let at = reader.place();
    let size = reader.u32()?;
    if size < SHORT_HEAD {
        return Err(XmFault::Count { at, found: size });
    }
    let name = reader.array()?;
    let kind = reader.byte()?;
    let samples = reader.count(MOST_SAMPLES)?;
    Ok(InstrumentHead {
        size,
        name,
        kind,
        samples,
    })
}

/// The head, whose size leaves room for what samples need.
#[tactic(auto, unfolding(crate::specs::Instrument::sized_head_at))]
fn read_sized_head(reader: &mut Reader) -> Result<InstrumentHead, XmFault>
    ensures value { FileReads (λ x. x) result reader.new (sized_head_at reader.old) }
    ensures size { IfOk result (λ head. SHORT_HEAD ≤ head.size) }
{
    let at = reader.place();
    let head = read_head(reader)?;
    if head.samples != 0 && head.size < LEAST_LONG_HEAD {
        return Err(XmFault::Count {
            at,
            found: head.size,
        });
    }
    Ok(head)
}

/// What is in the head of an instrument with samples behind its first bytes. Bytes that are left
/// are skipped.
fn read_long_head(reader: &mut Reader, need: u32) -> Result<Extra, XmFault>
    ensures { FileReads (λ x. x) result reader.new
        (seen (λ x. x.0) (in_piece need extra_at) reader.old) }
{
    let mut piece = reader.piece(need)?;
    read_extra(&mut piece)
}

/// All sample headers of an instrument.
fn read_headers(
    alloc: Global,
    reader: &mut Reader,
    instrument: u16,
    count: u16,
) -> Result<Vec<SampleHeader>, XmFault>
    ensures { FileReads (λ headers. headers.items) result reader.new
        (times (sample_header_at instrument) 0 count reader.old) }
{
    let mut headers = Vec::with_capacity(alloc, usize::from(count))?;
    for number in 0..count {
        let header = read_sample_header(reader, instrument, number)?;
        headers.push(header)?;
    }
    Ok(headers)
}

/// The samples of some headers: the data of each in turn.
fn read_samples(
    alloc: Global,
    reader: &mut Reader,
    headers: &[SampleHeader],
) -> Result<Vec<Sample>, XmFault>
    ensures { FileReads (λ samples. samples.items) result reader.new
        (samples_spelled_at headers.now reader.old) }
{
    let mut samples = Vec::with_capacity(alloc, headers.len())?;
    for header in headers {
        let steps = reader.field(header.length)?;
        let sample = sample_from(alloc, header, steps)?;
        samples.push(sample)?;
    }
    Ok(samples)
}

/// All sample headers of an instrument, and then the data of each.
#[tactic(auto, unfolding(crate::specs::Instrument::headers_and_samples_at))]
fn read_headers_and_samples(
    alloc: Global,
    reader: &mut Reader,
    instrument: u16,
    count: u16,
) -> Result<Vec<Sample>, XmFault>
    ensures { FileReads (λ samples. samples.items) result reader.new
        (headers_and_samples_at instrument count reader.old) }
{
    let headers = read_headers(alloc, reader, instrument, count)?;
    read_samples(alloc, reader, &headers)
}

/// What follows the first 29 bytes of a head.
fn read_rest(
    alloc: Global,
    reader: &mut Reader,
    number: u16,
    head: InstrumentHead,
) -> Result<Instrument, XmFault>
    requires { SHORT_HEAD ≤ head.size }
    ensures { FileReads (λ x. x) result reader.new (rest_at number head reader.old) }
{
    if head.samples == 0 {
        reader.field(head.size - SHORT_HEAD)?;
        return Ok(instrument_with(head, NO_EXTRA, Vec::new(alloc)));
    }
    let extra = read_long_head(reader, head.size - SHORT_HEAD)?;
    let samples = read_headers_and_samples(alloc, reader, number, head.samples)?;
    Ok(instrument_with(head, extra, samples))
}

/// An instrument; its faults name it by this number.
#[tactic(auto, unfolding(crate::specs::Instrument::instrument_spelled_at))]
pub fn read_instrument(
    alloc: Global,
    reader: &mut Reader,
    number: u16,
) -> Result<Instrument, XmFault>
    ensures { FileReads (λ x. x) result reader.new (instrument_spelled_at number reader.old) }
{
    let head = read_sized_head(reader)?;
    read_rest(alloc, reader, number, head)
}

/// As many instruments, one after the other, which count from 1.
pub fn read_instruments(
    alloc: Global,
    reader: &mut Reader,
    count: u16,
) -> Result<Vec<Instrument>, XmFault>
    requires { count ≤ MOST_INSTRUMENTS }
    ensures { FileReads (λ instruments. instruments.items) result reader.new
        (times (λ k. instrument_spelled_at (k + 1)) 0 count reader.old) }
{
    let mut instruments = Vec::with_capacity(alloc, usize::from(count))?;
    for k in 0..count {
        let instrument = read_instrument(alloc, reader, k + 1)?;
        instruments.push(instrument)?;
    }
    Ok(instruments)
}
