//! Counts of the register's calls, to be measured from outside by tools/register.
//!
//! `look N`, `turn N` and `publish N` make N rounds at 8 readers of one channel, `scan N` N whole
//! scans at 8 readers of 32 channels; `open N` and `copy N` open the default pool N times, or copy
//! as many bytes. With no words each is done once.
#![tactic(auto)]

ghost use Rattle.std.specs.Prelude.{◌≡◌, ℕ, ◌+◌, ◌*◌, ◌%◌, ◌<◌, ◌≤◌, None, IfOk, IsTrue, length};
ghost use Rattle.ft_segments.specs.Packing.{word_at};
ghost use Rattle.ft_shared.specs.Account.{pool_of, SlotsAreMet, IsWhole, IsPinMet};
ghost use Rattle.ft_shared.specs.Pass.{opening_writer, fresh_passes};

use anyhow::{Result, anyhow};
use ft_segments::a_bare_root_names_itself;
use ft_shared::{ReaderPass, ReaderPasses, Shared, WriterPass};
use ft_types::Steps;
use std::alloc::Global;
use std::env;
use std::marker::Brand;
use std::sync::ledger::{Blank, Ledger};

/// Segments of the default pool.
const SEGMENTS: u16 = 16_384;

/// N looks of one reader.
fn look_often<L: Ledger>(
    shared: &Shared,
    reader: &mut ReaderPass,
    rounds: u32,
    steps: &mut Steps<L>,
)
    requires { reader.old.register ≡ shared.now }
{
    for _ in 0..rounds {
        shared.look(reader, steps);
    }
}

/// Looks at each slot.
fn scan_slots(shared: &Shared, writer: &mut WriterPass)
    requires same { writer.old.register ≡ shared.now }
    requires readers { shared.now.sizes.readers ≡ 8 }
    ensures same { writer.new.register ≡ writer.old.register }
    ensures met { SlotsAreMet shared.now.sizes writer.new.account }
    ensures left { (writer.new.account.version ≡ writer.old.account.version)
        × (writer.new.account.pool ≡ writer.old.account.pool) }
{
    shared.begin_scan(writer);
    for k in 0..10 {
        shared.scan_slot(writer, k);
    }
}

/// Looks at a pin.
fn scan_pin(shared: &Shared, writer: &mut WriterPass, reader: u8, channel: u8)
    requires same { writer.old.register ≡ shared.now }
    requires reader { reader < shared.now.sizes.readers }
    requires channel { channel < shared.now.sizes.channels }
    requires met { SlotsAreMet shared.now.sizes writer.old.account }
    ensures same { writer.new.register ≡ writer.old.register }
    ensures met { SlotsAreMet shared.now.sizes writer.new.account }
    ensures left { (writer.new.account.version ≡ writer.old.account.version)
        × (writer.new.account.pool ≡ writer.old.account.pool) }
    ensures before { (r c : ℕ) → IsPinMet writer.old.account r c
        → IsPinMet writer.new.account r c }
    ensures this { IsPinMet writer.new.account reader channel }
{
    shared.scan_pin(writer, reader, channel);
}

/// Looks at the pins of a reader.
fn scan_reader(shared: &Shared, writer: &mut WriterPass, reader: u8, channels: u8)
    requires same { writer.old.register ≡ shared.now }
    requires reader { reader < shared.now.sizes.readers }
    requires channels { channels ≡ shared.now.sizes.channels }
    requires met { SlotsAreMet shared.now.sizes writer.old.account }
    ensures same { writer.new.register ≡ writer.old.register }
    ensures met { SlotsAreMet shared.now.sizes writer.new.account }
    ensures left { (writer.new.account.version ≡ writer.old.account.version)
        × (writer.new.account.pool ≡ writer.old.account.pool) }
    ensures before { (r c : ℕ) → IsPinMet writer.old.account r c
        → IsPinMet writer.new.account r c }
    ensures all { (c : ℕ) → c < channels → IsPinMet writer.new.account reader c }
{
    for channel in 0..channels {
        scan_pin(shared, writer, reader, channel);
    }
}

/// Looks at the pins of all readers.
fn scan_pins(shared: &Shared, writer: &mut WriterPass, channels: u8)
    requires same { writer.old.register ≡ shared.now }
    requires readers { shared.now.sizes.readers ≡ 8 }
    requires channels { channels ≡ shared.now.sizes.channels }
    requires met { SlotsAreMet shared.now.sizes writer.old.account }
    ensures same { writer.new.register ≡ writer.old.register }
    ensures whole { IsWhole shared.now.sizes writer.new.account }
    ensures left { (writer.new.account.version ≡ writer.old.account.version)
        × (writer.new.account.pool ≡ writer.old.account.pool) }
{
    for reader in 0..8 {
        scan_reader(shared, writer, reader, channels);
    }
}

/// N whole scans.
fn scan_often(shared: &Shared, writer: &mut WriterPass, channels: u8, rounds: u32)
    requires same { writer.old.register ≡ shared.now }
    requires readers { shared.now.sizes.readers ≡ 8 }
    requires channels { channels ≡ shared.now.sizes.channels }
{
    for _done in 0..rounds {
        scan_slots(shared, writer);
        scan_pins(shared, writer, channels);
    }
}

/// A whole scan at 8 readers and one channel, and the publish after it.
fn publish_next(shared: &Shared, writer: &mut WriterPass) -> u32
    requires same { writer.old.register ≡ shared.now }
    requires sizes { (shared.now.sizes.readers ≡ 8) × (shared.now.sizes.channels ≡ 1)
        × (0 < shared.now.sizes.segments) }
    requires bare { word_at writer.old.account.pool 0 1 ≡ 0 }
    requires room { writer.old.account.version < 4294967295 }
    ensures same { writer.new.register ≡ writer.old.register }
    ensures bare { word_at writer.new.account.pool 0 1 ≡ 0 }
    ensures version { (result ≡ writer.old.account.version + 1)
        × (writer.new.account.version ≡ result) }
{
    scan_slots(shared, writer);
    scan_pins(shared, writer, 1);
    a_bare_root_names_itself();
    shared.publish(writer, 0)
}

/// N scans and publishes.
fn publish_often(shared: &Shared, writer: &mut WriterPass, rounds: u32)
    requires same { writer.old.register ≡ shared.now }
    requires sizes { (shared.now.sizes.readers ≡ 8) × (shared.now.sizes.channels ≡ 1)
        × (0 < shared.now.sizes.segments) }
    requires bare { word_at writer.old.account.pool 0 1 ≡ 0 }
    requires first { writer.old.account.version ≡ 0 }
    requires few { rounds ≤ 1000000 }
{
    for _done in 0..rounds {
        publish_next(shared, writer);
    }
}

/// A take, a scan with its publish, a look and a leave.
fn turn_once<L: Ledger>(
    shared: &Shared,
    writer: &mut WriterPass,
    reader: &mut ReaderPass,
    steps: &mut Steps<L>,
) -> bool
    requires same { (writer.old.register ≡ shared.now) × (reader.old.register ≡ shared.now) }
    requires sizes { (shared.now.sizes.readers ≡ 8) × (shared.now.sizes.channels ≡ 1)
        × (0 < shared.now.sizes.segments) }
    requires bare { word_at writer.old.account.pool 0 1 ≡ 0 }
    requires room { writer.old.account.version < 4294967295 }
    requires free { reader.old.notes.held ≡ None }
    ensures same { (writer.new.register ≡ writer.old.register)
        × (reader.new.register ≡ reader.old.register) }
    ensures bare { word_at writer.new.account.pool 0 1 ≡ 0 }
    ensures version { writer.new.account.version ≡ writer.old.account.version + 1 }
    ensures free { IsTrue result → reader.new.notes.held ≡ None }
{
    let held = shared.take(reader, steps);
    publish_next(shared, writer);
    if shared.look(reader, steps) <= held.version {
        return false;
    }
    shared.leave(reader, steps);
    true
}

/// N turns.
fn turn_often<L: Ledger>(
    shared: &Shared,
    writer: &mut WriterPass,
    reader: &mut ReaderPass,
    rounds: u32,
    steps: &mut Steps<L>,
)
    requires same { (writer.old.register ≡ shared.now) × (reader.old.register ≡ shared.now) }
    requires sizes { (shared.now.sizes.readers ≡ 8) × (shared.now.sizes.channels ≡ 1)
        × (0 < shared.now.sizes.segments) }
    requires bare { word_at writer.old.account.pool 0 1 ≡ 0 }
    requires first { writer.old.account.version ≡ 0 }
    requires free { reader.old.notes.held ≡ None }
    requires few { rounds ≤ 1000000 }
{
    for _done in 0..rounds {
        if !turn_once(shared, writer, reader, steps) {
            return;
        }
    }
}

/// Which calls are measured.
#[derive(Clone, Copy, PartialEq, Eq)]
enum Kind {
    Look,
    Turn,
    Publish,
    Scan,
    Open,
    Copy,
}

/// The words of that many segments, all 0.
fn zero_words(alloc: Global, segments: u16) -> Result<Vec<u64>>
    requires { 1 ≤ segments }
    ensures long { IfOk result (λ words. length words.items ≡ 256 * segments) }
    ensures bare { IfOk result (λ words. word_at words.items 0 1 ≡ 0) }
{
    Ok(vec![in alloc; 0_u64; 256 * segments as usize]?)
}

/// A register of words whose root names itself alone.
fn opened(
    alloc: Global,
    segments: u16,
    readers: u8,
    channels: u8,
    words: &[u64],
) -> Result<(Shared, WriterPass, ReaderPasses)>
    requires readers { (1 ≤ readers) × (readers ≤ 8) }
    requires channels { (1 ≤ channels) × (channels ≤ 32) }
    requires words { (256 ≤ length words.now) × (length words.now % 256 ≡ 0)
        × (length words.now ≤ 16776960) }
    requires bare { word_at words.now 0 1 ≡ 0 }
    ensures sizes { IfOk result (λ made. made.0.sizes
        ≡ record { segments = segments; readers = readers; channels = channels }) }
    ensures writer { IfOk result (λ made. made.1
        ≡ opening_writer made.0 0 0 (pool_of segments words.now)) }
    ensures passes { IfOk result (λ made. made.2 ≡ fresh_passes made.0 readers) }
    ensures bare { word_at (pool_of segments words.now) 0 1 ≡ 0 }
{
    a_bare_root_names_itself();
    Ok(Shared::open(alloc, segments, readers, channels, 0, 0, words)?)
}

fn measure<L: Ledger>(alloc: Global, blank: Blank, kind: Kind, rounds: u32) -> Result<()>
    requires blank { (blank.name ≡ L.name) × (blank.parts ≡ L.parts) × (0 < L.parts) }
{
    let words = zero_words(alloc, 1)?;
    let (shared, mut writer, mut passes) = opened(alloc, 64, 8, 1, &words)?;
    let Some(mut reader) = passes.next() else {
        return Ok(());
    };
    let mut steps = Steps::<L>::open(blank);
    let rounds = rounds.min(1_000_000);
    match kind {
        Kind::Look => look_often(&shared, &mut reader, rounds, &mut steps),
        Kind::Turn => turn_often(&shared, &mut writer, &mut reader, rounds, &mut steps),
        Kind::Publish => publish_often(&shared, &mut writer, rounds),
        Kind::Scan => scan_wide(alloc, &words, rounds)?,
        Kind::Open => open_often(alloc, rounds)?,
        Kind::Copy => copy_often(alloc, rounds)?,
    }
    Ok(())
}

/// N whole scans at 8 readers of 32 channels.
fn scan_wide(alloc: Global, words: &[u64], rounds: u32) -> Result<()>
    requires words { length words.now ≡ 256 }
    requires bare { word_at words.now 0 1 ≡ 0 }
{
    let (shared, mut writer, _passes) = opened(alloc, 64, 8, 32, words)?;
    scan_often(&shared, &mut writer, 32, rounds);
    Ok(())
}

/// Opens the default pool, N times.
fn open_often(alloc: Global, rounds: u32) -> Result<()> {
    let words = zero_words(alloc, SEGMENTS)?;
    for _ in 0..rounds {
        let (_shared, _writer, _passes) = opened(alloc, SEGMENTS, 1, 32, &words)?;
    }
    Ok(())
}

/// Copies as many bytes, N times.
fn copy_often(alloc: Global, rounds: u32) -> Result<()> {
    let words = vec![in alloc; 0_u64; 256 * SEGMENTS as usize]?;
    for _ in 0..rounds {
        let _copy = words.clone()?;
    }
    Ok(())
}

fn run(alloc: Global, kind: Kind, rounds: u32) -> Result<()> {
    measure::<Brand>(alloc, Blank::new(1), kind, rounds)
}

fn kind_of(word: &str) -> Option<Kind> {
    match word {
        "look" => Some(Kind::Look),
        "turn" => Some(Kind::Turn),
        "publish" => Some(Kind::Publish),
        "scan" => Some(Kind::Scan),
        "open" => Some(Kind::Open),
        "copy" => Some(Kind::Copy),
        _ => None,
    }
}

fn main(rt: HostRuntime) -> Result<()> {
    let mut words = env::args(&rt)?;
    words.next();
    let Some(word) = words.next() else {
        for kind in [
            Kind::Look,
            Kind::Turn,
            Kind::Publish,
            Kind::Scan,
            Kind::Open,
            Kind::Copy,
        ] {
            run(rt.alloc(), kind, 1)?;
        }
        return Ok(());
    };
    let Some(kind) = kind_of(word.as_str()) else {
        return Err(anyhow!("look, turn, publish, scan, open or copy, and a number"));
    };
    let rounds = match words.next() {
        Some(number) => number.as_str().parse()?,
        None => 1,
    };
    run(rt.alloc(), kind, rounds)
}
