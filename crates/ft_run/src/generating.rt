//! `gen`: a generated song, and a line that says how large and how loud it is.

ghost use Rattle.std.specs.Prelude.{◌≡◌, ◌≢◌, ◌⊎◌, ◌≤◌, IfOk, string_bytes, length};
ghost use Rattle.std.specs.Io.KnownBytes.{Appends};
ghost use Rattle.ft_types.specs.Blocks.{blocks_of};
ghost use Rattle.ft_types.specs.Valid.{IsValid};
ghost use Rattle.ft_format.specs.Canon.{canon};
ghost use Rattle.ft_outer.specs.Pieces.{TakesFront};
ghost use Rattle.ft_xmwrite.specs.Generate.{generated};
ghost use Rattle.ft_run.specs.Pool.{NeverRose};
ghost use Rattle.ft_run.specs.Run.{generated_line, line_of_song, gen_line};
ghost use Rattle.ft_run.specs.Statuses.{IsCounted, IsDone, IsOfGen};

use crate::measure::measured;
use crate::status::Status;
use ft_outer::{Sink, put_all};
use ft_types::{Module, NoMemory, blocks};
use ft_xmread::read_xm;
use ft_xmwrite::{generate, generated_blocks_law, write_xm};
use std::alloc::Global;

/// The rate at which a generated song is played, in frames a second.
const MEASURED_RATE: u32 = 44_100;

/// How long it is played, in seconds.
const MEASURED_SECONDS: u32 = 10;

/// The canonical bytes of the generated song of a number.
fn generated_bytes(alloc: Global, number: u32) -> Result<Vec<u8>, NoMemory>
    ensures canonical { IfOk result (λ bytes. bytes.items ≡ canon (generated number)) }
    ensures valid { IfOk result (λ _. IsValid (generated number)) }
{
    let song = generate(alloc, number)?;
    write_xm(alloc, &song)
}

/// What is said of a song: its bytes and its blocks, how many ticks it takes, and how loud it is.
#[derive(Clone, Copy)]
struct Numbers {
    bytes: usize,
    blocks: u32,
    ticks: u32,
    peak: u16,
}

/// The line of a song with these numbers.
fn line_of(alloc: Global, number: u32, told: Numbers) -> Result<String, NoMemory>
    ensures { IfOk result (λ line. string_bytes line
        ≡ generated_line number told.bytes told.blocks told.ticks told.peak) }
{
    let Numbers {
        bytes,
        blocks,
        ticks,
        peak,
    } = told;
    Ok(format!(in alloc; "gen {number} bytes {bytes} blocks {blocks} ticks {ticks} peak {peak}\n")?)
}

/// The line of a song, which is played for that, whose canonical bytes are that many.
#[tactic(auto, unfolding(crate::specs::Run::line_of_song))]
fn line_of_song(alloc: Global, number: u32, song: &Module, bytes: usize) -> Result<String, NoMemory>
    requires valid { IsValid song.now }
    requires few { blocks_of song.now ≤ 16384 }
    requires bytes { bytes ≡ length (canon song.now) }
    ensures { IfOk result (λ line. string_bytes line ≡ line_of_song number song.now) }
{
    let played = measured(alloc, song, MEASURED_RATE, MEASURED_RATE * MEASURED_SECONDS)?;
    line_of(
        alloc,
        number,
        Numbers {
            bytes,
            blocks: blocks(song),
            ticks: played.ticks,
            peak: played.peak,
        },
    )
}

/// What is said of a generated song, once its bytes were read back.
fn line_of_bytes(alloc: Global, number: u32, bytes: &[u8]) -> Result<String, NoMemory>
    requires written { bytes.now ≡ canon (generated number) }
    requires valid { IsValid (generated number) }
    ensures { IfOk result (λ line. string_bytes line ≡ gen_line number) }
{
    generated_blocks_law();
    let Ok(song) = read_xm(alloc, bytes) else {
        return Err(NoMemory);
    };
    line_of_song(alloc, number, &song, bytes.len())
}

/// Writes the generated song of a number, and then a line that says how large and how
/// loud it is.
pub fn generate_song<W: Sink, L: Sink>(
    alloc: Global,
    number: u32,
    out: &mut W,
    ledger: &mut L,
) -> Status
    ensures kinds { IsOfGen result }

    // Both are written, or fronts of them.
    ensures done { result ≡ Status.Done
        → Appends (W.held out.old) (W.held out.new) (canon (generated number))
        × Appends (L.held ledger.old) (L.held ledger.new) (gen_line number) }
    ensures wav_front { result ≡ Status.WavWrite
        → TakesFront (W.held out.old) (W.held out.new) (canon (generated number)) }
    ensures ledger_front { result ≡ Status.LedgerWrite
        → Appends (W.held out.old) (W.held out.new) (canon (generated number))
        × TakesFront (L.held ledger.old) (L.held ledger.new) (gen_line number) }
    ensures no_memory { result ≡ Status.NoMemory → (out.new ≡ out.old)
        ⊎ Appends (W.held out.old) (W.held out.new) (canon (generated number)) }
    ensures ledger_last { (result ≢ Status.Done) → (result ≢ Status.LedgerWrite)
        → ledger.new ≡ ledger.old }

    ensures wav_count { IsCounted Status.WavWrite result (W.faults out.old) (W.faults out.new) }
    ensures ledger_count { IsCounted Status.LedgerWrite result
        (L.faults ledger.old) (L.faults ledger.new) }
    ensures complete { NeverRose (W.faults out.old) (W.faults out.new)
        → NeverRose (L.faults ledger.old) (L.faults ledger.new) → IsDone result }
{
    let Ok(bytes) = generated_bytes(alloc, number) else {
        return Status::NoMemory;
    };
    if put_all(out, &bytes).is_err() {
        return Status::WavWrite;
    }
    let Ok(line) = line_of_bytes(alloc, number, &bytes) else {
        return Status::NoMemory;
    };
    match put_all(ledger, line.as_bytes()) {
        Ok(()) => Status::Done,
        Err(_) => Status::LedgerWrite,
    }
}
