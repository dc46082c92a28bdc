//! Playing a song from the pool of a register into a WAV file.

ghost use Rattle.std.specs.Prelude.{◌≡◌, ◌≤◌, OnOk, OnErr};
ghost use Rattle.std.specs.Io.KnownBytes.{Appends};
ghost use Rattle.ft_types.specs.Limits.{lowest_rate, highest_rate};
ghost use Rattle.ft_types.specs.Valid.{IsValid};
ghost use Rattle.ft_outer.specs.Counts.{HasCause};
ghost use Rattle.ft_outer.specs.Pieces.{TakesFront};
ghost use Rattle.ft_out.specs.Wav.{sound_bytes};
ghost use Rattle.ft_replay.specs.Replay.{sound_of_song};
ghost use Rattle.ft_run.specs.Commands.{IsPlayable};
ghost use Rattle.ft_run.specs.Hearing.{TakesSound, TakesSoundFront};
ghost use Rattle.ft_run.specs.Run.{wav_of};
ghost use Rattle.ft_run.specs.Stage.{IsSet};

use crate::hearing::{Listener, play_stage};
use crate::stage::Stage;
use ft_out::{TICK_BYTES, put_frames_through, wav_head};
use ft_outer::{Sink, WriteFault, put_all, taking_law};
use ft_types::Module;
use ft_words::Step;
use std::marker::Brand;
use std::sync::ledger::Blank;

/// Writes what it hears to a sink, each number in two bytes.
#[derive(Drop)]
struct SoundSink<'a, W: Sink> {
    sink: &'a mut W,
    /// Room for the bytes of a tick.
    bytes: [u8; TICK_BYTES],
}

impl<'a, W: Sink> Listener for SoundSink<'a, W> {
    ghost heard = { λ a b numbers. (a.sink.ghost_name ≡ b.sink.ghost_name)
        × TakesSound (W.held a.sink.now) (W.held b.sink.now)
        (W.faults a.sink.now) (W.faults b.sink.now) numbers };

    ghost failed = { λ a b numbers. (a.sink.ghost_name ≡ b.sink.ghost_name)
        × TakesSoundFront (W.held a.sink.now) (W.held b.sink.now)
        (W.faults a.sink.now) (W.faults b.sink.now) numbers };

    fn hear(&mut self, numbers: &[i16]) -> Result<(), WriteFault> {
        put_frames_through(self.sink, &mut self.bytes, numbers)
    }

    fn hearing_law(&self) {
        taking_law();
    }
}

/// Writes that many frames of the song of a stage, from its beginning.
fn put_song<W: Sink>(
    stage: Stage,
    song: &Module,
    rate: u32,
    frames: u32,
    wav: &mut W,
) -> Result<(), WriteFault>
    requires set { IsSet song.now stage }
    requires valid { IsValid song.now }
    requires low { lowest_rate ≤ rate }
    requires high { rate ≤ highest_rate }
    ensures whole { OnOk result (Appends (W.held wav.old) (W.held wav.new)
        (sound_bytes (sound_of_song song.now frames rate))) }
    ensures front { OnErr result (TakesFront (W.held wav.old) (W.held wav.new)
        (sound_bytes (sound_of_song song.now frames rate))) }
    ensures cause { HasCause (W.faults wav.old) (W.faults wav.new) result }
{
    let mut ear = SoundSink {
        sink: wav,
        bytes: [0; TICK_BYTES],
    };
    play_stage::<SoundSink<W>, Brand>(Blank::new(1), stage, song, rate, frames, &mut ear)?;
    Ok(())
}

/// Writes the WAV file of the song of a stage: its head, and then its replay. After a fault the
/// sink took a front of it.
pub fn play<W: Sink>(stage: Stage, song: &Module, step: Step, wav: &mut W) -> Result<(), WriteFault>
    requires set { IsSet song.now stage }
    requires valid { IsValid song.now }
    requires asked { IsPlayable step }
    ensures whole { OnOk result (Appends (W.held wav.old) (W.held wav.new) (wav_of song.now step)) }
    ensures front { OnErr result
        (TakesFront (W.held wav.old) (W.held wav.new) (wav_of song.now step)) }
    ensures cause { HasCause (W.faults wav.old) (W.faults wav.new) result }
{
    taking_law();
    let frames = step.rate * step.seconds;
    put_all(wav, &wav_head(step.rate, frames))?;
    put_song(stage, song, step.rate, frames, wav)
}
