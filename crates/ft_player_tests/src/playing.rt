//! A player on a song that was just placed: the first ticks, their sound and their steps, also
//! where it gives up its pass between them.

ghost use Rattle.std.specs.Prelude.{◌≡◌, ◌≤◌, ◌+◌, ◌<◌, true, All, IfSome};
ghost use Rattle.ft_types.specs.declared.voice.Voice.{Voice};
ghost use Rattle.ft_mix.specs.Mixing.{is_slow};

use ft_desk::Desk;
use ft_player::Player;
use ft_shared::Shared;
use ft_songs::{instrument_of, one_note_module, sample_of, silent_module};
use ft_types::{Items, Module, Steps, TickReport, valid};
use std::alloc::{AllocError, Global};
use std::marker::Brand;
use std::sync::ledger::{Blank, Ledger};

/// Ticks of 167 frames on two channels: by the general bound, and where no voice has a loop and
/// none passes more than a frame at once.
fn tick<L: Ledger>(
    player: &mut Player,
    shared: &Shared,
    out: &mut [i16; 7502],
    steps: &mut Steps<L>,
) -> TickReport
    requires same { player.old.pass.register ≡ shared.now }
    requires channels { shared.now.sizes.channels ≡ 2 }
    ensures same { player.new.pass.register ≡ player.old.pass.register }
    ensures steps { result.frames ≡ 167 → steps.new ≤ steps.old + 2260 }
    ensures slow { result.frames ≡ 167
        → All (λ (voice : Voice). is_slow voice ≡ true) player.new.mixed
        → steps.new ≤ steps.old + 438 }
{
    player.tick(shared, out, steps)
}

/// A tick that is wanted: its row, its number in the row, its frames, and the numbers that its sound
/// begins with; the rest of it is silent.
struct Wanted(u16, u16, u32, &'static [i16]);

/// Whether a tick is the wanted one, on version 0 and order 0.
fn is_wanted(report: TickReport, out: &[i16; 7502], wanted: &Wanted) -> bool {
    if report.version != 0 || report.order != 0 {
        return false;
    }
    let Wanted(row, tick, frames, sound) = wanted;
    if report.row != *row || report.tick != *tick || report.frames != *frames {
        return false;
    }
    for (i, &number) in out.iter().enumerate() {
        let right = match sound.get(i) {
            Some(&number) => number,
            None => 0,
        };
        if i < 2 * report.frames as usize && number != right {
            return false;
        }
    }
    true
}

/// A register with a song of two channels, its desk, and a player of it.
fn opened(alloc: Global, song: &Module, rate: u32) -> Option<(Shared, Desk, Player)>
    requires low { 8000 ≤ rate }
    requires high { rate ≤ 48000 }
    ensures { IfSome result (λ made. (made.2.pass.register ≡ made.0)
        × (made.1.writer.register ≡ made.0) × (made.0.sizes.channels ≡ 2)) }
{
    if !valid(song) || song.channels != 2 {
        return None;
    }
    let Ok((shared, desk, mut passes)) = Desk::open(alloc, song, 16, 1, 0) else {
        return None;
    };
    let Some(pass) = passes.next() else {
        return None;
    };
    Some((shared, desk, Player::open(pass, 2, rate)))
}

/// Whether the first ticks are the wanted ones.
fn plays<L: Ledger>(blank: Blank, shared: &Shared, player: &mut Player, rows: &[Wanted]) -> bool
    requires blank { (blank.name ≡ L.name) × (blank.parts ≡ L.parts) × (0 < L.parts) }
    requires same { player.old.pass.register ≡ shared.now }
    requires channels { shared.now.sizes.channels ≡ 2 }
{
    let mut steps = Steps::<L>::open(blank);
    let mut out = [0; 7502];
    for row in rows {
        let report = tick(player, shared, &mut out, &mut steps);
        if !is_wanted(report, &out, row) {
            return false;
        }
    }
    true
}

/// A player goes on with its pass, which it had given up to the desk, and which the desk gave back.
fn settled_between(shared: &Shared, desk: &mut Desk, player: Player) -> Player
    requires desk { desk.old.writer.register ≡ shared.now }
    requires same { player.pass.register ≡ shared.now }
    ensures desk { desk.new.writer.register ≡ shared.now }
    ensures same { result.pass.register ≡ shared.now }
{
    let (idle, pass) = player.part();
    desk.settle(shared, pass);
    idle.rejoin(desk.resume(shared))
}

/// Whether the first ticks are the wanted ones, where the player parts with its pass after each.
fn plays_parted<L: Ledger>(
    blank: Blank,
    shared: &Shared,
    desk: &mut Desk,
    player: Player,
    rows: &[Wanted],
) -> bool
    requires blank { (blank.name ≡ L.name) × (blank.parts ≡ L.parts) × (0 < L.parts) }
    requires desk { desk.old.writer.register ≡ shared.now }
    requires same { player.pass.register ≡ shared.now }
    requires channels { shared.now.sizes.channels ≡ 2 }
{
    let mut steps = Steps::<L>::open(blank);
    let mut out = [0; 7502];
    let mut playing = player;
    for row in rows {
        let report = tick(&mut playing, shared, &mut out, &mut steps);
        if !is_wanted(report, &out, row) {
            return false;
        }
        playing = settled_between(shared, desk, playing);
    }
    true
}

/// Whether a song plays so, and plays the same where its player parts with its pass after each tick.
fn song_plays(alloc: Global, song: &Module, rate: u32, rows: &[Wanted]) -> bool
    requires low { 8000 ≤ rate }
    requires high { rate ≤ 48000 }
{
    let Some((shared, _, mut whole)) = opened(alloc, song, rate) else {
        return false;
    };
    if !plays::<Brand>(Blank::new(1), &shared, &mut whole, rows) {
        return false;
    }
    let Some((shared, mut desk, parted)) = opened(alloc, song, rate) else {
        return false;
    };
    plays_parted::<Brand>(Blank::new(1), &shared, &mut desk, parted, rows)
}

/// A song that is played.
#[derive(Clone, Copy, Debug)]
enum Song {
    /// One note of eight frames.
    OneNote,
    /// One note of 400 frames.
    Long,
    Silent,
}

/// The song itself.
fn song_of(alloc: Global, song: Song) -> Result<Module, AllocError> {
    let mut made = match song {
        Song::Silent => return silent_module(alloc),
        Song::OneNote => return one_note_module(alloc),
        Song::Long => one_note_module(alloc)?,
    };
    let sample = sample_of(alloc, &[64; 400])?;
    made.instruments = Items::from_vec(vec![in alloc; instrument_of(alloc, sample)?]?);
    Ok(made)
}

/// Songs, the rates at which they are played, and their first ticks.
static ROWS: [(Song, u32, &[Wanted]); 3] = [
    (
        Song::OneNote,
        8_363,
        &[
            Wanted(0, 0, 167, &[2048; 8]),
            Wanted(0, 1, 167, &[]),
            Wanted(0, 2, 167, &[]),
            Wanted(0, 3, 168, &[]),
            Wanted(0, 4, 167, &[]),
            Wanted(0, 5, 167, &[]),
            Wanted(1, 0, 167, &[]),
        ],
    ),
    (
        Song::Long,
        8_363,
        &[
            Wanted(0, 0, 167, &[2048; 334]),
            Wanted(0, 1, 167, &[2048; 334]),
            Wanted(0, 2, 167, &[2048; 132]),
            Wanted(0, 3, 168, &[]),
        ],
    ),
    (
        Song::Silent,
        8_000,
        &[
            Wanted(0, 0, 160, &[]),
            Wanted(0, 1, 160, &[]),
            Wanted(0, 2, 160, &[]),
            Wanted(0, 3, 160, &[]),
            Wanted(0, 4, 160, &[]),
            Wanted(0, 5, 160, &[]),
            Wanted(1, 0, 160, &[]),
        ],
    ),
];

/// Whether a song plays so.
fn row_plays(alloc: Global, song: Song, rate: u32, ticks: &[Wanted]) -> bool {
    if rate < 8_000 || rate > 48_000 {
        return false;
    }
    let Ok(song) = song_of(alloc, song) else {
        return false;
    };
    song_plays(alloc, &song, rate, ticks)
}

#[test]
fn the_first_ticks_are_those_of_the_song(rt: HostRuntime) {
    for (song, rate, ticks) in ROWS.iter() {
        assert!(rt; row_plays(rt.alloc(), *song, *rate, ticks), "{song:?}");
    }
}
