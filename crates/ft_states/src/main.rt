//! Prints the state of a song after each of its ticks, to be compared with a slow reading of the
//! rules by tools/checks/states.sh.
//!
//! `ft_states SONG RATE TICKS` prints a line for each of that many ticks, at 8,000 to 48,000 frames
//! a second. The ticks make no sound: voices stay where they are.
#![tactic(auto)]

ghost use Rattle.std.specs.Prelude.{◌≡◌, ◌≤◌, length};
ghost use Rattle.ft_types.specs.Valid.{IsValid};

mod line;

use anyhow::{Result, anyhow};
use ft_replay::SongState;
use ft_tick::tick_state;
use ft_types::{Module, ModuleView};
use ft_xmread::read_xm;
use line::put_line;
use std::io::{BufWriter, Write};
use std::{env, fs, io};

/// Prints the states of a song's first ticks.
fn print_ticks(rt: &HostRuntime, song: &Module, rate: u32, ticks: u32) -> io::Result<()>
    requires valid { IsValid song.now }
    requires low { 8000 ≤ rate }
    requires high { rate ≤ 48000 }
{
    let mut view = ModuleView::new(song);
    let mut state = SongState::first(song.channels);
    let mut out = BufWriter::new(rt.alloc(), io::writer(rt))?;
    for _ in 0..ticks {
        let place = tick_state(&mut view, &mut state, rate);
        put_line(&mut out, place, &state)?;
    }
    out.flush()
}

fn main(rt: HostRuntime) -> Result<()> {
    let mut words = env::args(&rt)?.skip(1);
    let (Some(path), Some(rate), Some(ticks)) = (words.next(), words.next(), words.next()) else {
        return Err(anyhow!("a song, a rate and a number of ticks"));
    };
    let bytes = fs::read(&rt, path)?;
    let Ok(song) = read_xm(rt.alloc(), &bytes) else {
        return Err(anyhow!("the file is no song"));
    };
    let rate: u32 = rate.as_str().parse()?;
    if rate < 8000 || rate > 48_000 {
        return Err(anyhow!("the rate is 8000 to 48000"));
    }
    print_ticks(&rt, &song, rate, ticks.as_str().parse()?)?;
    Ok(())
}
