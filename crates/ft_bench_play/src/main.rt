//! Plays ticks of a song over a plain module, to be measured from outside by tools/figures.sh.
//!
//! `ft_bench_play SONG RATE TICKS` plays that many ticks at 8,000 to 48,000 frames a second, and
//! prints the first frame of the last one, left and right.
#![tactic(auto)]

ghost use Rattle.std.specs.Prelude.{◌≡◌, ◌≤◌, length};
ghost use Rattle.ft_types.specs.Valid.{IsValid};

use anyhow::{Result, anyhow};
use arrayvec::ArrayVec;
use ft_play::play_tick;
use ft_replay::SongState;
use ft_types::{Module, ModuleView, SongView};
use ft_xmread::read_xm;
use std::{env, fs};

/// Plays a song's first ticks into `out`, one over the other.
fn play_ticks(song: &Module, rate: u32, ticks: u32, out: &mut [i16])
    requires valid { IsValid song.now }
    requires low { 8000 ≤ rate }
    requires high { rate ≤ 48000 }
    requires room { 7500 ≤ length out.old }
{
    let mut view = ModuleView::new(song);
    let mut state = SongState::first(song.channels);
    let mut mixed = ArrayVec::new();
    for _ in 0..ticks {
        play_tick(&mut view, &mut state, rate, &mut mixed, out);
    }
}

fn main(rt: HostRuntime) -> Result<()> {
    let mut words = env::args(&rt)?.skip(1);
    let (Some(path), Some(rate), Some(ticks)) = (words.next(), words.next(), words.next()) else {
        return Err(anyhow!("a song, a rate and a number of ticks"));
    };
    let bytes = fs::read(&rt, path)?;
    let Ok(song) = read_xm(rt.alloc(), &bytes) else {
        return Err(anyhow!("the file is no song"));
    };
    let rate: u32 = rate.as_str().parse()?;
    if rate < 8000 || rate > 48_000 {
        return Err(anyhow!("the rate is 8000 to 48000"));
    }
    let mut out = [0; 7502];
    play_ticks(&song, rate, ticks.as_str().parse()?, &mut out);
    println!(rt; "{} {}", out[0], out[1])?;
    Ok(())
}
