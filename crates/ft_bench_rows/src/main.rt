//! Counts of the rules of a row on one channel, to be measured from outside by tools/rows.sh.
//!
//! The words are two numbers and a cell: how often the row is started, how often a later tick of it
//! is made, and the cell's note, instrument, volume, effect and parameter. Then the channel is
//! printed. With no words C-4 is started once and has one later tick, and nothing is printed.
#![tactic(auto)]

ghost use Rattle.std.specs.Prelude.{◌≡◌, ◌≤◌, ◌<◌, length};
ghost use Rattle.ft_types.specs.Valid.{IsValid, IsValidCell};
ghost use Rattle.ft_replay.specs.Range.{IsChannelInRange};

use anyhow::Result;
use ft_channel::{row_start, row_tick};
use ft_replay::{Channel, Control};
use ft_songs::one_note_module;
use ft_types::{Cell, Module, ModuleView, SongView, valid};
use std::env;

/// Rounds of starts, rounds of later ticks, and the bytes of the cell.
const ONCE: [u32; 7] = [1, 1, 49, 1, 0, 0, 0];

/// Starts the row of a channel, N times.
fn start_often<V: SongView>(
    view: &mut V,
    channel: &mut Channel,
    control: &mut Control,
    cell: Cell,
    rounds: u32,
)
    requires wide { 0 < length (V.holds view.old) }
    requires range { IsChannelInRange 0 channel.old }
    requires row { control.old.row ≤ 255 }
    ensures wide { 0 < length (V.holds view.new) }
    ensures range { IsChannelInRange 0 channel.new }
{
    for _done in 0..rounds {
        row_start(view, channel, control, 0, cell);
    }
}

/// Makes later ticks of a channel, N times, in turn the first to the fourth.
fn tick_often<V: SongView>(view: &mut V, channel: &mut Channel, control: &mut Control, rounds: u32)
    requires wide { 0 < length (V.holds view.old) }
    requires range { IsChannelInRange 0 channel.old }
{
    for done in 0..rounds {
        row_tick(view, channel, control, 0, (done % 4 + 1) as u16);
    }
}

/// A channel at its first row, which has this cell.
fn channel_of(cell: Cell) -> Channel
    requires { IsValidCell cell }
    ensures { IsChannelInRange 0 result }
{
    Channel {
        cell,
        ..Channel::first()
    }
}

/// What the rounds make of a channel.
fn measure(song: &Module, cell: Cell, starts: u32, ticks: u32) -> Channel
    requires song { IsValid song.now }
    requires cell { IsValidCell cell }
{
    let mut view = ModuleView::new(song);
    let mut channel = channel_of(cell);
    let mut control = Control::first();
    start_often(&mut view, &mut channel, &mut control, cell, starts);
    tick_often(&mut view, &mut channel, &mut control, ticks);
    channel
}

/// The cell of five numbers.
fn cell_of(numbers: &[u32; 7]) -> Cell
    ensures { IsValidCell result }
{
    Cell {
        note: (numbers[2] % 98) as u8,
        instrument: (numbers[3] % 256) as u8,
        volume: (numbers[4] % 256) as u8,
        effect: (numbers[5] % 256) as u8,
        parameter: (numbers[6] % 256) as u8,
    }
}

fn main(rt: HostRuntime) -> Result<()> {
    let mut numbers = ONCE;
    let mut words = env::args(&rt)?;
    words.next();
    let mut at = 0;
    for word in words {
        if at < 7 {
            numbers[at] = word.as_str().parse()?;
            at += 1;
        }
    }
    let song = one_note_module(rt.alloc())?;
    if !valid(&song) {
        return Ok(());
    }
    let channel = measure(&song, cell_of(&numbers), numbers[0], numbers[1]);
    if at > 0 {
        println!(rt; "{channel:?}")?;
    }
    Ok(())
}
