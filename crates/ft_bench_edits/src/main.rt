//! Reads a line of a script, or does its edits, many times over, to be measured from outside by
//! tools/edits_figures.sh.
//!
//! The words are `read`, a number and a line: the line is read that many times. Or they are
//! `apply`, a number and lines: the edits of each line but the last are done once in a song of one
//! note, and those of the last that many times. How many edits were read or done last is printed.
//! With no words nothing is done.
#![tactic(auto)]

ghost use Rattle.std.specs.Prelude.{All, IfOk};
ghost use Rattle.ft_types.specs.Valid.{IsValid};
ghost use Rattle.ft_types.specs.Edits.{IsGivable};

use anyhow::{Result, anyhow};
use ft_check::apply_edit;
use ft_lines::{TimedBatch, read_batch};
use ft_songs::one_note_module;
use ft_types::{Edit, Module, valid};
use std::alloc::Global;
use std::env;

/// What a line of edits says.
fn batch_of(alloc: Global, line: &[u8]) -> Result<TimedBatch>
    ensures { IfOk result (λ timed. All IsGivable timed.batch) }
{
    match read_batch(alloc, line) {
        Ok(Some(timed)) => Ok(timed),
        Ok(None) => Err(anyhow!("a line without edits")),
        Err(fault) => Err(anyhow!("{fault}")),
    }
}

/// Reads a line, lets go of what it says, and answers how many edits it has; 0 where it has none.
#[inline(never)]
fn read_one(alloc: Global, line: &[u8]) -> usize {
    match read_batch(alloc, line) {
        Ok(Some(timed)) => timed.batch.len(),
        Ok(None) => 0,
        Err(_) => 0,
    }
}

/// Reads a line, N times, and answers how many edits it has.
fn read_often(alloc: Global, line: &[u8], times: u32) -> usize {
    let mut count = 0;
    for _done in 0..times {
        count = read_one(alloc, line);
    }
    count
}

/// Does an edit, and answers whether it wasn't refused.
#[inline(never)]
fn apply_one(alloc: Global, song: &mut Module, edit: &Edit) -> bool
    requires valid { IsValid song.old }
    requires givable { IsGivable edit.now }
    ensures valid { IsValid song.new }
{
    match apply_edit(alloc, song, edit) {
        Ok(()) => true,
        Err(_) => false,
    }
}

/// Does edits, each once, and answers how many weren't refused.
fn apply_once(alloc: Global, song: &mut Module, edits: &[Edit]) -> usize
    requires valid { IsValid song.old }
    requires givable { All IsGivable edits.now }
    ensures valid { IsValid song.new }
{
    let mut count: usize = 0;
    for edit in edits {
        if apply_one(alloc, song, edit) {
            count = count.saturating_add(1);
        }
    }
    count
}

/// Does the edits of a line, N times.
fn apply_often(alloc: Global, song: &mut Module, line: &[u8], times: u32) -> Result<usize>
    requires valid { IsValid song.old }
    ensures valid { IsValid song.new }
{
    let timed = batch_of(alloc, line)?;
    let mut count = 0;
    for _done in 0..times {
        count = apply_once(alloc, song, timed.batch.as_slice());
    }
    Ok(count)
}

/// Does the edits of all lines but the last once, and those of the last N times.
fn apply_lines(alloc: Global, song: &mut Module, lines: &[String], times: u32) -> Result<usize>
    requires valid { IsValid song.old }
{
    let mut count = 0;
    for (at, line) in lines.iter().enumerate() {
        let is_last = at + 1 == lines.len();
        count = apply_often(
            alloc,
            song,
            line.as_bytes(),
            if is_last { times } else { 1 },
        )?;
    }
    Ok(count)
}

fn main(rt: HostRuntime) -> Result<()> {
    let mut words = env::args(&rt)?.skip(1);
    let Some(what) = words.next() else {
        return Ok(());
    };
    let Some(number) = words.next() else {
        return Err(anyhow!("a number"));
    };
    let times: u32 = number.as_str().parse()?;
    let mut lines = Vec::new(rt.alloc());
    for line in words {
        lines.push(line)?;
    }
    let count = if what.as_str() == "read" {
        let Some(line) = lines.last() else {
            return Err(anyhow!("a line"));
        };
        read_often(rt.alloc(), line.as_bytes(), times)
    } else {
        let mut song = one_note_module(rt.alloc())?;
        if !valid(&song) {
            return Ok(());
        }
        apply_lines(rt.alloc(), &mut song, &lines, times)?
    };
    println!(rt; "{count}")?;
    Ok(())
}
