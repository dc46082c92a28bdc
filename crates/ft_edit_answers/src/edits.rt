//! Lines of a script, and edits.

ghost use Rattle.std.specs.Prelude.{◌≡◌, All};
ghost use Rattle.ft_types.specs.Valid.{IsValid};
ghost use Rattle.ft_types.specs.Edits.{IsGivable};

use anyhow::{Result, anyhow};
use ft_check::{ApplyFault, apply_edit};
use ft_text::{LineFault, TimedBatch, print_batch, read_batch};
use ft_types::{Edit, EditFault, Module};
use std::alloc::Global;
use std::io;
use std::io::Write;

/// Writes what a line says, does its edits, and writes how each of them went.
pub fn put_line<W: Write>(alloc: Global, out: &mut W, song: &mut Module, line: &[u8]) -> Result<()>
    requires valid { IsValid song.old }
    ensures valid { IsValid song.new }
{
    match read_batch(alloc, line) {
        Ok(None) => Ok(writeln!(out, "skip")?),
        Ok(Some(timed)) => {
            put_batch(alloc, out, &timed)?;
            put_edits(alloc, out, song, timed.batch.as_slice())
        }
        Err(LineFault::Bad { at }) => Ok(writeln!(out, "bad {at}")?),
        Err(LineFault::NoMemory) => Err(anyhow!("out of memory")),
    }
}

/// Writes the time of a batch and its edits.
fn put_batch<W: Write>(alloc: Global, out: &mut W, timed: &TimedBatch) -> Result<()> {
    match timed.at {
        None => write!(out, "batch - ")?,
        Some(at) => write!(out, "batch {at} ")?,
    }
    let Ok(text) = print_batch(alloc, &timed.batch) else {
        return Err(anyhow!("out of memory"));
    };
    out.write_all(text.as_slice())?;
    Ok(writeln!(out)?)
}

/// Does each edit, and writes how it went.
fn put_edits<W: Write>(alloc: Global, out: &mut W, song: &mut Module, edits: &[Edit]) -> Result<()>
    requires valid { IsValid song.old }
    requires givable { All IsGivable edits.now }
    ensures valid { IsValid song.new }
{
    for edit in edits {
        put_edit(alloc, out, song, edit)?;
    }
    Ok(())
}

/// Does an edit, and writes how it went.
fn put_edit<W: Write>(alloc: Global, out: &mut W, song: &mut Module, edit: &Edit) -> Result<()>
    requires valid { IsValid song.old }
    requires givable { IsGivable edit.now }
    ensures valid { IsValid song.new }
{
    match apply_edit(alloc, song, edit) {
        Ok(()) => Ok(writeln!(out, "done")?),
        Err(ApplyFault::Edit(fault)) => Ok(put_fault(out, fault)?),
        Err(ApplyFault::NoMemory) => Err(anyhow!("out of memory")),
    }
}

/// Writes the number of a fault and its own numbers.
fn put_fault<W: Write>(out: &mut W, fault: EditFault) -> io::Result<()> {
    match fault {
        EditFault::NoPattern { p } => writeln!(out, "fault 1 {p}"),
        EditFault::NoRow { row, rows } => writeln!(out, "fault 2 {row} {rows}"),
        EditFault::NoChannel { ch } => writeln!(out, "fault 3 {ch}"),
        EditFault::NoOrder { pos } => writeln!(out, "fault 4 {pos}"),
        EditFault::NoInstrument { i } => writeln!(out, "fault 5 {i}"),
        EditFault::Range { field, found } => writeln!(out, "fault 6 {field} {found}"),
        EditFault::TooMany { what, count } => writeln!(out, "fault 7 {what} {count}"),
        EditFault::NoSample { i, s } => writeln!(out, "fault 8 {i} {s}"),
        EditFault::Cut { from, to, frames } => writeln!(out, "fault 9 {from} {to} {frames}"),
    }
}
