//! Prints what scripts and ledgers say and what edits do, to be compared with a slow reading of the
//! pages by tools/checks/edits.sh.
//!
//! `ft_edit_answers SONG SCRIPT` prints what each line of a script says. It does each edit by
//! itself, on the song that those before it leave, whatever became of them, and prints how it went.
//! Last it writes the canonical bytes of the song. Lines are what the LFs of the script separate.
//!
//! `ft_edit_answers LEDGER` prints a ledger as it is in form 2, or its first line that can't be
//! there.
#![tactic(auto)]

ghost use Rattle.std.specs.Prelude.{◌≡◌};
ghost use Rattle.ft_types.specs.Valid.{IsValid};

mod edits;
mod ledger;

use anyhow::{Result, anyhow};
use edits::put_line;
use ft_types::Module;
use ft_xmread::read_xm;
use ft_xmwrite::write_xm;
use ledger::put_ledger;
use std::io::{BufWriter, Write};
use std::{env, fs, io};

/// Prints the answers to a script, and then the song that it leaves.
fn answer_script(rt: &HostRuntime, song: &mut Module, script: &[u8]) -> Result<()>
    requires valid { IsValid song.old }
{
    let mut out = BufWriter::new(rt.alloc(), io::writer(rt))?;
    for line in script.split(|byte| *byte == b'\n') {
        put_line(rt.alloc(), &mut out, song, line)?;
    }
    let Ok(bytes) = write_xm(rt.alloc(), song) else {
        return Err(anyhow!("out of memory"));
    };
    out.write_all(bytes.as_slice())?;
    out.flush()?;
    Ok(())
}

/// Prints a ledger.
fn answer_ledger(rt: &HostRuntime, ledger: &[u8]) -> Result<()> {
    let mut out = BufWriter::new(rt.alloc(), io::writer(rt))?;
    put_ledger(rt.alloc(), &mut out, ledger)?;
    out.flush()?;
    Ok(())
}

fn main(rt: HostRuntime) -> Result<()> {
    let mut words = env::args(&rt)?.skip(1);
    let Some(path) = words.next() else {
        return Err(anyhow!("a song and a script, or a ledger"));
    };
    let bytes = fs::read(&rt, path)?;
    let Some(script) = words.next() else {
        return answer_ledger(&rt, &bytes);
    };
    let Ok(mut song) = read_xm(rt.alloc(), &bytes) else {
        return Err(anyhow!("the file is no song"));
    };
    let script = fs::read(&rt, script)?;
    answer_script(&rt, &mut song, &script)
}
