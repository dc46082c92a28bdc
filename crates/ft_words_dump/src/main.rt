//! Prints the words in which a song is placed, to be compared with a slow placing by
//! tools/checks/words.sh.
//!
//! `ft_words_dump SONG` prints a line for each word, from segment 0 on: 16 hexadecimal digits.
#![tactic(auto)]

use anyhow::{Result, anyhow};
use ft_image::place;
use ft_types::{blocks, valid};
use ft_xmread::read_xm;
use std::io::{BufWriter, Write};
use std::{env, fs, io};

/// Prints words, a line each.
fn print_words(rt: &HostRuntime, words: &[u64]) -> io::Result<()> {
    let mut out = BufWriter::new(rt.alloc(), io::writer(rt))?;
    for word in words {
        writeln!(out, "{word:016x}")?;
    }
    out.flush()
}

fn main(rt: HostRuntime) -> Result<()> {
    let Some(path) = env::args(&rt)?.nth(1) else {
        return Err(anyhow!("a song"));
    };
    let bytes = fs::read(&rt, path)?;
    let Ok(song) = read_xm(rt.alloc(), &bytes) else {
        return Err(anyhow!("the file is no song"));
    };
    if !valid(&song) || blocks(&song) > 65_535 {
        return Err(anyhow!("the song has more than 65,535 blocks"));
    }
    let Ok(image) = place(rt.alloc(), &song) else {
        return Err(anyhow!("memory is wanting"));
    };
    print_words(&rt, image.words())?;
    Ok(())
}
