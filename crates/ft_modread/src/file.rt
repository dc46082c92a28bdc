//! A whole file.

ghost use Rattle.std.specs.Prelude.{◌≡◌, ℕ, ◌+◌, ◌*◌, ◌≤◌, length, IfOk, IfErr, Err, Some, None, slice_index};
ghost use Rattle.ft_types.specs.declared.module.Module.{Module};
ghost use Rattle.ft_types.specs.Valid.{IsValid};
ghost use Rattle.ft_modread.specs.declared.layout.TheConstants.{PATTERNS_AT, PATTERN, LENGTH_AT, MOST_LENGTH};
ghost use Rattle.ft_modread.specs.declared.fault.ModFault.{ModFault};
ghost use Rattle.ft_modread.specs.Layout.{file_part};
ghost use Rattle.ft_modread.specs.Songs.{pattern_count_in, mod_song, SpellsMod};
ghost use Rattle.ft_modread.specs.Answers.{HasModFault, IsModFaultOf, IsThisMod};

use crate::fault::ModFault;
use crate::fields::check;
use crate::layout::{PATTERN, PATTERNS_AT, TITLE, TRACKER};
use crate::order::{orders_of, restart_in};
use crate::pattern::patterns_of;
use crate::sample::instruments_of;
use ft_types::{Instruments, Module, NoMemory, Patterns};
use std::alloc::Global;

/// The title of a file.
fn title(file: &[u8]) -> [u8; 20]
    requires { PATTERNS_AT ≤ length file.now }
    ensures { result ≡ file_part 0 20 file.now }
{
    let mut title = [0; 20];
    title.copy_from_slice(&file[..TITLE as usize]);
    title
}

/// The module of a file in which nothing is wrong.
#[tactic(auto, unfolding(crate::specs::Songs::mod_song))]
fn module_of(alloc: Global, file: &[u8], count: u32) -> Result<Module, NoMemory>
    requires count { count ≡ pattern_count_in file.now }
    requires few { count ≤ 256 }
    requires whole { PATTERNS_AT + PATTERN * count ≤ length file.now }
    requires length { slice_index file.now LENGTH_AT ≤ MOST_LENGTH }
    ensures { IfOk result (λ song. song ≡ mod_song file.now) }
{
    let orders = orders_of(alloc, file)?;
    let patterns = patterns_of(alloc, file, count)?;
    let instruments = instruments_of(alloc, file, (PATTERNS_AT + PATTERN * count) as usize)?;
    Ok(Module {
        name: title(file),
        tracker: TRACKER,
        restart: u16::from(restart_in(file)),
        channels: 4,
        linear: false,
        tempo: 6,
        bpm: 125,
        orders,
        patterns: Patterns::from_vec(patterns),
        instruments: Instruments::from_vec(instruments),
    })
}

/// The module that the bytes of a four-channel ProTracker module spell, or their first fault in file
/// order.
///
/// Data of samples that is missing is read as 0, and bytes behind the last sample's are skipped.
pub fn read_mod(alloc: Global, bytes: &[u8]) -> Result<Module, ModFault>
    // What is read is spelled by the bytes,
    ensures found { IfOk result (SpellsMod bytes.now) }
    // and is valid.
    ensures valid { IfOk result IsValid }
    // What the bytes spell is read, unless memory runs out.
    ensures only { (song : Module) → SpellsMod bytes.now song → IsThisMod result song }
    // What is refused has this fault, or nothing is wrong with it and memory runs out.
    ensures fault { IfErr result (IsModFaultOf bytes.now) }
    // What has a fault is refused by it.
    ensures refused { (f : ModFault) → HasModFault bytes.now f → result ≡ Err f }
{
    let count = check(bytes)?;
    Ok(module_of(alloc, bytes, count)?)
}
