//! A whole file.

ghost use Rattle.std.specs.Prelude.{◌≡◌, ℕ, ◌↔◌, IfOk, IfErr, Err};
ghost use Rattle.ft_types.specs.declared.module.Module.{Module};
ghost use Rattle.ft_types.specs.Valid.{IsValid};
ghost use Rattle.ft_format.specs.Canon.{canon};
ghost use Rattle.ft_format.specs.Spelling.{Spells};
ghost use Rattle.ft_xmread.specs.declared.fault.XmFault.{XmFault};
ghost use Rattle.ft_xmread.specs.Reader.{FileReads};
ghost use Rattle.ft_xmread.specs.Identification.{identification_at};
ghost use Rattle.ft_xmread.specs.File.{song_spelled_at, song_in, Answers};
ghost use Rattle.ft_xmread.specs.Song.{IsFirstWrong, HasFault, IsFaultOf, IsThisSong, IsRefusedBy};

use crate::fault::XmFault;
use crate::header::read_header;
use crate::identification::read_identification;
use crate::instrument::read_instruments;
use crate::pattern::read_patterns;
use crate::reader::Reader;
use ft_format::{canonical_is_spelled, spelled_is_valid};
use ft_types::Module;
use std::alloc::Global;

/// What follows the identification.
#[tactic(auto, unfolding(crate::specs::File::song_spelled_at))]
fn read_parts(alloc: Global, reader: &mut Reader) -> Result<Module, XmFault>
    ensures { FileReads (λ x. x) result reader.new (song_spelled_at reader.old) }
{
    let header = read_header(reader)?;
    let (sizes, settings) = (header.sizes, header.settings);
    let patterns = read_patterns(alloc, reader, sizes.channels, settings.patterns)?;
    let instruments = read_instruments(alloc, reader, settings.instruments)?;
    header.song(alloc, patterns, instruments)
}

/// A whole file; bytes behind the song are skipped.
#[tactic(auto, unfolding(crate::specs::File::song_in))]
fn read_file(alloc: Global, bytes: &[u8]) -> Result<Module, XmFault>
    ensures answer { Answers result (song_in bytes.now) }
    ensures not_xm { (at : ℕ)
        → identification_at (record { at = 0; left = bytes.now }) ≡ Err (XmFault.NotXm at)
        → result ≡ Err (XmFault.NotXm at) }
{
    let mut reader = Reader::new(bytes);
    read_identification(&mut reader)?;
    read_parts(alloc, &mut reader)
}

/// The module that the bytes of a file spell, or their first fault from the left.
///
/// Values out of range are brought into it, and bytes behind the last instrument are skipped.
pub fn read_xm(alloc: Global, bytes: &[u8]) -> Result<Module, XmFault>
    // What is read is spelled by the bytes,
    ensures found { IfOk result (Spells bytes.now) }
    // and is valid.
    ensures valid { IfOk result IsValid }
    // What the bytes spell is read, unless memory runs out.
    ensures only { (song : Module) → Spells bytes.now song → IsThisSong result song }
    // So is each valid song, from its canonical bytes.
    ensures canonical { (song : Module) → IsValid song → bytes.now ≡ canon song
        → IsThisSong result song }
    // The identification is refused at the first byte that differs.
    ensures not_xm { (at : ℕ)
        → (result ≡ Err (XmFault.NotXm at)) ↔ IsFirstWrong bytes.now at }
    // What is refused has this fault, or memory runs out.
    ensures fault { IfErr result (IsFaultOf bytes.now) }
    // What has a fault is refused by it, unless memory runs out.
    ensures refused { (f : XmFault) → HasFault bytes.now f → IsRefusedBy result f }
{
    spelled_is_valid();
    canonical_is_spelled();
    read_file(alloc, bytes)
}
