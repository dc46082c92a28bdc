//! The identification, bytes 0 to 16 of a file.

ghost use Rattle.std.specs.Prelude.{◌≡◌, ◌≢◌, ◌<◌, length, IfSome, Err};
ghost use Rattle.ft_xmread.specs.Reader.{FileReads};
ghost use Rattle.ft_xmread.specs.Identification.{stands, wrong_from, identification_at};

use crate::fault::XmFault;
use crate::reader::Reader;
use ft_format::{IDENTIFICATION, LETTER, SMALL};

/// Whether the byte at `k` is the identification's; its M may be small.
fn stands_at(piece: &[u8], k: usize) -> bool
    requires long { length piece.now ≡ 17 }
    requires within { k < 17 }
    ensures { result ≡ stands piece.now k }
{
    piece[k] == IDENTIFICATION[k] || (k == LETTER && piece[k] == SMALL)
}

/// The first byte that differs.
#[tactic(auto, unfolding(crate::specs::Identification::wrong_from))]
fn first_wrong(piece: &[u8]) -> Option<usize>
    requires { length piece.now ≡ 17 }
    ensures first { result ≡ wrong_from 0 17 piece.now }
    ensures within { IfSome result (λ k. k < 17) }
{
    for k in 0..17 {
        if !stands_at(piece, k) {
            return Some(k);
        }
    }
    None
}

/// The letter M of the identification, capital or small. `NotXm` at the first byte that differs.
#[tactic(auto, unfolding(crate::specs::Identification::identification_at))]
pub fn read_identification(reader: &mut Reader) -> Result<u8, XmFault>
    ensures value { FileReads (λ x. x) result reader.new (identification_at reader.old) }
    ensures memory { result ≢ Err XmFault.NoMemory }
{
    let at = reader.place();
    let piece = reader.field(17)?;
    if let Some(k) = first_wrong(piece) {
        return Err(XmFault::NotXm { at: at + k as u64 });
    }
    Ok(piece[LETTER])
}
