//! Words of rows in which one byte or one id becomes another.

ghost use Rattle.std.specs.Prelude.{◌≡◌, ◌≢◌, ◌<◌, ◌+◌, ◌*◌, ◌/◌, ◌%◌, ℕ, List, All, slice_index};
ghost use Rattle.ft_segments.specs.Packing.{digit, bytes_word, ids_word};
ghost use Rattle.ft_image.specs.Changed.{IsOneChanged};

use crate::digits::{byte, quarter};
use crate::values::{bytes_word, ids_word};

/// Word `k` of a row of bytes, in which the byte at a place of the word becomes another.
#[tactic(auto, unfolding(ft_segments::specs::Packing::bytes_word))]
pub fn with_byte(word: u64, place: u8, b: u8) -> u64
    requires { place < 8 }
    ensures { (row new : List ℕ) (k : ℕ) → All (λ x. x < 256) row
        → IsOneChanged (k * 8 + place) b row new → word ≡ bytes_word row k
        → result ≡ bytes_word new k }
{
    let mut bytes = [0; 8];
    for i in 0..8u8 {
        bytes[usize::from(i)] = byte(word, i);
    }
    bytes[usize::from(place)] = b;
    bytes_word(&bytes, 0)
}

/// Word `k` of a row of ids, in which the id at a place of the word becomes another.
#[tactic(auto, unfolding(ft_segments::specs::Packing::ids_word))]
pub fn with_id(word: u64, place: u8, id: u16) -> u64
    requires { place < 4 }
    ensures { (row new : List ℕ) (k : ℕ) → All (λ x. x < 65536) row
        → IsOneChanged (k * 4 + place) id row new → word ≡ ids_word row k
        → result ≡ ids_word new k }
{
    let mut ids = [0; 4];
    for i in 0..4u8 {
        ids[usize::from(i)] = quarter(word, i);
    }
    ids[usize::from(place)] = id;
    ids_word(&ids, 0)
}

/// The other words of the row stay.
pub fn other_words_stay()
    ensures bytes { (at number k : ℕ) (row new : List ℕ) → IsOneChanged at number row new
        → k ≢ at / 8 → bytes_word new k ≡ bytes_word row k }
    ensures ids { (at number k : ℕ) (row new : List ℕ) → IsOneChanged at number row new
        → k ≢ at / 4 → ids_word new k ≡ ids_word row k }
{}

/// A byte or an id of a row is read from its word by its place.
pub fn rows_are_read()
    ensures bytes { (row : List ℕ) (i : ℕ) → All (λ x. x < 256) row
        → digit 256 (bytes_word row (i / 8)) (i % 8) ≡ slice_index row i }
    ensures ids { (row : List ℕ) (i : ℕ) → All (λ x. x < 65536) row
        → digit 65536 (ids_word row (i / 4)) (i % 4) ≡ slice_index row i }
{}
