//! The cursor by which a line is read.

ghost use Rattle.std.specs.Prelude.{◌≡◌, ◌≢◌, ◌+◌, ◌≤◌, ℕ, List, [], length, Ok, Err};
ghost use Rattle.std.specs.Bool.{OnTrue, OnFalse};
ghost use Rattle.ft_types.specs.declared.edit.Edit.{Edit};
ghost use Rattle.ft_lines.specs.Reading.{LinePlace, spaces, word_length, next_word, word, is_over, behind_spaces};
ghost use Rattle.ft_lines.specs.Lines.{this_word, others_reading};
ghost use Rattle.ft_lines.specs.Answers.{Reads};

use crate::fault::LineFault;
use std::marker::Model;

/// How many bytes a line has at most.
pub const MOST_BYTES: usize = 4096;

/// Reads a line word by word. Contracts see its place: how many bytes are before it, and those that
/// are left.
#[derive(Drop)]
pub struct Cursor<'a> {
    at: u16,
    left: &'a [u8],
}

impl<'a> Model for Cursor<'a> {
    ghost use Rattle.std.specs.Prelude.{◌+◌, ◌≤◌, length};
    ghost use Rattle.ft_lines.specs.Reading.{LinePlace};

    ghost Value = { LinePlace };

    ghost view = { λ c. record { at = c.at; left = c.left.now } };

    ghost invariant = { λ c. c.at + length c.left.now ≤ 4096 };
}

/// A word, and where it is.
#[derive(Clone, Copy)]
pub struct Word<'a> {
    /// The bytes before it.
    pub at: u16,
    /// Its own bytes.
    pub bytes: &'a [u8],
}

/// How many spaces come first.
#[tactic(auto, unfolding(crate::specs::Reading::spaces))]
fn spaces_of(bytes: &[u8]) -> usize
    ensures value { result ≡ spaces bytes.now }
    ensures within { result ≤ length bytes.now }
{
    for (i, byte) in bytes.iter().enumerate() {
        if *byte != b' ' {
            return i;
        }
    }
    bytes.len()
}

/// How many bytes come before the first space.
#[tactic(auto, unfolding(crate::specs::Reading::word_length))]
fn length_of(bytes: &[u8]) -> usize
    ensures value { result ≡ word_length bytes.now }
    ensures within { result ≤ length bytes.now }
{
    for (i, byte) in bytes.iter().enumerate() {
        if *byte == b' ' {
            return i;
        }
    }
    bytes.len()
}

impl<'a> Cursor<'a> {
    /// A cursor at the front of a line of at most 4,096 bytes.
    pub fn new(line: &'a [u8]) -> Cursor<'a>
        requires { length line.now ≤ 4096 }
        ensures { result ≡ record { at = 0; left = line.now } }
    {
        Cursor { at: 0, left: line }
    }

    /// Whether nothing but spaces is left.
    pub fn is_over(&self) -> bool
        ensures { result ≡ is_over self.now }
    {
        spaces_of(self.left) == self.left.len()
    }

    /// Where the next word is, or the length of the line.
    pub fn next_at(&self) -> u16
        ensures { result ≡ (behind_spaces self.now).at }
    {
        self.at + spaces_of(self.left) as u16
    }

    /// The next word. Where none is left words are missing.
    #[tactic(auto, unfolding(crate::specs::Reading::next_word))]
    pub fn word(&mut self) -> Result<Word<'a>, LineFault>
        ensures value { Reads (λ w. (w.at, w.bytes.now)) result self.new (next_word self.old) }
        ensures memory { result ≢ Err LineFault.NoMemory }
    {
        let before = spaces_of(self.left);
        let at = self.at + before as u16;
        let left = &self.left[before..];
        if left.is_empty() {
            return Err(LineFault::Bad { at });
        }
        let len = length_of(left);
        let (bytes, rest) = left.split_at(len);
        self.at = at + len as u16;
        self.left = rest;
        Ok(Word { at, bytes })
    }

    /// The next word, which has to be this one.
    pub fn this(&mut self, wanted: &[u8]) -> Result<(), LineFault>
        ensures value { Reads (λ _. wanted.now) result self.new
            (word (this_word wanted.now) self.old) }
        ensures memory { result ≢ Err LineFault.NoMemory }
    {
        let word = self.word()?;
        if word.bytes == wanted {
            Ok(())
        } else {
            Err(LineFault::Bad { at: word.at })
        }
    }

    /// Whether the next word begins with another byte than this one.
    fn begins_otherwise(&self, wanted: &[u8]) -> bool
        ensures { OnTrue result ((at : ℕ) × (word (this_word wanted.now) self.now ≡ Err at)) }
    {
        let left = &self.left[spaces_of(self.left)..];
        !left.is_empty() && !wanted.is_empty() && left[0] != wanted[0]
    }

    /// Whether the next word is this one; it is read then, and else nothing is.
    pub fn skips(&mut self, wanted: &[u8]) -> bool
        ensures yes { OnTrue result
            (word (this_word wanted.now) self.old ≡ Ok (wanted.now, self.new)) }
        ensures no { OnFalse result ((at : ℕ) × (word (this_word wanted.now) self.old ≡ Err at)) }
        ensures same { OnFalse result (self.new ≡ self.old) }
    {
        if self.begins_otherwise(wanted) {
            return false;
        }
        let mut ahead = Cursor {
            at: self.at,
            left: self.left,
        };
        match ahead.this(wanted) {
            Ok(()) => {
                self.at = ahead.at;
                self.left = ahead.left;
                true
            }
            Err(_) => false,
        }
    }

    /// Nothing but spaces is left; another word is too many.
    #[tactic(auto, unfolding(crate::specs::Lines::others_reading))]
    pub fn end(&mut self) -> Result<(), LineFault>
        ensures { Reads {Y = List Edit} (λ _. []) result self.new (others_reading 0 self.old) }
    {
        if self.is_over() {
            Ok(())
        } else {
            Err(LineFault::Bad { at: self.next_at() })
        }
    }
}
