//! The words of a ledger's line, taken from the left.

ghost use Rattle.std.specs.Prelude.{◌≡◌, ◌==◌, ◌<◌, ◌≤◌, [], ◌∷◌, length, codes, decimal, MatchOption, IfSome};
ghost use Rattle.std.specs.Bool.{OnTrue};
ghost use Rattle.std.specs.Option.{option_copied};
ghost use Rattle.ft_text.specs.Record.{IsEndStatus};
ghost use Rattle.std.specs.List.{slice_split, position_or_len, join_with_byte};
ghost use Rattle.ft_lines.specs.Values.{number_of, signed_of};
ghost use Rattle.ft_lines.specs.Edits.{named};
ghost use Rattle.ft_text.specs.LedgerWords.{word, this, u8_word, u16_word, u32_word, u64_word, form_of, hand_from, hand_causes, saved_name, is_told, status_of};
ghost use Rattle.ft_text.specs.LedgerAnswers.{Takes, parts_left};

use ft_lines::{number, signed};
use itoa::Buffer;
use std::marker::Model;

/// How many bytes come before the first one like this, or all.
fn place_of(bytes: &[u8], by: u8) -> usize
    ensures value { result ≡ position_or_len (λ b. b == by) bytes.now }
    ensures within { result ≤ length bytes.now }
{
    for (i, byte) in bytes.iter().enumerate() {
        if *byte == by {
            return i;
        }
    }
    bytes.len()
}

/// The bytes before the first one like this, and those behind it; none where there is none.
pub fn cut_at<'a>(bytes: &'a [u8], by: u8) -> Option<(&'a [u8], &'a [u8])>
    ensures parts { MatchOption result
        (slice_split (λ b. b == by) bytes.now ≡ bytes.now ∷ [])
        (λ cut. slice_split (λ b. b == by) bytes.now ≡
        cut.0.now ∷ slice_split (λ b. b == by) cut.1.now) }
    ensures shorter { IfSome result (λ cut. length cut.1.now < length bytes.now) }
{
    let i = place_of(bytes, by);
    if i == bytes.len() {
        return None;
    }
    let (front, back) = bytes.split_at(i);
    Some((front, &back[1..]))
}

/// The next part, and what is left behind it.
pub fn next_of<'a>(left: Option<&'a [u8]>, by: u8) -> Option<(&'a [u8], Option<&'a [u8]>)>
    ensures { MatchOption result
        (parts_left by (option_copied left.entry) ≡ [])
        (λ next. parts_left by (option_copied left.entry) ≡
        next.0.now ∷ parts_left by (option_copied next.1)) }
{
    let bytes = left?;
    match cut_at(bytes, by) {
        Some((part, rest)) => Some((part, Some(rest))),
        None => Some((bytes, None)),
    }
}

/// Takes the words of a line from the left; one space is between two of them. Contracts see those
/// that are left.
#[derive(Drop)]
pub struct Words<'a> {
    left: Option<&'a [u8]>,
}

impl<'a> Model for Words<'a> {
    ghost use Rattle.std.specs.Prelude.{List, ℕ};
    ghost use Rattle.std.specs.Option.{option_copied};
    ghost use Rattle.ft_text.specs.LedgerAnswers.{parts_left};

    ghost Value = { List (List ℕ) };

    ghost view = { λ w. parts_left 32 (option_copied w.left) };
}

impl<'a> Words<'a> {
    /// All words of a line.
    pub fn new(line: &'a [u8]) -> Words<'a>
        ensures { result ≡ slice_split (λ b. b == 32) line.now }
    {
        Words { left: Some(line) }
    }

    /// Whether no word is left.
    pub fn is_over(&self) -> bool
        ensures { result ≡ (length self.now == 0) }
    {
        self.left.is_none()
    }

    /// The text of all words that are left.
    pub fn rest(&self) -> &'a [u8]
        ensures { result.now ≡ join_with_byte 32 self.now }
    {
        match self.left {
            Some(line) => line,
            None => &[],
        }
    }

    /// The next word.
    pub fn next(&mut self) -> Option<&'a [u8]>
        ensures { MatchOption result (self.old ≡ []) (λ w. self.old ≡ w.now ∷ self.new) }
    {
        let (word, rest) = next_of(self.left, b' ')?;
        self.left = rest;
        Some(word)
    }
}

/// Whether a ledger of this form may end with this status.
fn is_told(form: u8, status: u8) -> bool
    ensures value { result ≡ is_told form status }
    ensures told { OnTrue result (IsEndStatus status) }
{
    match status {
        0 | 5 | 8 | 9 => true,
        10 => form != 1,
        _ => false,
    }
}

/// Numbers, and words that have to be there.
impl<'a> Words<'a> {
    /// This word.
    #[tactic(auto, unfolding(crate::specs::LedgerWords::word))]
    pub fn this(&mut self, wanted: &str) -> Option<()>
        ensures { Takes (λ _. wanted.now) result self.new (this wanted.now self.old) }
    {
        let word = self.next()?;
        if word == wanted.as_bytes() {
            Some(())
        } else {
            None
        }
    }

    /// A number of at most `most`.
    #[tactic(auto, unfolding(crate::specs::LedgerWords::word))]
    fn number(&mut self, most: u64) -> Option<u64>
        ensures value { Takes (λ n. n) result self.new (word (number_of most) self.old) }
        ensures within { IfSome result (λ n. n ≤ most) }
    {
        let word = self.next()?;
        number(word, most)
    }

    /// A u8.
    pub fn u8(&mut self) -> Option<u8>
        ensures { Takes (λ n. n) result self.new (u8_word self.old) }
    {
        let n = self.number(255)?;
        Some(n as u8)
    }

    /// A u16.
    pub fn u16(&mut self) -> Option<u16>
        ensures { Takes (λ n. n) result self.new (u16_word self.old) }
    {
        let n = self.number(65_535)?;
        Some(n as u16)
    }

    /// A u32.
    pub fn u32(&mut self) -> Option<u32>
        ensures { Takes (λ n. n) result self.new (u32_word self.old) }
    {
        let n = self.number(4_294_967_295)?;
        Some(n as u32)
    }

    /// A u64.
    pub fn u64(&mut self) -> Option<u64>
        ensures { Takes (λ n. n) result self.new (u64_word self.old) }
    {
        self.number(u64::MAX)
    }

    /// An i64.
    #[tactic(auto, unfolding(crate::specs::LedgerWords::word))]
    pub fn i64(&mut self) -> Option<i64>
        ensures { Takes (λ n. n) result self.new (word (signed_of 9223372036854775807) self.old) }
    {
        let word = self.next()?;
        signed(word, 9_223_372_036_854_775_807)
    }

    /// This count.
    #[tactic(auto, unfolding(crate::specs::LedgerWords::word))]
    pub fn count(&mut self, n: usize) -> Option<()>
        ensures { Takes (λ _. decimal n) result self.new (this (decimal n) self.old) }
    {
        let word = self.next()?;
        let mut buffer = Buffer::new();
        if word == buffer.format(n).as_bytes() {
            Some(())
        } else {
            None
        }
    }

    /// A form, 1 or 2.
    #[tactic(auto, unfolding(crate::specs::LedgerWords::word))]
    pub fn form(&mut self) -> Option<u8>
        ensures value { Takes (λ form. form) result self.new (word form_of self.old) }
        ensures within { IfSome result (λ form. (1 ≤ form) × (form ≤ 2)) }
    {
        let word = self.next()?;
        let form = number(word, 2)?;
        if form >= 1 { Some(form as u8) } else { None }
    }

    /// A hand's number that is at least this.
    #[tactic(auto, unfolding(crate::specs::LedgerWords::word))]
    pub fn hand_from(&mut self, least: u16) -> Option<u8>
        ensures value { Takes (λ hand. hand) result self.new (word (hand_from least) self.old) }
        ensures from { IfSome result (λ hand. least ≤ hand) }
    {
        let word = self.next()?;
        let hand = number(word, 255)?;
        if u64::from(least) <= hand {
            Some(hand as u8)
        } else {
            None
        }
    }

    /// How a hand ended early.
    #[tactic(auto, unfolding(crate::specs::LedgerWords::word))]
    pub fn hand_cause(&mut self) -> Option<u8>
        ensures value { Takes (λ cause. cause) result self.new (word (named hand_causes) self.old) }
        ensures cause { IfSome result (λ cause. (1 ≤ cause) × (cause ≤ 4)) }
    {
        let name = self.next()?;
        if name == "malformed".as_bytes() {
            return Some(1);
        }
        if name == "failed".as_bytes() {
            return Some(2);
        }
        if name == "limit".as_bytes() {
            return Some(3);
        }
        if name == "memory".as_bytes() {
            return Some(4);
        }
        None
    }

    /// The name of a saved song's line, which form 1 doesn't have.
    #[tactic(auto, unfolding(crate::specs::LedgerWords::word))]
    pub fn saved_name(&mut self, form: u8) -> Option<()>
        ensures { Takes (λ _. codes "s") result self.new (word (saved_name form) self.old) }
    {
        let word = self.next()?;
        if form == 1 {
            return None;
        }
        if word == "s".as_bytes() {
            Some(())
        } else {
            None
        }
    }

    /// A status that a ledger of this form may end with.
    #[tactic(auto, unfolding(crate::specs::LedgerWords::word))]
    pub fn status(&mut self, form: u8) -> Option<u8>
        ensures value { Takes (λ status. status) result self.new (word (status_of form) self.old) }
        ensures told { IfSome result IsEndStatus }
    {
        let word = self.next()?;
        let status = number(word, 255)?;
        if is_told(form, status as u8) {
            Some(status as u8)
        } else {
            None
        }
    }
}
