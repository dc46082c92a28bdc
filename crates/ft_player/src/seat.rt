//! What a player keeps for a channel that sounds.

ghost use Rattle.std.specs.Prelude.{◌≡◌, ◌≢◌, ◌⊎◌, [], true, false, Some, MatchOption};
ghost use Rattle.ft_types.specs.Work as work_of;
ghost use Rattle.ft_player.specs.declared.seat.KeptWord.{KeptWord as AWord};
ghost use Rattle.ft_player.specs.Seats.{numbers_of, IsWordKept};

use ft_types::SampleHead;

/// A word of frames that was read, and where it is.
#[derive(Clone, Copy)]
pub struct KeptWord {
    /// Its number in the sample, four frames each.
    pub number: u32,
    /// The segment of its body.
    pub body: u16,
    /// What was read.
    pub value: u64,
}

/// The last two words of frames that were asked for; none at first.
#[derive(Clone, Copy)]
pub struct KeptWords {
    /// The last word.
    pub newest: Option<KeptWord>,
    /// The word before it, where there is a last.
    pub older: Option<KeptWord>,
}

impl KeptWords {
    /// No word.
    pub fn none() -> KeptWords
        ensures numbers { numbers_of result ≡ [] }
        ensures kept { (word : AWord) → IsWordKept result word → ⊥ }
    {
        KeptWords {
            newest: None,
            older: None,
        }
    }

    /// The kept word of a number that the newest one doesn't have.
    #[inline]
    pub fn older_of(&self, number: u32) -> Option<KeptWord>
        requires { (word : AWord) → self.now.newest ≡ Some word → word.number ≢ number }
        ensures { MatchOption result (work_of.is_kept number (numbers_of self.now) ≡ false)
            (λ word. (work_of.is_kept number (numbers_of self.now) ≡ true)
            × (word.number ≡ number) × IsWordKept self.now word) }
    {
        if self.newest.is_none() {
            return None;
        }
        let Some(older) = self.older else {
            return None;
        };
        if older.number == number {
            return Some(older);
        }
        None
    }

    /// A kept word of the same body as the word of a number.
    #[inline]
    pub fn near(&self, number: u32) -> Option<KeptWord>
        ensures { MatchOption result (work_of.is_near number (numbers_of self.now) ≡ false)
            (λ word. (work_of.is_near number (numbers_of self.now) ≡ true)
            × (work_of.body_of word.number ≡ work_of.body_of number) × IsWordKept self.now word) }
    {
        let Some(newest) = self.newest else {
            return None;
        };
        if newest.number / 256 == number / 256 {
            return Some(newest);
        }
        let Some(older) = self.older else {
            return None;
        };
        if older.number / 256 == number / 256 {
            return Some(older);
        }
        None
    }

    /// This word was asked for, which isn't the newest one.
    #[inline]
    pub fn put(&mut self, word: KeptWord)
        requires { (other : AWord) → self.old.newest ≡ Some other → other.number ≢ word.number }
        ensures numbers { numbers_of self.new ≡ work_of.asked word.number (numbers_of self.old) }
        ensures kept { (other : AWord) → IsWordKept self.new other
            → (other ≡ word) ⊎ IsWordKept self.old other }
    {
        self.older = self.newest;
        self.newest = Some(word);
    }
}

/// The sample of a channel that sounds, as it was in the version in which its voice began.
#[derive(Clone, Copy)]
pub struct Seat {
    /// The number of that version.
    pub version: u32,
    /// The segment of the sample's root.
    pub root: u16,
    /// The instrument, from 1, and the note, from 0, that gave the sample.
    pub instrument: u8,
    pub note: u8,
    /// The sample's head.
    pub head: SampleHead,
    /// The words of frames that were asked for since its start.
    pub words: KeptWords,
}
