//! A reader pins a sample of the version that it holds, and goes on reading it when it has left
//! that version; the writer looks at the pins.
ghost use Rattle.std.specs.Prelude.{◌≡◌, ◌+◌, ◌<◌, ◌≤◌, IsSome, IsNone};
ghost use Rattle.ft_shared.specs.declared.law.Hold.{Hold};
ghost use Rattle.ft_shared.specs.Counts.{pin_of, pin_word};
ghost use Rattle.ft_shared.specs.Account.{SlotsAreMet, AreAllSettled, IsSettledReader, pinned_root, after_pin_scan};
ghost use Rattle.ft_shared.specs.Pass.{pin_from, note_pin, note_unpin, note_pinned_word};

use crate::plays::{Pinned, ReadPinned, ScanPin, SetPin, Unpin};
use crate::reader::ReaderPass;
use crate::shared::Shared;
use crate::writer::WriterPass;
use ft_types::Steps;
use std::marker::Brand;
use std::sync::ledger::Ledger;

impl Shared {
    /// Sets the pin of a channel to the sample with this root segment, from the version that
    /// the pass holds. The former pin is gone. One store.
    pub fn pin<L: Ledger>(
        &self,
        pass: &mut ReaderPass,
        channel: u8,
        root: u16,
        steps: &mut Steps<L>,
    )
        requires same { pass.old.register ≡ self.now }
        requires held { IsSome pass.old.notes.held }
        requires channel { channel < self.now.sizes.channels }
        requires root { root < self.now.sizes.segments }
        ensures noted { pass.new
            ≡ record pass.old { notes = note_pin pass.old.notes channel root } }
        ensures stands { pin_of pass.new.notes channel ≡ pin_from pass.old.notes.held root }
        ensures steps { steps.new ≡ steps.old + 1 }
    {
        let word = self.pin_word_of(pass.number, channel);
        self.words
            .counted_store::<SetPin, L>(&mut pass.place, word, root as u64 + 1, steps);
    }

    /// Takes the pin of a channel away, if there is one. One store.
    pub fn unpin<L: Ledger>(&self, pass: &mut ReaderPass, channel: u8, steps: &mut Steps<L>)
        requires same { pass.old.register ≡ self.now }
        requires channel { channel < self.now.sizes.channels }
        ensures noted { pass.new
            ≡ record pass.old { notes = note_unpin pass.old.notes channel } }
        ensures gone { IsNone (pin_of pass.new.notes channel) }
        ensures steps { steps.new ≡ steps.old + 1 }
    {
        let word = self.pin_word_of(pass.number, channel);
        self.words
            .counted_store::<Unpin, L>(&mut pass.place, word, 0, steps);
    }

    /// The word `at` of the segment `seg`, by the pin of a channel. It is noted with the pin's
    /// version: where the pin holds the segment, it is that version's word. One load.
    pub fn pinned_word<L: Ledger>(
        &self,
        pass: &mut ReaderPass,
        channel: u8,
        seg: u16,
        at: u8,
        steps: &mut Steps<L>,
    ) -> u64
        requires same { pass.old.register ≡ self.now }
        requires pin { IsSome (pin_of pass.old.notes channel) }
        requires segment { seg < self.now.sizes.segments }
        ensures noted { pass.new
            ≡ record pass.old { notes = note_pinned_word pass.old.notes channel seg at result } }
        ensures steps { steps.new ≡ steps.old + 1 }
    {
        self.read_pinned::<Brand, L>(pass, channel, seg, at, steps)
    }

    fn read_pinned<C: Pinned, L: Ledger>(
        &self,
        pass: &mut ReaderPass,
        channel: u8,
        seg: u16,
        at: u8,
        steps: &mut Steps<L>,
    ) -> u64
        requires channel { C.channel ≡ channel }
        requires same { pass.old.register ≡ self.now }
        requires segment { seg < self.now.sizes.segments }
        ensures noted { pass.new
            ≡ record pass.old { notes = note_pinned_word pass.old.notes channel seg at result } }
        ensures steps { steps.new ≡ steps.old + 1 }
    {
        let word = self.word_of(seg, at);
        self.words
            .load::<ReadPinned<C>, L>(&mut pass.place, word, steps)
    }

    /// The root segment of the pin that the reader with this number has on a channel, and `None`
    /// where it has none. All slots must have been looked at. One load.
    ///
    /// Where the reader's pass is settled, that is exactly the pin which it has.
    pub fn scan_pin(&self, pass: &mut WriterPass, reader: u8, channel: u8) -> Option<u16>
        requires same { pass.old.register ≡ self.now }
        requires slots { SlotsAreMet self.now.sizes pass.old.account }
        requires reader { reader < self.now.sizes.readers }
        requires channel { channel < self.now.sizes.channels }
        ensures noted { pass.new ≡ record pass.old {
          account = after_pin_scan pass.old.account reader channel pass.new.account.pinned;
        } }
        ensures answer { result ≡ pinned_root pass.new.account.pinned }
        ensures settled { (hold : Hold) → IsSettledReader pass.old.account reader hold
            → result ≡ pinned_root (pin_word (pin_of hold.notes channel)) }
        ensures exact { AreAllSettled pass.old.account
            → (hold : Hold) × IsSettledReader pass.old.account reader hold
            × (result ≡ pinned_root (pin_word (pin_of hold.notes channel))) }
    {
        let word = self.pin_word_of(reader, channel);
        let pinned = self.words.scan_load::<ScanPin>(&mut pass.place, word);
        root_in(pinned)
    }
}

/// The root segment that a pin word names, if it names one.
fn root_in(word: u64) -> Option<u16>
    requires { word ≤ 65536 }
    ensures { result ≡ pinned_root word }
{
    if word == 0 {
        None
    } else {
        Some((word - 1) as u16)
    }
}
