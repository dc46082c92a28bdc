//! The words that threads share, with one function for each kind of atomic step.
//!
//! No other file of the crate calls the table. Each function makes one step, on the word that
//! it is given, and counts it where its caller counts. A kind of step names its word, and
//! notes it in the pass: so a pass has noted each step that was made with it.
ghost use Rattle.std.specs.Prelude.{◌≡◌, ℕ, ◌+◌, ◌%◌, ◌^◌, ◌<◌, [], length, IfOk};
ghost use mathlib.Core.Option.{none};
ghost use Rattle.atomic_table.specs.Table.{step, opening, Splits, Joins};
ghost use Rattle.ft_shared.specs.Account.{first_account};
ghost use Rattle.ft_shared.specs.Register.{RegisterRule};
ghost use Rattle.ft_shared.specs.Plays.{MayStep};
ghost use Rattle.ft_shared.specs.declared.law.View.TheVariants.{Writer};

use crate::law::{Law, Opening, Place, View};
use atomic_table::{Join, Play, Split, Table};
use ft_types::Steps;
use std::alloc::{AllocError, Global};
use std::sync::ledger::Ledger;

/// A kind of step that loads a word.
pub(crate) trait Loads {}

/// A kind of step that stores a word.
pub(crate) trait Stores {}

/// A kind of step that stores a word and gives the one before.
pub(crate) trait Swaps {}

/// A kind of step that adds to a word and gives the one before.
pub(crate) trait Adds {}

/// The table, which nothing else of the crate reaches.
#[derive(Drop)]
pub(crate) struct WordTable {
    table: Table<(), View, Opening, Law, Global>,
}

impl WordTable {
    /// A table of these words, and the writer's seat.
    pub(crate) fn of_words(
        alloc: Global,
        words: &[u64],
        key: &Opening,
    ) -> Result<(WordTable, Place), AllocError>
        requires { RegisterRule key.now (opening words.now [] (Writer (first_account key.now))) }
        ensures { IfOk result (λ made. (made.0.table.shared.table_id.words ≡ length words.now)
            × (made.0.table.shared.table_id.slots ≡ 0)
            × (made.1.table_id ≡ made.0.table.shared.table_id)
            × (made.1.id ≡ 0)
            × (made.1.me ≡ (Writer (first_account key.now), []))
            × (made.0.table.shared.key ≡ key.now)) }
    {
        let (table, place) = Table::of_words(alloc, words, key)?;
        Ok((WordTable { table }, place))
    }

    /// Cuts a seat's view in two, and gives the new seat.
    pub(crate) fn split_seat<M: Split<View>>(&self, place: &mut Place) -> Place
        requires { (place.old.table_id ≡ self.now.table.shared.table_id)
            × (0 < self.now.table.shared.table_id.words)
            × Splits (RegisterRule self.now.table.shared.key) place.old.id place.old.me.0
            (M.left place.old.me.0) (M.right place.old.me.0) }
        ensures { (place.new.table_id ≡ place.old.table_id)
            × (place.new.id ≡ place.old.id)
            × (place.new.me ≡ (M.left place.old.me.0, place.old.me.1))
            × (result.table_id ≡ place.old.table_id)
            × (result.me ≡ (M.right place.old.me.0, [])) }
    {
        self.table.shared.split_seat::<M>(place)
    }

    /// Joins another seat to a seat, which takes in its view.
    pub(crate) fn join_seat<M: Join<View>>(&self, place: &mut Place, other: Place)
        requires { (place.old.table_id ≡ self.now.table.shared.table_id)
            × (other.table_id ≡ self.now.table.shared.table_id)
            × (other.me.1 ≡ [])
            × (0 < self.now.table.shared.table_id.words)
            × Joins (RegisterRule self.now.table.shared.key) place.old.id place.old.me.0
            other.id other.me.0 (M.both place.old.me.0 other.me.0) M.spent }
        ensures { (place.new.table_id ≡ place.old.table_id)
            × (place.new.id ≡ place.old.id)
            × (place.new.me ≡ (M.both place.old.me.0 other.me.0, place.old.me.1)) }
    {
        self.table.shared.join_seat::<M>(place, other);
    }

    /// One load of the word, which is counted.
    pub(crate) fn load<M: Play<(), View> + Loads, L: Ledger>(
        &self,
        place: &mut Place,
        word: usize,
        steps: &mut Steps<L>,
    ) -> u64
        requires { MayStep self.now.table.shared.key self.now.table.shared.table_id
            place.old.table_id place.old.id place.old.me word (λ n. n)
            (M.then (step self.now.table.shared.table_id.slots word 0 0 none) place.old.me) }
        ensures seat { (place.new.table_id ≡ place.old.table_id)
            × (place.new.id ≡ place.old.id)
            × M.then (step self.now.table.shared.table_id.slots word 0 0 none)
            place.old.me result place.new.me }
        ensures steps { steps.new ≡ steps.old + 1 }
    {
        let found = self.table.shared.load::<M>(place, word);
        steps.tick();
        found
    }

    /// One load of the word by the writer, whose steps are not counted.
    pub(crate) fn scan_load<M: Play<(), View> + Loads>(&self, place: &mut Place, word: usize) -> u64
        requires { MayStep self.now.table.shared.key self.now.table.shared.table_id
            place.old.table_id place.old.id place.old.me word (λ n. n)
            (M.then (step self.now.table.shared.table_id.slots word 0 0 none) place.old.me) }
        ensures { (place.new.table_id ≡ place.old.table_id)
            × (place.new.id ≡ place.old.id)
            × M.then (step self.now.table.shared.table_id.slots word 0 0 none)
            place.old.me result place.new.me }
    {
        self.table.shared.load::<M>(place, word)
    }

    /// One store to the word by the writer.
    pub(crate) fn store<M: Play<(), View> + Stores>(&self, place: &mut Place, word: usize, new: u64)
        requires { MayStep self.now.table.shared.key self.now.table.shared.table_id
            place.old.table_id place.old.id place.old.me word (λ _. new)
            (λ _. M.then (step self.now.table.shared.table_id.slots word new 0 none)
            place.old.me new) }
        ensures { (place.new.table_id ≡ place.old.table_id)
            × (place.new.id ≡ place.old.id)
            × M.then (step self.now.table.shared.table_id.slots word new 0 none)
            place.old.me new place.new.me }
    {
        self.table.shared.store::<M>(place, word, new);
    }

    /// One store to the word by a reader, which is counted.
    pub(crate) fn counted_store<M: Play<(), View> + Stores, L: Ledger>(
        &self,
        place: &mut Place,
        word: usize,
        new: u64,
        steps: &mut Steps<L>,
    )
        requires { MayStep self.now.table.shared.key self.now.table.shared.table_id
            place.old.table_id place.old.id place.old.me word (λ _. new)
            (λ _. M.then (step self.now.table.shared.table_id.slots word new 0 none)
            place.old.me new) }
        ensures seat { (place.new.table_id ≡ place.old.table_id)
            × (place.new.id ≡ place.old.id)
            × M.then (step self.now.table.shared.table_id.slots word new 0 none)
            place.old.me new place.new.me }
        ensures steps { steps.new ≡ steps.old + 1 }
    {
        self.table.shared.store::<M>(place, word, new);
        steps.tick();
    }

    /// One swap of the word by the writer.
    pub(crate) fn swap<M: Play<(), View> + Swaps>(
        &self,
        place: &mut Place,
        word: usize,
        new: u64,
    ) -> u64
        requires { MayStep self.now.table.shared.key self.now.table.shared.table_id
            place.old.table_id place.old.id place.old.me word (λ _. new)
            (M.then (step self.now.table.shared.table_id.slots word new 0 none) place.old.me) }
        ensures { (place.new.table_id ≡ place.old.table_id)
            × (place.new.id ≡ place.old.id)
            × M.then (step self.now.table.shared.table_id.slots word new 0 none)
            place.old.me result place.new.me }
    {
        self.table.shared.swap::<M>(place, word, new)
    }

    /// One addition of `more` to the word, modulo 2^64, which is counted.
    pub(crate) fn fetch_add<M: Play<(), View> + Adds, L: Ledger>(
        &self,
        place: &mut Place,
        word: usize,
        more: u64,
        steps: &mut Steps<L>,
    ) -> u64
        requires { MayStep self.now.table.shared.key self.now.table.shared.table_id
            place.old.table_id place.old.id place.old.me word (λ n. (n + more) % 2 ^ 64)
            (M.then (step self.now.table.shared.table_id.slots word more 0 none) place.old.me) }
        ensures seat { (place.new.table_id ≡ place.old.table_id)
            × (place.new.id ≡ place.old.id)
            × M.then (step self.now.table.shared.table_id.slots word more 0 none)
            place.old.me result place.new.me }
        ensures steps { steps.new ≡ steps.old + 1 }
    {
        let found = self.table.shared.fetch_add::<M>(place, word, more);
        steps.tick();
        found
    }
}
