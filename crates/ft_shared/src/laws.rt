//! What the rule gives, over all interleavings. No function here has code.
//!
//! The rule holds between any two steps, since each step keeps it. So what follows from it holds
//! between any two steps too.
//!
//! A law over `RegisterRule` says what is so of the words and views of a whole table. No caller has
//! these at hand, so none outside of this crate can use it: callers have the clauses `kept` of
//! `begin_scan`, `scan_slot` and `settle`, `agrees` and `sound` of `settle`, and what `fill` asks for.
ghost use Rattle.std.specs.Prelude.{◌≡◌, ◌⊎◌, ℕ, ◌+◌, List, ◌++◌, Some};
ghost use Rattle.std.specs.List.{slice_get};
ghost use mathlib.Core.Option.{some};
ghost use lib.ListN.{get_elem?};
ghost use Rattle.ft_shared.specs.declared.law.Opening.{Opening};
ghost use Rattle.ft_shared.specs.declared.law.PlacedVersion.{PlacedVersion};
ghost use Rattle.ft_shared.specs.declared.law.TakenVersion.{TakenVersion};
ghost use Rattle.ft_shared.specs.declared.law.Pin.{Pin};
ghost use Rattle.ft_shared.specs.declared.law.Notes.{Notes};
ghost use Rattle.ft_shared.specs.declared.law.Hold.{Hold};
ghost use Rattle.ft_shared.specs.declared.law.Account.{Account};
ghost use Rattle.ft_shared.specs.declared.law.View.{View};
ghost use Rattle.ft_shared.specs.Counts.{IsBehind, pin_of};
ghost use Rattle.ft_shared.specs.History.{placed_at, Agrees, IsHistory, IsSoundVersion, AreSound};
ghost use Rattle.ft_shared.specs.Account.{IsWhole, IsAnswered, Found, MayFill};
ghost use Rattle.ft_shared.specs.Segments.{IsUnwritten, IsPinUnwritten};
ghost use Rattle.ft_shared.specs.HeldSegments.{IsHeldBy, IsHeld};
ghost use Rattle.ft_shared.specs.Pass.{note_take, note_pin};
ghost use Rattle.ft_shared.specs.Register.{TableState, RegisterRule};

use ft_segments::held_by_a_pin_is_named;

/// A whole scan has found each segment that is held. So a segment that may be filled is not
/// held. It is a law over the rule, for readers: no caller can use it.
pub fn a_whole_scan_finds_each_held_segment()
    ensures found { (key : Opening) (state : TableState) (rule : RegisterRule key state)
        → IsWhole key.sizes rule.account
        → (segment : ℕ) → IsHeld rule.account state.views segment
        → Found rule.account segment }
    ensures unheld { (key : Opening) (state : TableState) (rule : RegisterRule key state)
        (segment : ℕ) → MayFill key.sizes rule.account segment
        → IsHeld rule.account state.views segment → ⊥ }
{
    held_by_a_pin_is_named();
}

/// What is held was not written since its version was placed: the segments of the current
/// version, those of a version that a pass holds, and those that a pin holds. It is a law over
/// the rule, for readers: callers have the clauses `kept`.
pub fn a_held_segment_is_as_placed()
    ensures current { (key : Opening) (state : TableState) (rule : RegisterRule key state)
        → IsUnwritten rule.account rule.account.version }
    ensures held { (key : Opening) (state : TableState) (rule : RegisterRule key state)
        (seat : ℕ) (view : View) (hold : Hold) → get_elem? state.views seat ≡ some view
        → IsBehind view hold
        → (taken : TakenVersion) → hold.notes.held ≡ Some taken
        → IsUnwritten rule.account taken.version }
    ensures pinned { (key : Opening) (state : TableState) (rule : RegisterRule key state)
        (seat : ℕ) (view : View) (hold : Hold) → get_elem? state.views seat ≡ some view
        → IsBehind view hold
        → (channel : ℕ) (pin : Pin) → pin_of hold.notes channel ≡ Some pin
        → IsPinUnwritten rule.account pin }
{}

/// The writer's history agrees with the notes of each pass. It is a law over the rule, for
/// readers: callers have the clauses `agrees` and `all` of `settle`.
pub fn the_history_agrees_with_each_pass()
    ensures { (key : Opening) (state : TableState) (rule : RegisterRule key state)
        (seat : ℕ) (view : View) (hold : Hold) → get_elem? state.views seat ≡ some view
        → IsBehind view hold
        → Agrees rule.account.history hold.notes }
{}

/// In a history, which is in order, the version at place n is found by the number first + n.
pub fn a_version_is_found_by_its_number()
    ensures { (history : List PlacedVersion) (first last root n : ℕ) (placed : PlacedVersion)
        → IsHistory history first last root → slice_get history n ≡ Some placed
        → placed_at history (first + n) ≡ Some placed }
{}

/// Until the next publish a reader's steps add no held segment that a whole scan did not find:
/// a take holds the current version, and a pin is set from a version that the scan answered.
pub fn a_take_or_a_pin_adds_found_segments_alone()
    ensures take { (account : Account) (notes : Notes) (taken : TakenVersion) (segment : ℕ)
        → taken.version ≡ account.version
        → IsHeldBy account.history (note_take notes taken) segment
        → IsHeldBy account.history notes segment ⊎ Found account segment }
    ensures pin { (account : Account) (notes : Notes) (channel root segment : ℕ)
        → ((taken : TakenVersion) → notes.held ≡ Some taken → IsAnswered account taken.version)
        → IsHeldBy account.history (note_pin notes channel root) segment
        → IsHeldBy account.history notes segment ⊎ Found account segment }
{}

/// A history that only grows keeps its agreement with notes that stay.
pub fn a_longer_history_agrees()
    ensures { (history more : List PlacedVersion) (notes : Notes)
        → Agrees history notes → Agrees (history ++ more) notes }
{}

/// The walk of each version of the history stays among the segments of the pool, and names each
/// once. The clause `history` is over the rule, for readers: callers have the clause `sound` of
/// `settle`. By the clause `version` each version that is found in such a history by its number is
/// sound.
pub fn each_version_is_sound()
    ensures history { (key : Opening) (state : TableState) (rule : RegisterRule key state)
        → AreSound key.sizes.segments rule.account.history }
    ensures version { (history : List PlacedVersion) (segments number : ℕ) (placed : PlacedVersion)
        → AreSound segments history → placed_at history number ≡ Some placed
        → IsSoundVersion segments placed }
{}
