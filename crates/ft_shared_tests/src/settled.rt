//! Notes that are heard, and passes that are settled and resumed.
ghost use Rattle.std.specs.Prelude.{◌≡◌, ℕ, ◌+◌, ◌<◌, ◌≤◌, ◌∷◌, None, Some, IsSome, List, IsSomeAnd};
ghost use Rattle.ft_shared.specs.declared.law.Hold.{Hold};
ghost use Rattle.ft_shared.specs.Account.{last_settled};
ghost use Rattle.ft_shared.specs.Pass.{hold_at};
ghost use Rattle.ft_shared_tests.specs.Author.{IsAuthor};

use crate::author::{open_bare, publish_next};
use crate::rows::{left, pin_shows, version_shows};
use crate::scans::scan_all;
use ft_shared::{Held, ReaderPass, Shared, WriterPass};
use ft_types::Steps;
use std::marker::Brand;
use std::sync::ledger::{Blank, Ledger};
use std::test::Fail;

/// The version that a note of the current one names, and what a reader takes that has heard it.
fn heard_and_taken<L: Ledger>(
    shared: &Shared,
    writer: &mut WriterPass,
    reader: &mut ReaderPass,
    steps: &mut Steps<L>,
) -> (u32, Held)
    requires writer { writer.old.register ≡ shared.now }
    requires reader { (reader.old.register ≡ shared.now) × (reader.old.notes.held ≡ None) }
    ensures current { result.0 ≡ writer.old.account.version }
    ensures later { result.0 ≤ result.1.version }
{
    let note = shared.note(writer);
    let told = note.version();
    shared.hear(reader, note);
    (told, shared.take(reader, steps))
}

/// A note of version 1 is heard by a reader that has seen nothing.
fn hear_one<L: Ledger>(
    blank: Blank,
    shared: &Shared,
    writer: &mut WriterPass,
    roots: &mut Vec<u16>,
    reader: &mut ReaderPass,
) -> bool
    requires blank { (blank.name ≡ L.name) × (blank.parts ≡ L.parts) × (0 < L.parts) }
    requires author { IsAuthor shared.now writer.old roots.old.items }
    requires sizes { (shared.now.sizes.readers ≡ 1) × (shared.now.sizes.channels ≡ 2) }
    requires fresh { (reader.old.register ≡ shared.now) × (reader.old.notes.held ≡ None)
        × (writer.old.account.version ≡ 0) }
{
    let mut steps = Steps::<L>::open(blank);
    let one = publish_next(shared, writer, roots, 1, 2);
    let (told, held) = heard_and_taken(shared, writer, reader, &mut steps);
    one == Some(1) && told == 1 && held.version == 1 && held.root == 1
}

#[test]
fn a_take_after_a_note_is_as_new_as_the_note(rt: HostRuntime) -> Result<(), Fail> {
    let Some((shared, mut writer, mut passes, mut roots)) = open_bare(rt.alloc(), 4, 1, 2) else {
        panic!(rt; "no register");
    };
    let Some(mut reader) = passes.next() else {
        panic!(rt; "no pass");
    };
    let shown = hear_one::<Brand>(Blank::new(1), &shared, &mut writer, &mut roots, &mut reader);
    assert!(rt; shown);
    Ok(())
}

/// Whether a whole scan of two readers answers these of the slots, and finds pins of these roots.
fn scan_of_two_shows(
    shared: &Shared,
    writer: &mut WriterPass,
    roots: &[u16],
    slots: &[Option<u32>],
    pins: &[u16],
) -> bool
    requires author { IsAuthor shared.now writer.old roots.now }
    requires sizes { (shared.now.sizes.readers ≡ 2) × (shared.now.sizes.channels ≡ 2) }
    ensures author { IsAuthor shared.now writer.new roots.now }
    ensures version { writer.new.account.version ≡ writer.old.account.version }
    ensures settled { writer.new.account.settled ≡ writer.old.account.settled }
{
    let (answers, found) = scan_all(shared, writer, 2, 2);
    answers.as_slice() == slots && found.as_slice() == pins
}

/// Settles the pass of a reader, and gives the version that was current.
fn settled_at(shared: &Shared, writer: &mut WriterPass, roots: &[u16], reader: ReaderPass) -> u32
    requires author { IsAuthor shared.now writer.old roots.now }
    requires reader { reader.register ≡ shared.now }
    ensures author { IsAuthor shared.now writer.new roots.now }
    ensures version { (writer.new.account.version ≡ writer.old.account.version)
        × (result ≡ writer.old.account.version) }
    ensures settled { writer.new.account.settled
        ≡ hold_at reader ∷ writer.old.account.settled }
{
    shared.settle(writer, reader).version
}

/// Gives back the pass that was settled last.
fn resumed(shared: &Shared, writer: &mut WriterPass, roots: &[u16]) -> ReaderPass
    requires author { IsAuthor shared.now writer.old roots.now }
    requires some { IsSome (last_settled writer.old.account) }
    ensures author { IsAuthor shared.now writer.new roots.now }
    ensures version { writer.new.account.version ≡ writer.old.account.version }
    ensures pass { result.register ≡ shared.now }
    ensures hold { (hold : Hold) (holds : List Hold)
        → writer.old.account.settled ≡ hold ∷ holds
        → (writer.new.account.settled ≡ holds) × (result.notes.held ≡ hold.notes.held)
        × (result.notes.pins ≡ hold.notes.pins) }
{
    shared.resume(writer)
}

/// Settles two passes, publishes a version, scans while both are settled, and resumes both: the one
/// that was settled last comes first. Answers whether all was as it should be, and gives the
/// passes.
fn through(
    shared: &Shared,
    writer: &mut WriterPass,
    roots: &mut Vec<u16>,
    first: ReaderPass,
    second: ReaderPass,
) -> (bool, ReaderPass, ReaderPass)
    requires author { IsAuthor shared.now writer.old roots.old.items }
    requires sizes { (shared.now.sizes.readers ≡ 2) × (shared.now.sizes.channels ≡ 2) }
    requires room { writer.old.account.version < 4294967295 }
    requires passes { (first.register ≡ shared.now) × (second.register ≡ shared.now) }
    ensures author { IsAuthor shared.now writer.new roots.new.items }
    ensures first { (result.1.register ≡ shared.now) × (result.1.notes.held ≡ first.notes.held)
        × (result.1.notes.pins ≡ first.notes.pins) }
    ensures second { (result.2.register ≡ shared.now)
        × (result.2.notes.held ≡ second.notes.held)
        × (result.2.notes.pins ≡ second.notes.pins) }
{
    let one = settled_at(shared, writer, roots, first);
    let also = settled_at(shared, writer, roots, second);
    let two = publish_next(shared, writer, roots, 2, 2);
    let slots = [Some(0), Some(1), Some(2), None];
    let all = scan_of_two_shows(shared, writer, roots, &slots, &[1]);
    let newer = resumed(shared, writer, roots);
    let older = resumed(shared, writer, roots);
    (one == 1 && also == 1 && two == Some(2) && all, older, newer)
}

/// A reader holds version 0, and another version 1, whose sample it pins. Both are settled while
/// version 2 is published, and resumed. They hold what they held, and see version 2.
fn settle_two<L: Ledger>(
    blank: Blank,
    shared: &Shared,
    writer: &mut WriterPass,
    roots: &mut Vec<u16>,
    mut first: ReaderPass,
    mut second: ReaderPass,
) -> bool
    requires blank { (blank.name ≡ L.name) × (blank.parts ≡ L.parts) × (0 < L.parts) }
    requires author { IsAuthor shared.now writer.old roots.old.items }
    requires sizes { (shared.now.sizes.readers ≡ 2) × (shared.now.sizes.channels ≡ 2)
        × (shared.now.sizes.segments ≡ 4) }
    requires first { (first.register ≡ shared.now) × (first.notes.held ≡ None) }
    requires second { (second.register ≡ shared.now) × (second.notes.held ≡ None)
        × (writer.old.account.version ≡ 0) }
{
    let mut steps = Steps::<L>::open(blank);
    let zero = shared.take(&mut first, &mut steps);
    let one = publish_next(shared, writer, roots, 2, 2);
    let held = shared.take(&mut second, &mut steps);
    shared.pin(&mut second, 0, 1, &mut steps);
    let (shown, mut older, mut newer) = through(shared, writer, roots, first, second);
    let by_pin = pin_shows(shared, &mut newer, 1, 1, &mut steps);
    let by_version = version_shows(shared, &mut newer, 1, 1, &mut steps);
    let by_older = version_shows(shared, &mut older, 0, 0, &mut steps);
    if !left(shared, &mut newer, held.version, &mut steps) {
        return false;
    }
    if !left(shared, &mut older, zero.version, &mut steps) {
        return false;
    }
    let next = shared.take(&mut older, &mut steps);
    let slots = [None, None, Some(2), None];
    let then = scan_of_two_shows(shared, writer, roots, &slots, &[1]);
    (zero.version == 0 && one == Some(1) && held.version == 1 && shown)
        && (by_pin && by_version && by_older && next.version == 2 && then)
}

#[test]
fn settled_passes_keep_what_they_hold_and_come_back(rt: HostRuntime) -> Result<(), Fail> {
    let Some((shared, mut writer, mut passes, mut roots)) = open_bare(rt.alloc(), 4, 2, 2) else {
        panic!(rt; "no register");
    };
    let Some(second) = passes.next() else {
        panic!(rt; "no pass");
    };
    let Some(first) = passes.next() else {
        panic!(rt; "no pass");
    };
    let shown = settle_two::<Brand>(
        Blank::new(1),
        &shared,
        &mut writer,
        &mut roots,
        first,
        second,
    );
    assert!(rt; shown);
    Ok(())
}
