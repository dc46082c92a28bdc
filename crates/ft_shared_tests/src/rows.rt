//! The worked register, with slots and pins; refusals; how many passes there are.
ghost use Rattle.std.specs.Prelude.{◌≡◌, ℕ, ◌+◌, ◌<◌, ◌≤◌, None, IsSome, IsSomeAnd, IsTrue, length};
ghost use Rattle.ft_segments.specs.Packing.{word_at};
ghost use Rattle.ft_shared.specs.Counts.{pin_of};
ghost use Rattle.ft_shared_tests.specs.Author.{IsAuthor};

use crate::author::{open_bare, publish_next};
use crate::scans::scan_all;
use ft_segments::a_bare_root_names_itself;
use ft_shared::{OpenFault, ReaderPass, Shared, WriterPass};
use ft_types::Steps;
use std::alloc::Global;
use std::marker::Brand;
use std::sync::ledger::{Blank, Ledger};
use std::test::Fail;

/// Whether a whole scan answers these of the slots, and finds pins of these roots.
fn scan_shows(
    shared: &Shared,
    writer: &mut WriterPass,
    roots: &[u16],
    slots: &[Option<u32>],
    pins: &[u16],
) -> bool
    requires author { IsAuthor shared.now writer.old roots.now }
    requires sizes { (shared.now.sizes.readers ≡ 1) × (shared.now.sizes.channels ≡ 2) }
    ensures author { IsAuthor shared.now writer.new roots.now }
    ensures version { writer.new.account.version ≡ writer.old.account.version }
{
    let (answers, found) = scan_all(shared, writer, 1, 2);
    answers.as_slice() == slots && found.as_slice() == pins
}

/// Looks, and leaves the held version if there is a newer one.
pub fn left<L: Ledger>(
    shared: &Shared,
    reader: &mut ReaderPass,
    held: u32,
    steps: &mut Steps<L>,
) -> bool
    requires same { reader.old.register ≡ shared.now }
    requires held { IsSomeAnd reader.old.notes.held (λ taken. taken.version ≡ held) }
    ensures same { reader.new.register ≡ reader.old.register }
    ensures none { IsTrue result → reader.new.notes.held ≡ None }
    ensures pins { reader.new.notes.pins ≡ reader.old.notes.pins }
{
    if shared.look(reader, steps) <= held {
        return false;
    }
    shared.leave(reader, steps);
    true
}

/// A reader keeps its version while two are published.
fn follow_one<L: Ledger>(
    blank: Blank,
    shared: &Shared,
    writer: &mut WriterPass,
    roots: &mut Vec<u16>,
    reader: &mut ReaderPass,
) -> bool
    requires blank { (blank.name ≡ L.name) × (blank.parts ≡ L.parts) × (0 < L.parts) }
    requires author { IsAuthor shared.now writer.old roots.old.items }
    requires sizes { (shared.now.sizes.readers ≡ 1) × (shared.now.sizes.channels ≡ 2) }
    requires fresh { (reader.old.register ≡ shared.now) × (reader.old.notes.held ≡ None)
        × (writer.old.account.version ≡ 0) }
{
    let mut steps = Steps::<L>::open(blank);
    let held = shared.take(reader, &mut steps);
    let first = scan_shows(shared, writer, roots, &[Some(0), None, None], &[]);
    let one = publish_next(shared, writer, roots, 1, 2);
    let second = scan_shows(shared, writer, roots, &[Some(0), Some(1), None], &[]);
    let two = publish_next(shared, writer, roots, 1, 2);
    let third = scan_shows(shared, writer, roots, &[Some(0), None, Some(2)], &[]);
    if !left(shared, reader, held.version, &mut steps) {
        return false;
    }
    let fourth = scan_shows(shared, writer, roots, &[None, None, Some(2)], &[]);
    let next = shared.take(reader, &mut steps);
    first
        && one == Some(1)
        && second
        && two == Some(2)
        && third
        && fourth
        && held.root == 0
        && next.version == 2
        && next.root == 2
}

#[test]
fn a_held_version_keeps_its_slot_and_its_segment(rt: HostRuntime) -> Result<(), Fail> {
    let Some((shared, mut writer, mut passes, mut roots)) = open_bare(rt.alloc(), 4, 1, 2) else {
        panic!(rt; "no register");
    };
    let Some(mut reader) = passes.next() else {
        panic!(rt; "no pass");
    };
    let shown = follow_one::<Brand>(Blank::new(1), &shared, &mut writer, &mut roots, &mut reader);
    assert!(rt; shown && shared.segments() == 4 && passes.next().is_none());
    Ok(())
}

/// Whether the words of the segment are those of a version of `publish_next`, by the pin of
/// channel 0.
pub fn pin_shows<L: Ledger>(
    shared: &Shared,
    reader: &mut ReaderPass,
    seg: u16,
    version: u64,
    steps: &mut Steps<L>,
) -> bool
    requires same { reader.old.register ≡ shared.now }
    requires pin { IsSome (pin_of reader.old.notes 0) }
    requires segment { seg < shared.now.sizes.segments }
    ensures same { reader.new.register ≡ reader.old.register }
    ensures held { reader.new.notes.held ≡ reader.old.notes.held }
    ensures pins { reader.new.notes.pins ≡ reader.old.notes.pins }
{
    let two = shared.pinned_word(reader, 0, seg, 2, steps);
    let three = shared.pinned_word(reader, 0, seg, 3, steps);
    two == version && three == version.wrapping_mul(3)
}

/// The same by the held version.
pub fn version_shows<L: Ledger>(
    shared: &Shared,
    reader: &mut ReaderPass,
    seg: u16,
    version: u64,
    steps: &mut Steps<L>,
) -> bool
    requires same { reader.old.register ≡ shared.now }
    requires held { IsSome reader.old.notes.held }
    requires segment { seg < shared.now.sizes.segments }
    ensures same { reader.new.register ≡ reader.old.register }
    ensures held { reader.new.notes.held ≡ reader.old.notes.held }
    ensures pins { reader.new.notes.pins ≡ reader.old.notes.pins }
{
    let two = shared.word(reader, seg, 2, steps);
    let three = shared.word(reader, seg, 3, steps);
    two == version && three == version.wrapping_mul(3)
}

/// A reader pins segment 0 and leaves its version. Of three segments none is then free, until it
/// takes the pin away.
fn pin_one<L: Ledger>(
    blank: Blank,
    shared: &Shared,
    writer: &mut WriterPass,
    roots: &mut Vec<u16>,
    reader: &mut ReaderPass,
) -> bool
    requires blank { (blank.name ≡ L.name) × (blank.parts ≡ L.parts) × (0 < L.parts) }
    requires author { IsAuthor shared.now writer.old roots.old.items }
    requires sizes { (shared.now.sizes.readers ≡ 1) × (shared.now.sizes.channels ≡ 2)
        × (shared.now.sizes.segments ≡ 3) }
    requires fresh { (reader.old.register ≡ shared.now) × (reader.old.notes.held ≡ None)
        × (writer.old.account.version ≡ 0) }
{
    let mut steps = Steps::<L>::open(blank);
    let held = shared.take(reader, &mut steps);
    shared.pin(reader, 0, 0, &mut steps);
    let first = scan_shows(shared, writer, roots, &[Some(0), None, None], &[0]);
    let one = publish_next(shared, writer, roots, 1, 2);
    if !left(shared, reader, held.version, &mut steps) {
        return false;
    }
    let second = scan_shows(shared, writer, roots, &[None, Some(1), None], &[0]);
    shared.take(reader, &mut steps);
    let now = version_shows(shared, reader, 1, 1, &mut steps);
    let two = publish_next(shared, writer, roots, 1, 2);
    let third = scan_shows(shared, writer, roots, &[Some(2), Some(1), None], &[0]);
    let full = publish_next(shared, writer, roots, 1, 2);
    let then = pin_shows(shared, reader, 0, 0, &mut steps);
    shared.unpin(reader, 0, &mut steps);
    let fourth = scan_shows(shared, writer, roots, &[Some(2), Some(1), None], &[]);
    let freed = publish_next(shared, writer, roots, 1, 2);
    (first && one == Some(1) && second && now && two == Some(2))
        && (third && full == None && then && fourth && freed == Some(0))
}

#[test]
fn a_pinned_segment_is_not_filled(rt: HostRuntime) -> Result<(), Fail> {
    let Some((shared, mut writer, mut passes, mut roots)) = open_bare(rt.alloc(), 3, 1, 2) else {
        panic!(rt; "no register");
    };
    let Some(mut reader) = passes.next() else {
        panic!(rt; "no pass");
    };
    let shown = pin_one::<Brand>(Blank::new(1), &shared, &mut writer, &mut roots, &mut reader);
    assert!(rt; shown);
    Ok(())
}

/// The refusal of a register of one segment for words of two.
fn refusal(alloc: Global, words: &[u64]) -> Option<OpenFault>
    requires { (length words.now ≡ 512) × (word_at words.now 0 1 ≡ 0) }
{
    a_bare_root_names_itself();
    match Shared::open(alloc, 1, 1, 1, 0, 0, words) {
        Ok(_) => None,
        Err(fault) => Some(fault),
    }
}

#[test]
fn too_many_words_are_refused(rt: HostRuntime) -> Result<(), Fail> {
    let words = vec![in rt.alloc(); 0_u64; 512]?;
    let refused = refusal(rt.alloc(), &words);
    assert!(rt;
        refused
            == Some(OpenFault::PoolSmall {
                need: 2,
                segments: 1
            })
    );
    Ok(())
}

/// How many passes a register of this many readers gives.
fn passes_given(alloc: Global, readers: u8) -> Option<u32>
    requires { (1 ≤ readers) × (readers ≤ 8) }
{
    let (_, _, mut passes, _) = open_bare(alloc, 64, readers, 32)?;
    for given in 0..20 {
        if passes.next().is_none() {
            return Some(given);
        }
    }
    None
}

#[test]
fn each_reader_has_a_pass(rt: HostRuntime) -> Result<(), Fail> {
    for readers in 1..9_u8 {
        assert!(rt; passes_given(rt.alloc(), readers) == Some(readers as u32));
    }
    Ok(())
}
