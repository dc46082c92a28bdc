//! Eight readers in threads take, pin, read and leave, while a writer fills and publishes.
ghost use Rattle.std.specs.Prelude.{◌≡◌, ℕ, ◌+◌, ◌<◌, ◌≤◌, None, Some, length, IsTrue, IsSome, IsSomeAnd, false};
ghost use Rattle.std.specs.Option.{ForSome};
ghost use Rattle.std.specs.Thread.{IsSync};
ghost use Rattle.ft_shared.specs.Counts.{pin_of};
ghost use Rattle.ft_shared.specs.Pass.{fresh_passes};
ghost use Rattle.ft_shared_tests.specs.Author.{IsAuthor};

use crate::author::{open_bare, publish_next};
use crate::rows::{pin_shows, version_shows};
use ft_shared::{Held, ReaderPass, ReaderPasses, Shared, WriterPass};
use ft_types::Steps;
use std::alloc::{AllocError, Global};
use std::marker::Brand;
use std::sync::ledger::{Blank, Ledger};
use std::test::Fail;
use std::thread;
use std::thread::{Threads, join_mut};

/// The last version that the writer publishes beside the readers.
const LAST: u32 = 3_000;

/// A reader in a thread of its own.
#[derive(Drop)]
struct Follower<'a> {
    shared: &'a Shared,
    pass: ReaderPass,
    /// The version that it took last.
    version: u32,
    /// The version and the root that it has pinned on channel 0.
    pinned: Option<Held>,
    /// Whether a version was ever below one before it.
    fell: bool,
    /// Whether a word was ever not that of its version.
    wrong: bool,
    /// Whether it holds that version for good.
    done: bool,
    ghost same: { pass.register ≡ shared.now },
    ghost channels: { 0 < shared.now.sizes.channels },
    ghost free: { done ≡ false → pass.notes.held ≡ None },
    ghost pins: { IsSome pinned → IsSome (pin_of pass.notes 0) },
    ghost roots: { ForSome pinned (λ pin. pin.root < shared.now.sizes.segments) },
}

/// Publishes versions until the last.
fn publish_all(shared: &Shared, writer: &mut WriterPass, roots: &mut Vec<u16>)
    requires author { IsAuthor shared.now writer.old roots.old.items }
    requires sizes { (shared.now.sizes.readers ≡ 8) × (shared.now.sizes.channels ≡ 1) }
    requires first { writer.old.account.version ≡ 0 }
{
    for _done in 0..LAST {
        publish_next(shared, writer, roots, 8, 1);
        thread::yield_now();
    }
}

/// Looks until the current version is greater than `version`, for a bounded number of times.
fn saw_newer<L: Ledger>(
    shared: &Shared,
    pass: &mut ReaderPass,
    version: u32,
    steps: &mut Steps<L>,
) -> bool
    requires { pass.old.register ≡ shared.now }
    ensures same { pass.new.register ≡ pass.old.register }
    ensures held { pass.new.notes.held ≡ pass.old.notes.held }
    ensures pins { pass.new.notes.pins ≡ pass.old.notes.pins }
    ensures newer { IsTrue result → IsSomeAnd pass.new.notes.latest (λ v. version < v) }
{
    for _ in 0..100_000 {
        if version == LAST {
            return false;
        }
        if shared.look(pass, steps) > version {
            return true;
        }
        thread::yield_now();
    }
    false
}

/// Whether the pinned segment has the words of its version, if there is a pin.
fn older_shows<L: Ledger>(
    shared: &Shared,
    pass: &mut ReaderPass,
    pinned: Option<Held>,
    steps: &mut Steps<L>,
) -> bool
    requires same { pass.old.register ≡ shared.now }
    requires pin { IsSome pinned → IsSome (pin_of pass.old.notes 0) }
    requires root { ForSome pinned (λ pin. pin.root < shared.now.sizes.segments) }
    ensures same { pass.new.register ≡ pass.old.register }
    ensures held { pass.new.notes.held ≡ pass.old.notes.held }
{
    match pinned {
        Some(pin) => pin_shows(shared, pass, pin.root, pin.version as u64, steps),
        None => true,
    }
}

/// Reads by the pin of an older version and by the held one, and pins the held one.
fn reads_and_pins<L: Ledger>(
    shared: &Shared,
    pass: &mut ReaderPass,
    held: Held,
    pinned: Option<Held>,
    steps: &mut Steps<L>,
) -> bool
    requires same { pass.old.register ≡ shared.now }
    requires held { IsSome pass.old.notes.held }
    requires channels { 0 < shared.now.sizes.channels }
    requires segment { held.root < shared.now.sizes.segments }
    requires pin { IsSome pinned → IsSome (pin_of pass.old.notes 0) }
    requires root { ForSome pinned (λ pin. pin.root < shared.now.sizes.segments) }
    ensures same { pass.new.register ≡ pass.old.register }
    ensures held { pass.new.notes.held ≡ pass.old.notes.held }
    ensures pin { IsSome (pin_of pass.new.notes 0) }
{
    let older = older_shows(shared, pass, pinned, steps);
    let newer = version_shows(shared, pass, held.root, held.version as u64, steps);
    shared.pin(pass, 0, held.root, steps);
    older && newer
}

/// Takes a version, reads it and the one before, waits for a newer one and leaves.
fn follow_once<L: Ledger>(follower: &mut Follower, steps: &mut Steps<L>) {
    if follower.done {
        return;
    }
    let shared = follower.shared;
    let held = shared.take(&mut follower.pass, steps);
    follower.done = true;
    follower.fell |= held.version < follower.version;
    follower.version = held.version;
    if held.root >= shared.segments() {
        follower.wrong = true;
        return;
    }
    let pinned = follower.pinned;
    follower.wrong |= !reads_and_pins(shared, &mut follower.pass, held, pinned, steps);
    follower.pinned = Some(held);
    if saw_newer(shared, &mut follower.pass, held.version, steps) {
        shared.leave(&mut follower.pass, steps);
        follower.done = false;
    }
}

fn follow_all_versions<L: Ledger>(follower: &mut Follower, blank: Blank)
    requires blank { (blank.name ≡ L.name) × (blank.parts ≡ L.parts) × (0 < L.parts) }
{
    let mut steps = Steps::<L>::open(blank);
    for _ in 0..LAST + 1 {
        follow_once(follower, &mut steps);
    }
}

fn follow(follower: &mut Follower) {
    follow_all_versions::<Brand>(follower, Blank::new(1));
}

fn follow_in_threads<R: Threads + Sync>(rt: &R, followers: &mut [Follower]) {
    thread::for_each_mut(rt, followers, 8, &|_, follower| follow(follower));
}

fn run_threads<R: Threads + Sync>(
    rt: &R,
    shared: &Shared,
    writer: &mut WriterPass,
    roots: &mut Vec<u16>,
    followers: &mut [Follower],
)
    requires author { IsAuthor shared.now writer.old roots.old.items }
    requires sizes { (shared.now.sizes.readers ≡ 8) × (shared.now.sizes.channels ≡ 1) }
    requires first { writer.old.account.version ≡ 0 }
{
    join_mut(
        rt,
        &mut || -> ()
            requires { IsAuthor shared.now writer.now roots.now.items
                × (shared.now.sizes.readers ≡ 8) × (shared.now.sizes.channels ≡ 1)
                × (writer.now.account.version ≡ 0) }
        { publish_all(shared, writer, roots) },
        &mut || -> ()
            requires { IsSync R.row }
        { follow_in_threads(rt, followers) },
    );
}

fn follower_of<'a>(shared: &'a Shared, pass: ReaderPass) -> Follower<'a>
    requires { (pass.register ≡ shared.now) × (pass.notes.held ≡ None)
        × (0 < shared.now.sizes.channels) }
{
    Follower {
        shared,
        pass,
        version: 0,
        pinned: None,
        fell: false,
        wrong: false,
        done: false,
    }
}

fn followers_of<'a>(
    alloc: Global,
    shared: &'a Shared,
    passes: &mut ReaderPasses,
) -> Result<Vec<Follower<'a>>, AllocError>
    requires passes { passes.old ≡ fresh_passes shared.now 8 }
    requires channels { 0 < shared.now.sizes.channels }
{
    let mut followers = Vec::with_capacity(alloc, 8)?;
    for _given in 0..8_u8 {
        if let Some(pass) = passes.next() {
            followers.push(follower_of(shared, pass))?;
        }
    }
    Ok(followers)
}

#[test]
fn eight_readers_read_their_versions_while_a_writer_fills_and_publishes(
    rt: HostRuntime,
) -> Result<(), Fail> {
    let Some((shared, mut writer, mut passes, mut roots)) = open_bare(rt.alloc(), 32, 8, 1) else {
        panic!(rt; "no register");
    };
    let mut followers = followers_of(rt.alloc(), &shared, &mut passes)?;
    run_threads(
        &rt,
        &shared,
        &mut writer,
        &mut roots,
        followers.as_mut_slice(),
    );
    assert!(rt; roots.len() == LAST as usize + 1 && followers.len() == 8);
    for follower in &followers {
        assert!(rt; follower.version == LAST && !follower.fell && !follower.wrong);
    }
    Ok(())
}
