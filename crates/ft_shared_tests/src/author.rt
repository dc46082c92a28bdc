//! A writer whose versions are one segment each, with the version's number in it.
ghost use Rattle.std.specs.Prelude.{◌≡◌, ◌≢◌, ℕ, ◌+◌, ◌*◌, ◌<◌, ◌≤◌, List, [], ◌∷◌, ◌++◌, Some, IfSome, IsSome, IsNone, IsTrue, false, replicate, length, All, Contains};
ghost use Rattle.std.specs.List.{slice_get};
ghost use Rattle.ft_segments.specs.Packing.{word_at};
ghost use Rattle.ft_shared.specs.History.{IsOfVersion};
ghost use Rattle.ft_shared.specs.Account.{IsWhole, IsAnswered, IsPinAnswer};
ghost use Rattle.ft_shared.specs.Pass.{fresh_passes};
ghost use Rattle.ft_shared_tests.specs.Scans.{IsLeft};
ghost use Rattle.ft_shared_tests.specs.Author.{IsBarePool, AreRoots, IsAuthor, IsUnfound};

use crate::scans::scan_all;
use arrayvec::ArrayVec;
use ft_segments::a_bare_root_names_itself;
use ft_shared::{ReaderPasses, Shared, WriterPass};
use std::alloc::Global;

/// Whether one of these versions has the segment for its root.
fn is_root(segment: u16, versions: &[Option<u32>], roots: &[u16]) -> bool
    ensures { result ≡ false → All (λ answer. IfSome answer (λ version.
        slice_get roots.now version ≢ Some segment)) versions.now }
{
    for version in versions {
        if is_root_of(*version, segment, roots) {
            return true;
        }
    }
    false
}

/// Whether the version has the segment for its root.
fn is_root_of(version: Option<u32>, segment: u16, roots: &[u16]) -> bool
    ensures { result ≡ false
        → IfSome version (λ number. slice_get roots.now number ≢ Some segment) }
{
    match version {
        Some(number) => roots.get(number as usize) == Some(&segment),
        None => false,
    }
}

/// Whether a pin names the segment.
fn is_pinned(segment: u16, pins: &[u16]) -> bool
    ensures { result ≡ false → All (λ root. root ≢ segment) pins.now }
{
    for root in pins {
        if *root == segment {
            return true;
        }
    }
    false
}

/// Whether the segment is none of these roots.
fn is_free(
    segment: u16,
    current: u16,
    answers: &ArrayVec<Option<u32>, 10>,
    pins: &ArrayVec<u16, 16>,
    roots: &[u16],
) -> bool
    ensures apart { IsTrue result → current ≢ segment }
    ensures answered { IsTrue result → All (λ answer. IfSome answer (λ version.
        slice_get roots.now version ≢ Some segment)) answers.now.items }
    ensures pins { IsTrue result → All (λ root. root ≢ segment) pins.now.items }
{
    segment != current
        && !is_root(segment, answers.as_slice(), roots)
        && !is_pinned(segment, pins.as_slice())
}

/// A segment that a whole scan found neither in a version nor as a pinned root.
fn free_segment(
    shared: &Shared,
    writer: &WriterPass,
    roots: &[u16],
    answers: &ArrayVec<Option<u32>, 10>,
    pins: &ArrayVec<u16, 16>,
    segments: u16,
) -> Option<u16>
    requires author { IsAuthor shared.now writer.now roots.now }
    requires whole { IsWhole shared.now.sizes writer.now.account }
    requires scan { writer.now.account.scan ≡ answers.now.items }
    requires pins { (reader channel root : ℕ)
        → IsPinAnswer writer.now.account reader channel (Some root)
        → Contains pins.now.items root }
    ensures { IfSome result (λ segment. (segment < segments)
        × IsUnfound shared.now.sizes writer.now.account segment) }
{
    let current = roots[roots.len() - 1];
    for segment in 0..segments {
        if is_free(segment, current, answers, pins, roots) {
            return Some(segment);
        }
    }
    None
}

/// Fills a word behind the first two of a segment that was not found.
fn fill_one(shared: &Shared, writer: &mut WriterPass, segment: u16, at: u8, word: u64)
    requires same { writer.old.register ≡ shared.now }
    requires segment { segment < shared.now.sizes.segments }
    requires at { 2 ≤ at }
    requires bare { IsBarePool writer.old.account.pool }
    requires unfound { IsUnfound shared.now.sizes writer.old.account segment }
    ensures same { writer.new.register ≡ writer.old.register }
    ensures left { (writer.new.account.version ≡ writer.old.account.version)
        × (writer.new.account.history ≡ writer.old.account.history)
        × (writer.new.account.settled ≡ writer.old.account.settled) }
    ensures bare { IsBarePool writer.new.account.pool }
    ensures unfound { IsUnfound shared.now.sizes writer.new.account segment }
{
    a_bare_root_names_itself();
    shared.fill(writer, segment, at, word);
}

/// Publishes a segment as the root and whole of the next version.
fn publish_bare(shared: &Shared, writer: &mut WriterPass, root: u16) -> u32
    requires same { writer.old.register ≡ shared.now }
    requires whole { IsWhole shared.now.sizes writer.old.account }
    requires root { root < shared.now.sizes.segments }
    requires bare { IsBarePool writer.old.account.pool }
    requires room { writer.old.account.version < 4294967295 }
    ensures same { writer.new.register ≡ writer.old.register }
    ensures version { (result ≡ writer.old.account.version + 1)
        × (writer.new.account.version ≡ result) }
    ensures settled { writer.new.account.settled ≡ writer.old.account.settled }
    ensures bare { IsBarePool writer.new.account.pool }
    ensures known { (roots : List ℕ) → length roots ≡ result
        → AreRoots writer.old.account.history roots
        → AreRoots writer.new.account.history (roots ++ root ∷ []) }
{
    a_bare_root_names_itself();
    shared.publish(writer, root)
}

/// Scans, fills a segment that was not found with the next version's number, publishes it, and
/// gives its number. `None` comes where no segment was free, or memory ran out.
pub fn publish_next(
    shared: &Shared,
    writer: &mut WriterPass,
    roots: &mut Vec<u16>,
    readers: u8,
    channels: u8,
) -> Option<u16>
    requires author { IsAuthor shared.now writer.old roots.old.items }
    requires readers { (readers ≡ shared.now.sizes.readers) × (readers ≤ 8) }
    requires channels { (channels ≡ shared.now.sizes.channels) × (channels ≤ 2) }
    requires room { writer.old.account.version < 4294967295 }
    ensures author { IsAuthor shared.now writer.new roots.new.items }
    ensures none { IsNone result → writer.new.account.version ≡ writer.old.account.version }
    ensures some { IsSome result → writer.new.account.version ≡ writer.old.account.version + 1 }
    ensures settled { writer.new.account.settled ≡ writer.old.account.settled }
{
    if roots.reserve(1).is_err() {
        return None;
    }
    let (answers, pins) = scan_all(shared, writer, readers, channels);
    let segments = shared.segments();
    let segment = free_segment(shared, writer, roots, &answers, &pins, segments)?;
    let version = roots.len() as u64;
    fill_one(shared, writer, segment, 2, version);
    fill_one(shared, writer, segment, 3, version.wrapping_mul(3));
    publish_bare(shared, writer, segment);
    roots.push_reserved(segment);
    Some(segment)
}

/// Words of one segment, all 0.
fn zero_words(alloc: Global) -> Option<Vec<u64>>
    ensures { IfSome result (λ words. words.items ≡ replicate 256 0) }
{
    vec![in alloc; 0_u64; 256].ok()
}

/// The root of the first version.
fn first_roots(alloc: Global) -> Option<Vec<u16>>
    ensures { IfSome result (λ roots. roots.items ≡ 0 ∷ []) }
{
    vec![in alloc; 0_u16; 1].ok()
}

/// A register whose first version is segment 0, all words being 0.
fn open_words(
    alloc: Global,
    segments: u16,
    readers: u8,
    channels: u8,
    words: &[u64],
) -> Option<(Shared, WriterPass, ReaderPasses)>
    requires readers { (1 ≤ readers) × (readers ≤ 8) }
    requires channels { (1 ≤ channels) × (channels ≤ 32) }
    requires words { words.now ≡ replicate 256 0 }
    ensures sizes { IfSome result (λ made. made.0.sizes
        ≡ record { segments = segments; readers = readers; channels = channels }) }
    ensures author { IfSome result (λ made. IsAuthor made.0 made.1 (0 ∷ [])) }
    ensures version { IfSome result (λ made. made.1.account.version ≡ 0) }
    ensures passes { IfSome result (λ made. made.2 ≡ fresh_passes made.0 readers) }
{
    a_bare_root_names_itself();
    Shared::open(alloc, segments, readers, channels, 0, 0, words).ok()
}

/// The same, with the list of the roots.
pub fn open_bare(
    alloc: Global,
    segments: u16,
    readers: u8,
    channels: u8,
) -> Option<(Shared, WriterPass, ReaderPasses, Vec<u16>)>
    requires readers { (1 ≤ readers) × (readers ≤ 8) }
    requires channels { (1 ≤ channels) × (channels ≤ 32) }
    ensures sizes { IfSome result (λ made. made.0.sizes
        ≡ record { segments = segments; readers = readers; channels = channels }) }
    ensures author { IfSome result (λ made. IsAuthor made.0 made.1 made.3.items) }
    ensures version { IfSome result (λ made. made.1.account.version ≡ 0) }
    ensures passes { IfSome result (λ made. made.2 ≡ fresh_passes made.0 readers) }
{
    let words = zero_words(alloc)?;
    let roots = first_roots(alloc)?;
    let made = open_words(alloc, segments, readers, channels, &words)?;
    Some((made.0, made.1, made.2, roots))
}
