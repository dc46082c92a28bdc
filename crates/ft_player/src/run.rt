//! Frames in a row, which channels ask for at once.

ghost use Rattle.std.specs.Prelude.{◌≡◌, ◌≢◌, ◌≤◌, ◌<◌, ◌+◌, ◌-◌, ◌*◌, ◌/◌, ◌%◌, ◌^◌, ◌∷◌, [], ℕ, None, Some, length, get_or, set};
ghost use Rattle.ft_types.specs.declared.voice.SampleHead.{SampleHead as Head};
ghost use Rattle.ft_types.specs.Views.{AreFramesFrom, FitWidth};
ghost use Rattle.ft_types.specs.Work as work_of;
ghost use Rattle.ft_shared.specs.Counts.{pin_of};
ghost use Rattle.ft_image.specs.Read.{body_at};
ghost use Rattle.ft_image.specs.Passes.{HasReadOn, AreCounted};
ghost use Rattle.ft_player.specs.declared.seat.KeptWord.{KeptWord as AWord};
ghost use Rattle.ft_player.specs.declared.seat.KeptWords.{KeptWords as TheWords};
ghost use Rattle.ft_player.specs.declared.songs.Songs.{Songs};
ghost use Rattle.ft_player.specs.Songs.{place_at};
ghost use Rattle.ft_player.specs.Seats.{head_in, pin_in, seat_words, numbers_of, owned_by, reworded, IsWordKept, IsWordOf, IsSeatOf, IsSeated};
ghost use Rattle.ft_player.specs.Behind.{AreSongsBehind};
ghost use Rattle.ft_player.specs.Runs.{IsFrameIn, AreFramesIn, HasUnpacked, HasFollowed, HasRun, HasAskedAll};

use crate::asking::{far_body, read_word, word_for};
use crate::laws::songs_agree_with_earlier_notes;
use crate::ranges::ranged_frame;
use crate::seat::{KeptWord, KeptWords, Seat};
use arrayvec::ArrayVec;
use ft_image::{a_pass_reads_on, a_shown_sample_is_of_its_version, frame_in};
use ft_shared::{ReaderPass, Shared};
use ft_types::Steps;
use std::sync::ledger::Ledger;

/// The last two words of a run so far.
#[derive(Clone, Copy)]
struct Trail {
    /// The last word.
    newest: KeptWord,
    /// The word before it, where there are two.
    older: KeptWord,
}

impl Trail {
    /// As the kept words of a seat.
    #[inline]
    fn kept(self) -> KeptWords
        ensures newest { result.newest ≡ Some self.newest }
        ensures older { result.older ≡ Some self.older }
    {
        KeptWords {
            newest: Some(self.newest),
            older: Some(self.older),
        }
    }
}

/// The frame that a word holds at a place.
#[inline]
fn frame_at(wide: bool, word: u64, place: u32) -> i16
    ensures { IsFrameIn wide word place result }
{
    ranged_frame(wide, frame_in(word, place))
}

/// Writes four frames that a word holds.
#[inline]
fn put_four(wide: bool, word: u64, place: u32, out: &mut [i16], at: usize)
    requires place { place + 4 < 2 ^ 32 }
    requires room { at + 4 ≤ length out.old }
    ensures { HasUnpacked wide word place at out.old out.new }
{
    out[at] = frame_at(wide, word, place);
    out[at + 1] = frame_at(wide, word, place + 1);
    out[at + 2] = frame_at(wide, word, place + 2);
    out[at + 3] = frame_at(wide, word, place + 3);
}

/// The same, where the width is looked at once for all four.
#[inline]
fn unpack(wide: bool, word: u64, place: u32, out: &mut [i16], at: usize)
    requires place { place + 4 < 2 ^ 32 }
    requires room { at + 4 ≤ length out.old }
    ensures { HasUnpacked wide word place at out.old out.new }
{
    if wide {
        put_four(true, word, place, out, at);
        return;
    }
    put_four(false, word, place, out, at);
}

/// Writes the frames that a word holds from a place on over the whole of `out`.
fn unpack_part(wide: bool, word: u64, place: u32, out: &mut [i16])
    requires { place + length out.old < 2 ^ 32 }
    ensures frames { AreFramesIn wide word place out.new }
    ensures many { length out.new ≡ length out.old }
{
    let mut next = place;
    for frame in out.iter_mut() {
        *frame = frame_at(wide, word, next);
        next += 1;
    }
}

/// The segment of the body of the word after a word of a seat's sample.
#[inline]
fn next_body<L: Ledger>(
    shared: &Shared,
    pass: &mut ReaderPass,
    seat: &Seat,
    channel: u8,
    word: KeptWord,
    steps: &mut Steps<L>,
) -> u16
    requires here { pass.old.register ≡ shared.now }
    requires pinned { pin_of pass.old.notes channel ≡ pin_in (Some seat.now) }
    requires few { 4 * (word.number + 1) < 2 ^ 32 }
    requires inside { 4 * (word.number + 1) < seat.now.head.frames }
    ensures body { (songs : Songs) → AreSongsBehind songs pass.new → IsSeatOf songs seat.now
        → IsWordOf songs seat.now word → result
        ≡ body_at (place_at songs seat.now.version).pool seat.now.root
        (work_of.body_of (word.number + 1)) }
    ensures on { HasReadOn pass.old pass.new }
    ensures counted { AreCounted pass.old pass.new steps.old steps.new }
    ensures work { (steps.old ≤ steps.new) × (steps.new ≤ steps.old
        + 2 * (work_of.body_of (word.number + 1) - work_of.body_of word.number)) }
{
    a_pass_reads_on();
    let number = word.number + 1;
    if number % 256 != 0 {
        return word.body;
    }
    far_body(shared, pass, seat, channel, number * 4, steps)
}

/// The word after a word of a seat's sample.
#[inline]
fn next_word<L: Ledger>(
    shared: &Shared,
    pass: &mut ReaderPass,
    seat: &Seat,
    channel: u8,
    word: KeptWord,
    steps: &mut Steps<L>,
) -> KeptWord
    requires here { pass.old.register ≡ shared.now }
    requires pinned { pin_of pass.old.notes channel ≡ pin_in (Some seat.now) }
    requires few { 4 * (word.number + 1) < 2 ^ 32 }
    requires inside { 4 * (word.number + 1) < seat.now.head.frames }
    ensures number { result.number ≡ word.number + 1 }
    ensures word { (songs : Songs) → AreSongsBehind songs pass.new → IsSeatOf songs seat.now
        → IsWordOf songs seat.now word → IsWordOf songs seat.now result }
    ensures on { HasReadOn pass.old pass.new }
    ensures counted { AreCounted pass.old pass.new steps.old steps.new }
    ensures work { (steps.old ≤ steps.new) × (steps.new ≤ steps.old + 1
        + 2 * (work_of.body_of (word.number + 1) - work_of.body_of word.number)) }
{
    songs_agree_with_earlier_notes();
    let place = (word.number + 1) * 4;
    let body = next_body(shared, pass, seat, channel, word, steps);
    read_word(shared, pass, seat, channel, body, place, steps)
}

/// The whole words after a word of a seat's sample, whose frames are written over `out`.
fn follow_whole<L: Ledger>(
    shared: &Shared,
    pass: &mut ReaderPass,
    seat: &Seat,
    channel: u8,
    from: KeptWord,
    out: &mut [i16],
    steps: &mut Steps<L>,
) -> Trail
    requires here { pass.old.register ≡ shared.now }
    requires pinned { pin_of pass.old.notes channel ≡ pin_in (Some seat.now) }
    requires whole { length out.old % 4 ≡ 0 }
    requires few { 4 * (from.number + 1) + length out.old < 2 ^ 32 }
    requires inside { 4 * (from.number + 1) + length out.old ≤ seat.now.head.frames }
    ensures words { (songs : Songs) → AreSongsBehind songs pass.new → IsSeatOf songs seat.now
        → IsWordOf songs seat.now from
        → IsWordOf songs seat.now result.newest × IsWordOf songs seat.now result.older
        × AreFramesFrom (owned_by songs (Some seat.now)) (4 * (from.number + 1)) out.new }
    ensures range { FitWidth seat.now.head.wide out.new }
    ensures many { length out.new ≡ length out.old }
    ensures number { result.newest.number ≡ from.number + length out.old / 4 }
    ensures older { 1 ≤ length out.old → result.newest.number ≡ result.older.number + 1 }
    ensures followed { HasFollowed from.number result.newest.number pass.old pass.new
        steps.old steps.new }
{
    a_pass_reads_on();
    songs_agree_with_earlier_notes();
    a_shown_sample_is_of_its_version();
    let wide = seat.head.wide;
    let mut trail = Trail {
        newest: from,
        older: from,
    };
    for k in 0..out.len() / 4 {
        let word = next_word(shared, pass, seat, channel, trail.newest, steps);
        unpack(wide, word.value, word.number * 4, out, k * 4);
        trail.older = trail.newest;
        trail.newest = word;
    }
    trail
}

/// The words after a word of a seat's sample, whose frames are written over the whole of `out`: the
/// last two of them.
fn follow<L: Ledger>(
    shared: &Shared,
    pass: &mut ReaderPass,
    seat: &Seat,
    channel: u8,
    from: KeptWord,
    out: &mut [i16],
    steps: &mut Steps<L>,
) -> KeptWords
    requires here { pass.old.register ≡ shared.now }
    requires pinned { pin_of pass.old.notes channel ≡ pin_in (Some seat.now) }
    requires some { 1 ≤ length out.old }
    requires few { 4 * (from.number + 1) + length out.old < 2 ^ 32 }
    requires inside { 4 * (from.number + 1) + length out.old ≤ seat.now.head.frames }
    ensures words { (songs : Songs) → AreSongsBehind songs pass.new → IsSeatOf songs seat.now
        → IsWordOf songs seat.now from
        → ((word : AWord) → IsWordKept result word → IsWordOf songs seat.now word)
        × AreFramesFrom (owned_by songs (Some seat.now)) (4 * (from.number + 1)) out.new }
    ensures range { FitWidth seat.now.head.wide out.new }
    ensures many { length out.new ≡ length out.old }
    ensures numbers { numbers_of result ≡ (from.number + (length out.old + 3) / 4)
        ∷ (from.number + (length out.old + 3) / 4 - 1) ∷ [] }
    ensures followed { HasFollowed from.number (from.number + (length out.old + 3) / 4)
        pass.old pass.new steps.old steps.new }
{
    songs_agree_with_earlier_notes();
    a_shown_sample_is_of_its_version();
    let whole = out.len() / 4 * 4;
    let (front, back) = out.split_at_mut(whole);
    let trail = follow_whole(shared, pass, seat, channel, from, front, steps);
    if back.is_empty() {
        return trail.kept();
    }
    let word = next_word(shared, pass, seat, channel, trail.newest, steps);
    unpack_part(seat.head.wide, word.value, word.number * 4, back);
    KeptWords {
        newest: Some(word),
        older: Some(trail.newest),
    }
}

/// A number of frames fits its type.
#[inline]
fn frames_fit(frames: u32)
    ensures { frames < 2 ^ 32 }
{}

/// The newest word of a seat.
#[inline]
fn newest_of(seat: &Seat) -> KeptWord
    requires { numbers_of seat.now.words ≢ [] }
    ensures { seat.now.words.newest ≡ Some result }
{
    seat.words.newest.unwrap()
}

/// Writes the frames from a place on of a seat's sample, whose words are asked for.
fn run_seat<L: Ledger>(
    shared: &Shared,
    pass: &mut ReaderPass,
    seat: &mut Seat,
    channel: u8,
    first: u32,
    out: &mut [i16],
    steps: &mut Steps<L>,
)
    requires here { pass.old.register ≡ shared.now }
    requires pinned { pin_of pass.old.notes channel ≡ pin_in (Some seat.old) }
    requires some { 1 ≤ length out.old }
    requires inside { first + length out.old ≤ seat.old.head.frames }
    ensures values { (songs : Songs) → AreSongsBehind songs pass.new → IsSeatOf songs seat.old
        → AreFramesFrom (owned_by songs (Some seat.old)) first out.new }
    ensures range { FitWidth seat.old.head.wide out.new }
    ensures many { length out.new ≡ length out.old }
    ensures asked { HasAskedAll first (length out.old) pass.old pass.new seat.old seat.new
        steps.old steps.new }
{
    a_pass_reads_on();
    songs_agree_with_earlier_notes();
    a_shown_sample_is_of_its_version();
    let head = seat.head;
    frames_fit(head.frames);
    let word = word_for(shared, pass, seat, channel, first, steps);
    let room = (4 - first % 4) as usize;
    if out.len() <= room {
        unpack_part(head.wide, word, first, out);
        return;
    }
    let (front, back) = out.split_at_mut(room);
    unpack_part(head.wide, word, first, front);
    let from = newest_of(seat);
    let words = follow(shared, pass, seat, channel, from, back, steps);
    seat.words = words;
}

/// Writes the frames from a place on of the sample of a channel's seat, whose words are asked for.
fn run_one<L: Ledger>(
    shared: &Shared,
    pass: &mut ReaderPass,
    seat: &mut Option<Seat>,
    channel: u8,
    first: u32,
    out: &mut [i16],
    steps: &mut Steps<L>,
)
    requires here { pass.old.register ≡ shared.now }
    requires pinned { pin_of pass.old.notes channel ≡ pin_in seat.old }
    requires some { 1 ≤ length out.old }
    requires inside { (h : Head) × (head_in seat.old ≡ Some h)
        × (first + length out.old ≤ h.frames) }
    ensures values { (songs : Songs) → AreSongsBehind songs pass.new → IsSeated songs seat.old
        → AreFramesFrom (owned_by songs seat.old) first out.new }
    ensures range { (h : Head) → head_in seat.old ≡ Some h → FitWidth h.wide out.new }
    ensures many { length out.new ≡ length out.old }
    ensures seated { (songs : Songs) → AreSongsBehind songs pass.new → IsSeated songs seat.old
        → IsSeated songs seat.new }
    ensures rest { (words : TheWords) × (seat.new ≡ reworded words seat.old) }
    ensures words { seat_words seat.new ≡ work_of.asked_all (work_of.word_of first)
        (work_of.last_word first (length out.old)) (seat_words seat.old) }
    ensures run { HasRun first (length out.old) (seat_words seat.old) pass.old pass.new
        steps.old steps.new }
{
    let Some(found) = seat else {
        return;
    };
    run_seat(shared, pass, found, channel, first, out, steps);
}

/// Writes the frames from a place on of the sample that a channel keeps, whose words are asked for,
/// over the whole of `out`.
#[inline]
pub fn run_of<L: Ledger>(
    shared: &Shared,
    pass: &mut ReaderPass,
    seats: &mut ArrayVec<Option<Seat>, 32>,
    channel: u8,
    first: u32,
    out: &mut [i16],
    steps: &mut Steps<L>,
)
    requires here { pass.old.register ≡ shared.now }
    requires channel { channel < length seats.old.items }
    requires pinned { pin_of pass.old.notes channel
        ≡ pin_in (get_or seats.old.items channel None) }
    requires some { 1 ≤ length out.old }
    requires inside { (h : Head) × (head_in (get_or seats.old.items channel None) ≡ Some h)
        × (first + length out.old ≤ h.frames) }
    ensures values { (songs : Songs) → AreSongsBehind songs pass.new
        → IsSeated songs (get_or seats.old.items channel None)
        → AreFramesFrom (owned_by songs (get_or seats.old.items channel None)) first out.new }
    ensures range { (h : Head) → head_in (get_or seats.old.items channel None) ≡ Some h
        → FitWidth h.wide out.new }
    ensures many { length out.new ≡ length out.old }
    ensures seated { (songs : Songs) → AreSongsBehind songs pass.new
        → IsSeated songs (get_or seats.old.items channel None)
        → IsSeated songs (get_or seats.new.items channel None) }
    ensures rest { (words : TheWords) × (seats.new.items
        ≡ set seats.old.items channel (reworded words (get_or seats.old.items channel None))) }
    ensures words { seat_words (get_or seats.new.items channel None)
        ≡ work_of.asked_all (work_of.word_of first) (work_of.last_word first (length out.old))
        (seat_words (get_or seats.old.items channel None)) }
    ensures run { HasRun first (length out.old)
        (seat_words (get_or seats.old.items channel None)) pass.old pass.new
        steps.old steps.new }
{
    let slot = &mut seats.as_mut_slice()[usize::from(channel)];
    run_one(shared, pass, slot, channel, first, out, steps);
}
