//! Frames that channels ask for, and the words that they keep of them.

ghost use Rattle.std.specs.Prelude.{◌≡◌, ◌≢◌, ◌≤◌, ◌<◌, ◌+◌, ℕ, true, None, Some, length, get_or, set, FitsSigned};
ghost use Rattle.ft_types.specs.declared.voice.SampleHead.{SampleHead as Head};
ghost use Rattle.ft_types.specs.Valid.{width_of};
ghost use Rattle.ft_types.specs.Views.{frame_of};
ghost use Rattle.ft_types.specs.Work as work_of;
ghost use Rattle.ft_shared.specs.Counts.{pin_of};
ghost use Rattle.ft_image.specs.Read.{body_at};
ghost use Rattle.ft_image.specs.Values.{frames_word};
ghost use Rattle.ft_image.specs.Passes.{HasReadOn, AreCounted};
ghost use Rattle.ft_player.specs.declared.seat.KeptWord.{KeptWord as AWord};
ghost use Rattle.ft_player.specs.declared.seat.KeptWords.{KeptWords as TheWords};
ghost use Rattle.ft_player.specs.declared.songs.Songs.{Songs};
ghost use Rattle.ft_player.specs.Songs.{place_at};
ghost use Rattle.ft_player.specs.Seats.{head_in, pin_in, seat_words, numbers_of, owned_by, frames_by, reworded, IsWordOf, IsSeatOf, IsSeated};
ghost use Rattle.ft_player.specs.Behind.{AreSongsBehind};
ghost use Rattle.ft_player.specs.Asked.{HasAsked};

use crate::laws::songs_agree_with_earlier_notes;
use crate::ranges::ranged_frame;
use crate::seat::{KeptWord, Seat};
use arrayvec::ArrayVec;
use ft_image::{
    PinnedWords, a_pass_reads_on, a_pinned_sample_may_be_shown, a_shown_sample_is_of_its_version,
    body_of_frame, frame_in, frame_word,
};
use ft_shared::{ReaderPass, Shared};
use ft_types::Steps;
use std::sync::ledger::Ledger;

/// The segment of the body of a frame of a seat's sample, as the sample's words say.
#[cold]
#[inline(never)]
pub fn far_body<L: Ledger>(
    shared: &Shared,
    pass: &mut ReaderPass,
    seat: &Seat,
    channel: u8,
    place: u32,
    steps: &mut Steps<L>,
) -> u16
    requires here { pass.old.register ≡ shared.now }
    requires pinned { pin_of pass.old.notes channel ≡ pin_in (Some seat.now) }
    requires inside { place < seat.now.head.frames }
    ensures body { (songs : Songs) → AreSongsBehind songs pass.new → IsSeatOf songs seat.now
        → result
        ≡ body_at (place_at songs seat.now.version).pool seat.now.root
        (work_of.body_of (work_of.word_of place)) }
    ensures on { HasReadOn pass.old pass.new }
    ensures counted { AreCounted pass.old pass.new steps.old steps.new }
    ensures work { (steps.old ≤ steps.new) × (steps.new ≤ steps.old + 2) }
{
    a_pinned_sample_may_be_shown();
    let mut words = PinnedWords {
        shared,
        pass,
        channel,
        steps,
    };
    body_of_frame(&mut words, seat.root, place)
}

/// The same: that of a kept word, or what the sample's words say.
#[inline]
fn body_for<L: Ledger>(
    shared: &Shared,
    pass: &mut ReaderPass,
    seat: &Seat,
    channel: u8,
    place: u32,
    steps: &mut Steps<L>,
) -> u16
    requires here { pass.old.register ≡ shared.now }
    requires pinned { pin_of pass.old.notes channel ≡ pin_in (Some seat.now) }
    requires inside { place < seat.now.head.frames }
    ensures body { (songs : Songs) → AreSongsBehind songs pass.new → IsSeatOf songs seat.now
        → result
        ≡ body_at (place_at songs seat.now.version).pool seat.now.root
        (work_of.body_of (work_of.word_of place)) }
    ensures on { HasReadOn pass.old pass.new }
    ensures counted { AreCounted pass.old pass.new steps.old steps.new }
    ensures near { work_of.is_near (work_of.word_of place) (numbers_of seat.now.words) ≡ true
        → steps.new ≡ steps.old }
    ensures work { (steps.old ≤ steps.new) × (steps.new ≤ steps.old + 2) }
{
    a_pass_reads_on();
    if let Some(kept) = seat.words.near(place / 4) {
        return kept.body;
    }
    far_body(shared, pass, seat, channel, place, steps)
}

/// A word of frames of a seat's sample, from the segment of its body.
#[inline]
pub fn read_word<L: Ledger>(
    shared: &Shared,
    pass: &mut ReaderPass,
    seat: &Seat,
    channel: u8,
    body: u16,
    place: u32,
    steps: &mut Steps<L>,
) -> KeptWord
    requires here { pass.old.register ≡ shared.now }
    requires pinned { pin_of pass.old.notes channel ≡ pin_in (Some seat.now) }
    requires inside { place < seat.now.head.frames }
    ensures number { result.number ≡ work_of.word_of place }
    ensures word { (songs : Songs) → AreSongsBehind songs pass.new → IsSeatOf songs seat.now → body
        ≡ body_at (place_at songs seat.now.version).pool seat.now.root
        (work_of.body_of (work_of.word_of place))
        → IsWordOf songs seat.now result }
    ensures on { HasReadOn pass.old pass.new }
    ensures counted { AreCounted pass.old pass.new steps.old steps.new }
    ensures work { (steps.old ≤ steps.new) × (steps.new ≤ steps.old + 1) }
{
    a_pinned_sample_may_be_shown();
    let number = place / 4;
    let mut words = PinnedWords {
        shared,
        pass,
        channel,
        steps,
    };
    let value = frame_word(&mut words, body, number);
    KeptWord {
        number,
        body,
        value,
    }
}

/// The word of a frame of a seat's sample, which isn't the newest one: the older one, or one that is
/// read.
#[inline]
fn other_word<L: Ledger>(
    shared: &Shared,
    pass: &mut ReaderPass,
    seat: &Seat,
    channel: u8,
    place: u32,
    steps: &mut Steps<L>,
) -> KeptWord
    requires here { pass.old.register ≡ shared.now }
    requires pinned { pin_of pass.old.notes channel ≡ pin_in (Some seat.now) }
    requires inside { place < seat.now.head.frames }
    requires other { (word : AWord) → seat.now.words.newest ≡ Some word
        → word.number ≢ work_of.word_of place }
    ensures number { result.number ≡ work_of.word_of place }
    ensures word { (songs : Songs) → AreSongsBehind songs pass.new → IsSeatOf songs seat.now
        → IsWordOf songs seat.now result }
    ensures on { HasReadOn pass.old pass.new }
    ensures counted { AreCounted pass.old pass.new steps.old steps.new }
    ensures work { (steps.old ≤ steps.new) × (steps.new ≤ steps.old + work_of.frame_bound) }
    ensures cost { steps.new ≤ steps.old
        + work_of.frame_cost (work_of.word_of place) (numbers_of seat.now.words) }
{
    a_pass_reads_on();
    songs_agree_with_earlier_notes();
    if let Some(kept) = seat.words.older_of(place / 4) {
        return kept;
    }
    let body = body_for(shared, pass, seat, channel, place, steps);
    read_word(shared, pass, seat, channel, body, place, steps)
}

/// What the word of a frame says, which isn't the newest one: it becomes so.
#[inline(never)]
fn bring<L: Ledger>(
    shared: &Shared,
    pass: &mut ReaderPass,
    seat: &mut Seat,
    channel: u8,
    place: u32,
    steps: &mut Steps<L>,
) -> u64
    requires here { pass.old.register ≡ shared.now }
    requires pinned { pin_of pass.old.notes channel ≡ pin_in (Some seat.old) }
    requires inside { place < seat.old.head.frames }
    requires other { (word : AWord) → seat.old.words.newest ≡ Some word
        → word.number ≢ work_of.word_of place }
    ensures word { (songs : Songs) → AreSongsBehind songs pass.new → IsSeatOf songs seat.old
        → result ≡ frames_word (frames_by songs seat.old) (work_of.word_of place) }
    ensures asked { HasAsked place pass.old pass.new seat.old seat.new steps.old steps.new }
{
    let kept = other_word(shared, pass, seat, channel, place, steps);
    seat.words.put(kept);
    kept.value
}

/// What the word of a frame says, which is the newest one from now on.
#[inline]
pub fn word_for<L: Ledger>(
    shared: &Shared,
    pass: &mut ReaderPass,
    seat: &mut Seat,
    channel: u8,
    place: u32,
    steps: &mut Steps<L>,
) -> u64
    requires here { pass.old.register ≡ shared.now }
    requires pinned { pin_of pass.old.notes channel ≡ pin_in (Some seat.old) }
    requires inside { place < seat.old.head.frames }
    ensures word { (songs : Songs) → AreSongsBehind songs pass.new → IsSeatOf songs seat.old
        → result ≡ frames_word (frames_by songs seat.old) (work_of.word_of place) }
    ensures asked { HasAsked place pass.old pass.new seat.old seat.new steps.old steps.new }
{
    a_pass_reads_on();
    if let Some(newest) = &seat.words.newest
        && newest.number == place / 4
    {
        return newest.value;
    }
    bring(shared, pass, seat, channel, place, steps)
}

/// The frame at a place of a seat's sample, whose word is asked for.
#[inline]
fn ask_seat<L: Ledger>(
    shared: &Shared,
    pass: &mut ReaderPass,
    seat: &mut Seat,
    channel: u8,
    place: u32,
    steps: &mut Steps<L>,
) -> i16
    requires here { pass.old.register ≡ shared.now }
    requires pinned { pin_of pass.old.notes channel ≡ pin_in (Some seat.old) }
    requires inside { place < seat.old.head.frames }
    ensures value { (songs : Songs) → AreSongsBehind songs pass.new → IsSeatOf songs seat.old
        → result ≡ frame_of (owned_by songs (Some seat.old)) place }
    ensures range { FitsSigned (width_of seat.old.head.wide) result }
    ensures asked { HasAsked place pass.old pass.new seat.old seat.new steps.old steps.new }
{
    a_shown_sample_is_of_its_version();
    let word = word_for(shared, pass, seat, channel, place, steps);
    ranged_frame(seat.head.wide, frame_in(word, place))
}

/// The frame at a place of the sample of a channel's seat, whose word is asked for.
#[inline]
fn ask_one<L: Ledger>(
    shared: &Shared,
    pass: &mut ReaderPass,
    seat: &mut Option<Seat>,
    channel: u8,
    place: u32,
    steps: &mut Steps<L>,
) -> i16
    requires here { pass.old.register ≡ shared.now }
    requires pinned { pin_of pass.old.notes channel ≡ pin_in seat.old }
    requires inside { (h : Head) × (head_in seat.old ≡ Some h) × (place < h.frames) }
    ensures value { (songs : Songs) → AreSongsBehind songs pass.new → IsSeated songs seat.old
        → result ≡ frame_of (owned_by songs seat.old) place }
    ensures range { (h : Head) → head_in seat.old ≡ Some h → FitsSigned (width_of h.wide) result }
    ensures seated { (songs : Songs) → AreSongsBehind songs pass.new → IsSeated songs seat.old
        → IsSeated songs seat.new }
    ensures rest { (words : TheWords) × (seat.new ≡ reworded words seat.old) }
    ensures words { seat_words seat.new
        ≡ work_of.asked (work_of.word_of place) (seat_words seat.old) }
    ensures on { HasReadOn pass.old pass.new }
    ensures counted { AreCounted pass.old pass.new steps.old steps.new }
    ensures work { (steps.old ≤ steps.new) × (steps.new ≤ steps.old + work_of.frame_bound) }
    ensures cost { steps.new ≤ steps.old
        + work_of.frame_cost (work_of.word_of place) (seat_words seat.old) }
{
    let Some(found) = seat else {
        return 0;
    };
    ask_seat(shared, pass, found, channel, place, steps)
}

/// The frame at a place of the sample that a channel keeps, whose word is asked for.
#[inline]
pub fn ask<L: Ledger>(
    shared: &Shared,
    pass: &mut ReaderPass,
    seats: &mut ArrayVec<Option<Seat>, 32>,
    channel: u8,
    place: u32,
    steps: &mut Steps<L>,
) -> i16
    requires here { pass.old.register ≡ shared.now }
    requires channel { channel < length seats.old.items }
    requires pinned { pin_of pass.old.notes channel
        ≡ pin_in (get_or seats.old.items channel None) }
    requires inside { (h : Head) × (head_in (get_or seats.old.items channel None) ≡ Some h)
        × (place < h.frames) }
    ensures value { (songs : Songs) → AreSongsBehind songs pass.new
        → IsSeated songs (get_or seats.old.items channel None)
        → result ≡ frame_of (owned_by songs (get_or seats.old.items channel None)) place }
    ensures range { (h : Head) → head_in (get_or seats.old.items channel None) ≡ Some h
        → FitsSigned (width_of h.wide) result }
    ensures seated { (songs : Songs) → AreSongsBehind songs pass.new
        → IsSeated songs (get_or seats.old.items channel None)
        → IsSeated songs (get_or seats.new.items channel None) }
    ensures rest { (words : TheWords) × (seats.new.items
        ≡ set seats.old.items channel (reworded words (get_or seats.old.items channel None))) }
    ensures words { seat_words (get_or seats.new.items channel None)
        ≡ work_of.asked (work_of.word_of place)
        (seat_words (get_or seats.old.items channel None)) }
    ensures on { HasReadOn pass.old pass.new }
    ensures counted { AreCounted pass.old pass.new steps.old steps.new }
    ensures work { (steps.old ≤ steps.new) × (steps.new ≤ steps.old + work_of.frame_bound) }
    ensures cost { steps.new ≤ steps.old + work_of.frame_cost (work_of.word_of place)
        (seat_words (get_or seats.old.items channel None)) }
{
    let slot = &mut seats.as_mut_slice()[usize::from(channel)];
    ask_one(shared, pass, slot, channel, place, steps)
}
