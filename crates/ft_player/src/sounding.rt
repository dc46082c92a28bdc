//! Seats of samples, and their pins.

ghost use Rattle.std.specs.Prelude.{◌≡◌, ◌≤◌, ◌<◌, ◌+◌, ℕ, [], None, Some, IfSome, length, set};
ghost use Rattle.ft_types.specs.Valid.{IsValidHead};
ghost use Rattle.ft_types.specs.Views.{begun};
ghost use Rattle.ft_image.specs.Passes.{HasReadOn, AreCounted};
ghost use Rattle.ft_player.specs.declared.seat.Seat.{Seat as ASeat};
ghost use Rattle.ft_player.specs.declared.songs.Songs.{Songs};
ghost use Rattle.ft_player.specs.Songs.{song_at};
ghost use Rattle.ft_player.specs.Seats.{head_in, pin_in, numbers_of, owned_by, IsSeatOf};
ghost use Rattle.ft_player.specs.Behind.{Holds, AreSongsBehind, HasPlayedOn};

use crate::ranges::can_sound;
use crate::seat::{KeptWords, Seat};
use arrayvec::ArrayVec;
use ft_image::{
    PassWords, a_pass_reads_on, a_shown_sample_is_of_its_version, sample_head, sample_root,
};
use ft_shared::{ReaderPass, Shared};
use ft_types::{SampleHead, Steps};
use std::sync::ledger::Ledger;

/// The seat of the sample that a note, from 0, of an instrument, from 1, begins in the version that
/// a pass holds. None where there is no such instrument or sample, or the sample has no frames.
pub fn begun_seat<L: Ledger>(
    shared: &Shared,
    pass: &mut ReaderPass,
    version: u32,
    root: u16,
    instrument: u8,
    note: u8,
    steps: &mut Steps<L>,
) -> Option<Seat>
    requires here { pass.old.register ≡ shared.now }
    requires held { Holds pass.old version root }
    requires note { note < 96 }
    ensures begins { (songs : Songs) → AreSongsBehind songs pass.new
        → owned_by songs result ≡ begun version (song_at songs version) instrument note }
    ensures seated { (songs : Songs) (seat : ASeat) → AreSongsBehind songs pass.new
        → result ≡ Some seat → IsSeatOf songs seat }
    ensures new { IfSome result (λ seat. (seat.version ≡ version)
        × (seat.root < shared.now.sizes.segments) × (numbers_of seat.words ≡ [])
        × IsValidHead seat.head) }
    ensures on { HasReadOn pass.old pass.new }
    ensures counted { AreCounted pass.old pass.new steps.old steps.new }
    ensures work { (steps.old ≤ steps.new) × (steps.new ≤ steps.old + 8) }
{
    a_pass_reads_on();
    a_shown_sample_is_of_its_version();
    let mut words = PassWords {
        shared,
        pass,
        steps,
    };
    let Some(found) = sample_root(&mut words, root, instrument, note) else {
        return None;
    };
    let head = sample_head(&mut words, found);
    if found >= shared.segments() {
        return None;
    }
    if !can_sound(head) {
        return None;
    }
    Some(Seat {
        version,
        root: found,
        instrument,
        note,
        head,
        words: KeptWords::none(),
    })
}

/// The head of a seat's sample.
pub fn head_of(seat: Option<Seat>) -> Option<SampleHead>
    ensures { result ≡ head_in seat }
{
    match seat {
        Some(seat) => Some(seat.head),
        None => None,
    }
}

/// Sets the pin of a channel to the root of a seat's sample, from the version that the pass holds,
/// or takes it away. One step.
fn set_pin<L: Ledger>(
    shared: &Shared,
    pass: &mut ReaderPass,
    channel: u8,
    seat: Option<Seat>,
    steps: &mut Steps<L>,
)
    requires here { pass.old.register ≡ shared.now }
    requires channel { channel < shared.now.sizes.channels }
    requires seat { IfSome seat (λ seat. (seat.root < shared.now.sizes.segments)
        × ((root : ℕ) × Holds pass.old seat.version root)) }
    ensures pins { pass.new.notes.pins ≡ set pass.old.notes.pins channel (pin_in seat) }
    ensures on { HasPlayedOn pass.old pass.new }
    ensures counted { AreCounted pass.old pass.new steps.old steps.new }
    ensures work { steps.new ≡ steps.old + 1 }
{
    match seat {
        Some(seat) => shared.pin(pass, channel, seat.root, steps),
        None => shared.unpin(pass, channel, steps),
    }
}

/// A channel has this seat.
fn put(seats: &mut ArrayVec<Option<Seat>, 32>, channel: u8, seat: Option<Seat>)
    requires { channel < length seats.old.items }
    ensures { seats.new.items ≡ set seats.old.items channel seat }
{
    seats.as_mut_slice()[usize::from(channel)] = seat;
}

/// A channel has this seat from now on, or none, and the pin of it. One step.
pub fn sit<L: Ledger>(
    shared: &Shared,
    pass: &mut ReaderPass,
    seats: &mut ArrayVec<Option<Seat>, 32>,
    channel: u8,
    seat: Option<Seat>,
    steps: &mut Steps<L>,
)
    requires here { pass.old.register ≡ shared.now }
    requires channel { channel < shared.now.sizes.channels }
    requires many { length seats.old.items ≡ shared.now.sizes.channels }
    requires seat { IfSome seat (λ seat. (seat.root < shared.now.sizes.segments)
        × ((root : ℕ) × Holds pass.old seat.version root)) }
    ensures pins { pass.new.notes.pins ≡ set pass.old.notes.pins channel (pin_in seat) }
    ensures seats { seats.new.items ≡ set seats.old.items channel seat }
    ensures on { HasPlayedOn pass.old pass.new }
    ensures counted { AreCounted pass.old pass.new steps.old steps.new }
    ensures work { steps.new ≡ steps.old + 1 }
{
    set_pin(shared, pass, channel, seat, steps);
    put(seats, channel, seat);
}
