//! How far a voice goes straight on in its sample.

ghost use Rattle.std.specs.Prelude.{◌≡◌, ◌≤◌, ◌<◌, ◌^◌, IfSome, None};
ghost use Rattle.ft_types.specs.Valid.{IsValidHead};
ghost use Rattle.ft_mix.specs.Mixing as mixing;

use crate::reach::{end, turn};
use ft_types::SampleHead;

/// Frames of a sample that a voice reaches one after the other.
#[derive(Clone, Copy)]
pub struct Piece {
    /// The place of the first of them.
    pub place: u32,
    /// How many they are, at least 1.
    pub frames: u32,
    /// They go down from there, on the way back of a ping-pong loop.
    pub down: bool,
}

/// The piece of a looped sample that a voice reaches at `at`, where `at` counts on through the turns
/// of the loop.
#[tactic(auto, unfolding(ft_replay::specs::Sound::place_of, crate::specs::Mixing::straight_on))]
pub fn piece_at(head: &SampleHead, at: u32) -> Piece
    requires head { IsValidHead head.now }
    requires looped { 1 ≤ head.now.loop_kind }
    ensures piece { mixing.IsPieceOf head.now at result }
    ensures whole { result.frames ≡ mixing.straight_on head.now at }
{
    let end = end(head);
    if at < end {
        return Piece {
            place: at,
            frames: end - at,
            down: false,
        };
    }
    let turn = turn(head);
    let steps = (at - head.loop_start) % turn;
    if steps < head.loop_len {
        return Piece {
            place: head.loop_start + steps,
            frames: head.loop_len.min(turn) - steps,
            down: false,
        };
    }
    let back = turn - steps;
    Piece {
        place: head.loop_start + back,
        frames: back,
        down: true,
    }
}

/// Two pieces of a looped sample, one after the other. Where the first is enough, the second says
/// nothing.
#[derive(Clone, Copy)]
pub struct Pieces {
    /// The first of them.
    pub first: Piece,
    /// The one behind it.
    pub second: Piece,
}

/// The pieces in which that many frames lie, which a voice reaches from `at` on; none exactly where
/// they are more than two.
pub fn pieces_of(head: &SampleHead, at: u32, many: u32) -> Option<Pieces>
    requires head { IsValidHead head.now }
    requires looped { 1 ≤ head.now.loop_kind }
    requires at { at < 2 ^ 24 }
    requires many { many < 2 ^ 24 }
    ensures pieces { IfSome result (mixing.ArePiecesOf head.now at many) }
    ensures more { result ≡ None → mixing.straight_twice head.now at < many }
{
    let first = piece_at(head, at);
    if first.frames >= many {
        return Some(Pieces {
            first,
            second: first,
        });
    }
    let second = piece_at(head, at + first.frames);
    if first.frames + second.frames < many {
        return None;
    }
    Some(Pieces { first, second })
}
