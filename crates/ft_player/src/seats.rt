//! The seats of a player, one for each channel.

ghost use Rattle.std.specs.Prelude.{◌≡◌, ◌≤◌, None, replicate};

use crate::seat::Seat;
use arrayvec::ArrayVec;

/// That many seats, on which nothing sounds.
pub(crate) fn no_seats(channels: u8) -> ArrayVec<Option<Seat>, 32>
    requires { channels ≤ 32 }
    ensures { result.items ≡ replicate channels None }
{
    let mut seats = ArrayVec::new();
    for _ in 0..channels {
        seats.push(None);
    }
    seats
}
