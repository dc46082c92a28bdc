//! Song length, restart and orders.

ghost use Rattle.std.specs.Prelude.{◌≡◌, ◌≤◌, length, take, slice_index, IfOk};
ghost use Rattle.ft_modread.specs.declared.layout.TheConstants.{PATTERNS_AT, LENGTH_AT, MOST_LENGTH};
ghost use Rattle.ft_modread.specs.Songs.{song_length, restart_in, all_orders, greatest, pattern_count_in};

use crate::layout::{LENGTH_AT, ORDERS, ORDERS_AT, RESTART_AT};
use crate::part::part_of;
use ft_types::{NoMemory, Orders};
use std::alloc::Global;

/// The greatest of some orders.
fn greatest(orders: &[u8]) -> u8
    ensures { result ≡ greatest orders.now }
{
    let mut most = 0u8;
    for order in orders {
        most = most.max(*order);
    }
    most
}

/// All orders of a file.
pub fn all_orders(file: &[u8]) -> &[u8]
    requires { PATTERNS_AT ≤ length file.now }
    ensures value { result.now ≡ all_orders file.now }
    ensures len { length result.now ≡ 128 }
{
    part_of(file, ORDERS_AT as usize, ORDERS as usize)
}

/// The number of patterns.
#[tactic(auto, unfolding(crate::specs::Songs::pattern_count_in))]
pub fn pattern_count_in(file: &[u8]) -> u32
    requires { PATTERNS_AT ≤ length file.now }
    ensures value { result ≡ pattern_count_in file.now }
    ensures few { result ≤ 256 }
{
    1 + u32::from(greatest(all_orders(file)))
}

/// The song length; 0 is read as 1.
fn song_length(file: &[u8]) -> u8
    requires { PATTERNS_AT ≤ length file.now }
    ensures { result ≡ song_length file.now }
{
    file[LENGTH_AT as usize].max(1)
}

/// The restart; one past the song is 0.
pub fn restart_in(file: &[u8]) -> u8
    requires { PATTERNS_AT ≤ length file.now }
    ensures { result ≡ restart_in file.now }
{
    let restart = file[RESTART_AT as usize];
    if restart < song_length(file) {
        restart
    } else {
        0
    }
}

/// The orders of the song.
pub fn orders_of(alloc: Global, file: &[u8]) -> Result<Orders, NoMemory>
    requires whole { PATTERNS_AT ≤ length file.now }
    requires few { slice_index file.now LENGTH_AT ≤ MOST_LENGTH }
    ensures { IfOk result (λ orders. orders ≡ take (song_length file.now) (all_orders file.now)) }
{
    let orders = &all_orders(file)[..usize::from(song_length(file))];
    Ok(Orders::from_vec(Vec::from_slice(alloc, orders)?))
}
