//! The orders and the name in the root of a song.

ghost use Rattle.std.specs.Prelude.{◌≡◌, ◌≤◌, ◌<◌, ◌+◌, ℕ, List, length};
ghost use Rattle.ft_types.specs.declared.module.Module.{Module};
ghost use Rattle.ft_types.specs.Valid.{IsValid};
ghost use Rattle.ft_roots.specs.RootWords.{HasSongWords};

use crate::song_head::{orders_of, with_length};
use arrayvec::ArrayVec;
use ft_image::{byte, bytes_word, rows_are_read};

/// The orders of a song.
pub fn orders_in(words: &[u64; 256]) -> ArrayVec<u8, 256>
    ensures { (m : Module) (patterns instruments : List ℕ) → IsValid m
        → HasSongWords words.now m patterns instruments → result.items ≡ m.orders }
{
    rows_are_read();
    let count = orders_of(words[0]).min(256);
    let mut orders = ArrayVec::new();
    for i in 0..count {
        let word = words[8 + usize::from(i / 8)];
        orders.push(byte(word, (i % 8) as u8));
    }
    orders
}

/// Gives a song these orders.
pub fn put_orders(words: &mut [u64; 256], orders: &[u8])
    requires { length orders.now ≤ 256 }
    ensures { (m : Module) (patterns instruments : List ℕ) → length m.orders ≤ 256
        → HasSongWords words.old m patterns instruments
        → HasSongWords words.new (record m { orders = orders.now }) patterns instruments }
{
    words[0] = with_length(words[0], orders.len() as u16);
    for k in 0..32u8 {
        words[8 + usize::from(k)] = bytes_word(orders, k);
    }
}

/// Names a song.
pub fn put_title(words: &mut [u64; 256], name: &[u8; 20])
    ensures { (m : Module) (patterns instruments : List ℕ)
        → HasSongWords words.old m patterns instruments
        → HasSongWords words.new (record m { name = name.now }) patterns instruments }
{
    for k in 0..3u8 {
        words[2 + usize::from(k)] = bytes_word(name, k);
    }
}
