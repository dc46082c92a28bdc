//! The root of a song, changed as an edit changes the song.

ghost use Rattle.std.specs.Prelude.{◌≡◌, ◌≤◌, ◌<◌, ◌+◌, ℕ, List, None, length, set, insert, nat_lt, if◌then◌else◌};
ghost use Rattle.ft_types.specs.declared.module.Module.{Module};
ghost use Rattle.ft_types.specs.Valid.{IsValid};
ghost use Rattle.ft_edits.specs.Faults.{fault_of};
ghost use Rattle.ft_edits.specs.Groups.{group_of};
ghost use Rattle.ft_edits.specs.Edited.{edited, without_order};
ghost use Rattle.ft_roots.specs.RootWords.{HasSongWords};

use crate::song_head::{
    restart_of, with_bpm, with_instrument_more, with_pattern_less, with_pattern_more, with_restart,
    with_tempo,
};
use crate::song_rows::{orders_in, put_orders, put_title};
use ft_edits::{Group, allowed_edits_name_what_is_there, group_of};
use ft_image::{other_words_stay, with_byte};
use ft_types::Edit;

/// Sets an order.
fn set_order(words: &mut [u64; 256], pos: u16, p: u8)
    ensures { (m : Module) (patterns instruments : List ℕ) → IsValid m → pos < length m.orders
        → HasSongWords words.old m patterns instruments
        → HasSongWords words.new (record m { orders = set m.orders pos p }) patterns instruments }
{
    other_words_stay();
    if pos < 256 {
        let at = 8 + usize::from(pos / 8);
        words[at] = with_byte(words[at], (pos % 8) as u8, p);
    }
}

/// Puts an order before a position.
fn insert_order(words: &mut [u64; 256], pos: u16, p: u8)
    ensures { (m : Module) (patterns instruments : List ℕ) → IsValid m → pos ≤ length m.orders
        → length m.orders < 256 → HasSongWords words.old m patterns instruments
        → HasSongWords words.new (record m { orders = insert m.orders pos p })
        patterns instruments }
{
    let mut orders = orders_in(words);
    if orders.len() < 256 && usize::from(pos) <= orders.len() {
        orders.insert(usize::from(pos), p);
        put_orders(words, orders.as_slice());
    }
}

/// A restart that isn't below a number of orders becomes 0.
fn fit_restart(words: &mut [u64; 256], count: usize)
    ensures { (m : Module) (patterns instruments : List ℕ) → IsValid m
        → HasSongWords words.old m patterns instruments
        → HasSongWords words.new
        (record m { restart = if nat_lt m.restart count then m.restart else 0 })
        patterns instruments }
{
    if usize::from(restart_of(words[0])) >= count {
        words[0] = with_restart(words[0], 0);
    }
}

/// Takes an order out. A restart past the end becomes 0.
fn remove_order(words: &mut [u64; 256], pos: u16)
    ensures { (m : Module) (patterns instruments : List ℕ) → IsValid m → pos < length m.orders
        → HasSongWords words.old m patterns instruments
        → HasSongWords words.new (without_order pos m) patterns instruments }
{
    let mut orders = orders_in(words);
    if usize::from(pos) < orders.len() {
        orders.remove(usize::from(pos));
        fit_restart(words, orders.len());
        put_orders(words, orders.as_slice());
    }
}

/// Changes the root as an edit of the song as a whole does.
fn change_whole(words: &mut [u64; 256], e: &Edit)
    requires group { group_of e.now ≡ Group.Song }
    ensures { (m : Module) (patterns instruments : List ℕ) → IsValid m → fault_of m e.now ≡ None
        → HasSongWords words.old m patterns instruments
        → HasSongWords words.new (edited m e.now) patterns instruments }
{
    allowed_edits_name_what_is_there();
    match e {
        Edit::Order { pos, p } => set_order(words, *pos, *p),
        Edit::Insorder { pos, p } => insert_order(words, *pos, *p),
        Edit::Delorder { pos } => remove_order(words, *pos),
        Edit::Restart { pos } => words[0] = with_restart(words[0], *pos),
        Edit::Tempo { n } => words[0] = with_tempo(words[0], *n),
        Edit::Bpm { n } => words[0] = with_bpm(words[0], *n),
        Edit::Title { name } => put_title(words, name),
        Edit::Newpat { .. } => words[1] = with_pattern_more(words[1]),
        Edit::Delpat => words[1] = with_pattern_less(words[1]),
        _ => {}
    }
}

/// Changes the root of a song as an edit does that isn't refused, but for the roots that it names:
/// those are put by functions of their own.
pub fn change_song_words(words: &mut [u64; 256], e: &Edit)
    ensures { (m : Module) (patterns instruments : List ℕ) → IsValid m → fault_of m e.now ≡ None
        → HasSongWords words.old m patterns instruments
        → HasSongWords words.new (edited m e.now) patterns instruments }
{
    match group_of(e) {
        Group::Song => change_whole(words, e),
        Group::Instruments => {
            if let Edit::Newins = e {
                words[1] = with_instrument_more(words[1]);
            }
        }
        _ => {}
    }
}
