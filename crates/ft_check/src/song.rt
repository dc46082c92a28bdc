//! Edits of the song as a whole, done in place.

ghost use Rattle.std.specs.Prelude.{◌≡◌, ◌<◌, set, length, IfOk, OnOk, OnErr};
ghost use Rattle.ft_edits.specs.Allowed.{Allows};
ghost use Rattle.ft_edits.specs.Groups.{group_of};
ghost use Rattle.ft_edits.specs.Lists.{without_last};
ghost use Rattle.ft_edits.specs.Patterns.{empty_pattern};
ghost use Rattle.ft_edits.specs.Edited.{edited, without_order};

use ft_edits::Group;
use ft_types::{Cell, Cells, Edit, Module, NoMemory, Orders, Pattern, Patterns};
use std::alloc::Global;

/// Sets the order at a place, if there is one.
fn put(orders: &mut Orders, at: u16, p: u8)
    ensures { orders.new ≡ set orders.old at p }
{
    match orders.get_mut(usize::from(at)) {
        Some(order) => *order = p,
        None => {}
    }
}

/// Takes an order out.
fn remove_order(m: &mut Module, pos: u16)
    requires { pos < length m.old.orders }
    ensures { m.new ≡ without_order pos m.old }
{
    let _gone = m.orders.remove(usize::from(pos));
    if usize::from(m.restart) >= m.orders.len() {
        m.restart = 0;
    }
}

/// A pattern of empty rows.
fn empty_pattern(alloc: Global, channels: u8, n: u16) -> Result<Pattern, NoMemory>
    ensures { IfOk result (λ pattern. pattern ≡ empty_pattern channels n) }
{
    let count = usize::from(n) * usize::from(channels);
    let cells = Vec::from_elem(alloc, Cell::EMPTY, count)?;
    Ok(Pattern {
        rows: n,
        cells: Cells::from_vec(cells),
    })
}

/// Takes the last pattern out, if there is one.
fn remove_last(patterns: &mut Patterns)
    ensures { patterns.new ≡ without_last patterns.old }
{
    let count = patterns.len();
    if count == 0 {
        return;
    }
    let _gone = patterns.remove(count - 1);
}

/// Does an edit of the song as a whole.
#[inline(never)]
pub(crate) fn do_song_edit(alloc: Global, m: &mut Module, e: &Edit) -> Result<(), NoMemory>
    requires group { group_of e.now ≡ Group.Song }
    requires there { Allows m.old e.now }
    ensures ok { OnOk result (m.new ≡ edited m.old e.now) }
    ensures err { OnErr result (m.new ≡ m.old) }
{
    match *e {
        Edit::Order { pos, p } => put(&mut m.orders, pos, p),
        Edit::Insorder { pos, p } => m.orders.insert(usize::from(pos), p)?,
        Edit::Delorder { pos } => remove_order(m, pos),
        Edit::Restart { pos } => m.restart = pos,
        Edit::Tempo { n } => m.tempo = n,
        Edit::Bpm { n } => m.bpm = n,
        Edit::Title { name } => m.name = name,
        Edit::Newpat { n } => m.patterns.push(empty_pattern(alloc, m.channels, n)?)?,
        Edit::Delpat => remove_last(&mut m.patterns),
        _ => {}
    }
    Ok(())
}
