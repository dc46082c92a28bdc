//! A row on one channel: its start, and its later ticks.

ghost use Rattle.std.specs.Prelude.{◌≡◌, ◌≤◌, ◌<◌, ◌+◌, ℕ, true, length};
ghost use Rattle.ft_replay.specs.Calls as calls;
ghost use Rattle.ft_replay.specs.Effects as effects;
ghost use Rattle.ft_replay.specs.Range.{IsChannelInRange, IsTimed};
ghost use Rattle.ft_replay.specs.Row as row;
ghost use Rattle.ft_channel.specs.Bounds.{note_bound, row_bound};
ghost use Rattle.ft_channel.specs.Staying.{Stays, StaysInPlace, StaysTimed, WordsFor};

use crate::anew::{after_note, take_instrument};
use crate::effect::{effect_start, effect_tick};
use crate::memory::{SAMPLE_OFFSET, remember};
use crate::note::start_note;
use crate::volume::{volume_start, volume_tick};
use ft_replay::{Channel, Control, Effect, VolumeEffect};
use ft_types::{Cell, SongView};

/// The instrument byte, the note, what they set anew, and the volume byte, of any cell.
#[tactic(auto, unfolding(ft_replay::specs::Row::strike_of))]
fn strike_cell<V: SongView>(view: &mut V, ch: &mut Channel, c: u8, cell: Cell, effect: Effect)
    requires effect { effect ≡ effects.effect_in cell }
    requires digits { effects.IsEffect effect }
    requires channel { c < length (V.holds view.old) }
    requires range { IsChannelInRange c ch.old }
    ensures changed { calls.Changes V.shows V.shown
        (λ version song. row.strike_of version song c cell) c view.old view.new ch.old ch.new }
    ensures keeps { calls.KeepsFor c (V.keeps view.old) (V.keeps view.new)
        (V.holds view.old) (V.holds view.new) ch.old.voice ch.new.voice }
    ensures range { IsChannelInRange c ch.new }
    ensures words { WordsFor c (V.words view.old) (V.words view.new) }
    ensures work { (V.work view.old ≤ V.work view.new)
        × (V.work view.new ≤ V.work view.old + note_bound) }
    ensures same { V.same view.old view.new }
{
    take_instrument(ch, cell);
    let began = start_note(view, ch, c, cell, effect);
    after_note(ch, began, cell);
    volume_start(ch, VolumeEffect::of(cell.volume));
}

/// Whether a cell has no note, no instrument and no volume byte.
fn is_silent(cell: Cell) -> bool
    ensures { result ≡ true → (cell.note ≡ 0) × ((cell.instrument ≡ 0) × (cell.volume ≡ 0)) }
{
    cell.note == 0 && cell.instrument == 0 && cell.volume == 0
}

/// The cell again. The copy lies in memory where a note needs it there, and nowhere else.
fn same_cell(cell: Cell) -> Cell
    ensures { result ≡ cell }
{
    Cell {
        note: cell.note,
        instrument: cell.instrument,
        volume: cell.volume,
        effect: cell.effect,
        parameter: cell.parameter,
    }
}

/// The same, where a cell without a note, an instrument and a volume byte costs next to nothing.
#[inline(always)]
fn strike<V: SongView>(view: &mut V, ch: &mut Channel, c: u8, cell: Cell, effect: Effect)
    requires effect { effect ≡ effects.effect_in cell }
    requires digits { effects.IsEffect effect }
    requires channel { c < length (V.holds view.old) }
    requires range { IsChannelInRange c ch.old }
    ensures changed { calls.Changes V.shows V.shown
        (λ version song. row.strike_of version song c cell) c view.old view.new ch.old ch.new }
    ensures keeps { calls.KeepsFor c (V.keeps view.old) (V.keeps view.new)
        (V.holds view.old) (V.holds view.new) ch.old.voice ch.new.voice }
    ensures range { IsChannelInRange c ch.new }
    ensures words { WordsFor c (V.words view.old) (V.words view.new) }
    ensures work { (V.work view.old ≤ V.work view.new)
        × (V.work view.new ≤ V.work view.old + note_bound) }
    ensures same { V.same view.old view.new }
{
    if is_silent(cell) {
        return;
    }
    strike_cell(view, ch, c, same_cell(cell), effect);
}

/// Effect 9 is remembered before the note begins.
fn remember_offset(ch: &mut Channel, effect: Effect)
    ensures value { ch.new ≡ row.with_offset effect ch.old }
    ensures stays { Stays ch.old ch.new }
{
    match effect {
        Effect::SampleOffset { pages } => remember(ch, SAMPLE_OFFSET, pages),
        _ => {}
    }
}

/// Whether a cell says nothing of later ticks: it has neither a volume byte nor an effect.
fn is_still(cell: Cell) -> bool
    ensures { result ≡ true → (cell.volume ≡ 0) × ((cell.effect ≡ 0) × (cell.parameter ≡ 0)) }
{
    cell.volume == 0 && cell.effect == 0 && cell.parameter == 0
}

/// Whether a cell says nothing at all.
fn is_empty(cell: Cell) -> bool
    ensures { result ≡ true → (cell.note ≡ 0) × ((cell.instrument ≡ 0)
        × ((cell.volume ≡ 0) × ((cell.effect ≡ 0) × (cell.parameter ≡ 0)))) }
{
    cell.note == 0 && cell.instrument == 0 && is_still(cell)
}

/// Whether the effect of a row delays its note.
fn is_delayed(effect: Effect) -> bool
    ensures { result ≡ row.is_delayed effect }
{
    matches!(effect, Effect::NoteDelay { .. })
}

/// The start of a row on channel `c`, from 0, whose cell this is. Any cell has its rule.
///
/// It takes the instrument byte, the note, the volume byte and tick 0 of the effect, in this
/// order; a delayed note does nothing yet. `ctl` gets what the effect says of the song as a whole.
#[tactic(auto, unfolding(ft_replay::specs::Row::row_start_of))]
pub fn row_start<V: SongView>(view: &mut V, ch: &mut Channel, ctl: &mut Control, c: u8, cell: Cell)
    requires channel { c < length (V.holds view.old) }
    requires range { IsChannelInRange c ch.old }
    requires row { ctl.old.row ≤ 255 }
    ensures turned { calls.MakesTurn V.shows V.shown
        (λ version song c. row.row_start_of version song c cell) c
        view.old view.new ch.old ch.new ctl.old ctl.new }
    ensures shown { calls.MakesTurnShown V.shows V.shown
        (λ version song c. row.row_start_of version song c cell) c
        view.old view.new ch.old ch.new ctl.old ctl.new }
    ensures keeps { calls.KeepsFor c (V.keeps view.old) (V.keeps view.new)
        (V.holds view.old) (V.holds view.new) ch.old.voice ch.new.voice }
    ensures range { IsChannelInRange c ch.new }
    ensures place { StaysInPlace ctl.old ctl.new }
    ensures timed { StaysTimed c ctl.old ctl.new }
    ensures words { WordsFor c (V.words view.old) (V.words view.new) }
    ensures work { (V.work view.old ≤ V.work view.new)
        × (V.work view.new ≤ V.work view.old + row_bound) }
    ensures same { V.same view.old view.new }
{
    if is_empty(cell) {
        return;
    }
    let effect = Effect::of(cell);
    if is_delayed(effect) {
        return;
    }
    remember_offset(ch, effect);
    strike(view, ch, c, cell, effect);
    effect_start(view, ch, ctl, c, effect);
}

/// A delayed note, where `u` is its tick.
fn strike_late<V: SongView>(
    view: &mut V,
    ch: &mut Channel,
    c: u8,
    cell: Cell,
    u: u16,
    effect: Effect,
)
    requires effect { effect ≡ effects.effect_in cell }
    requires digits { effects.IsEffect effect }
    requires channel { c < length (V.holds view.old) }
    requires range { IsChannelInRange c ch.old }
    ensures changed { calls.Changes V.shows V.shown
        (λ version song. row.delayed_strike version song c cell u effect) c
        view.old view.new ch.old ch.new }
    ensures keeps { calls.KeepsFor c (V.keeps view.old) (V.keeps view.new)
        (V.holds view.old) (V.holds view.new) ch.old.voice ch.new.voice }
    ensures range { IsChannelInRange c ch.new }
    ensures words { WordsFor c (V.words view.old) (V.words view.new) }
    ensures work { (V.work view.old ≤ V.work view.new)
        × (V.work view.new ≤ V.work view.old + note_bound) }
    ensures same { V.same view.old view.new }
{
    match effect {
        Effect::NoteDelay { tick } if u16::from(tick) == u => {
            strike(view, ch, c, cell, Effect::of(cell))
        }
        _ => {}
    }
}

/// Tick `u`, from 1, of the row on channel `c`, from 0, whose cell the channel has.
///
/// It takes the later rule of the volume byte, and then that of the effect; a delayed note begins
/// at its tick.
#[tactic(auto, unfolding(ft_replay::specs::Row::row_tick_of))]
pub fn row_tick<V: SongView>(view: &mut V, ch: &mut Channel, ctl: &mut Control, c: u8, u: u16)
    requires channel { c < length (V.holds view.old) }
    requires range { IsChannelInRange c ch.old }
    ensures turned { calls.MakesTurn V.shows V.shown
        (λ version song c. row.row_tick_of version song c u) c
        view.old view.new ch.old ch.new ctl.old ctl.new }
    ensures shown { calls.MakesTurnShown V.shows V.shown
        (λ version song c. row.row_tick_of version song c u) c
        view.old view.new ch.old ch.new ctl.old ctl.new }
    ensures keeps { calls.KeepsFor c (V.keeps view.old) (V.keeps view.new)
        (V.holds view.old) (V.holds view.new) ch.old.voice ch.new.voice }
    ensures range { IsChannelInRange c ch.new }
    ensures place { StaysInPlace ctl.old ctl.new }
    ensures timed { (n : ℕ) → IsTimed n ctl.old → IsTimed n ctl.new }
    ensures words { WordsFor c (V.words view.old) (V.words view.new) }
    ensures work { (V.work view.old ≤ V.work view.new)
        × (V.work view.new ≤ V.work view.old + row_bound) }
    ensures same { V.same view.old view.new }
{
    let cell = ch.cell;
    if is_still(cell) {
        return;
    }
    let effect = Effect::of(cell);
    volume_tick(ch, VolumeEffect::of(cell.volume));
    strike_late(view, ch, c, cell, u, effect);
    effect_tick(view, ch, ctl, c, u, effect);
}
