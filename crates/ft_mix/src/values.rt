//! The values of a voice.

ghost use Rattle.std.specs.Prelude.{◌≡◌, ◌≤◌, ◌<◌, ◌+◌, ◌*◌, ◌/◌, ◌^◌, ℕ, pos, None, Option, true, false, FitsSigned, length, get_or};
ghost use Rattle.std.specs.Int.{w16};
ghost use Rattle.ft_types.specs.declared.voice.SampleHead.{SampleHead as Head};
ghost use Rattle.ft_types.specs.Valid.{IsValidHead};
ghost use Rattle.ft_types.specs.Views.{Owned};
ghost use Rattle.ft_types.specs.Work as work_of;
ghost use Rattle.ft_replay.specs.Sound as sound;
ghost use Rattle.ft_mix.specs.Mixing as mixing;

use crate::line::between;
use crate::piece::pieces_of;
use crate::reach::value_of;
use crate::reached::{read_pieces, read_reached};
use ft_types::{SampleHead, SongView, Voice};

/// The value at a place between some that are reached. Places count from the first of them, and 2^32
/// are between it and the next.
#[inline]
fn value_between(reached: &[i16], place: u64) -> i32
    requires reached { place / 2 ^ 32 + 1 < length reached.now }
    requires range { mixing.Fit16 (length reached.now) reached.now }
    ensures value { (head : Head) (owned : Option Owned) (at : ℕ)
        → mixing.AreReached head owned at (length reached.now) reached.now
        → result ≡ sound.value_at head owned (at * 2 ^ 32 + place) }
    ensures range { FitsSigned w16 result }
{
    let at = (place >> 32) as usize;
    between(reached[at], reached[at + 1], (place % (1 << 32)) as u32)
}

/// The next four values, from the k-th on, each a step after the one before: the k-th is at this place.
#[inline]
fn walk_four(reached: &[i16], place: u64, step: u64, values: &mut [i32], k: usize)
    requires room { k + 4 ≤ length values.old }
    requires place { place < 2 ^ 62 }
    requires step { step ≤ 2 ^ 36 }
    requires reached { (place + 3 * step) / 2 ^ 32 + 1 < length reached.now }
    requires range { mixing.Fit16 (length reached.now) reached.now }
    ensures values { (head : Head) (owned : Option Owned) (at position : ℕ)
        → mixing.AreReached head owned at (length reached.now) reached.now
        → position + k * step ≡ at * 2 ^ 32 + place
        → mixing.AreValues head owned position step k values.old
        → mixing.AreValues head owned position step (k + 4) values.new }
    ensures range { mixing.Fit16 k values.old → mixing.Fit16 (k + 4) values.new }
    ensures many { length values.new ≡ length values.old }
{
    let second = place + step;
    let third = second + step;
    values[k] = value_between(reached, place);
    values[k + 1] = value_between(reached, second);
    values[k + 2] = value_between(reached, third);
    values[k + 3] = value_between(reached, third + step);
}

/// The values from a place on between some that are reached, each a step after the one before, as many
/// as a multiple of four.
fn walk_fours(reached: &[i16], start: u64, step: u64, values: &mut [i32])
    requires start { start < 2 ^ 32 }
    requires step { step ≤ 2 ^ 36 }
    requires few { length values.old ≤ 3751 }
    requires reached { (k : ℕ) → k < length values.old
        → (start + k * step) / 2 ^ 32 + 1 < length reached.now }
    requires range { mixing.Fit16 (length reached.now) reached.now }
    ensures values { (head : Head) (owned : Option Owned) (at : ℕ)
        → mixing.AreReached head owned at (length reached.now) reached.now
        → mixing.AreValues head owned (at * 2 ^ 32 + start) step (4 * (length values.old / 4))
        values.new }
    ensures range { mixing.Fit16 (4 * (length values.old / 4)) values.new }
    ensures many { length values.new ≡ length values.old }
{
    let mut place = start;
    for four in 0..values.len() / 4 {
        walk_four(reached, place, step, values, 4 * four);
        place += 4 * step;
    }
}

/// The same, all of them.
fn walk(reached: &[i16], start: u64, step: u64, values: &mut [i32])
    requires start { start < 2 ^ 32 }
    requires step { step ≤ 2 ^ 36 }
    requires few { length values.old ≤ 3751 }
    requires reached { (k : ℕ) → k < length values.old
        → (start + k * step) / 2 ^ 32 + 1 < length reached.now }
    requires range { mixing.Fit16 (length reached.now) reached.now }
    ensures values { (head : Head) (owned : Option Owned) (at : ℕ)
        → mixing.AreReached head owned at (length reached.now) reached.now
        → mixing.AreValues head owned (at * 2 ^ 32 + start) step (length values.old) values.new }
    ensures range { mixing.Fit16 (length values.old) values.new }
    ensures many { length values.new ≡ length values.old }
{
    walk_fours(reached, start, step, values);
    for k in 4 * (values.len() / 4)..values.len() {
        values[k] = value_between(reached, start + k as u64 * step);
    }
}

/// The values of a voice from a position on, where it moves by at most two frames at once: first
/// all frames that it reaches are read, and then it walks on between them.
fn read_walk<V: SongView>(
    view: &mut V,
    voice: Voice,
    position: u64,
    reached: &mut [i16],
    values: &mut [i32],
)
    requires channel { voice.channel < length (V.holds view.old) }
    requires kept { V.keeps view.old voice.channel voice.head }
    requires head { IsValidHead voice.head }
    requires position { position / 2 ^ 32 < 2 ^ 24 }
    requires step { voice.step ≤ 2 ^ 33 }
    requires some { 1 ≤ length values.old }
    requires few { length values.old ≤ 512 }
    requires room { length reached.old ≡ 1024 }
    ensures values { mixing.OnlyAsks V.shows V.shown view.old view.new (λ shown. mixing.AreValues
        voice.head (get_or shown.kept voice.channel None) position voice.step
        (length values.old) values.new) }
    ensures range { mixing.Fit16 (length values.old) values.new }
    ensures many { length values.new ≡ length values.old }
    ensures room { length reached.new ≡ length reached.old }
    ensures holds { V.holds view.new ≡ V.holds view.old }
    ensures keeps { (c : ℕ) (h : Head) → V.keeps view.old c h → V.keeps view.new c h }
    ensures work { (V.work view.old ≤ V.work view.new) × (V.work view.new
        ≤ V.work view.old + 2 * work_of.frame_bound * length values.old) }
    ensures cost { voice.head.loop_kind ≡ 0 → voice.step ≤ 2 ^ 32 → V.work view.new
        ≤ V.work view.old + (5 + (length values.old + 3) / 4) }
    ensures same { V.same view.old view.new }
{
    let start = position % (1 << 32);
    let last = start + (values.len() as u64 - 1) * voice.step;
    let reached = &mut reached[..(last >> 32) as usize + 2];
    read_reached(
        view,
        voice.channel,
        &voice.head,
        (position >> 32) as u32,
        reached,
    );
    walk(reached, start, voice.step, values);
}

/// Reads the frames that a voice reaches from `at` on, where they lie in few pieces, and says so; or reads
/// none.
fn read_ahead<V: SongView>(
    view: &mut V,
    channel: u8,
    head: &SampleHead,
    at: u32,
    reached: &mut [i16],
) -> bool
    requires channel { channel < length (V.holds view.old) }
    requires kept { V.keeps view.old channel head.now }
    requires head { IsValidHead head.now }
    requires at { at < 2 ^ 24 }
    requires some { 1 ≤ length reached.old }
    requires few { length reached.old < 2 ^ 24 }
    ensures values { result ≡ true → mixing.OnlyAsks V.shows V.shown view.old view.new (λ shown.
        mixing.AreReached head.now (get_or shown.kept channel None) at (length reached.old)
        reached.new) }
    ensures range { result ≡ true → mixing.Fit16 (length reached.old) reached.new }
    ensures rests { result ≡ false → view.new ≡ view.old }
    ensures many { length reached.new ≡ length reached.old }
    ensures holds { V.holds view.new ≡ V.holds view.old }
    ensures keeps { (c : ℕ) (h : Head) → V.keeps view.old c h → V.keeps view.new c h }
    ensures work { (V.work view.old ≤ V.work view.new) × (V.work view.new
        ≤ V.work view.old + (12 + length reached.old / 4 + 2 * (length reached.old / 1024))) }
    ensures same { V.same view.old view.new }
{
    if head.loop_kind == 0 {
        read_reached(view, channel, head, at, reached);
        return true;
    }
    let Some(pieces) = pieces_of(head, at, reached.len() as u32) else {
        return false;
    };
    read_pieces(view, channel, head, at, pieces, reached);
    true
}

/// The values of a voice from a position on, where it moves by more than two frames at once, and by at most
/// sixteen: all frames that it reaches are read first where they lie in few pieces, and else each value is
/// read by itself.
fn read_far<V: SongView>(view: &mut V, voice: Voice, position: u64, values: &mut [i32])
    requires channel { voice.channel < length (V.holds view.old) }
    requires kept { V.keeps view.old voice.channel voice.head }
    requires head { IsValidHead voice.head }
    requires position { position + length values.old * voice.step < 2 ^ 56 }
    requires step { voice.step ≤ 2 ^ 36 }
    requires some { 8 ≤ length values.old }
    requires few { length values.old ≤ 512 }
    ensures values { mixing.OnlyAsks V.shows V.shown view.old view.new (λ shown. mixing.AreValues
        voice.head (get_or shown.kept voice.channel None) position voice.step
        (length values.old) values.new) }
    ensures range { mixing.Fit16 (length values.old) values.new }
    ensures many { length values.new ≡ length values.old }
    ensures holds { V.holds view.new ≡ V.holds view.old }
    ensures keeps { (c : ℕ) (h : Head) → V.keeps view.old c h → V.keeps view.new c h }
    ensures work { (V.work view.old ≤ V.work view.new) × (V.work view.new
        ≤ V.work view.old + 2 * work_of.frame_bound * length values.old) }
    ensures same { V.same view.old view.new }
{
    let start = position % (1 << 32);
    let last = start + (values.len() as u64 - 1) * voice.step;
    let mut room = [0; 8192];
    let reached = &mut room[..(last >> 32) as usize + 2];
    let at = (position >> 32) as u32;
    if !read_ahead(view, voice.channel, &voice.head, at, reached) {
        read_leaps(view, voice, position, values);
        return;
    }
    walk(reached, start, voice.step, values);
}

/// The value of a channel's voice at a position, which has 32 bits of fraction.
fn read_value<V: SongView>(view: &mut V, channel: u8, head: &SampleHead, position: u64) -> i32
    requires channel { channel < length (V.holds view.old) }
    requires kept { V.keeps view.old channel head.now }
    requires head { IsValidHead head.now }
    requires position { position < 2 ^ 56 }
    ensures value { mixing.OnlyAsks V.shows V.shown view.old view.new (λ shown. result
        ≡ sound.value_at head.now (get_or shown.kept channel None) position) }
    ensures range { FitsSigned w16 result }
    ensures holds { V.holds view.new ≡ V.holds view.old }
    ensures keeps { (c : ℕ) (h : Head) → V.keeps view.old c h → V.keeps view.new c h }
    ensures work { (V.work view.old ≤ V.work view.new)
        × (V.work view.new ≤ V.work view.old + 2 * work_of.frame_bound) }
    ensures same { V.same view.old view.new }
{
    let at = (position >> 32) as u32;
    let first = value_of(view, channel, head, at);
    let second = value_of(view, channel, head, at + 1);
    between(first, second, (position % (1 << 32)) as u32)
}

/// The values of a voice from a position on, each read by itself.
fn read_leaps<V: SongView>(view: &mut V, voice: Voice, position: u64, values: &mut [i32])
    requires channel { voice.channel < length (V.holds view.old) }
    requires kept { V.keeps view.old voice.channel voice.head }
    requires head { IsValidHead voice.head }
    requires position { position + length values.old * voice.step < 2 ^ 56 }
    ensures values { mixing.OnlyAsks V.shows V.shown view.old view.new (λ shown. mixing.AreValues
        voice.head (get_or shown.kept voice.channel None) position voice.step
        (length values.old) values.new) }
    ensures range { mixing.Fit16 (length values.old) values.new }
    ensures many { length values.new ≡ length values.old }
    ensures holds { V.holds view.new ≡ V.holds view.old }
    ensures keeps { (c : ℕ) (h : Head) → V.keeps view.old c h → V.keeps view.new c h }
    ensures work { (V.work view.old ≤ V.work view.new) × (V.work view.new
        ≤ V.work view.old + 2 * work_of.frame_bound * length values.old) }
    ensures same { V.same view.old view.new }
{
    let mut place = position;
    for value in values.iter_mut() {
        *value = read_value(view, voice.channel, &voice.head, place);
        place += voice.step;
    }
}

/// The values of a voice at the frames of its tick from `first` on. What `reached` lends holds
/// afterwards isn't said.
pub fn read_values<V: SongView>(
    view: &mut V,
    voice: Voice,
    first: u32,
    reached: &mut [i16],
    values: &mut [i32],
)
    requires voice { mixing.IsMixed (V.keeps view.old) (length (V.holds view.old)) voice }
    requires some { 1 ≤ length values.old }
    requires few { length values.old ≤ 512 }
    requires frames { first + length values.old ≤ 3751 }
    requires room { length reached.old ≡ 1024 }
    ensures values { mixing.OnlyAsks V.shows V.shown view.old view.new (λ shown. mixing.AreValues
        voice.head (get_or shown.kept voice.channel None) (voice.pos + first * voice.step)
        voice.step (length values.old) values.new) }
    ensures range { mixing.Fit16 (length values.old) values.new }
    ensures many { length values.new ≡ length values.old }
    ensures room { length reached.new ≡ length reached.old }
    ensures holds { V.holds view.new ≡ V.holds view.old }
    ensures keeps { (c : ℕ) (h : Head) → V.keeps view.old c h → V.keeps view.new c h }
    ensures work { (V.work view.old ≤ V.work view.new) × (V.work view.new
        ≤ V.work view.old + 2 * work_of.frame_bound * length values.old) }
    ensures cost { V.work view.new
        ≤ V.work view.old + mixing.block_cost (length values.old) voice }
    ensures same { V.same view.old view.new }
{
    let position = voice.pos + u64::from(first) * voice.step;
    if voice.step <= 1 << 33 {
        read_walk(view, voice, position, reached, values);
        return;
    }
    if voice.step <= 1 << 36 && values.len() >= 8 {
        read_far(view, voice, position, values);
        return;
    }
    read_leaps(view, voice, position, values);
}
