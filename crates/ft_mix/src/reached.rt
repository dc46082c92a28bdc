//! The values that a voice reaches, one after the other.

ghost use Rattle.std.specs.Prelude.{◌≡◌, ◌≤◌, ◌<◌, ◌+◌, ◌-◌, ◌*◌, ◌/◌, ◌^◌, ℕ, pos, None, Some, true, false, length, get_or};
ghost use Rattle.ft_types.specs.Valid.{IsValidHead};
ghost use Rattle.ft_types.specs.Views.{FitWidth};
ghost use Rattle.ft_types.specs.Work as work_of;
ghost use Rattle.ft_replay.specs.Sound as sound;
ghost use Rattle.ft_mix.specs.Mixing as mixing;

use crate::piece::{Piece, Pieces, piece_at};
use ft_types::{SampleHead, SongView};

/// Makes values of raw frames: one of 8 bits counts 256 times.
fn amplify(wide: bool, frames: &mut [i16])
    requires range { FitWidth wide frames.old }
    ensures values { (k : ℕ) → k < length frames.old
        → get_or frames.new k (pos 0) ≡ sound.loudness wide (get_or frames.old k (pos 0)) }
    ensures range { mixing.Fit16 (length frames.old) frames.new }
    ensures many { length frames.new ≡ length frames.old }
{
    if wide {
        return;
    }
    for frame in frames.iter_mut() {
        *frame *= 256;
    }
}

/// The values of frames in a row, from a place of the sample of a channel's voice on.
fn read_up<V: SongView>(
    view: &mut V,
    channel: u8,
    head: &SampleHead,
    place: u32,
    values: &mut [i16],
)
    requires channel { channel < length (V.holds view.old) }
    requires kept { V.keeps view.old channel head.now }
    requires some { 1 ≤ length values.old }
    requires within { place + length values.old ≤ head.now.frames }
    ensures values { mixing.OnlyAsks V.shows V.shown view.old view.new (λ shown.
        (k : ℕ) → k < length values.old → get_or values.new k (pos 0) ≡ sound.value_in head.now
        (get_or shown.kept channel None) (Some (place + k))) }
    ensures range { mixing.Fit16 (length values.old) values.new }
    ensures many { length values.new ≡ length values.old }
    ensures holds { V.holds view.new ≡ V.holds view.old }
    ensures keeps { (c : ℕ) (h : SampleHead) → V.keeps view.old c h → V.keeps view.new c h }
    ensures work { (V.work view.old ≤ V.work view.new)
        × (V.work view.new ≤ V.work view.old + work_of.frame_bound * length values.old) }
    ensures cost { V.work view.new
        ≤ V.work view.old + mixing.way_cost place (place + length values.old - 1) }
    ensures same { V.same view.old view.new }
{
    view.frames(channel, place, values);
    amplify(head.wide, values);
}

/// The same, where the places go down.
fn read_down<V: SongView>(
    view: &mut V,
    channel: u8,
    head: &SampleHead,
    place: u32,
    values: &mut [i16],
)
    requires channel { channel < length (V.holds view.old) }
    requires kept { V.keeps view.old channel head.now }
    requires some { 1 ≤ length values.old }
    requires within { place < head.now.frames }
    requires room { length values.old ≤ place + 1 }
    requires bound { place < 2 ^ 24 }
    ensures values { mixing.OnlyAsks V.shows V.shown view.old view.new (λ shown.
        (k : ℕ) → k < length values.old → get_or values.new k (pos 0) ≡ sound.value_in head.now
        (get_or shown.kept channel None) (Some (place - k))) }
    ensures range { mixing.Fit16 (length values.old) values.new }
    ensures many { length values.new ≡ length values.old }
    ensures holds { V.holds view.new ≡ V.holds view.old }
    ensures keeps { (c : ℕ) (h : SampleHead) → V.keeps view.old c h → V.keeps view.new c h }
    ensures work { (V.work view.old ≤ V.work view.new)
        × (V.work view.new ≤ V.work view.old + work_of.frame_bound * length values.old) }
    ensures cost { V.work view.new ≤ V.work view.old + mixing.piece_cost (length values.old) }
    ensures same { V.same view.old view.new }
{
    let lowest = place + 1 - values.len() as u32;
    read_up(view, channel, head, lowest, values);
    values.reverse();
}

/// Makes all values from a place on 0.
fn silence(values: &mut [i16], from: usize)
    requires { from ≤ length values.old }
    ensures before { (k : ℕ) → k < from
        → get_or values.new k (pos 0) ≡ get_or values.old k (pos 0) }
    ensures silent { (k : ℕ) → from ≤ k → k < length values.old
        → get_or values.new k (pos 0) ≡ pos 0 }
    ensures many { length values.new ≡ length values.old }
{
    for k in from..values.len() {
        values[k] = 0;
    }
}

/// The values from `at` on of a sample without loop: past its end they are 0.
fn read_to_end<V: SongView>(
    view: &mut V,
    channel: u8,
    head: &SampleHead,
    at: u32,
    values: &mut [i16],
)
    requires channel { channel < length (V.holds view.old) }
    requires kept { V.keeps view.old channel head.now }
    requires head { IsValidHead head.now }
    requires straight { head.now.loop_kind ≡ 0 }
    requires some { 1 ≤ length values.old }
    ensures values { mixing.OnlyAsks V.shows V.shown view.old view.new (λ shown. mixing.AreReached
        head.now (get_or shown.kept channel None) at (length values.old) values.new) }
    ensures range { mixing.Fit16 (length values.old) values.new }
    ensures many { length values.new ≡ length values.old }
    ensures holds { V.holds view.new ≡ V.holds view.old }
    ensures keeps { (c : ℕ) (h : SampleHead) → V.keeps view.old c h → V.keeps view.new c h }
    ensures work { (V.work view.old ≤ V.work view.new)
        × (V.work view.new ≤ V.work view.old + work_of.frame_bound * length values.old) }
    ensures cost { V.work view.new
        ≤ V.work view.old + mixing.way_cost at (at + length values.old - 1) }
    ensures same { V.same view.old view.new }
{
    if at >= head.frames {
        silence(values, 0);
        return;
    }
    let many = values.len().min((head.frames - at) as usize);
    read_up(view, channel, head, at, &mut values[..many]);
    silence(values, many);
}

/// The first values of a piece, as many as there is room for.
fn read_part<V: SongView>(
    view: &mut V,
    channel: u8,
    head: &SampleHead,
    piece: Piece,
    values: &mut [i16],
)
    requires channel { channel < length (V.holds view.old) }
    requires kept { V.keeps view.old channel head.now }
    requires head { IsValidHead head.now }
    requires some { 1 ≤ length values.old }
    requires few { length values.old ≤ piece.frames }
    requires up { piece.down ≡ false → piece.place + piece.frames ≤ head.now.frames }
    requires down { piece.down ≡ true
        → (piece.place < head.now.frames) × (piece.frames ≤ piece.place + 1) }
    ensures values { mixing.OnlyAsks V.shows V.shown view.old view.new (λ shown.
        (k : ℕ) → k < length values.old → get_or values.new k (pos 0) ≡ sound.value_in head.now
        (get_or shown.kept channel None) (Some (mixing.place_in_piece piece k))) }
    ensures range { mixing.Fit16 (length values.old) values.new }
    ensures many { length values.new ≡ length values.old }
    ensures holds { V.holds view.new ≡ V.holds view.old }
    ensures keeps { (c : ℕ) (h : SampleHead) → V.keeps view.old c h → V.keeps view.new c h }
    ensures work { (V.work view.old ≤ V.work view.new)
        × (V.work view.new ≤ V.work view.old + work_of.frame_bound * length values.old) }
    ensures cost { V.work view.new ≤ V.work view.old + mixing.piece_cost (length values.old) }
    ensures same { V.same view.old view.new }
{
    if piece.down {
        read_down(view, channel, head, piece.place, values);
        return;
    }
    read_up(view, channel, head, piece.place, values);
}

/// The values from `at` on of a looped sample, in these two pieces.
pub fn read_pieces<V: SongView>(
    view: &mut V,
    channel: u8,
    head: &SampleHead,
    at: u32,
    pieces: Pieces,
    values: &mut [i16],
)
    requires channel { channel < length (V.holds view.old) }
    requires kept { V.keeps view.old channel head.now }
    requires head { IsValidHead head.now }
    requires some { 1 ≤ length values.old }
    requires pieces { mixing.ArePiecesOf head.now at (length values.old) pieces }
    ensures values { mixing.OnlyAsks V.shows V.shown view.old view.new (λ shown. mixing.AreReached
        head.now (get_or shown.kept channel None) at (length values.old) values.new) }
    ensures range { mixing.Fit16 (length values.old) values.new }
    ensures many { length values.new ≡ length values.old }
    ensures holds { V.holds view.new ≡ V.holds view.old }
    ensures keeps { (c : ℕ) (h : SampleHead) → V.keeps view.old c h → V.keeps view.new c h }
    ensures work { (V.work view.old ≤ V.work view.new) × (V.work view.new
        ≤ V.work view.old + (12 + length values.old / 4 + 2 * (length values.old / 1024))) }
    ensures same { V.same view.old view.new }
{
    let front = pieces.first.frames as usize;
    if front >= values.len() {
        read_part(view, channel, head, pieces.first, values);
        return;
    }
    read_part(view, channel, head, pieces.first, &mut values[..front]);
    read_part(view, channel, head, pieces.second, &mut values[front..]);
}

/// The first values from `at` on of a looped sample, as far as its frames are in a row. It answers
/// how many they are.
fn read_piece<V: SongView>(
    view: &mut V,
    channel: u8,
    head: &SampleHead,
    at: u32,
    values: &mut [i16],
) -> usize
    requires channel { channel < length (V.holds view.old) }
    requires kept { V.keeps view.old channel head.now }
    requires head { IsValidHead head.now }
    requires looped { 1 ≤ head.now.loop_kind }
    requires some { 1 ≤ length values.old }
    ensures some { 1 ≤ result }
    ensures few { result ≤ length values.old }
    ensures values { mixing.OnlyAsks V.shows V.shown view.old view.new (λ shown. mixing.AreReached
        head.now (get_or shown.kept channel None) at result values.new) }
    ensures range { mixing.Fit16 result values.new }
    ensures many { length values.new ≡ length values.old }
    ensures holds { V.holds view.new ≡ V.holds view.old }
    ensures keeps { (c : ℕ) (h : SampleHead) → V.keeps view.old c h → V.keeps view.new c h }
    ensures work { (V.work view.old ≤ V.work view.new)
        × (V.work view.new ≤ V.work view.old + work_of.frame_bound * result) }
    ensures same { V.same view.old view.new }
{
    let piece = piece_at(head, at);
    let many = values.len().min(piece.frames as usize);
    read_part(view, channel, head, piece, &mut values[..many]);
    many
}

/// The values from `at` on of a looped sample, piece by piece.
fn read_turns<V: SongView>(
    view: &mut V,
    channel: u8,
    head: &SampleHead,
    at: u32,
    values: &mut [i16],
)
    requires channel { channel < length (V.holds view.old) }
    requires kept { V.keeps view.old channel head.now }
    requires head { IsValidHead head.now }
    requires looped { 1 ≤ head.now.loop_kind }
    requires at { at < 2 ^ 24 }
    requires few { length values.old < 2 ^ 24 }
    ensures values { mixing.OnlyAsks V.shows V.shown view.old view.new (λ shown. mixing.AreReached
        head.now (get_or shown.kept channel None) at (length values.old) values.new) }
    ensures range { mixing.Fit16 (length values.old) values.new }
    ensures many { length values.new ≡ length values.old }
    ensures holds { V.holds view.new ≡ V.holds view.old }
    ensures keeps { (c : ℕ) (h : SampleHead) → V.keeps view.old c h → V.keeps view.new c h }
    ensures work { (V.work view.old ≤ V.work view.new)
        × (V.work view.new ≤ V.work view.old + work_of.frame_bound * length values.old) }
    ensures same { V.same view.old view.new }
{
    let mut done = 0;
    while done < values.len() {
        done += read_piece(view, channel, head, at + done as u32, &mut values[done..]);
    }
}

/// The values that a channel's voice reaches from `at` on, where `at` counts on through the turns of
/// a loop; past the end of a sample without loop they are 0.
pub fn read_reached<V: SongView>(
    view: &mut V,
    channel: u8,
    head: &SampleHead,
    at: u32,
    values: &mut [i16],
)
    requires channel { channel < length (V.holds view.old) }
    requires kept { V.keeps view.old channel head.now }
    requires head { IsValidHead head.now }
    requires at { at < 2 ^ 24 }
    requires some { 1 ≤ length values.old }
    requires few { length values.old < 2 ^ 24 }
    ensures values { mixing.OnlyAsks V.shows V.shown view.old view.new (λ shown. mixing.AreReached
        head.now (get_or shown.kept channel None) at (length values.old) values.new) }
    ensures range { mixing.Fit16 (length values.old) values.new }
    ensures many { length values.new ≡ length values.old }
    ensures holds { V.holds view.new ≡ V.holds view.old }
    ensures keeps { (c : ℕ) (h : SampleHead) → V.keeps view.old c h → V.keeps view.new c h }
    ensures work { (V.work view.old ≤ V.work view.new)
        × (V.work view.new ≤ V.work view.old + work_of.frame_bound * length values.old) }
    ensures cost { head.now.loop_kind ≡ 0 → V.work view.new
        ≤ V.work view.old + mixing.way_cost at (at + length values.old - 1) }
    ensures same { V.same view.old view.new }
{
    if head.loop_kind == 0 {
        read_to_end(view, channel, head, at, values);
        return;
    }
    read_turns(view, channel, head, at, values);
}
