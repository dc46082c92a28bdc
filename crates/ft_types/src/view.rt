//! What a song shows while it plays.

ghost use Rattle.std.specs.Prelude.{◌≡◌, ◌≢◌, ◌≤◌, ◌<◌, ◌+◌, ◌*◌, ℕ, List, [], Bool, true, false, None, Some, length, get_or, set, is_some, IfSome, FitsSigned};
ghost use Rattle.ft_types.specs.Valid.{width_of, IsValid, IsValidSongHead, IsValidCell, IsValidEnvelope, IsValidShape, IsValidHead};
ghost use Rattle.ft_types.specs.Views.{Shown, song_head_of, order_at, rows_at, cell_at, instrument_at, envelope_in, shape_in, begun, head_of_owned, frame_of, AreFramesFrom, FitWidth, keeping};
ghost use Rattle.ft_types.specs.Work as work_of;

use crate::instrument::{Envelope, Shape};
use crate::module::SongHead;
use crate::pattern::Cell;
use crate::voice::SampleHead;

/// Shows one version of a song, and keeps for each channel the sample that its voice began with.
///
/// A view has a number of channels. Each call says what it answers for whatever may be behind the
/// view after the call, and that this could be behind it before: a call never widens what a view
/// may show. What is said without it holds whatever is behind the view: the ranges of answers,
/// which channels keep a sample and of which head, and the work. No call takes memory.
pub trait SongView {
    ghost use Rattle.ft_types.specs.declared.voice.SampleHead.{SampleHead};

    // What may be behind the view, as a history of versions.
    type World;

    ghost shows: { Self → Self.World → Type 0 };

    // What it shows where this is behind it.
    ghost shown: { Self → Self.World → Shown };

    // On which channels it keeps a sample.
    ghost holds: { Self → List Bool };

    // A channel keeps a sample of this head.
    ghost keeps: { Self → ℕ → SampleHead → Type 0 };

    // By channel the last two words of frames that were asked for since its start.
    ghost words: { Self → List (List ℕ) };

    // The steps that were made. They never fall.
    ghost work: { Self → ℕ };

    // What each call leaves of all else.
    ghost same: { Self → Self → Type 0 };

    /// What the song says of itself as a whole.
    fn head(&mut self) -> SongHead
        ensures shows { (w : Self.World) → shows self.new w
            → shows self.old w × (shown self.new w ≡ shown self.old w) }
        ensures value { (w : Self.World) → shows self.new w
            → result ≡ song_head_of (shown self.old w).song }
        ensures range { IsValidSongHead result }
        ensures holds { holds self.new ≡ holds self.old }
        ensures keeps { (c : ℕ) (h : SampleHead) → keeps self.old c h → keeps self.new c h }
        ensures words { words self.new ≡ words self.old }
        ensures work { (work self.old ≤ work self.new)
            × (work self.new ≤ work self.old + work_of.head_bound) }
        ensures same { same self.old self.new };

    /// The number of the pattern at an order position, which is below the length.
    fn order(&mut self, pos: u16) -> u8
        requires { (w : Self.World) → shows self.old w
            → pos < length (shown self.old w).song.orders }
        ensures shows { (w : Self.World) → shows self.new w
            → shows self.old w × (shown self.new w ≡ shown self.old w) }
        ensures value { (w : Self.World) → shows self.new w
            → result ≡ order_at (shown self.old w).song pos }
        ensures holds { holds self.new ≡ holds self.old }
        ensures keeps { (c : ℕ) (h : SampleHead) → keeps self.old c h → keeps self.new c h }
        ensures words { words self.new ≡ words self.old }
        ensures work { (work self.old ≤ work self.new)
            × (work self.new ≤ work self.old + work_of.order_bound) }
        ensures same { same self.old self.new };

    /// The rows of the pattern of a number, 1 to 256; 64 where it isn't stored.
    fn rows(&mut self, pattern: u8) -> u16
        ensures shows { (w : Self.World) → shows self.new w
            → shows self.old w × (shown self.new w ≡ shown self.old w) }
        ensures value { (w : Self.World) → shows self.new w
            → result ≡ rows_at (shown self.old w).song pattern }
        ensures some { 1 ≤ result }
        ensures few { result ≤ 256 }
        ensures holds { holds self.new ≡ holds self.old }
        ensures keeps { (c : ℕ) (h : SampleHead) → keeps self.old c h → keeps self.new c h }
        ensures words { words self.new ≡ words self.old }
        ensures work { (work self.old ≤ work self.new)
            × (work self.new ≤ work self.old + work_of.rows_bound) }
        ensures same { same self.old self.new };

    /// The cell of a row and a channel of a pattern. It is empty past the rows, and where the pattern
    /// isn't stored.
    fn cell(&mut self, pattern: u8, row: u16, channel: u8) -> Cell
        requires { channel < length (holds self.old) }
        ensures shows { (w : Self.World) → shows self.new w
            → shows self.old w × (shown self.new w ≡ shown self.old w) }
        ensures value { (w : Self.World) → shows self.new w
            → result ≡ cell_at (shown self.old w).song pattern row channel }
        ensures range { IsValidCell result }
        ensures holds { holds self.new ≡ holds self.old }
        ensures keeps { (c : ℕ) (h : SampleHead) → keeps self.old c h → keeps self.new c h }
        ensures words { words self.new ≡ words self.old }
        ensures work { (work self.old ≤ work self.new)
            × (work self.new ≤ work self.old + work_of.cell_bound) }
        ensures same { same self.old self.new };

    /// An envelope of an instrument, counted from 1: that of the volume where `which` is 0, and that
    /// of the panning where it is 1. None exactly where there is no such instrument.
    fn envelope(&mut self, instrument: u8, which: u8) -> Option<Envelope>
        requires { which ≤ 1 }
        ensures shows { (w : Self.World) → shows self.new w
            → shows self.old w × (shown self.new w ≡ shown self.old w) }
        ensures value { (w : Self.World) → shows self.new w
            → result ≡ envelope_in (instrument_at (shown self.old w).song instrument) which }
        ensures range { IfSome result IsValidEnvelope }
        ensures holds { holds self.new ≡ holds self.old }
        ensures keeps { (c : ℕ) (h : SampleHead) → keeps self.old c h → keeps self.new c h }
        ensures words { words self.new ≡ words self.old }
        ensures work { (work self.old ≤ work self.new)
            × (work self.new ≤ work self.old + work_of.envelope_bound) }
        ensures same { same self.old self.new };

    /// The automatic vibrato and the fadeout of an instrument, counted from 1. None exactly where
    /// there is no such instrument.
    fn shape(&mut self, instrument: u8) -> Option<Shape>
        ensures shows { (w : Self.World) → shows self.new w
            → shows self.old w × (shown self.new w ≡ shown self.old w) }
        ensures value { (w : Self.World) → shows self.new w
            → result ≡ shape_in (instrument_at (shown self.old w).song instrument) }
        ensures range { IfSome result IsValidShape }
        ensures holds { holds self.new ≡ holds self.old }
        ensures keeps { (c : ℕ) (h : SampleHead) → keeps self.old c h → keeps self.new c h }
        ensures words { words self.new ≡ words self.old }
        ensures work { (work self.old ≤ work self.new)
            × (work self.new ≤ work self.old + work_of.shape_bound) }
        ensures same { same self.old self.new };

    /// A channel keeps the sample that the note map gives a note, from 0, of an instrument, from 1,
    /// until its next `start` or `stop`. None exactly where there is no such instrument or sample,
    /// or the sample has no frames: then the channel keeps nothing.
    fn start(&mut self, channel: u8, instrument: u8, note: u8) -> Option<SampleHead>
        requires channel { channel < length (holds self.old) }
        requires note { note < 96 }
        ensures shows { (w : Self.World) → shows self.new w → shows self.old w
            × (shown self.new w ≡ keeping channel
            (begun (shown self.old w).version (shown self.old w).song instrument note)
            (shown self.old w)) }
        ensures value { (w : Self.World) → shows self.new w → result
            ≡ head_of_owned
            (begun (shown self.old w).version (shown self.old w).song instrument note) }
        ensures range { IfSome result IsValidHead }
        ensures holds { holds self.new ≡ set (holds self.old) channel (is_some result) }
        ensures keeps { (c : ℕ) (h : SampleHead) → c ≢ channel
            → keeps self.old c h → keeps self.new c h }
        ensures began { IfSome result (λ h. keeps self.new channel h) }
        ensures words { words self.new ≡ set (words self.old) channel [] }
        ensures work { (work self.old ≤ work self.new)
            × (work self.new ≤ work self.old + work_of.start_bound) }
        ensures same { same self.old self.new };

    /// The raw frame at a place of the sample that a channel keeps. A frame costs less where its word
    /// is one of the last two that were asked for, or lies in the body of one.
    fn frame(&mut self, channel: u8, place: u32) -> i16
        requires channel { channel < length (holds self.old) }
        requires kept { (h : SampleHead) × keeps self.old channel h × (place < h.frames) }
        ensures shows { (w : Self.World) → shows self.new w
            → shows self.old w × (shown self.new w ≡ shown self.old w) }
        ensures value { (w : Self.World) → shows self.new w
            → result ≡ frame_of (get_or (shown self.old w).kept channel None) place }
        ensures range { (h : SampleHead) → keeps self.old channel h
            → FitsSigned (width_of h.wide) result }
        ensures holds { holds self.new ≡ holds self.old }
        ensures keeps { (c : ℕ) (h : SampleHead) → keeps self.old c h → keeps self.new c h }
        ensures words { words self.new ≡ set (words self.old) channel
            (work_of.asked (work_of.word_of place) (get_or (words self.old) channel [])) }
        ensures work { (work self.old ≤ work self.new)
            × (work self.new ≤ work self.old + work_of.frame_bound) }
        ensures cost { work self.new ≤ work self.old
            + work_of.frame_cost (work_of.word_of place) (get_or (words self.old) channel []) }
        ensures same { same self.old self.new };

    /// Writes the raw frames at the places from `first` on of the sample that a channel keeps over the
    /// whole of `out`, which has room for one at least. It answers as `frame` does of each in turn, at
    /// the cost of their words: the first costs what it costs there, each other one a step, and two
    /// more where it begins a body.
    fn frames(&mut self, channel: u8, first: u32, out: &mut [i16])
        requires channel { channel < length (holds self.old) }
        requires some { 1 ≤ length out.old }
        requires kept { (h : SampleHead) × keeps self.old channel h
            × (first + length out.old ≤ h.frames) }
        ensures shows { (w : Self.World) → shows self.new w
            → shows self.old w × (shown self.new w ≡ shown self.old w) }
        ensures values { (w : Self.World) → shows self.new w
            → AreFramesFrom (get_or (shown self.old w).kept channel None) first out.new }
        ensures range { (h : SampleHead) → keeps self.old channel h → FitWidth h.wide out.new }
        ensures many { length out.new ≡ length out.old }
        ensures holds { holds self.new ≡ holds self.old }
        ensures keeps { (c : ℕ) (h : SampleHead) → keeps self.old c h → keeps self.new c h }
        ensures words { words self.new ≡ set (words self.old) channel
            (work_of.asked_all (work_of.word_of first) (work_of.last_word first (length out.old))
            (get_or (words self.old) channel [])) }
        ensures work { (work self.old ≤ work self.new)
            × (work self.new ≤ work self.old + work_of.frame_bound * length out.old) }
        ensures cost { work self.new ≤ work self.old + work_of.run_cost (work_of.word_of first)
            (work_of.last_word first (length out.old)) (get_or (words self.old) channel []) }
        ensures same { same self.old self.new };

    /// A channel keeps nothing any more.
    fn stop(&mut self, channel: u8)
        requires { channel < length (holds self.old) }
        ensures shows { (w : Self.World) → shows self.new w → shows self.old w
            × (shown self.new w ≡ keeping channel None (shown self.old w)) }
        ensures holds { holds self.new ≡ set (holds self.old) channel false }
        ensures keeps { (c : ℕ) (h : SampleHead) → c ≢ channel
            → keeps self.old c h → keeps self.new c h }
        ensures words { words self.new ≡ set (words self.old) channel [] }
        ensures work { (work self.old ≤ work self.new)
            × (work self.new ≤ work self.old + work_of.stop_bound) }
        ensures same { same self.old self.new };

    ghost same_here: { (v : Self) → same v v };

    ghost same_through: { (u v x : Self) → same u v → same v x → same u x };

    // It shows a valid song.
    ghost valid: { (v : Self) (w : Self.World) → shows v w → IsValid (shown v w).song };

    // It has the channels of that song, and as many samples may be kept.
    ghost channels: { (v : Self) (w : Self.World) → shows v w
        → (shown v w).song.channels ≡ length (holds v) };

    ghost wide: { (v : Self) (w : Self.World) → shows v w
        → length (shown v w).kept ≡ length (holds v) };

    ghost worded: { (v : Self) → length (words v) ≡ length (holds v) };

    // A kept sample is of its head.
    ghost of_head: { (v : Self) (w : Self.World) (c : ℕ) (h : SampleHead)
        → shows v w → keeps v c h
        → head_of_owned (get_or (shown v w).kept c None) ≡ Some h };

    ghost held: { (v : Self) (c : ℕ) (h : SampleHead) → keeps v c h
        → get_or (holds v) c false ≡ true };
}
