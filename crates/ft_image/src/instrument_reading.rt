//! What an instrument root says.

ghost use Rattle.std.specs.Prelude.{◌≡◌, ◌≤◌, ◌<◌, ◌+◌, ◌*◌, ◌==◌, ℕ, None, List, length, All, MatchOption, is_some, slice_index, if◌then◌else◌};
ghost use Rattle.ft_types.specs.declared.module.Module.{Module};
ghost use Rattle.ft_types.specs.declared.instrument.Instrument.{Instrument};
ghost use Rattle.ft_types.specs.declared.instrument.Point.{Point};
ghost use Rattle.ft_types.specs.Valid.{IsValidPoint, IsValidInstrument};
ghost use Rattle.ft_types.specs.Views.{instrument_at, envelope_in, shape_in};
ghost use Rattle.ft_types.specs.Work as work_of;
ghost use Rattle.ft_segments.specs.Packing.{bytes_word, word_at};
ghost use Rattle.ft_segments.specs.Walk.{Placed};
ghost use Rattle.ft_image.specs.Values.{count_bytes, envelope_bytes, points_word};
ghost use Rattle.ft_image.specs.Shown.{Shows};
ghost use Rattle.ft_image.specs.Read.{MayShowAll, HasInstrument, mapped_sample, sample_at, sample_root_at};

use crate::digits::{byte, quarter};
use crate::ids::id;
use crate::view::WordView;
use ft_types::{Envelope, Point, Shape, Vibrato};

/// The root of an instrument, counted from 1. None exactly where the song has no such instrument.
pub fn instrument_root<V: WordView>(view: &mut V, root: u16, instrument: u8) -> Option<u16>
    ensures narrows { (p : Placed) (s : ℕ) → V.may_show view.new p s → V.may_show view.old p s }
    ensures answer { (p : Placed) (m : Module) → MayShowAll V.may_show view.new p → Shows p m
        → p.root ≡ root
        → MatchOption result (instrument_at m instrument ≡ None) (HasInstrument p m instrument) }
    ensures work { (V.work view.old ≤ V.work view.new) × (V.work view.new ≤ V.work view.old + 2) }
    ensures same { V.same view.old view.new }
{
    if instrument == 0 {
        return None;
    }
    if u64::from(instrument) > view.word(root, 1) / 65536 % 65536 {
        return None;
    }
    Some(id(view, root, 104, u16::from(instrument - 1)))
}

/// Six words of a segment, one after the other.
fn six_words<V: WordView>(view: &mut V, segment: u16, first: u8) -> [u64; 6]
    requires { first ≤ 24 }
    ensures narrows { (p : Placed) (s : ℕ) → V.may_show view.new p s → V.may_show view.old p s }
    ensures answer { (p : Placed) → V.may_show view.new p segment → (k : ℕ) → k < 6
        → slice_index result k ≡ word_at p.pool segment (first + k) }
    ensures work { (V.work view.old ≤ V.work view.new) × (V.work view.new ≤ V.work view.old + 6) }
    ensures same { V.same view.old view.new }
{
    let mut words = [0; 6];
    for k in 0..6u8 {
        words[usize::from(k)] = view.word(segment, first + k);
    }
    words
}

/// The points in six words, two a word.
fn points_from(words: &[u64; 6]) -> [Point; 12]
    ensures { (points : List Point) → length points ≡ 12 → All IsValidPoint points
        → ((k : ℕ) → k < 6 → slice_index words.now k ≡ points_word points k) → result ≡ points }
{
    let mut points = [Point { x: 0, y: 0 }; 12];
    for k in 0..12u8 {
        let word = words[usize::from(k / 2)];
        let x = quarter(word, k % 2 * 2);
        let y = quarter(word, k % 2 * 2 + 1);
        points[usize::from(k)] = Point { x, y };
    }
    points
}

/// The envelope of the volume, or that of the panning, in words of an instrument root.
fn envelope_from(counts: u64, places: u64, points: [Point; 12], which: u8) -> Envelope
    requires { which ≤ 1 }
    ensures { (x : Instrument) → IsValidInstrument x → counts ≡ bytes_word (count_bytes x) 0
        → places ≡ bytes_word (envelope_bytes x) 0
        → points ≡ (if which == 0 then x.volume else x.panning).points
        → result ≡ (if which == 0 then x.volume else x.panning) }
{
    Envelope {
        points,
        count: byte(counts, 1 + which),
        sustain: byte(places, 4 * which),
        loop_start: byte(places, 4 * which + 1),
        loop_end: byte(places, 4 * which + 2),
        flags: byte(places, 4 * which + 3),
    }
}

/// An envelope of an instrument, counted from 1, in the song of a root: that of the volume where
/// `which` is 0, and that of the panning where it is 1. None exactly where there is no such
/// instrument.
pub fn envelope<V: WordView>(view: &mut V, root: u16, instrument: u8, which: u8) -> Option<Envelope>
    requires { which ≤ 1 }
    ensures narrows { (p : Placed) (s : ℕ) → V.may_show view.new p s → V.may_show view.old p s }
    ensures answer { (p : Placed) (m : Module) → MayShowAll V.may_show view.new p → Shows p m
        → p.root ≡ root → result ≡ envelope_in (instrument_at m instrument) which }
    ensures work { (V.work view.old ≤ V.work view.new)
        × (V.work view.new ≤ V.work view.old + work_of.envelope_bound) }
    ensures same { V.same view.old view.new }
{
    let Some(found) = instrument_root(view, root, instrument) else {
        return None;
    };
    let counts = view.word(found, 0);
    let places = view.word(found, 1);
    let words = six_words(view, found, 18 + 6 * which);
    Some(envelope_from(counts, places, points_from(&words), which))
}

/// The automatic vibrato and the fadeout in words of an instrument root.
fn shape_from(counts: u64, fadeout: u64) -> Shape
    ensures { (x : Instrument) → IsValidInstrument x → counts ≡ bytes_word (count_bytes x) 0
        → fadeout ≡ x.fadeout
        → (result.vibrato ≡ x.vibrato) × (result.fadeout ≡ x.fadeout) }
{
    Shape {
        vibrato: Vibrato {
            kind: byte(counts, 3),
            sweep: byte(counts, 4),
            depth: byte(counts, 5),
            rate: byte(counts, 6),
        },
        fadeout: (fadeout % 65536) as u16,
    }
}

/// The automatic vibrato and the fadeout of an instrument, counted from 1, in the song of a root.
/// None exactly where there is no such instrument.
pub fn shape<V: WordView>(view: &mut V, root: u16, instrument: u8) -> Option<Shape>
    ensures narrows { (p : Placed) (s : ℕ) → V.may_show view.new p s → V.may_show view.old p s }
    ensures answer { (p : Placed) (m : Module) → MayShowAll V.may_show view.new p → Shows p m
        → p.root ≡ root → result ≡ shape_in (instrument_at m instrument) }
    ensures work { (V.work view.old ≤ V.work view.new)
        × (V.work view.new ≤ V.work view.old + work_of.shape_bound) }
    ensures same { V.same view.old view.new }
{
    let Some(found) = instrument_root(view, root, instrument) else {
        return None;
    };
    let counts = view.word(found, 0);
    let fadeout = view.word(found, 2);
    Some(shape_from(counts, fadeout))
}

/// The root of the sample that the note map gives a note, from 0, of an instrument, from 1, in the
/// song of a root. None exactly where there is no such instrument or sample.
pub fn sample_root<V: WordView>(view: &mut V, root: u16, instrument: u8, note: u8) -> Option<u16>
    requires { note < 96 }
    ensures narrows { (p : Placed) (s : ℕ) → V.may_show view.new p s → V.may_show view.old p s }
    ensures answer { (p : Placed) (m : Module) → MayShowAll V.may_show view.new p → Shows p m
        → p.root ≡ root → result ≡ sample_root_at p instrument (mapped_sample m instrument note) }
    ensures missing { (p : Placed) (m : Module) → MayShowAll V.may_show view.new p → Shows p m
        → p.root ≡ root
        → is_some result ≡ is_some (sample_at m instrument (mapped_sample m instrument note)) }
    ensures work { (V.work view.old ≤ V.work view.new) × (V.work view.new ≤ V.work view.old + 5) }
    ensures same { V.same view.old view.new }
{
    let Some(found) = instrument_root(view, root, instrument) else {
        return None;
    };
    let counts = view.word(found, 0);
    let map = view.word(found, 6 + note / 8);
    let number = byte(map, note % 8);
    if number >= byte(counts, 0) {
        return None;
    }
    Some(id(view, found, 30, u16::from(number)))
}
