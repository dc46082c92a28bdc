//! The root of an instrument.

ghost use Rattle.std.specs.Prelude.{◌≡◌, ◌≤◌, ◌<◌, ◌+◌, ◌-◌, ◌*◌, ℕ, List, [], All, None, length, map, set, slice_index};
ghost use Rattle.ft_types.specs.declared.module.Module.{Module};
ghost use Rattle.ft_types.specs.declared.instrument.Instrument.{Instrument};
ghost use Rattle.ft_types.specs.declared.instrument.Point.{Point};
ghost use Rattle.ft_types.specs.declared.sample.Sample.{Sample};
ghost use Rattle.ft_types.specs.Valid.{IsValidInstrument, IsValidPoint};
ghost use Rattle.ft_segments.specs.Packing.{bytes_word, word_at};
ghost use Rattle.ft_segments.specs.Walk.{InstrumentIds};
ghost use Rattle.ft_edits.specs.Lists.{without_last};
ghost use Rattle.ft_edits.specs.Instruments.{zero_instrument, named_only, with_map, with_envelope, with_head, with_point};
ghost use Rattle.ft_edits.specs.Faults.{fault_of};
ghost use Rattle.ft_edits.specs.Changes.{instrument_changed};
ghost use Rattle.ft_changes.specs.Parts.{put};
ghost use Rattle.ft_image.specs.Values.{points_word};
ghost use Rattle.ft_image.specs.Shown.{ShowsInstrument};
ghost use Rattle.ft_image.specs.Laid.{instrument_root_word};
ghost use Rattle.ft_roots.specs.RootWords.{HasInstrumentWords};
ghost use Rattle.ft_roots.specs.PartEdits.{ChangesInstrumentAlone};

use crate::name::put_name;
use ft_edits::allowed_edits_name_what_is_there;
use ft_image::{other_words_stay, with_byte, with_id};
use ft_types::Edit;

// ---- the samples that it has

/// Puts the root of a sample, from 0, in place of another, or behind the last.
pub fn put_sample_id(words: &mut [u64; 256], s: u8, id: u16)
    requires { s < 16 }
    ensures { (x : Instrument) (samples : List ℕ) → All (λ n. n < 65536) samples
        → s ≤ length samples → HasInstrumentWords words.old x samples
        → HasInstrumentWords words.new x (put s id samples) }
{
    other_words_stay();
    let at = 30 + usize::from(s / 4);
    words[at] = with_id(words[at], s % 4, id);
}

/// Takes the last root of so many samples out.
pub fn drop_sample_id(words: &mut [u64; 256], count: u8)
    requires { (1 ≤ count) × (count ≤ 16) }
    ensures { (x : Instrument) (samples : List ℕ) → All (λ n. n < 65536) samples
        → length samples ≡ count → HasInstrumentWords words.old x samples
        → HasInstrumentWords words.new x (without_last samples) }
{
    other_words_stay();
    let last = count - 1;
    let at = 30 + usize::from(last / 4);
    words[at] = with_id(words[at], last % 4, 0);
}

/// Says that there is one sample more. Which sample that is stands in the ids.
pub fn count_sample_more(words: &mut [u64; 256])
    ensures { (x : Instrument) (samples : List Sample) (ids : List ℕ) → length x.samples < 16
        → length samples ≡ length x.samples + 1 → HasInstrumentWords words.old x ids
        → HasInstrumentWords words.new (record x { samples = samples }) ids }
{
    words[0] = words[0].saturating_add(1);
}

/// Says that there is one sample less.
pub fn count_sample_less(words: &mut [u64; 256])
    ensures { (x : Instrument) (samples : List Sample) (ids : List ℕ)
        → length x.samples ≡ length samples + 1 → HasInstrumentWords words.old x ids
        → HasInstrumentWords words.new (record x { samples = samples }) ids }
{
    words[0] = words[0].saturating_sub(1);
}

// ---- an instrument that says nothing but its name

/// The words of an instrument that is all 0.
pub fn bare_words() -> [u64; 256]
    ensures { HasInstrumentWords result zero_instrument [] }
{
    let words = [0; 256];
    words
}

/// Takes all out but the name.
pub fn name_words_alone(words: &mut [u64; 256])
    ensures { (x : Instrument) (ids : List ℕ) → HasInstrumentWords words.old x ids
        → HasInstrumentWords words.new (named_only x.name) [] }
{
    let mut bare = [0; 256];
    bare[3] = words[3];
    bare[4] = words[4];
    bare[5] = words[5];
    *words = bare;
}

// ---- its parts

/// Four bytes of a row of at most eight, from a place on, become others.
fn with_four_bytes(word: u64, first: u8, a: u8, b: u8, c: u8, d: u8) -> u64
    requires { first ≤ 4 }
    ensures { (row : List ℕ) → All (λ n. n < 256) row → first + 4 ≤ length row
        → word ≡ bytes_word row 0 → result ≡ bytes_word
        (set (set (set (set row first a) (first + 1) b) (first + 2) c) (first + 3) d) 0 }
{
    let one = with_byte(word, first, a);
    let two = with_byte(one, first + 1, b);
    let three = with_byte(two, first + 2, c);
    with_byte(three, first + 3, d)
}

/// Gives the instrument another name.
fn put_instrument_name(words: &mut [u64; 256], name: &[u8; 22])
    ensures { (x : Instrument) (ids : List ℕ) → HasInstrumentWords words.old x ids
        → HasInstrumentWords words.new (record x { name = name.now }) ids }
{
    put_name(words, name);
}

/// A note plays another sample.
fn put_note(words: &mut [u64; 256], n: u8, k: u8)
    ensures { (x : Instrument) (ids : List ℕ) → IsValidInstrument x → n ≤ 95
        → HasInstrumentWords words.old x ids
        → HasInstrumentWords words.new (with_map n k x) ids }
{
    other_words_stay();
    let at = 6 + usize::from(n / 8);
    words[at] = with_byte(words[at], n % 8, k);
}

/// The counts and places of an envelope become others: sustain, loop start, loop end and flags.
fn put_envelope(words: &mut [u64; 256], w: u8, count: u8, places: [u8; 4])
    ensures { (x : Instrument) (ids : List ℕ) → IsValidInstrument x
        → HasInstrumentWords words.old x ids
        → HasInstrumentWords words.new (with_envelope w (with_head count
        (slice_index places 0) (slice_index places 1) (slice_index places 2)
        (slice_index places 3)) x) ids }
{
    let [sustain, start, end, flags] = places;
    if w == 0 {
        words[0] = with_byte(words[0], 1, count);
        words[1] = with_four_bytes(words[1], 0, sustain, start, end, flags);
    } else {
        words[0] = with_byte(words[0], 2, count);
        words[1] = with_four_bytes(words[1], 4, sustain, start, end, flags);
    }
}

/// A word of two points, of which one becomes another.
fn with_one_point(word: u64, k: u8, x: u16, y: u16) -> u64
    requires { k < 2 }
    ensures { (points : List Point) (j : ℕ) → length points ≡ 12 → All IsValidPoint points
        → j < 6 → word ≡ points_word points j
        → result ≡ points_word (set points (2 * j + k) (record { x = x; y = y })) j }
{
    with_id(with_id(word, 2 * k, x), 2 * k + 1, y)
}

/// A point of an envelope becomes another.
fn put_point(words: &mut [u64; 256], w: u8, k: u8, x: u16, y: u16)
    ensures { (old : Instrument) (ids : List ℕ) → IsValidInstrument old → k ≤ 11
        → HasInstrumentWords words.old old ids
        → HasInstrumentWords words.new
        (with_envelope w (with_point k (record { x = x; y = y })) old) ids }
{
    let first = if w == 0 { 18 } else { 24 };
    let at = first + usize::from(k / 2);
    words[at] = with_one_point(words[at], k % 2, x, y);
}

/// The automatic vibrato becomes another.
fn put_vibrato(words: &mut [u64; 256], kind: u8, sweep: u8, depth: u8, rate: u8)
    ensures { (x : Instrument) (ids : List ℕ) → IsValidInstrument x
        → HasInstrumentWords words.old x ids
        → HasInstrumentWords words.new (record x
        { vibrato = record { kind = kind; sweep = sweep; depth = depth; rate = rate } }) ids }
{
    words[0] = with_four_bytes(words[0], 3, kind, sweep, depth, rate);
}

/// The fadeout becomes another.
fn put_fadeout(words: &mut [u64; 256], n: u16)
    ensures { (x : Instrument) (ids : List ℕ) → HasInstrumentWords words.old x ids
        → HasInstrumentWords words.new (record x { fadeout = n }) ids }
{
    words[2] = u64::from(n);
}

/// Changes an instrument's name, note map, envelopes, vibrato or fadeout. Another edit leaves the
/// words.
pub fn change_instrument_words(words: &mut [u64; 256], e: &Edit)
    ensures changed { (m : Module) (x : Instrument) (ids : List ℕ)
        → ChangesInstrumentAlone e.now → IsValidInstrument x → fault_of m e.now ≡ None
        → HasInstrumentWords words.old x ids
        → HasInstrumentWords words.new (instrument_changed e.now x) ids }
    ensures others { (ChangesInstrumentAlone e.now → ⊥) → words.new ≡ words.old }
{
    allowed_edits_name_what_is_there();
    match e {
        Edit::Insname { name, .. } => put_instrument_name(words, name),
        Edit::Map { n, k, .. } => put_note(words, *n, *k),
        Edit::Env {
            w,
            count,
            sus,
            ls,
            le,
            flags,
            ..
        } => put_envelope(words, *w, *count, [*sus, *ls, *le, *flags]),
        Edit::Point { w, k, x, y, .. } => put_point(words, *w, *k, *x, u16::from(*y)),
        Edit::Vib {
            kind,
            sweep,
            depth,
            rate,
            ..
        } => put_vibrato(words, *kind, *sweep, *depth, *rate),
        Edit::Fade { n, .. } => put_fadeout(words, *n),
        _ => {}
    }
}

// ---- laws

/// Each word is that of the table, and of the samples the words say only how many there are. This
/// function does nothing.
pub fn an_instrument_has_the_words_of_its_root()
    ensures words { (words : List ℕ) (x : Instrument) (ids : List ℕ) (k : ℕ)
        → HasInstrumentWords words x ids → k < 256
        → slice_index words k ≡ instrument_root_word x ids k }
    ensures shown { (pool words : List ℕ) (x : Instrument) (ids : InstrumentIds)
        → ShowsInstrument pool x ids
        → ((k : ℕ) → k < 256 → slice_index words k ≡ word_at pool ids.root k)
        → HasInstrumentWords words x (map (λ sample. sample.root) ids.samples) }
    ensures samples { (words : List ℕ) (x : Instrument) (samples : List Sample) (ids : List ℕ)
        → length samples ≡ length x.samples → HasInstrumentWords words x ids
        → HasInstrumentWords words (record x { samples = samples }) ids }
{}
