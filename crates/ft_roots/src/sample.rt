//! The root of a sample.

ghost use Rattle.std.specs.Prelude.{◌≡◌, ◌<◌, ℕ, ℤ, Bool, List, [], None, length, map, slice_index};
ghost use Rattle.ft_types.specs.declared.module.Module.{Module};
ghost use Rattle.ft_types.specs.declared.sample.Sample.{Sample};
ghost use Rattle.ft_types.specs.Valid.{IsValidSample};
ghost use Rattle.ft_segments.specs.Packing.{word_at};
ghost use Rattle.ft_segments.specs.Walk.{SampleIds};
ghost use Rattle.ft_edits.specs.Samples.{new_sample, with_loop, refitted};
ghost use Rattle.ft_edits.specs.Faults.{fault_of};
ghost use Rattle.ft_edits.specs.Changes.{sample_changed};
ghost use Rattle.ft_image.specs.Shown.{ShowsSample};
ghost use Rattle.ft_image.specs.Laid.{sample_root_word};
ghost use Rattle.ft_roots.specs.RootWords.{HasSampleWords};
ghost use Rattle.ft_roots.specs.PartEdits.{ChangesSample, NamesSample};

use crate::name::put_name;
use ft_edits::{allowed_edits_name_what_is_there, holds_fields};
use ft_image::ids_word;
use ft_types::Edit;

/// The words of a sample without frames, of volume 64 and panning 128.
pub fn new_sample_words() -> [u64; 256]
    ensures { HasSampleWords result new_sample [] }
{
    let mut words = [0; 256];
    words[1] = 64 * 281474976710656 + 128 * 72057594037927936;
    words
}

/// Gives the sample other indexes: at most four.
pub fn put_index_ids(words: &mut [u64; 256], ids: &[u16])
    ensures { (x : Sample) (before : List ℕ) → HasSampleWords words.old x before
        → HasSampleWords words.new x ids.now }
{
    words[16] = ids_word(ids, 0);
}

// ---- what the words say

/// The number of frames.
fn frames_in(words: &[u64; 256]) -> u32
    ensures { (x : Sample) (indexes : List ℕ) → IsValidSample x
        → HasSampleWords words.now x indexes → result ≡ length x.frames }
{
    (words[0] % 4294967296) as u32
}

/// Whether the frames have 16 bits.
fn wide_in(words: &[u64; 256]) -> bool
    ensures { (x : Sample) (indexes : List ℕ) → IsValidSample x
        → HasSampleWords words.now x indexes → result ≡ x.wide }
{
    words[1] / 1099511627776 % 256 == 1
}

/// The kind of the loop.
fn loop_kind_in(words: &[u64; 256]) -> u8
    ensures { (x : Sample) (indexes : List ℕ) → IsValidSample x
        → HasSampleWords words.now x indexes → result ≡ x.loop_kind }
{
    (words[1] / 4294967296 % 256) as u8
}

/// The first frame of the loop.
fn loop_start_in(words: &[u64; 256]) -> u32
    ensures { (x : Sample) (indexes : List ℕ) → IsValidSample x
        → HasSampleWords words.now x indexes → result ≡ x.loop_start }
{
    (words[0] / 4294967296) as u32
}

/// The length of the loop in frames.
fn loop_len_in(words: &[u64; 256]) -> u32
    ensures { (x : Sample) (indexes : List ℕ) → IsValidSample x
        → HasSampleWords words.now x indexes → result ≡ x.loop_len }
{
    (words[1] % 4294967296) as u32
}

// ---- its parts

/// Gives the sample another name.
fn put_sample_name(words: &mut [u64; 256], name: &[u8; 22])
    ensures { (x : Sample) (indexes : List ℕ) → HasSampleWords words.old x indexes
        → HasSampleWords words.new (record x { name = name.now }) indexes }
{
    put_name(words, name);
}

/// Gives the sample another volume, panning and tuning.
fn put_sound(words: &mut [u64; 256], volume: u8, finetune: i8, relative: i8, panning: u8)
    ensures { (x : Sample) (indexes : List ℕ) → IsValidSample x
        → HasSampleWords words.old x indexes
        → HasSampleWords words.new (record x {
          volume = volume;
          finetune = finetune;
          relative = relative;
          panning = panning;
        }) indexes }
{
    let sound = u64::from(volume) + 256 * u64::from(panning);
    words[1] = words[1] % 281474976710656 + 281474976710656 * sound;
    let fine = u64::from(finetune.cast_unsigned());
    words[2] = fine + 256 * u64::from(relative.cast_unsigned());
}

/// Gives the sample that many frames, of 8 or 16 bits, and these numbers of a loop.
fn put_numbers(words: &mut [u64; 256], frames: u32, wide: bool, kind: u8, start: u32, len: u32)
    ensures { (x : Sample) (indexes : List ℕ) (new : List ℤ) → IsValidSample x
        → length new ≡ frames → HasSampleWords words.old x indexes
        → HasSampleWords words.new (record x {
          wide = wide;
          loop_kind = kind;
          loop_start = start;
          loop_len = len;
          frames = new;
        }) indexes }
{
    let sound = words[1] / 281474976710656;
    let shape = u64::from(kind) + 256 * u64::from(wide) + 65536 * sound;
    words[0] = u64::from(frames) + 4294967296 * u64::from(start);
    words[1] = u64::from(len) + 4294967296 * shape;
}

/// Gives the sample that many frames, of 8 or 16 bits, and a loop; both its numbers are 0 where it
/// is none.
fn put_loop(words: &mut [u64; 256], frames: u32, wide: bool, kind: u8, start: u32, len: u32)
    ensures { (x : Sample) (indexes : List ℕ) (new : List ℤ) → IsValidSample x
        → length new ≡ frames → HasSampleWords words.old x indexes
        → HasSampleWords words.new
        (with_loop kind start len (record x { wide = wide; frames = new })) indexes }
{
    if kind == 0 {
        put_numbers(words, frames, wide, 0, 0, 0);
    } else {
        put_numbers(words, frames, wide, kind, start, len);
    }
}

/// Gives the sample that many frames, of 8 or 16 bits, and brings its loop into them.
pub fn set_frames(words: &mut [u64; 256], frames: u32, wide: bool)
    ensures { (x : Sample) (indexes : List ℕ) (new : List ℤ) → IsValidSample x
        → length new ≡ frames → HasSampleWords words.old x indexes
        → HasSampleWords words.new (refitted (record x { wide = wide; frames = new })) indexes }
{
    let start = frames.min(loop_start_in(words));
    let len = (frames - start).min(loop_len_in(words));
    if len == 0 {
        put_loop(words, frames, wide, 0, 0, 0);
    } else {
        let kind = loop_kind_in(words);
        put_loop(words, frames, wide, kind, start, len);
    }
}

/// A loop that lies within the frames stays as it is where there are as many. This function does
/// nothing.
pub fn a_loop_within_the_frames_stays()
    ensures { (x : Sample) (wide : Bool) (new : List ℤ) → IsValidSample x
        → length new ≡ length x.frames
        → refitted (record x { wide = wide; frames = new })
        ≡ record x { wide = wide; frames = new } }
{}

// ---- edits

/// The number of frames behind an edit of these frames.
fn frames_behind(frames: u32, e: &Edit) -> u32
    ensures { (m : Module) (x : Sample) → NamesSample m e.now x → fault_of m e.now ≡ None
        → length x.frames ≡ frames → result ≡ length (sample_changed e.now x).frames }
{
    allowed_edits_name_what_is_there();
    match e {
        Edit::Cut { from, to, .. } => frames.saturating_sub(to.saturating_sub(*from)),
        Edit::Paste { frames: new, .. } => frames.saturating_add(new.len().min(4294967295) as u32),
        _ => frames,
    }
}

/// Changes a sample. Another edit leaves the words.
pub fn change_sample_words(words: &mut [u64; 256], e: &Edit)
    ensures changed { (m : Module) (x : Sample) (indexes : List ℕ) → NamesSample m e.now x
        → IsValidSample x → fault_of m e.now ≡ None → HasSampleWords words.old x indexes
        → HasSampleWords words.new (sample_changed e.now x) indexes }
    ensures others { (ChangesSample e.now → ⊥) → words.new ≡ words.old }
{
    allowed_edits_name_what_is_there();
    let frames = frames_in(words);
    let wide = wide_in(words);
    match e {
        Edit::Smpname { name, .. } => put_sample_name(words, name),
        Edit::Smp {
            vol,
            fine,
            rel,
            pan,
            ..
        } => {
            holds_fields(e);
            put_sound(words, *vol, *fine, *rel, *pan);
        }
        Edit::Loop {
            kind,
            start,
            len,
            ..
        } => put_loop(words, frames, wide, *kind, *start, *len),
        Edit::Cut { .. } | Edit::Paste { .. } => {
            set_frames(words, frames_behind(frames, e), wide);
        }
        Edit::Bits { b, .. } => set_frames(words, frames, *b == 16),
        _ => {}
    }
}

// ---- laws

/// Each word is that of the table. This function does nothing.
pub fn a_sample_has_the_words_of_its_root()
    ensures words { (words : List ℕ) (x : Sample) (indexes : List ℕ) (k : ℕ)
        → HasSampleWords words x indexes → k < 256
        → slice_index words k ≡ sample_root_word x indexes k }
    ensures shown { (pool words : List ℕ) (x : Sample) (ids : SampleIds)
        → ShowsSample pool x ids
        → ((k : ℕ) → k < 256 → slice_index words k ≡ word_at pool ids.root k)
        → HasSampleWords words x (map (λ index. index.root) ids.indexes) }
{}
