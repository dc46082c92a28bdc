//! The words of the root of an instrument, as an edit leaves them.

ghost use Rattle.std.specs.Prelude.{◌≡◌, ◌≤◌, ◌<◌, ℕ, List, All, Some, None, length, slice_index};
ghost use Rattle.ft_types.specs.declared.module.Module.{Module};
ghost use Rattle.ft_types.specs.declared.instrument.Instrument.{Instrument};
ghost use Rattle.ft_types.specs.declared.sample.Sample.{Sample};
ghost use Rattle.ft_types.specs.Valid.{IsValid};
ghost use Rattle.ft_edits.specs.Faults.{fault_of};
ghost use Rattle.ft_edits.specs.Edited.{edited};
ghost use Rattle.ft_edits.specs.Lists.{without_last};
ghost use Rattle.ft_edits.specs.Samples.{without_sample};
ghost use Rattle.ft_segments.specs.Walk.{SongIds};
ghost use Rattle.ft_changes.specs.Reaches.{reach_of};
ghost use Rattle.ft_changes.specs.Parts.{put};
ghost use Rattle.ft_changes.specs.Ids.{ids_after};
ghost use Rattle.ft_changes.specs.Fits.{TakesFresh};
ghost use Rattle.ft_sharing.specs.Written.{AtPlace};
ghost use Rattle.ft_roots.specs.RootWords.{HasInstrumentWords};
ghost use Rattle.ft_songedit.specs.Instruments.{instrument_place, HasWordsOf, HasStored};

use ft_changes::{Reach, an_edit_changes_what_it_reaches};
use ft_edits::{holds_fields, valid_stays_valid};
use ft_roots::{
    an_instrument_has_the_words_of_its_root, bare_words, change_instrument_words,
    count_sample_less, count_sample_more, drop_sample_id, name_words_alone, put_sample_id,
};
use ft_types::Edit;

/// How many samples the words of an instrument say there are.
fn sample_count(words: &[u64; 256]) -> u8
    ensures { (x : Instrument) (ids : List ℕ) → length x.samples ≤ 16
        → HasInstrumentWords words.now x ids → result ≡ length x.samples }
{
    (words[0] % 256) as u8
}

/// Takes the last sample out. With the only one goes all but the name.
fn drop_last_sample(words: &mut [u64; 256])
    ensures { (x : Instrument) (ids : List ℕ) → length x.samples ≤ 16
        → length ids ≡ length x.samples → All (λ n. n < 65536) ids
        → HasInstrumentWords words.old x ids
        → HasInstrumentWords words.new (without_sample x) (without_last ids) }
{
    let count = sample_count(words);
    if count <= 1 {
        name_words_alone(words);
    } else if count <= 16 {
        drop_sample_id(words, count);
        count_sample_less(words);
    }
}

/// Puts the fresh root of a sample, from 0, in place of the one before or behind the last.
fn put_fresh_sample(words: &mut [u64; 256], s: u8, fresh: &[u16])
    ensures { (x : Instrument) (a : Sample) (samples : List Sample) (ids : List ℕ) → s < 16
        → 3 ≤ length fresh.now → length x.samples ≤ 16 → s ≤ length x.samples
        → length ids ≡ length x.samples → All (λ n. n < 65536) ids
        → samples ≡ put s a x.samples → HasInstrumentWords words.old x ids
        → HasInstrumentWords words.new (record x { samples = samples })
        (put s (slice_index fresh.now 2) ids) }
{
    an_instrument_has_the_words_of_its_root();
    let count = sample_count(words);
    if s < 16 && fresh.len() >= 3 {
        put_sample_id(words, s, fresh[2]);
        if s >= count {
            count_sample_more(words);
        }
    }
}

/// Makes the words of the root of an instrument those that it has after the edit. Where the edit
/// touches no instrument, they stay.
pub(crate) fn change_reached(words: &mut [u64; 256], e: &Edit, reach: Reach, fresh: &[u16])
    ensures { (m : Module) (ids : SongIds) (at : ℕ) → instrument_place reach ≡ Some at
        → IsValid m → fault_of m e.now ≡ None → reach ≡ reach_of m e.now
        → TakesFresh reach fresh.now ids
        → AtPlace at (HasStored words.old) m.instruments ids.instruments
        → AtPlace at (HasWordsOf words.new) (edited m e.now).instruments
        (ids_after reach fresh.now ids).instruments }
{
    valid_stays_valid();
    an_edit_changes_what_it_reaches();
    holds_fields(e);
    match reach {
        Reach::Instrument { .. } => change_instrument_words(words, e),
        Reach::Bare { .. } => *words = bare_words(),
        Reach::LastSample { .. } => drop_last_sample(words),
        Reach::Sample { sample, .. } => put_fresh_sample(words, sample, fresh),
        Reach::Frames { sample, .. } => put_fresh_sample(words, sample, fresh),
        _ => {}
    }
}
