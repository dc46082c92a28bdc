//! How a song lies in segments of 256 words: numbers packed into words, and the walk over the ids
//! by which a root names all segments of a version.
//!
//! Nothing here runs. `specs/Packing` says how numbers, bytes and ids lie in words, `specs/Walk`
//! which segments a root names, and `specs/Pins` which of them a pin of a sample's root holds.
//! The functions are laws: their contracts say what holds. docs/WORDS.md draws the words.
#![tactic(auto)]

mod laws;

pub use laws::{
    a_bare_root_names_itself, a_pin_holds_its_sample, a_walk_reads_words_alone,
    held_by_a_pin_is_named, sample_segments_are_of_the_version, sample_stays,
};
