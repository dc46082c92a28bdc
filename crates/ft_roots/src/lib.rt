//! The roots of a song, of its instruments and of its samples in words, changed by edits.
#![tactic(auto)]

mod instrument;
mod name;
mod sample;
mod song;
mod song_change;
mod song_head;
mod song_rows;

pub use instrument::{
    an_instrument_has_the_words_of_its_root, bare_words, change_instrument_words,
    count_sample_less, count_sample_more, drop_sample_id, name_words_alone, put_sample_id,
};
pub use sample::{
    a_loop_within_the_frames_stays, a_sample_has_the_words_of_its_root, change_sample_words,
    new_sample_words, put_index_ids, set_frames,
};
pub use song::{
    a_shown_song_has_its_words, drop_pattern_id, put_instrument_id, put_pattern_id,
    song_words_are_those_of_the_root,
};
pub use song_change::change_song_words;
