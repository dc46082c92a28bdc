//! Songs to test with: bytes of files, the modules that they give, and changes of bytes.
//!
//! - `silent_song`, `one_note_song`: whole files. `one_note_with` has other bytes at some places,
//!   `changed` makes such changes in any bytes.
//! - `header`, `pattern`, `instrument`, `bare_instrument`: parts of files, to be put one after the
//!   other.
//! - `one_note_module`, `silent_module`, `pattern_of`, `sample_of`, `instrument_of`, and the
//!   constants `EMPTY`, `NOTE`, `FLAT`, `STILL`: modules and their parts.
//!
//! The only error is running out of memory. No clause says anything: these are values for tests.
#![tactic(auto)]

mod change;
mod file;
mod module;
mod part;

pub use change::{Splice, changed, one_note_with};
pub use file::{SAMPLE_HEADER, one_note_song, silent_song};
pub use module::{
    EMPTY, FLAT, NOTE, STILL, instrument_of, instrument_with, one_note_module, pattern_of,
    sample_of, silent_module,
};
pub use part::{Head, bare_instrument, header, instrument, pattern};
