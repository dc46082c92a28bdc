//! What the bytes of an Extended Module file are, for the reader and the writer.
//!
//! There is hardly any code here but the fields of the format as plain values, as a file says them,
//! before they are brought into the ranges of a module, and the constants of the format. Which
//! bytes spell a module, and which are its canonical bytes, is in `specs/`. Laws of these
//! definitions are proved: what bytes spell is a valid module, the canonical bytes of a valid
//! module spell it, and their parts have certain sizes.
#![tactic(auto)]

mod cell;
mod header;
mod instrument;
mod laws;
mod layout;
mod limits;
mod pattern;
mod sample;

pub use cell::{RawCell, has};
pub use header::{Settings, Sizes, Titles};
pub use instrument::{Envelopes, Extra, InstrumentHead, Pair, Shapes, Turns};
pub use laws::{canonical_is_spelled, canonical_parts, canonical_sizes, spelled_is_valid};
pub use layout::{
    BEFORE_ORDERS, CAPITAL, EFFECT_BIT, EMPTY_CELL, HEADER, HEADER_SIZE, IDENTIFICATION,
    INSTRUMENT_BIT, LEAST_HEADER_SIZE, LEAST_LONG_HEAD, LETTER, LONG_HEAD, MARK, MASK, NO_ENVELOPE,
    NO_EXTRA, NO_VIBRATO, NOTE_BIT, ORDER_TABLE, PACKING, PARAMETER_BIT, PATTERN_HEAD,
    SAMPLE_HEADER, SHORT_HEAD, SMALL, UNUSED, VERSION, VOLUME_BIT,
};
pub use limits::{
    KEY_OFF, MOST_BYTES, MOST_CHANNELS, MOST_FRAMES, MOST_INSTRUMENTS, MOST_ORDERS, MOST_PATTERNS,
    MOST_ROWS, MOST_SAMPLES, ROWS_FOR_NONE,
};
pub use pattern::PatternHead;
pub use sample::SampleHeader;
