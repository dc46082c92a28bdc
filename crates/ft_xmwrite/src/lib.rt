//! Writes modules as the bytes of Extended Module files, and generates songs to write.
//!
//! There is one spelling that is written, the canonical bytes of a valid module. The writers of the
//! parts append to one vector, each the bytes of its part.
#![tactic(auto)]

mod bytes;
mod cell;
mod deltas;
mod generator;
mod header;
mod instrument;
mod laws;
mod pattern;
mod sample;
mod writing;

pub use generator::generate;
pub use laws::generated_blocks_law;
pub use writing::write_xm;
