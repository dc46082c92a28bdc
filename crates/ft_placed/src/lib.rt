//! A song that lies in words: its sizes, and the ids of its segments.
#![tactic(auto)]

mod dropped;
mod instrument_segments;
mod instruments;
mod laws;
mod patterns;
mod samples;
mod segments;
mod sizes;

pub use dropped::{dropped_at, drops};
pub use instruments::{instrument_id, sample_id};
pub use laws::{a_root_is_of_its_ids, ids_give_their_roots};
pub use patterns::{body_id, pattern_id};
pub use samples::{frames_body_id, index_id};
pub use sizes::{WordSizes, fault_in, reach_in};
