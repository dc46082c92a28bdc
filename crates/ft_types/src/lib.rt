//! The values of a module: orders, patterns and cells, instruments with their
//! envelopes, and samples.
//!
//! A module is a plain value. Its lists are `Items`, which contracts see as the
//! list of their elements. Which modules are valid is
//! defined in `specs/`: `valid` answers it, and `blocks` says how many blocks a
//! valid module takes. Neither takes memory.
//!
//! An `Edit` is a change of a module that is asked for, a `Batch` some edits that are committed
//! together, and a `Journal` what was committed and what was refused. A `TickReport` names the
//! version of a tick that was played.
#![tactic(auto)]

mod batch;
mod block_count;
mod commit_fault;
mod edit;
mod edit_fault;
mod edit_kind;
mod edit_laws;
mod edit_parts;
mod instrument;
mod items;
mod journal;
mod kept;
mod module;
mod module_view;
mod no_memory;
mod pattern;
mod sample;
mod shelf;
mod slots;
mod steps;
mod tick_report;
mod validity;
mod view;
mod voice;
mod words;

pub use batch::{Batch, BatchFault, MOST_EDITS};
pub use block_count::blocks;
pub use commit_fault::CommitFault;
pub use edit::Edit;
pub use edit_fault::EditFault;
pub use edit_kind::{EditKind, LastType, NumberType};
pub use edit_laws::{each_name_is_of_one_kind, edits_are_their_parts};
pub use edit_parts::EditParts;
pub use instrument::{Envelope, Instrument, Instruments, Point, Shape, Vibrato};
pub use items::Items;
pub use journal::{Entry, Journal, Refusal};
pub use module::{Module, Orders, SongHead};
pub use module_view::ModuleView;
pub use no_memory::NoMemory;
pub use pattern::{Cell, Cells, Pattern, Patterns};
pub use sample::{Frames, Sample, Samples};
pub use steps::Steps;
pub use tick_report::{TickReport, Ticks};
pub use validity::valid;
pub use view::SongView;
pub use voice::{SampleHead, Voice};
