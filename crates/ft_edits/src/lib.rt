//! What edits make of a module, and when they are refused.
//!
//! The definitions are in `specs/`: `Faults` says why an edit is refused, `Edited` what it makes
//! of a module, `Apply` puts both together, for one edit and for a batch, and `Versions` says which
//! journals are lawful and what the module is at a version. They work on whole lists. `Changes` has
//! what an edit makes of the one pattern, instrument or sample that it names, and `Groups` which of
//! these that is.
//!
//! `fault_of` finds the first fault of an edit by the sizes of a song alone, over any view that
//! answers them (`SizeView`). It takes no memory.
#![tactic(auto)]

mod cause;
mod fault;
mod fields;
mod group;
mod laws;
mod module_sizes;
mod numbers;
mod sizes;

pub use fault::fault_of;
pub use fields::holds_fields;
pub use group::{Group, group_of};
pub use laws::{allowed_edits_name_what_is_there, one_is_changed, valid_stays_valid};
pub use module_sizes::{ModuleSizes, fault_of_module};
pub use numbers::{field, kind, most};
pub use sizes::{SampleSizes, SizeView, SongSizes};
