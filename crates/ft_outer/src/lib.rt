//! Where bytes come from and where they go: the traits of the outside, their forms
//! in memory, and the adapters over files and standard output.
//!
//! A `Source` and a `Sink` count their faults. A call answers `Failed` only where the count rose,
//! so a caller that hands a fault on can name its cause. What a source has left and what a sink
//! holds is known of the forms in memory, and of an adapter as far as the type of the file or
//! writer under it says it.
#![tactic(auto)]

mod calls;
mod file_sink;
mod file_source;
mod laws;
mod memory_sink;
mod memory_source;
mod open_reader;
mod open_writer;
mod out_sink;
mod putting;
mod reading;
mod shelf;
mod sink;
mod source;
mod supply;
mod sure;

pub use file_sink::FileSink;
pub use file_source::FileSource;
pub use laws::taking_law;
pub use memory_sink::MemSink;
pub use memory_source::MemSource;
pub use out_sink::OutSink;
pub use putting::{WriteFault, put_all};
pub use reading::{ReadFault, read_all};
pub use sink::Sink;
pub use source::{Failed, Source};
pub use sure::{SureSink, SureSource};
