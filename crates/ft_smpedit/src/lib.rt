//! Edits of frames in words: what each fills for the next version of a sample.
#![tactic(auto)]

mod kept;
mod reading;
mod slots;
mod source;
mod values;
mod writing;

pub use kept::LastWord;
pub use reading::read_body;
pub use slots::BodyRange;
pub use source::{FrameSource, frames_after, source_of};
pub use values::value_of;
pub use writing::write_frames;
