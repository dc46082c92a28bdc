//! Writes sound as WAV: the head, and then frames of 16 bits, left before right.
#![tactic(auto)]

mod frames;
mod head;
mod laws;

pub use frames::{TICK_BYTES, put_frames, put_frames_through};
pub use head::wav_head;
pub use laws::sound_bytes_law;
