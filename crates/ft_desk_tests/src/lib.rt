//! Tests of the desk: which pools are too small for a song, what a desk says that was just opened,
//! and passes that go to it and come back.
#![tactic(auto)]

#[cfg(test)]
mod opening;
#[cfg(test)]
mod settling;
#[cfg(test)]
mod songs;
