//! Tests of edits of frames in words: the frames that a sample has after an edit.
#![tactic(auto)]

#[cfg(test)]
mod bodies;
