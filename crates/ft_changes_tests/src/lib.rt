//! How many segments each kind of edit fills.
#![tactic(auto)]

#[cfg(test)]
mod filled;
