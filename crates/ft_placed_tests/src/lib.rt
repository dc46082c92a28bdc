//! Which segments edits drop of songs that were placed, and which edits are refused.
#![tactic(auto)]

#[cfg(test)]
mod edits;
