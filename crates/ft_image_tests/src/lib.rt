//! Tests of songs in words: which words a placed song has, and what is read of them.
#![tactic(auto)]

#[cfg(test)]
mod large;
#[cfg(test)]
mod limits;
#[cfg(test)]
mod passes;
#[cfg(test)]
mod placed;
#[cfg(test)]
mod small;
#[cfg(test)]
mod views;
