//! What the writer writes, at the places of the file, and what is generated. Each table is walked by
//! one loop.
#![tactic(auto)]

#[cfg(test)]
mod generated;
#[cfg(test)]
mod pieces;
