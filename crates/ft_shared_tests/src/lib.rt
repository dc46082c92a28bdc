//! Tests of the register: its worked rows, refusals, and eight readers in threads beside the
//! writer.
#![tactic(auto)]

#[cfg(test)]
mod author;
#[cfg(test)]
mod rows;
#[cfg(test)]
mod scans;
#[cfg(test)]
mod settled;
#[cfg(test)]
mod threads;
