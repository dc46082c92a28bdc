//! Edits of a small song: each fault, the first of two, the limits of a song, and what each kind of
//! edit makes of it.
#![tactic(auto)]

#[cfg(test)]
mod faults;
#[cfg(test)]
mod kinds;
#[cfg(test)]
mod limits;
#[cfg(test)]
mod lines;
#[cfg(test)]
mod song;
#[cfg(test)]
mod steps;
