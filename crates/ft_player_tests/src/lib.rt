//! Tests of a player: over a song that lies in a register its view answers what the view over the song
//! itself answers; and what it plays, and in how many steps.
#![tactic(auto)]

#[cfg(test)]
mod playing;
#[cfg(test)]
mod same;
