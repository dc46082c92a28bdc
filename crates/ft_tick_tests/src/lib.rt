//! Tests of the ticks of a song: what effects make of a channel, and where they lead.
#![tactic(auto)]

#[cfg(test)]
mod levels;
#[cfg(test)]
mod memories;
#[cfg(test)]
mod notes;
#[cfg(test)]
mod places;
#[cfg(test)]
mod playing;
#[cfg(test)]
mod retriggers;
#[cfg(test)]
mod slides;
#[cfg(test)]
mod song;
#[cfg(test)]
mod swings;
#[cfg(test)]
mod time;
