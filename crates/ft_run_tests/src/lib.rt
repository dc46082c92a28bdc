//! Tests of command lines and of runs over sources and sinks in memory.
#![tactic(auto)]

#[cfg(test)]
mod copying;
#[cfg(test)]
mod generating;
#[cfg(test)]
mod importing;
#[cfg(test)]
mod lines;
#[cfg(test)]
mod outside;
#[cfg(test)]
mod pool;
#[cfg(test)]
mod refusals;
#[cfg(test)]
mod runs;
#[cfg(test)]
mod words;
