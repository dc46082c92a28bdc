//! Tests of the outside: its forms in memory, its adapters over files and writers, and WAV files.
#![tactic(auto)]

#[cfg(test)]
mod files;
#[cfg(test)]
mod memory;
#[cfg(test)]
mod wav;
#[cfg(test)]
mod writers;
