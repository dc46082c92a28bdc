//! Texts: what lines of scripts say, and where their first wrong words are; ledgers, read and
//! printed.
#![tactic(auto)]

#[cfg(test)]
mod kinds;
#[cfg(test)]
mod ledgers;
#[cfg(test)]
mod scripts;
