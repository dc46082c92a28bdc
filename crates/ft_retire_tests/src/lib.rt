//! Tests of births and deaths: when a segment lives, what is given, and what is undone.
#![tactic(auto)]

#[cfg(test)]
mod tests;
