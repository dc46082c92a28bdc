//! Tests of the numbers of pitch and of waves.
#![tactic(auto)]

#[cfg(test)]
mod tests;
