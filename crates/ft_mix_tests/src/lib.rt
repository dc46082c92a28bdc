//! Tests of the mixer: places in loops, and looped samples over a view of a module.
#![tactic(auto)]

#[cfg(test)]
mod fast;
#[cfg(test)]
mod loops;
