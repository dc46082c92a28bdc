//! Lists, valid and plain modules, and the blocks that modules take.
#![tactic(auto)]

#[cfg(test)]
mod tests;
