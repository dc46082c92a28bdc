//! Whole files through the reader: what their bytes give, and how others are refused. What is expected
//! was worked out by hand from the fields of the format. Each table is walked by one loop.
#![tactic(auto)]

#[cfg(test)]
mod fields;
#[cfg(test)]
mod given;
#[cfg(test)]
mod limits;
#[cfg(test)]
mod refusals;
#[cfg(test)]
mod samples;
#[cfg(test)]
mod spellings;
#[cfg(test)]
mod steps;
