//! Tests of `bit_tree` by its public calls.
#![tactic(auto)]

#[cfg(test)]
mod documents;
#[cfg(test)]
mod reading;
