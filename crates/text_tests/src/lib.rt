//! Tests of `bit_text` by its public calls.
#![tactic(auto)]

#[cfg(test)]
mod assembling;
