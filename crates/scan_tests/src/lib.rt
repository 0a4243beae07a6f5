//! Tests of `bit_scan` by its public calls.
#![tactic(auto)]

#[cfg(test)]
mod events;
#[cfg(test)]
mod puts;
#[cfg(test)]
mod reports;
