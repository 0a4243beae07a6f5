//! A definition that was found.

use crate::Abbrev;
use crate::held::HeldOps;

/// A definition that was found.
#[derive(Drop)]
pub enum Found<'a> {
    /// It is ready to be read by.
    Ready(&'a Abbrev),
    /// It is held in few bytes.
    Held(HeldOps<'a>),
}
