//! Keys for the hashes of an analysis.

ghost use Rattle.core.specs.Hash.DefaultHasher.{with_keys};

use core::hash::keyed_hasher;
use std::hash::{BuildHasher, DefaultHasher};

/// Keys of the hashes by which an analysis finds its rows. No result depends on them. The C before each call that takes them draws
/// random ones, so that no input can make codes collide.
#[repr(C)]
#[derive(Clone, Copy)]
pub struct BsKeys {
    pub first: u64,
    pub second: u64,
}

impl BuildHasher for BsKeys {
    type Hasher = DefaultHasher;

    ghost build_hasher = { λ keys. with_keys keys.first keys.second };

    fn build_hasher(&self) -> DefaultHasher {
        keyed_hasher(self.first, self.second)
    }
}
