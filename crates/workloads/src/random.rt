//! Numbers from a seed.

/// A row of numbers that a seed gives. Source: Steele, Lea and Flood, "Fast Splittable Pseudorandom Number Generators" (splitmix64).
#[derive(Clone, Copy)]
pub struct Random {
    state: u64,
}

impl Random {
    /// The row of a seed.
    pub fn new(seed: u64) -> Random {
        Random { state: seed }
    }

    /// The next number.
    pub fn next(&mut self) -> u64 {
        self.state = self.state.wrapping_add(0x9E37_79B9_7F4A_7C15);
        let mixed = (self.state ^ (self.state >> 30)).wrapping_mul(0xBF58_476D_1CE4_E5B9);
        let mixed = (mixed ^ (mixed >> 27)).wrapping_mul(0x94D0_49BB_1331_11EB);
        mixed ^ (mixed >> 31)
    }

    /// The next number below a bound, or 0 if the bound is 0.
    pub fn below(&mut self, bound: usize) -> usize {
        let number = self.next();
        if bound == 0 {
            0
        } else {
            (number % bound as u64) as usize
        }
    }
}
