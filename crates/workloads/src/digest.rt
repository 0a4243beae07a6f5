//! A digest of numbers and texts, in order.

/// A state and a number, mixed.
fn mixed(state: u64, number: u64) -> u64 {
    let product = (state ^ number).wrapping_mul(0x9E37_79B9_7F4A_7C15);
    product ^ (product >> 32)
}

/// A digest of numbers and texts.
#[derive(Clone, Copy)]
pub struct Digest {
    state: u64,
}

impl Digest {
    /// The digest of nothing.
    pub fn new() -> Digest {
        Digest {
            state: 0xCBF2_9CE4_8422_2325,
        }
    }

    /// Takes a number.
    pub fn number(&mut self, number: u64) {
        self.state = mixed(self.state, number);
    }

    /// Takes numbers in order, without how many there are.
    pub fn fields(&mut self, numbers: &[u64]) {
        for number in numbers {
            self.number(*number);
        }
    }

    /// Takes how many numbers there are, and the numbers. Four lanes make it quick beside the work.
    pub fn list(&mut self, numbers: &[u64]) {
        self.number(numbers.len() as u64);
        let (blocks, rest) = numbers.as_chunks::<4>();
        let (mut a, mut b, mut c, mut d) = (1, 2, 3, 4);
        for [first, second, third, fourth] in blocks {
            a = mixed(a, *first);
            b = mixed(b, *second);
            c = mixed(c, *third);
            d = mixed(d, *fourth);
        }
        self.fields(&[a, b, c, d]);
        self.fields(rest);
    }

    /// Takes the length and the bytes of a text, also in four lanes.
    pub fn text(&mut self, bytes: &[u8]) {
        self.number(bytes.len() as u64);
        let (blocks, rest) = bytes.as_chunks::<32>();
        let (mut a, mut b, mut c, mut d) = (1, 2, 3, 4);
        for block in blocks {
            let (words, _) = block.as_slice().as_chunks::<8>();
            if let [first, second, third, fourth] = words {
                a = mixed(a, u64::from_le_bytes(*first));
                b = mixed(b, u64::from_le_bytes(*second));
                c = mixed(c, u64::from_le_bytes(*third));
                d = mixed(d, u64::from_le_bytes(*fourth));
            }
        }
        self.fields(&[a, b, c, d]);
        for byte in rest {
            self.number(u64::from(*byte));
        }
    }

    /// The digest of all that it took.
    pub fn state(self) -> u64 {
        self.state
    }
}
