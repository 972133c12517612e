//! What a job found, as one number.

const FACTOR: u64 = 0x9e37_79b9_7f4a_7c15;

/// A number that hangs on all results of a job and on their order.
#[derive(Clone, Copy)]
pub struct Digest {
    state: u64,
}

impl Digest {
    /// Returns the digest of nothing.
    pub fn new() -> Digest {
        Digest { state: 0 }
    }

    /// Adds a number.
    #[inline]
    pub fn add(&mut self, number: u64) {
        self.state = mixed(self.state, number);
    }

    /// Adds samples of 16 bits, four at a time.
    pub fn add_samples(&mut self, samples: &[i16]) {
        let mut state = mixed(self.state, samples.len() as u64);
        let (fours, rest) = samples.as_chunks::<4>();
        for four in fours {
            let low = bits(four[0]) | bits(four[1]) << 16;
            let high = bits(four[2]) | bits(four[3]) << 16;
            state = mixed(state, low | high << 32);
        }
        for sample in rest {
            state = mixed(state, bits(*sample));
        }
        self.state = state;
    }

    /// Adds bytes, eight at a time.
    pub fn add_bytes(&mut self, bytes: &[u8]) {
        let mut state = mixed(self.state, bytes.len() as u64);
        let (words, rest) = bytes.as_chunks::<8>();
        for word in words {
            state = mixed(state, u64::from_le_bytes(*word));
        }
        for byte in rest {
            state = mixed(state, u64::from(*byte));
        }
        self.state = state;
    }

    /// Returns the number.
    pub fn value(&self) -> u64 {
        self.state
    }
}

/// Returns the 16 bits of a sample.
#[inline]
fn bits(sample: i16) -> u64 {
    u64::from(sample.cast_unsigned())
}

#[inline]
fn mixed(state: u64, number: u64) -> u64 {
    (state ^ number).rotate_left(23).wrapping_mul(FACTOR)
}
