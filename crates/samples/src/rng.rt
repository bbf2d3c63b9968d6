// Pseudo-random numbers, the same on every machine.

/// A generator by xor and shifts.
#[derive(Drop)]
pub struct Rng {
    state: u64,
}

impl Rng {
    pub(crate) fn new(seed: u64) -> Rng {
        Rng { state: seed | 1 }
    }

    /// The next number.
    pub(crate) fn roll(&mut self) -> u64 {
        let mut x = self.state;
        x ^= x.wrapping_shl(13);
        x ^= x >> 7;
        x ^= x.wrapping_shl(17);
        self.state = x;
        x >> 8
    }
}
