// The kinds of calls on a queue.

/// A kind of call.
#[derive(Clone, Copy, PartialEq, Eq, Debug)]
pub enum Call {
    Clear,
    Capacity,
    Count,
    First,
    Take,
    Put,
    Withdraw,
}

/// The kind for a number drawn at random: seven in sixteen put, and none clears.
impl From<u64> for Call {
    fn from(roll: u64) -> Call {
        match roll % 16 {
            0 => Call::Capacity,
            1 => Call::Count,
            2 | 3 => Call::First,
            4 | 5 => Call::Take,
            6..=8 => Call::Withdraw,
            _ => Call::Put,
        }
    }
}
