// Items made from numbers, and a number for each item that rises in the order of the items.
use queues::extra::Extra;
use queues::level::Level;
use queues::wake_up::WakeUp;

/// An item kind that can be drawn at random.
// Stays: no plainer, since a `From<u64>` of an item can stand in crate `queues` alone, which draws nothing.
pub trait Sample {
    /// The item for a number: few enough that the same one is drawn again.
    fn of(number: u64) -> Self;

    /// A number that is smaller for the item that comes first.
    fn code(&self) -> u64;
}

impl Sample for Level {
    fn of(number: u64) -> Level {
        // Stays: below 64, so a conversion that is tested would add an arm that never runs.
        Level {
            number: (number % 64) as u8,
        }
    }

    fn code(&self) -> u64 {
        u64::from(self.number)
    }
}

impl Sample for WakeUp {
    fn of(number: u64) -> WakeUp {
        WakeUp {
            tick: 1_099_511_687_776 - number / 64 % 16,
            level: Level::of(number),
        }
    }

    fn code(&self) -> u64 {
        self.tick * 64 + u64::from(self.level.number)
    }
}

impl Sample for Extra {
    fn of(number: u64) -> Extra {
        Extra {
            // Stays: below 16, as above.
            amount: (number / 64 % 16) as u32,
            level: Level::of(number),
        }
    }

    fn code(&self) -> u64 {
        u64::from(u32::MAX - self.amount) * 64 + u64::from(self.level.number)
    }
}
