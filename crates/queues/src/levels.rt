// The constructor and the order of levels.
ghost use Rattle.std.specs.Prelude.{◌≡◌};
ghost use Rattle.queues.specs.Items.{new_level, level_before};
ghost use Rattle.queues.specs.Orders.{level_lawful};

use crate::level::Level;
use crate::order::Order;

impl Level {
    /// The level of this number, or none where it is above 63.
    // Stays: a TryFrom is no plainer, since its error would tell no more than none does.
    pub fn new(number: u16) -> Option<Level>
        ensures { result ≡ new_level number }
    {
        match u8::try_from(number) {
            Ok(number) if number <= 63 => Some(Level { number }),
            _ => None,
        }
    }
}

/// The smaller number comes first.
impl Order for Level {
    ghost before = { level_before };

    ghost laws = { level_lawful };

    fn comes_before(&self, other: &Level) -> bool {
        self < other
    }
}
