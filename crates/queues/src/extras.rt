// The constructor and the order of extras.
ghost use Rattle.std.specs.Prelude.{◌≡◌};
ghost use Rattle.queues.specs.Items.{extra_of, extra_before};
ghost use Rattle.queues.specs.Orders.{extra_lawful};

use crate::extra::Extra;
use crate::level::Level;
use crate::order::Order;

impl Extra {
    /// The extra of a task, or none where the level is above 63.
    pub fn new(amount: u32, level: u16) -> Option<Extra>
        ensures { result ≡ extra_of amount level }
    {
        let level = Level::new(level)?;
        Some(Extra { amount, level })
    }
}

/// The larger amount comes first, then the smaller level.
impl Order for Extra {
    ghost before = { extra_before };

    ghost laws = { extra_lawful };

    fn comes_before(&self, other: &Extra) -> bool {
        // Stays: by tuples, or by an `Ordering`, a heap of extras takes twice the time, since two tests do not fold into one.
        self.amount > other.amount || self.amount == other.amount && self.level < other.level
    }
}
