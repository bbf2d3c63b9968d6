// The constructor and the order of wake-ups.
ghost use Rattle.std.specs.Prelude.{◌≡◌};
ghost use Rattle.queues.specs.Items.{new_wake_up, wake_up_before};
ghost use Rattle.queues.specs.Orders.{wake_up_lawful};

use crate::level::Level;
use crate::order::Order;
use crate::wake_up::WakeUp;

impl WakeUp {
    /// The wake-up of a task, or none where the tick is above 2^40 + 60,000 or the level above 63.
    pub fn new(tick: u64, level: u16) -> Option<WakeUp>
        ensures { result ≡ new_wake_up tick level }
    {
        if tick > 1_099_511_687_776 {
            return None;
        }
        let level = Level::new(level)?;
        Some(WakeUp { tick, level })
    }
}

/// The smaller tick comes first, then the smaller level.
impl Order for WakeUp {
    ghost before = { wake_up_before };

    ghost laws = { wake_up_lawful };

    fn comes_before(&self, other: &WakeUp) -> bool {
        self < other
    }
}
