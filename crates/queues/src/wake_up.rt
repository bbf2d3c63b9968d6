// When a timer lets the next job of a task in.
ghost use Rattle.std.specs.Prelude.{◌+◌, ◌^◌, ◌≤◌};

use crate::level::Level;

/// The tick at which a timer expires, at most 2^40 + 60,000, and the level of its task.
#[derive(Clone, Copy, PartialEq, Eq, PartialOrd, Ord, Debug)]
pub struct WakeUp {
    pub tick: u64,
    pub level: Level,
    ghost early: { tick ≤ 2 ^ 40 + 60000 },
}
