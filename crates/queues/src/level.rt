// How urgent a job is.
ghost use Rattle.std.specs.Prelude.{◌≤◌};

/// A level, 0 to 63; 0 is the most urgent.
#[derive(Clone, Copy, PartialEq, Eq, PartialOrd, Ord, Debug)]
pub struct Level {
    pub number: u8,
    ghost small: { number ≤ 63 },
}
