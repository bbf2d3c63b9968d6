// Why a task set is refused.
ghost use Rattle.std.specs.Prelude.{◌≡◌, Some};
ghost use Rattle.planning.specs.Refusals.{number};
ghost use Rattle.planning.specs.Texts.{reason_text};

use std::fmt;

/// Why a task set is refused; each tells the level of the task that is to blame.
#[derive(Clone, Copy, PartialEq, Eq, Debug)]
pub enum Refusal {
    /// The level is above 63.
    BadLevel(u16),
    /// Not 1 ≤ C ≤ D ≤ T ≤ 60,000.
    BadTiming(u16),
    /// The level has a task already.
    LevelTaken(u16),
    /// There are 32 tasks already.
    TooManyTasks(u16),
    /// No window up to the deadline passes.
    NoBound(u16),
}

impl Refusal {
    // Stays: a rule of the project, as the planner prints these numbers and the specification fixes them.
    /// The number by which the refusal is known.
    pub fn number(&self) -> u8
        ensures { result ≡ number self.now }
    {
        match self {
            Refusal::BadLevel(_) => 1,
            Refusal::BadTiming(_) => 2,
            Refusal::LevelTaken(_) => 3,
            Refusal::TooManyTasks(_) => 4,
            Refusal::NoBound(_) => 6,
        }
    }
}

impl fmt::Display for Refusal {
    ghost output = { λ refusal. Some (reason_text refusal) };

    fn fmt<W: fmt::Write>(&self, f: &mut fmt::Formatter<W>) -> fmt::Result {
        match *self {
            Refusal::BadLevel(level) => write!(f, "level {level} is above 63"),
            Refusal::BadTiming(level) => {
                write!(f, "level {level} breaks 1 <= C <= D <= T <= 60000")
            }
            Refusal::LevelTaken(level) => write!(f, "level {level} has a task already"),
            Refusal::TooManyTasks(level) => write!(f, "level {level} comes after 32 tasks"),
            Refusal::NoBound(level) => write!(f, "level {level} has no bound"),
        }
    }
}
