// What one task adds to a window if it carries work in.
use crate::level::Level;

/// The work that a task adds to a window by a job carried in, with the task's level.
#[derive(Clone, Copy, PartialEq, Eq, Debug)]
pub struct Extra {
    pub amount: u32,
    pub level: Level,
}
