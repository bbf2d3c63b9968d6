// The case that a rule counts for.
ghost use Rattle.std.specs.Prelude.{◌≡◌};

use crate::task::{BoundedTask, Task};

// Stays: a window is no part of a case, since a search asks one case about many windows.
/// A task under analysis: the task, the more urgent tasks with their bounds, and the number of cores that they share.
#[derive(Clone, Copy)]
pub struct Case<'a> {
    pub task: &'a Task,
    pub above: &'a [BoundedTask],
    pub cores: u8,
}

impl BoundedTask {
    /// The case of this task below the tasks above it.
    pub fn case<'a>(&'a self, above: &'a [BoundedTask], cores: u8) -> Case<'a>
        ensures task { result.task.now ≡ self.now.task }
        ensures above { result.above.now ≡ above.now }
        ensures cores { result.cores ≡ cores }
    {
        Case {
            task: &self.task,
            above,
            cores,
        }
    }
}
