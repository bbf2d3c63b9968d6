// The cases in which a rule works out a total.
ghost use Rattle.std.specs.Prelude.{◌≡◌, ◌≤◌, true, length};
ghost use Rattle.std.specs.List.{AllByRecursion};
ghost use Rattle.analysis.specs.Interference.{above, all_above, distinct, level_of, lawful, numbers_fit};

use crate::case::Case;
use crate::task::{BoundedTask, Task};

impl BoundedTask {
    /// Whether this task is within its limits and more urgent than the other one.
    pub fn is_above(&self, task: &Task) -> bool
        ensures { result ≡ above task.now self.now }
    {
        self.within_limits() && self.task.level < task.level
    }
}

// Whether no two of the tasks share a level: a level that is seen is marked.
fn levels_differ(tasks: &[BoundedTask]) -> bool
    requires { AllByRecursion (λ i. level_of i ≤ 63) tasks.now }
    ensures { result ≡ distinct level_of tasks.now }
{
    // Stays: no plainer with a bitmap, in which each level would first be made, and whose `put` could fail in two ways; nor as
    // a chain, whose closure would change the marks that it tests.
    let mut seen = [false; 64];
    for task in tasks {
        let level = usize::from(task.task.level);
        if seen[level] {
            return false;
        }
        seen[level] = true;
    }
    true
}

impl Case<'_> {
    /// Whether each of the tasks above is within its limits and more urgent than the task.
    pub fn all_above(&self) -> bool
        ensures { result ≡ all_above self.now.task.now self.now.above.now }
    {
        self.above.iter().all(|other| other.is_above(self.task))
    }

    // Whether cores, number of tasks above, task and window are such that a total is worked out.
    fn numbers_fit(&self, window: u16) -> bool
        ensures { result ≡ numbers_fit self.now.task.now (length self.now.above.now) self.now.cores window }
    {
        1 <= self.cores
            && self.cores <= 8
            && self.above.len() <= 31
            && self.task.within_limits()
            && self.task.run <= window
            && window <= self.task.deadline
    }

    /// Whether a total is worked out for a window: 1 to 8 cores, at most 31 tasks above, all of them more urgent than the
    /// task, no two sharing a level, every task within its limits, and C ≤ window ≤ D.
    pub fn is_lawful(&self, window: u16) -> bool
        ensures { result ≡ lawful self.now.task.now self.now.above.now self.now.cores window }
    {
        self.numbers_fit(window) && self.all_above() && levels_differ(self.above)
    }
}
