// How much work one task can do in a window, and how much of it counts against another task.
ghost use Rattle.std.specs.Prelude.{◌≡◌, ◌≤◌};
ghost use Rattle.analysis.specs.Laws.{AmountLaws};
ghost use Rattle.analysis.specs.Work.{amount, cap, plain, carried};

use crate::task::{BoundedTask, Task};

/// The work that jobs of run time `run`, released at least `gap` apart from the window's start on, do in a window.
pub fn amount(run: u16, gap: u16, window: u32) -> u64
    ensures equation { result ≡ amount run gap window }
    ensures laws { 1 ≤ gap → AmountLaws run gap window }
{
    let run = u64::from(run);
    let window = u64::from(window);
    if gap == 0 {
        return run.min(window);
    }
    let gap = u64::from(gap);
    window / gap * run + run.min(window % gap)
}

impl Task {
    /// The part of a window in which a job of this task can be kept waiting before it is late.
    pub fn cap(&self, window: u16) -> u64
        ensures { result ≡ cap self.now window }
    {
        u64::from(window.saturating_sub(self.run)) + 1
    }

    /// What a more urgent task adds to a window of this one if it carries no work in.
    pub fn plain(&self, window: u16, other: &BoundedTask) -> u32
        ensures { result ≡ plain self.now window other.now }
    {
        let work = amount(other.task.run, other.task.gap, u32::from(window));
        // Stays: at most the cap, so a conversion that is tested would add an arm that never runs.
        work.min(self.cap(window)) as u32
    }

    /// What it adds if it carries work in: a job released before the window began. That is never less, if C ≤ bound.
    pub fn carried(&self, window: u16, other: &BoundedTask) -> u32
        ensures equation { result ≡ carried self.now window other.now }
        ensures above { 1 ≤ other.now.task.gap → other.now.task.run ≤ other.now.bound → plain self.now window other.now ≤ result }
    {
        let end = u32::from(window) + u32::from(other.bound);
        let reach = end.saturating_sub(u32::from(other.task.run));
        let work = amount(other.task.run, other.task.gap, reach);
        // Stays: as in `plain`, no arm for what is never too large.
        work.min(self.cap(window)) as u32
    }
}
