// Tasks and their limits.
ghost use Rattle.std.specs.Prelude.{◌≡◌};
ghost use Rattle.analysis.specs.Tasks.{level_fits, timing_fits, within_limits, bound_fits};

/// One kind of job. Times are counted in ticks, and level 0 is the most urgent.
#[derive(Clone, Copy, PartialEq, Eq, Debug)]
pub struct Task {
    /// How urgent its jobs are, 0 to 63; no two tasks of a set share a level.
    pub level: u16,
    /// Run time C: the slots that one job may use.
    pub run: u16,
    /// Deadline D: within so many ticks of its release a job has to be done.
    pub deadline: u16,
    /// Smallest gap T between two releases.
    pub gap: u16,
}

/// A task with its bound: its jobs are done within so many ticks of their release.
#[derive(Clone, Copy)]
pub struct BoundedTask {
    pub task: Task,
    pub bound: u16,
}

impl Task {
    /// Whether the level is at most 63.
    pub fn level_fits(&self) -> bool
        ensures { result ≡ level_fits self.now }
    {
        self.level <= 63
    }

    /// Whether 1 ≤ C ≤ D ≤ T ≤ 60,000.
    pub fn timing_fits(&self) -> bool
        ensures { result ≡ timing_fits self.now }
    {
        1 <= self.run
            && self.run <= self.deadline
            && self.deadline <= self.gap
            && self.gap <= 60_000
    }

    /// Whether level and timing fit.
    pub fn within_limits(&self) -> bool
        ensures { result ≡ within_limits self.now }
    {
        self.level_fits() && self.timing_fits()
    }
}

impl BoundedTask {
    /// Whether the task is within its limits and C ≤ bound ≤ D.
    pub fn within_limits(&self) -> bool
        ensures { result ≡ bound_fits self.now }
    {
        self.task.within_limits() && self.task.run <= self.bound && self.bound <= self.task.deadline
    }
}
