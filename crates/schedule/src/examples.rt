// The task sets of two worked schedules.
ghost use Rattle.std.specs.Prelude.{◌≡◌};
ghost use Rattle.schedule.specs.Examples.{house, TogetherFacts, crowd, CrowdedFacts};

use analysis::task::{BoundedTask, Task};

// Stays: no plainer; the sets are data, of three tasks and of two, each with facts of its own, and one function would take
// every number as an argument.
/// Three tasks that keep their bounds on 2 cores; all released at once they run for 4 slots.
pub fn house_set() -> [BoundedTask; 3]
    ensures value { result ≡ house }
    ensures together { TogetherFacts result }
{
    [
        BoundedTask {
            task: Task {
                level: 10,
                run: 2,
                deadline: 4,
                gap: 5,
            },
            bound: 2,
        },
        BoundedTask {
            task: Task {
                level: 20,
                run: 3,
                deadline: 6,
                gap: 8,
            },
            bound: 3,
        },
        BoundedTask {
            task: Task {
                level: 30,
                run: 2,
                deadline: 6,
                gap: 10,
            },
            bound: 4,
        },
    ]
}

/// Two tasks for 1 core, one of which can be late: the window test refuses its bound.
pub fn crowded_set() -> [BoundedTask; 2]
    ensures value { result ≡ crowd }
    ensures crowded { CrowdedFacts result }
{
    [
        BoundedTask {
            task: Task {
                level: 10,
                run: 2,
                deadline: 2,
                gap: 2,
            },
            bound: 2,
        },
        BoundedTask {
            task: Task {
                level: 20,
                run: 1,
                deadline: 2,
                gap: 2,
            },
            bound: 2,
        },
    ]
}
