// The check of a set's bounds, and what it says of every legal schedule.
ghost use Rattle.std.specs.Prelude.{◌≡◌, true, []};
ghost use Rattle.analysis.specs.Kept.{Holds, Kept};
ghost use Rattle.schedule.specs.Soundness.{Punctual};

use analysis::case::Case;
use analysis::task::BoundedTask;

// Whether the bound of the task is lawful and passes the window test against the tasks above it.
fn holds(case: &Case, bound: u16) -> bool
    ensures yes { result ≡ true → Holds case.now.cores case.now.above.now (record { task = case.now.task.now; bound = bound }) }
    ensures whenever { Holds case.now.cores case.now.above.now (record { task = case.now.task.now; bound = bound }) → result ≡ true }
{
    case.is_lawful(bound) && case.passes(bound, case.total(bound))
}

/// Whether every bound of a set, most urgent task first, is lawful and passes the window test. Then no legal schedule on
/// so many cores has a job that is there longer than its task's bound.
pub fn keeps_bounds(cores: u8, set: &[BoundedTask]) -> bool
    ensures kept { result ≡ true → Kept cores [] set.now }
    ensures whenever { Kept cores [] set.now → result ≡ true }
    ensures punctual { result ≡ true → Punctual cores set.now }
{
    set.iter().enumerate().all(|(place, bounded)| {
        let case = bounded.case(&set[..place], cores);
        holds(&case, bounded.bound)
    })
}
