// The check of the bounds that a task set shows.
ghost use Rattle.std.specs.Prelude.{◌≡◌, [], IfOk};
ghost use Rattle.planning.specs.Plans.{row_verdict, rows_from, verdict_from};

use crate::refusal::Refusal;
use crate::verdict::{Plan, Row};
use analysis::case::Case;
use analysis::task::BoundedTask;
use std::alloc::{AllocError, Global};

// Stays: no plainer, as these two test the bounds that a set shows, whatever they are. `plans::plan::judge` works bounds out
// anew, so what it says of a set by the deadline rule is what is said here of the set with every task at its deadline.

/// The row of a task with this bound as the window, or none where that does not pass.
pub fn row(case: &Case, bound: u16) -> Option<Row>
    ensures { result ≡ row_verdict case.now.cores case.now.above.now (record { task = case.now.task.now; bound = bound }) }
{
    let task = *case.task;
    let total = case.total(bound);
    case.passes(bound, total)
        .then_some(Row { task, total, bound })
}

/// The rows of a sorted set and the verdict on it: the first task that does not pass ends it.
pub fn judge(heap: Global, cores: u8, set: &[BoundedTask]) -> Result<Plan, AllocError>
    ensures rows { IfOk result (λ p. p.rows.items ≡ rows_from cores [] set.now) }
    ensures verdict { IfOk result (λ p. p.verdict ≡ verdict_from cores [] set.now) }
{
    let mut rows = Vec::new(heap);
    for (i, task) in set.iter().enumerate() {
        let case = task.case(&set[..i], cores);
        let Some(row) = row(&case, task.bound) else {
            let verdict = Err(Refusal::NoBound(task.task.level));
            return Ok(Plan { rows, verdict });
        };
        rows.push(row)?;
    }
    let verdict = Ok(());
    Ok(Plan { rows, verdict })
}
