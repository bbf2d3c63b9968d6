// The check of a whole task set.
ghost use Rattle.std.specs.Prelude.{◌≡◌, [], IfOk};
ghost use Rattle.planning.specs.Plans as tested;
ghost use Rattle.planning.specs.Plans.{core_count, all_at_deadline};
ghost use Rattle.plans.specs.Plans.{rows_from, verdict_on, plan_rows, plan_verdict};
ghost use Rattle.plans.specs.Promises.{Promised};
ghost use Rattle.planning.specs.Published.{Judged};
ghost use Rattle.rules.specs.Bounds.{rebound, rebound_set, tasks_of};
ghost use Rattle.rules.specs.Rules.{deadline};

use analysis::task::{BoundedTask, Task};
use planning::admission::{Stop, admit};
use planning::refusal::Refusal;
use planning::verdict::{Plan, Row};
use rules::bounds::rebound;
use rules::passing::Passing;
use rules::rule::CountingRule;
use rules::search::search_counted;
use std::alloc::{AllocError, Global};

/// A row for each task of a sorted set: the task, its bound, and the rule's total at the bound.
// Stays: no plainer with a struct of rule and cores, which `rebound` and a case would take apart again.
pub fn rows<R: CountingRule>(
    heap: Global,
    rule: &R,
    cores: u8,
    set: &[BoundedTask],
) -> Result<Vec<Row>, AllocError>
    ensures { IfOk result (λ v. v.items ≡ rows_from (R.CountingRule.rule rule.now) cores [] set.now) }
{
    let mut rows = Vec::new(heap);
    for (i, task) in set.iter().enumerate() {
        let case = task.case(&set[..i], cores);
        let total = rule.total(&case, task.bound);
        rows.push(Row {
            task: task.task,
            total,
            bound: task.bound,
        })?;
    }
    Ok(rows)
}

/// Works out the bounds of a sorted set, and the rows of the tasks above the first that has none; that one is refused.
/// The set then shows the bounds that were found, also where memory for the rows runs out.
pub fn judge<R: CountingRule>(
    heap: Global,
    rule: &R,
    cores: u8,
    set: &mut [BoundedTask],
) -> Result<Plan, AllocError>
    ensures rows { IfOk result (λ p. p.rows.items ≡ rows_from (R.CountingRule.rule rule.now) cores [] (rebound (R.CountingRule.rule rule.now) cores [] set.old).done) }
    ensures verdict { IfOk result (λ p. p.verdict ≡ verdict_on (rebound (R.CountingRule.rule rule.now) cores [] set.old).left) }
    ensures set { set.new ≡ rebound_set (rebound (R.CountingRule.rule rule.now) cores [] set.old) }
    ensures deadline_rows { IfOk result (λ p. R.CountingRule.rule rule.now ≡ deadline → p.rows.items ≡ tested.rows_from cores [] (all_at_deadline (tasks_of set.old))) }
    ensures deadline_verdict { IfOk result (λ p. R.CountingRule.rule rule.now ≡ deadline → p.verdict ≡ tested.verdict_from cores [] (all_at_deadline (tasks_of set.old))) }
{
    let mut rows = Vec::new(heap);
    // Stays: the loop of `rebound`, with a row for each task: made after it, a row would have its total counted again.
    for place in 0..set.len() {
        let bounded = set[place];
        let case = bounded.case(&set[..place], cores);
        let Some(Passing { window, total }) = search_counted(rule, &case) else {
            let verdict = Err(Refusal::NoBound(bounded.task.level));
            return Ok(Plan { rows, verdict });
        };
        set[place].bound = window;
        let row = Row {
            task: bounded.task,
            total,
            bound: window,
        };
        if rows.push(row).is_err() {
            // The bounds of the other tasks are worked out all the same.
            let _ = rebound(rule, cores, set, place + 1);
            return Err(AllocError);
        }
    }
    let verdict = Ok(());
    Ok(Plan { rows, verdict })
}

/// Checks a list of tasks, in any order, by a rule on so many cores (fewer than 1 count as 1, more than 8 as 8): the rows of
/// the tasks that have a bound, most urgent first, and the verdict. By the deadline rule it is that of the published test.
pub fn plan<R: CountingRule>(
    heap: Global,
    rule: &R,
    cores: u8,
    tasks: &[Task],
) -> Result<Plan, AllocError>
    ensures rows { IfOk result (λ p. p.rows.items ≡ plan_rows (R.CountingRule.rule rule.now) cores tasks.now) }
    ensures verdict { IfOk result (λ p. p.verdict ≡ plan_verdict (R.CountingRule.rule rule.now) cores tasks.now) }
    ensures promised { IfOk result (λ p. Promised (R.CountingRule.rule rule.now) (core_count cores) tasks.now p.rows.items p.verdict) }
    ensures published { IfOk result (λ p. R.CountingRule.rule rule.now ≡ deadline → Judged (core_count cores) tasks.now p.verdict) }
    ensures deadline_rows { IfOk result (λ p. R.CountingRule.rule rule.now ≡ deadline → p.rows.items ≡ tested.plan_rows cores tasks.now) }
    ensures deadline_verdict { IfOk result (λ p. R.CountingRule.rule rule.now ≡ deadline → p.verdict ≡ tested.plan_verdict cores tasks.now) }
{
    match admit(heap, tasks) {
        Ok(mut set) => judge(heap, rule, cores.clamp(1, 8), set.as_mut_slice()),
        Err(Stop::Memory) => Err(AllocError),
        Err(Stop::Refused(refusal)) => {
            let rows = Vec::new(heap);
            let verdict = Err(refusal);
            Ok(Plan { rows, verdict })
        }
    }
}
