// The search for a task's bound.
ghost use Rattle.std.specs.Prelude.{◌≡◌};
ghost use Rattle.rules.specs.Search.{bound_of, counted_bound, window_of, IsBound};

use crate::passing::Passing;
use crate::rule::CountingRule;
use analysis::case::Case;

/// The bound of a task, as `search` finds it, with the rule's total for it. Windows are tried upward one by one, and each is
/// counted once.
pub fn search_counted<R: CountingRule>(rule: &R, case: &Case) -> Option<Passing>
    ensures equation { result ≡ counted_bound (R.CountingRule.rule rule.now) case.now.task.now case.now.above.now case.now.cores }
    ensures least { IsBound (R.CountingRule.rule rule.now) case.now.task.now case.now.above.now case.now.cores (window_of result) }
{
    let windows = rule.first_window(case)..=case.task.deadline;
    let mut counted = windows.map(|window| {
        let total = rule.total(case, window);
        Passing { window, total }
    });
    counted.find(|passing| case.passes(passing.window, passing.total))
}

/// The bound of a task: the least window, from the rule's first up to the deadline, that passes with the rule's total, or
/// none where no such window passes.
pub fn search<R: CountingRule>(rule: &R, case: &Case) -> Option<u16>
    ensures equation { result ≡ bound_of (R.CountingRule.rule rule.now) case.now.task.now case.now.above.now case.now.cores }
    ensures least { IsBound (R.CountingRule.rule rule.now) case.now.task.now case.now.above.now case.now.cores result }
{
    search_counted(rule, case).map(|passing| passing.window)
}
