// The deadline rule.
ghost use Rattle.rules.specs.Rules.{deadline};
ghost use Rattle.rules.specs.declared.standard_rule.StandardRule.TheVariants.{Deadline};
ghost use Rattle.rules.specs.Lawful.{standard_lawful};

use crate::rule::CountingRule;
use analysis::case::Case;

/// Starts at D and counts the interference: the published deadline test.
#[derive(Clone, Copy)]
pub struct DeadlineRule;

impl CountingRule for DeadlineRule {
    ghost rule = { λ _. deadline };

    ghost laws = { λ _. standard_lawful Deadline };

    // Stays: a default body in the trait would have to be right for every rule, so rules that start or count alike each say so.
    fn first_window(&self, case: &Case) -> u16 {
        case.task.deadline
    }

    fn total(&self, case: &Case, window: u16) -> u32 {
        case.total(window)
    }
}
