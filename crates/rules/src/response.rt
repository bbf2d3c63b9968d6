// The response rule.
ghost use Rattle.rules.specs.Rules.{response};
ghost use Rattle.rules.specs.declared.standard_rule.StandardRule.TheVariants.{Response};
ghost use Rattle.rules.specs.Lawful.{standard_lawful};

use crate::rule::CountingRule;
use analysis::case::Case;

/// Starts at C and counts the interference: the bound is the least window in which a job is done.
#[derive(Clone, Copy)]
pub struct ResponseRule;

impl CountingRule for ResponseRule {
    ghost rule = { λ _. response };

    ghost laws = { λ _. standard_lawful Response };

    fn first_window(&self, case: &Case) -> u16 {
        case.task.run
    }

    // Stays: as in the deadline rule.
    fn total(&self, case: &Case, window: u16) -> u32 {
        case.total(window)
    }
}
