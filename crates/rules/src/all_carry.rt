// The all-carry rule.
ghost use Rattle.rules.specs.Rules.{all_carry};
ghost use Rattle.rules.specs.declared.standard_rule.StandardRule.TheVariants.{AllCarry};
ghost use Rattle.rules.specs.Lawful.{standard_lawful};

use crate::carry::sum_carried;
use crate::rule::CountingRule;
use analysis::case::Case;

/// Starts at D and counts every task above as if it carried work in.
#[derive(Clone, Copy)]
pub struct AllCarryRule;

impl CountingRule for AllCarryRule {
    ghost rule = { λ _. all_carry };

    ghost laws = { λ _. standard_lawful AllCarry };

    // Stays: as in the deadline rule.
    fn first_window(&self, case: &Case) -> u16 {
        case.task.deadline
    }

    fn total(&self, case: &Case, window: u16) -> u32 {
        if !case.is_lawful(window) {
            // Stays: a rule of the project, which publishes this total, and a function that cannot fail stays one.
            return u32::MAX;
        }
        sum_carried(case, window)
    }
}
