// The choice among the three rules.
ghost use Rattle.rules.specs.Standard.{rule_of};
ghost use Rattle.rules.specs.Lawful.{standard_lawful};

use crate::all_carry::AllCarryRule;
use crate::deadline::DeadlineRule;
use crate::response::ResponseRule;
use crate::rule::CountingRule;
use crate::standard_rule::StandardRule;
use analysis::case::Case;

/// Counts as the rule that is named.
impl CountingRule for StandardRule {
    ghost rule = { rule_of };

    ghost laws = { standard_lawful };

    // Stays: one place that picks the rule would hand out a dyn value, so each method asks the rule that is named.
    fn first_window(&self, case: &Case) -> u16 {
        match self {
            StandardRule::Response => ResponseRule.first_window(case),
            StandardRule::Deadline => DeadlineRule.first_window(case),
            StandardRule::AllCarry => AllCarryRule.first_window(case),
        }
    }

    fn total(&self, case: &Case, window: u16) -> u32 {
        match self {
            StandardRule::Response => ResponseRule.total(case, window),
            StandardRule::Deadline => DeadlineRule.total(case, window),
            StandardRule::AllCarry => AllCarryRule.total(case, window),
        }
    }
}
