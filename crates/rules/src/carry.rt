// The carried amounts of all more urgent tasks.
ghost use Rattle.std.specs.Prelude.{◌≡◌};
ghost use Rattle.analysis.specs.Counting.{Countable};
ghost use Rattle.rules.specs.Rules.{all_carried};

use analysis::case::Case;

/// The carried amounts of the tasks above, added up.
pub(crate) fn sum_carried(case: &Case, window: u16) -> u32
    requires { Countable case.now.task.now window case.now.above.now }
    ensures { result ≡ all_carried case.now.task.now case.now.above.now window }
{
    case.above
        .iter()
        .map(|other| case.task.carried(window, other))
        .sum()
}
