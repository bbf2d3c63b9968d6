// The interface of a counting rule.
ghost use Rattle.std.specs.Prelude.{◌≡◌};
ghost use Rattle.rules.specs.Rules.{Rule, LawfulRule};

use analysis::case::Case;

/// How the work of more urgent tasks is counted. A rule's answers are its meaning: they depend on the case, the window and
/// the rule's own value alone.
pub trait CountingRule {
    ghost rule: { Self → Rule };

    /// The window with which the search for the task's bound begins.
    fn first_window(&self, case: &Case) -> u16
        ensures { result ≡ (rule self.now).first case.now.task.now case.now.above.now case.now.cores };

    /// How much the tasks above count for in a window of the task.
    fn total(&self, case: &Case, window: u16) -> u32
        ensures { result ≡ (rule self.now).total case.now.task.now case.now.above.now case.now.cores window };

    ghost laws: { (r : Self) → LawfulRule (rule r) };
}
