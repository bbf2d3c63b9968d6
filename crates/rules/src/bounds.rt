// The bounds of a whole task set.
ghost use Rattle.std.specs.Prelude.{◌≡◌, true, [], take, drop, is_ok};
ghost use Rattle.analysis.specs.Kept.{Kept};
ghost use Rattle.rules.specs.Bounds.{rebound, rebound_answer, rebound_set, Rebounded, set_fits};

use crate::rule::CountingRule;
use crate::search::search;
use crate::unbounded::NoBound;
use analysis::task::BoundedTask;

/// Works out the bound of each task from a place on, most urgent first, with the bounds just found. The first task that has
/// no bound is told; it and the tasks behind it are left as they were.
// Stays: no plainer with a struct of cores and set, since the set is changed in place and read again by who lent it.
pub fn rebound<R: CountingRule>(
    rule: &R,
    cores: u8,
    set: &mut [BoundedTask],
    from: usize,
) -> Result<(), NoBound>
    ensures answer { result ≡ rebound_answer (rebound (R.CountingRule.rule rule.now) cores (take from set.old) (drop from set.old)) }
    ensures set { set.new ≡ rebound_set (rebound (R.CountingRule.rule rule.now) cores (take from set.old) (drop from set.old)) }
    ensures bounds { Rebounded (R.CountingRule.rule rule.now) cores (take from set.old) (drop from set.old) (rebound (R.CountingRule.rule rule.now) cores (take from set.old) (drop from set.old)) }
    ensures kept { set_fits cores set.old ≡ true → Kept cores [] (take from set.old) → is_ok result ≡ true → Kept cores [] set.new }
{
    // Stays: each turn reads the tasks before the place and writes the one there, which no iterator lends together.
    for place in from..set.len() {
        let task = set[place];
        let case = task.case(&set[..place], cores);
        // Stays: a rule of the project, that a task with no bound is told in the `else` of its search.
        let Some(bound) = search(rule, &case) else {
            let level = task.task.level;
            return Err(NoBound { place, level });
        };
        set[place].bound = bound;
    }
    Ok(())
}
