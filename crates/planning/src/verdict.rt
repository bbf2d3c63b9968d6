// What the check of a task set answers.
ghost use Rattle.std.specs.Prelude.{Some};
ghost use Rattle.planning.specs.Texts.{row_text};

use crate::refusal::Refusal;
use analysis::task::Task;
use std::fmt;

/// A task that passed: its total at its bound, and the bound.
#[derive(Clone, Copy, PartialEq, Eq, Debug)]
pub struct Row {
    pub task: Task,
    pub total: u32,
    pub bound: u16,
}

// Level, C, D, T, total and bound, under the columns of a report.
impl fmt::Display for Row {
    ghost output = { λ row. Some (row_text row) };

    fn fmt<W: fmt::Write>(&self, f: &mut fmt::Formatter<W>) -> fmt::Result {
        let Row { task, total, bound } = *self;
        let Task {
            level,
            run,
            deadline,
            gap,
        } = task;
        write!(
            f,
            "{level:>5}{run:>6}{deadline:>6}{gap:>6}{total:>7}{bound:>6}"
        )
    }
}

/// Whether a task set fits, and if not, why.
pub type Verdict = Result<(), Refusal>;

/// The rows of the tasks that passed, most urgent first, and the verdict on the whole set.
#[derive(Drop)]
pub struct Plan {
    pub rows: Vec<Row>,
    pub verdict: Verdict,
}
