// The text of the answer.
ghost use Rattle.std.specs.Prelude.{◌≡◌, ◌++◌, IfOk, string_bytes};
ghost use Rattle.std.specs.List.{flat_map};
ghost use Rattle.planning.specs.Texts.{row_text};
ghost use Rattle.reports.specs.Report.{heading_text, verdict_text, line_feed, report_text};

use planning::verdict::{Plan, Row, Verdict};
use sheets::entry::Rule;
use std::alloc::{AllocError, Global};

// Stays: cores and rule are two values of a sheet, and a type of the two would be made for this line alone.
/// The cores and the rule, as `2 cores, deadline rule`.
pub fn heading(heap: Global, cores: u8, rule: Rule) -> Result<String, AllocError>
    ensures { IfOk result (λ s. string_bytes s ≡ heading_text cores rule) }
{
    format!(in heap; "{cores} cores, {rule} rule")
}

/// A task that passed: level, C, D, T, total and bound, under the columns.
pub fn row_line(heap: Global, row: &Row) -> Result<String, AllocError>
    ensures { IfOk result (λ s. string_bytes s ≡ row_text row.now) }
{
    format!(in heap; "{row}")
}

// Stays: a Result has no Display of its own, and a type made for one would only be a verdict again.
/// The verdict on a task set: accepted, or the number of the refusal and the reason.
pub fn verdict_line(heap: Global, verdict: &Verdict) -> Result<String, AllocError>
    ensures { IfOk result (λ s. string_bytes s ≡ verdict_text verdict.now) }
{
    match verdict {
        Ok(()) => String::from_str(heap, "accepted"),
        Err(refusal) => {
            let number = refusal.number();
            format!(in heap; "refused {number}: {refusal}")
        }
    }
}

// A line for each row.
fn row_lines(heap: Global, rows: &[Row]) -> Result<String, AllocError>
    ensures { IfOk result (λ s. string_bytes s ≡ flat_map (λ x. row_text x ++ line_feed) rows.now) }
{
    let mut text = String::new(heap);
    for row in rows {
        writeln!(text, "{row}")?;
    }
    Ok(text)
}

/// The whole answer: the heading, the columns with a line for each row, and the verdict.
pub fn report(heap: Global, cores: u8, rule: Rule, plan: &Plan) -> Result<String, AllocError>
    ensures { IfOk result (λ s. string_bytes s ≡ report_text cores rule plan.now.rows.items plan.now.verdict) }
{
    let heading = heading(heap, cores, rule)?;
    let rows = row_lines(heap, &plan.rows)?;
    let verdict = verdict_line(heap, &plan.verdict)?;
    format!(in heap; "{heading}\nlevel     C     D     T  total bound\n{rows}{verdict}\n")
}
