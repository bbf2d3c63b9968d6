// The whole answer to a sheet.
ghost use Rattle.std.specs.Prelude.{◌≡◌, IfOk};
ghost use Rattle.reports.specs.Answers.{Answers, Faulty, Planned};
ghost use Rattle.sheets.specs.Outcomes.{page_of};
ghost use Rattle.sheets.specs.Reading.{read_text};

use crate::reply::Answer;
use crate::report::report;
use plans::plan::plan;
use rules::deadline::DeadlineRule;
use sheets::line_fault::LineFault;
use sheets::reading::{ReadError, Sheet, read};
use std::alloc::{AllocError, Global};

// The answer to a sheet that was read.
fn planned(heap: Global, sheet: &Sheet) -> Result<Answer, AllocError>
    ensures { IfOk result (λ a. Planned (page_of sheet.now) a) }
{
    let cores = sheet.cores.number();
    let plan = plan(heap, &DeadlineRule, cores, sheet.tasks.as_slice())?;
    let out = report(heap, cores, sheet.rule, &plan)?;
    let accepted = plan.verdict.is_ok();
    let err = String::new(heap);
    Ok(Answer { out, err, accepted })
}

// The answer to a sheet with a line at fault.
fn faulty(heap: Global, fault: LineFault) -> Result<Answer, AllocError>
    ensures { IfOk result (λ a. Faulty fault.number fault.fault a) }
{
    let err = format!(in heap; "{fault}\n")?;
    let out = String::new(heap);
    let accepted = false;
    Ok(Answer { out, err, accepted })
}

/// The answer to the text of a sheet: the report on its tasks, or the first line at fault.
pub fn answer(heap: Global, text: &str) -> Result<Answer, AllocError>
    ensures { IfOk result (λ a. Answers (read_text text.now) a) }
{
    match read(heap, text) {
        Ok(sheet) => planned(heap, &sheet),
        Err(ReadError::Memory) => Err(AllocError),
        Err(ReadError::Line(fault)) => faulty(heap, fault),
    }
}
