// Reading a whole sheet.
ghost use Rattle.std.specs.Prelude.{◌≡◌};
ghost use Rattle.sheets.specs.Outcomes.{Read};
ghost use Rattle.sheets.specs.declared.reading.ReadError.TheVariants.{Memory, Line};

use crate::cores::Cores;
use crate::draft::Draft;
use crate::entry::Rule;
use crate::line_fault::LineFault;
use crate::words::lines_of;
use analysis::task::Task;
use std::alloc::{AllocError, AllocFailed, Global};

/// What a sheet says: the cores, the rule and the tasks in their order.
#[derive(Drop)]
pub struct Sheet {
    pub cores: Cores,
    pub rule: Rule,
    pub tasks: Vec<Task>,
}

/// Why a sheet was not read.
// Stays: no plainer as an enum of memory or any error, whose `From` for that error would overlap with those for memory.
#[derive(Clone, Copy, PartialEq, Eq, Debug)]
pub enum ReadError {
    /// There was no memory for it.
    Memory,
    /// What is wrong, and with which line.
    Line(LineFault),
}

// Stays: no plainer, since the library has two errors for want of memory, and an impl converts one of them.
impl From<AllocError> for ReadError {
    ghost from_gives = { λ _ r. r ≡ Memory };

    fn from(_e: AllocError) -> ReadError {
        ReadError::Memory
    }
}

impl<T: Drop> From<AllocFailed<T>> for ReadError {
    ghost from_gives = { λ _ r. r ≡ Memory };

    fn from(_e: AllocFailed<T>) -> ReadError {
        ReadError::Memory
    }
}

impl From<LineFault> for ReadError {
    ghost from_gives = { λ fault r. r ≡ Line fault };

    fn from(fault: LineFault) -> ReadError {
        ReadError::Line(fault)
    }
}

/// Reads a sheet: each line can be read, one tells the cores, one the rule, and the others the tasks.
pub fn read(heap: Global, text: &str) -> Result<Sheet, ReadError>
    ensures { Read text.now result }
{
    let lines = lines_of(heap, text)?;
    let mut draft = Draft::new(heap);
    for (i, line) in lines.iter().enumerate() {
        draft.enter(heap, i + 1, line)?;
    }
    Ok(draft.finish(lines.len())?)
}
