// What is wrong with a sheet.
ghost use Rattle.std.specs.Prelude.{Some};
ghost use Rattle.sheets.specs.Texts.{fault_text};

use crate::entry::Fault;
use std::fmt;

/// What is wrong with a line, counted from 1. It is shown as `line 3: not a number`.
#[derive(Clone, Copy, PartialEq, Eq, Debug)]
pub struct LineFault {
    pub number: usize,
    pub fault: Fault,
}

impl fmt::Display for LineFault {
    ghost output = { λ line. Some (fault_text line.number line.fault) };

    fn fmt<W: fmt::Write>(&self, f: &mut fmt::Formatter<W>) -> fmt::Result {
        let number = self.number;
        let fault = self.fault;
        write!(f, "line {number}: {fault}")
    }
}
