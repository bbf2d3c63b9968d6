// What one line of a sheet can say, and what can be wrong with it.
ghost use Rattle.std.specs.Prelude.{◌≡◌, Some};
ghost use Rattle.sheets.specs.Lines.{rule_of};
ghost use Rattle.sheets.specs.Texts.{rule_name, fault_words};

use crate::cores::Cores;
use crate::line_fault::LineFault;
use analysis::task::Task;
use std::fmt;
use std::str::FromStr;

/// The rule by which a task set is checked.
// Stays: `StandardRule` has rules that no sheet may name, and a type that holds them would say more than was read.
#[derive(Clone, Copy, PartialEq, Eq, Debug)]
pub enum Rule {
    Deadline,
}

impl FromStr for Rule {
    type Err = Fault;

    ghost from_str_gives = { λ text r. r ≡ rule_of text };

    fn from_str(name: &str) -> Result<Rule, Fault> {
        match name {
            "deadline" => Ok(Rule::Deadline),
            _ => Err(Fault::UnknownRule),
        }
    }
}

impl fmt::Display for Rule {
    ghost output = { λ rule. Some (rule_name rule) };

    fn fmt<W: fmt::Write>(&self, f: &mut fmt::Formatter<W>) -> fmt::Result {
        f.write_str(match self {
            Rule::Deadline => "deadline",
        })
    }
}

/// What a line says.
#[derive(Clone, Copy, PartialEq, Eq, Debug)]
pub enum Entry {
    /// Nothing: a blank line or a comment.
    Blank,
    Cores(Cores),
    Rule(Rule),
    Task(Task),
}

/// What is wrong with a line.
#[derive(Clone, Copy, PartialEq, Eq, Debug)]
pub enum Fault {
    UnknownWord,
    MissingWord,
    ExtraWord,
    NotNumber,
    /// A number that does not fit its field of 16 bits.
    TooLarge,
    /// A number of cores outside 1 to 8.
    BadCores,
    UnknownRule,
    /// A second line that tells the cores.
    CoresTwice,
    /// A second line that tells the rule.
    RuleTwice,
    /// No line told the cores.
    NoCores,
    /// No line told the rule.
    NoRule,
}

impl fmt::Display for Fault {
    ghost output = { λ fault. Some (fault_words fault) };

    fn fmt<W: fmt::Write>(&self, f: &mut fmt::Formatter<W>) -> fmt::Result {
        f.write_str(match self {
            Fault::UnknownWord => "unknown word",
            Fault::MissingWord => "a word is missing",
            Fault::ExtraWord => "a word too many",
            Fault::NotNumber => "not a number",
            Fault::TooLarge => "number too large",
            Fault::BadCores => "cores are 1 to 8",
            Fault::UnknownRule => "unknown rule",
            Fault::CoresTwice => "a second cores line",
            Fault::RuleTwice => "a second rule line",
            Fault::NoCores => "no cores line",
            Fault::NoRule => "no rule line",
        })
    }
}

impl Fault {
    // The fault, of the line of this number.
    pub(crate) fn at(self, number: usize) -> LineFault
        ensures number { result.number ≡ number }
        ensures fault { result.fault ≡ self }
    {
        LineFault {
            number,
            fault: self,
        }
    }
}
