// A sheet that is read in part: what its first lines say.
ghost use Rattle.std.specs.Prelude.{◌≡◌, ℕ, List, []};
ghost use Rattle.sheets.specs.Drafts.{ToldOnce, Put, Holds, Entered, Finished};

use crate::cores::Cores;
use crate::entries::line_entry;
use crate::entry::{Entry, Fault, Rule};
use crate::line_fault::LineFault;
use crate::reading::{ReadError, Sheet};
use analysis::task::Task;
use std::alloc::Global;

// Stores what a line tells, unless an earlier line told it.
fn tell_once<T: Copy>(told: &mut Option<T>, value: T, twice: LineFault) -> Result<(), LineFault>
    ensures { ToldOnce told.old value twice told.new result }
{
    if told.is_some() {
        return Err(twice);
    }
    *told = Some(value);
    Ok(())
}

#[derive(Drop)]
pub(crate) struct Draft {
    cores: Option<Cores>,
    rule: Option<Rule>,
    tasks: Vec<Task>,
}

impl Draft {
    // What no line says.
    pub(crate) fn new(heap: Global) -> Draft
        ensures { Holds result [] }
    {
        Draft {
            cores: None,
            rule: None,
            tasks: Vec::new(heap),
        }
    }

    // Takes in what the line of this number says.
    fn put(&mut self, number: usize, entry: Entry) -> Result<(), ReadError>
        ensures { Put self.old number entry self.new result }
    {
        match entry {
            Entry::Blank => {}
            Entry::Cores(cores) => {
                tell_once(&mut self.cores, cores, Fault::CoresTwice.at(number))?
            }
            Entry::Rule(rule) => tell_once(&mut self.rule, rule, Fault::RuleTwice.at(number))?,
            Entry::Task(task) => self.tasks.push(task)?,
        }
        Ok(())
    }

    // Takes in one more line.
    pub(crate) fn enter(&mut self, heap: Global, number: usize, line: &str) -> Result<(), ReadError>
        ensures { (before : List (List ℕ)) → Holds self.old before → Entered before number line.now self.new result }
    {
        let entry = line_entry(heap, line)?.map_err(|fault| fault.at(number))?;
        self.put(number, entry)
    }

    // The sheet, after all its lines, `number` of them.
    pub(crate) fn finish(self, number: usize) -> Result<Sheet, LineFault>
        ensures { Finished number self result }
    {
        let Draft { cores, rule, tasks } = self;
        let cores = cores.ok_or(Fault::NoCores.at(number))?;
        let rule = rule.ok_or(Fault::NoRule.at(number))?;
        Ok(Sheet { cores, rule, tasks })
    }
}
