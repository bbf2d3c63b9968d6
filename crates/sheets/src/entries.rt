// What the words of a line say.
ghost use Rattle.std.specs.Prelude.{◌≡◌, IfOk};
ghost use Rattle.sheets.specs.Lines.{OnlyWord, cores_entry, rule_entry, task_entry, words_entry, line_entry};
ghost use Rattle.sheets.specs.Words.{texts};

use crate::cores::Cores;
use crate::entry::{Entry, Fault};
use crate::numbers::number;
use crate::words::words_of;
use analysis::task::Task;
use std::alloc::{AllocError, Global};

// The word, if it is just one.
fn only_word<'a>(words: &[&'a str]) -> Result<&'a str, Fault>
    ensures { OnlyWord (texts words.now) result }
{
    match words {
        [] => Err(Fault::MissingWord),
        [word] => Ok(*word),
        _ => Err(Fault::ExtraWord),
    }
}

// The number of cores, 1 to 8.
fn cores_entry(words: &[&str]) -> Result<Entry, Fault>
    ensures { result ≡ cores_entry (texts words.now) }
{
    let number = number(only_word(words)?)?;
    Ok(Entry::Cores(Cores::try_from(number)?))
}

// The name of a rule.
fn rule_entry(words: &[&str]) -> Result<Entry, Fault>
    ensures { result ≡ rule_entry (texts words.now) }
{
    Ok(Entry::Rule(only_word(words)?.parse()?))
}

// Level, C, D and T.
fn task_entry(words: &[&str]) -> Result<Entry, Fault>
    ensures { result ≡ task_entry (texts words.now) }
{
    match words {
        [level, run, deadline, gap] => {
            let level = number(level)?;
            let run = number(run)?;
            let deadline = number(deadline)?;
            let gap = number(gap)?;
            Ok(Entry::Task(Task {
                level,
                run,
                deadline,
                gap,
            }))
        }
        _ if words.len() < 4 => Err(Fault::MissingWord),
        _ => Err(Fault::ExtraWord),
    }
}

/// What a line of these words says.
pub fn entry_of(words: &[&str]) -> Result<Entry, Fault>
    ensures { result ≡ words_entry (texts words.now) }
{
    match words {
        [] => Ok(Entry::Blank),
        ["cores", rest @ ..] => cores_entry(rest),
        ["rule", rest @ ..] => rule_entry(rest),
        ["task", rest @ ..] => task_entry(rest),
        _ => Err(Fault::UnknownWord),
    }
}

/// What a line says. One that begins with # says nothing.
// Stays: no plainer in one error enum, which the caller would take apart again: it hands on the one, and gives a line to the other.
pub fn line_entry(heap: Global, line: &str) -> Result<Result<Entry, Fault>, AllocError>
    ensures { IfOk result (λ e. e ≡ line_entry line.now) }
{
    if line.starts_with('#') {
        return Ok(Ok(Entry::Blank));
    }
    let words = words_of(heap, line)?;
    Ok(entry_of(&words))
}
