// A text, cut into lines and words.
ghost use Rattle.std.specs.Prelude.{◌≡◌, IfOk};
ghost use Rattle.sheets.specs.Words.{texts, lines, words};

use std::alloc::{AllocError, Global};

/// The lines of a text: what stands between its line feeds.
pub fn lines_of<'a>(heap: Global, text: &'a str) -> Result<Vec<&'a str>, AllocError>
    ensures { IfOk result (λ v. texts v.items ≡ lines text.now) }
{
    text.split('\n').collect(heap)
}

/// The words of a line: what stands between its spaces, where that is not empty.
pub fn words_of<'a>(heap: Global, line: &'a str) -> Result<Vec<&'a str>, AllocError>
    ensures { IfOk result (λ v. texts v.items ≡ words line.now) }
{
    line.split(' ')
        .filter(|word| !word.is_empty())
        .collect(heap)
}
