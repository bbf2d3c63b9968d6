// Numbers in a sheet: digits alone.
ghost use Rattle.std.specs.Prelude.{◌≡◌, ◌&&◌};
ghost use Rattle.std.specs.Str.{all_ascii_digits};
ghost use Rattle.sheets.specs.Lines.{number_of};
ghost use Rattle.sheets.specs.Words.{filled};

use crate::entry::Fault;

// Whether a word is digits alone, and at least one.
fn only_digits(word: &str) -> bool
    ensures { result ≡ (filled word.now && all_ascii_digits word.now) }
{
    !word.is_empty() && word.as_bytes().iter().all(u8::is_ascii_digit)
}

/// The number that a word writes, if it is digits alone and fits 16 bits.
pub fn number(word: &str) -> Result<u16, Fault>
    ensures { result ≡ number_of word.now }
{
    if !only_digits(word) {
        return Err(Fault::NotNumber);
    }
    word.parse().map_err(|_| Fault::TooLarge)
}
