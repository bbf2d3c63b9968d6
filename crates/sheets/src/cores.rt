// A number of cores.
ghost use Rattle.std.specs.Prelude.{◌≡◌, ◌≤◌};
ghost use Rattle.sheets.specs.Lines.{cores_of};

use crate::entry::Fault;
use std::marker::Model;

/// A number of cores that a sheet may tell, 1 to 8.
#[derive(Clone, Copy, PartialEq, Eq, Debug)]
pub struct Cores {
    number: u8,
}

impl Model for Cores {
    ghost use Rattle.std.specs.Prelude.{ℕ, ◌≤◌};

    ghost Value = { ℕ };

    ghost view = { λ cores. cores.number };

    ghost invariant = { λ cores. (1 ≤ cores.number) × (cores.number ≤ 8) };

    ghost inverse = { λ n. record { number = n } };
}

impl Cores {
    /// How many they are.
    // Stays: a From would not tell the limits.
    pub fn number(self) -> u8
        ensures number { result ≡ self }
        ensures some { 1 ≤ self }
        ensures few { self ≤ 8 }
    {
        self.number
    }
}

impl TryFrom<u16> for Cores {
    type Error = Fault;

    ghost try_from_gives = { λ number r. r ≡ cores_of number };

    fn try_from(number: u16) -> Result<Cores, Fault> {
        match u8::try_from(number) {
            Ok(number) if 1 <= number && number <= 8 => Ok(Cores { number }),
            _ => Err(Fault::BadCores),
        }
    }
}
