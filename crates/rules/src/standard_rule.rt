// The names of the three rules.
ghost use Rattle.std.specs.Prelude.{◌≡◌};
ghost use Rattle.rules.specs.Standard.{rule_named};

use std::str::FromStr;

/// One of the three rules, for a rule that is chosen at run time.
#[derive(Clone, Copy, PartialEq, Eq, Debug)]
pub enum StandardRule {
    Response,
    Deadline,
    AllCarry,
}

/// That no rule has the name.
#[derive(Clone, Copy, PartialEq, Eq, Debug)]
pub struct UnknownRule;

impl FromStr for StandardRule {
    type Err = UnknownRule;

    ghost from_str_gives = { λ text r. r ≡ rule_named text };

    fn from_str(name: &str) -> Result<StandardRule, UnknownRule> {
        match name {
            "response" => Ok(StandardRule::Response),
            "deadline" => Ok(StandardRule::Deadline),
            "all-carry" => Ok(StandardRule::AllCarry),
            _ => Err(UnknownRule),
        }
    }
}
