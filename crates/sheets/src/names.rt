// The names of rules.
ghost use Rattle.std.specs.Prelude.{◌≡◌};
ghost use Rattle.sheets.specs.Names.{rule_named};

use rules::standard_rule::StandardRule;

/// The rule of this name: response, deadline or all-carry.
pub fn rule_named(word: &str) -> Option<StandardRule>
    ensures { result ≡ rule_named word.now }
{
    word.parse().ok()
}
