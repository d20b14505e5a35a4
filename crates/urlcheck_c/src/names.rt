//! The version of the library, and the rules by their numbers.
ghost use Rattle.std.specs.Prelude.{◌≡◌, ◌==◌, find};
ghost use Rattle.uv_model.specs.Violations.Rule.{rule_number};
ghost use Rattle.urlcheck_c.specs.Names.{rule_with_number};

use uv_model::Rule;

/// The version of the library, 0.5.0, as 10000 times its first number, 100 times its second and its third.
#[unsafe(no_mangle)]
pub extern "C" fn urlcheck_version() -> u32
    ensures { result ≡ 500 }
{
    500
}

/// The rule with this number.
pub(crate) fn rule_of(number: u32) -> Option<Rule>
    ensures { result ≡ rule_with_number number }
{
    numbered(Rule::in_order().as_slice(), number)
}

// The first of the rules with this number.
fn numbered(rules: &[Rule], number: u32) -> Option<Rule>
    ensures { result ≡ find (λ rule. rule_number rule == number) rules.now }
{
    rules
        .iter()
        .find(|rule| u32::from(rule.number()) == number)
        .copied()
}
