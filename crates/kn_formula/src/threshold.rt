//! The thresholds of a formula as it is written.
ghost use Rattle.std.specs.Prelude.{◌≡◌, slice_index};
ghost use Rattle.kn_formula.specs.Trees.{need_of, is_bad_rule, has_bad_threshold};

use crate::written::{Rule, Written};
use kn_base::digits_within;

fn first_byte(text: &[u8]) -> u8
    ensures { result ≡ slice_index text.now 0 }
{
    if text.is_empty() { 0 } else { text[0] }
}

/// The number of a threshold by its digits, or 0 where it isn't one that a threshold may have.
#[tactic(auto, unfolding(crate::specs::Trees::need_of))]
pub(crate) fn need_of(digits: &[u8]) -> u32
    ensures { result ≡ need_of digits.now }
{
    if first_byte(digits) == b'0' {
        return 0;
    }
    digits_within(u32::MAX, digits).unwrap_or(0)
}

/// Whether so many parts are no list for a rule.
fn is_bad_rule(rule: Rule, count: u32) -> bool
    ensures { result ≡ is_bad_rule rule count }
{
    match rule {
        Rule::All => false,
        Rule::Any => false,
        Rule::AtLeast(need) => need == 0 || need > count,
    }
}

/// Whether a threshold somewhere in a formula is 0, begins with the digit 0 or is above the length of its list.
pub(crate) fn has_bad_threshold(written: &Written) -> bool
    ensures { result ≡ has_bad_threshold written.now }
{
    match written {
        Written::Who(_) => false,
        Written::Several { rule, parts } => {
            for part in parts.as_slice() {
                if has_bad_threshold(part) {
                    return true;
                }
            }
            is_bad_rule(*rule, parts.len())
        }
    }
}
