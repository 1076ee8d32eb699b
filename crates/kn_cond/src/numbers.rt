//! Numbers of 32 bits.
ghost use Rattle.std.specs.Prelude.{◌≡◌, ◌≤◌, ◌-◌, ℕ, neg_ℤ, pos, length, true, not, min, position, IfSome};
ghost use Rattle.std.specs.List.{list_all};
ghost use Rattle.kn_base.specs.Decimal.{is_digit, digits_value};
ghost use Rattle.kn_cond.specs.Meaning.{whole_in_range, front_digits, front_number};
ghost use Rattle.kn_cond.specs.Meaning.{holds_of_numbers, operation_of_numbers, quotient, remainder, power};
ghost use Rattle.kn_cond.specs.Results.{or_fault};

use kn_trees::{Comparison, Operation};

/// What lies beyond the numbers of 32 bits and their negatives.
const BEYOND: u64 = 2_147_483_648;

pub(crate) fn holds(sign: Comparison, a: i32, b: i32) -> bool
    ensures { result ≡ holds_of_numbers sign a b }
{
    match sign {
        Comparison::Eq => a == b,
        Comparison::Ne => a != b,
        Comparison::Lt => a < b,
        Comparison::Gt => a > b,
        Comparison::Le => a <= b,
        Comparison::Ge => a >= b,
    }
}

/// The number that an operation gives, or None where it is a fault.
pub(crate) fn operation(sign: Operation, a: i32, b: i32) -> Option<i32>
    ensures { or_fault result ≡ operation_of_numbers sign a b }
{
    match sign {
        Operation::Plus => a.checked_add(b),
        Operation::Less => a.checked_sub(b),
        Operation::Join => None,
        Operation::Times => a.checked_mul(b),
        Operation::Divide => a.checked_div(b),
        Operation::Rest => a.checked_rem(b),
        Operation::Power => power(a, b),
    }
}

fn power(base: i32, exponent: i32) -> Option<i32>
    ensures { or_fault result ≡ power base exponent }
{
    if exponent < 0 {
        None
    } else {
        base.checked_pow(exponent as u32)
    }
}

/// The negative of a number, or None where that is a fault.
pub(crate) fn negative(a: i32) -> Option<i32>
    ensures { or_fault result ≡ whole_in_range (neg_ℤ a) }
{
    a.checked_neg()
}

/// The number that a text begins with, or None where that is a fault.
pub(crate) fn front_number(text: &[u8]) -> Option<i32>
    ensures { or_fault result ≡ whole_in_range (front_number text.now) }
{
    match text.split_first() {
        Some((first, rest)) => {
            if *first == b'-' {
                below_zero(digits_number(front_digits(rest)))
            } else {
                above_zero(digits_number(front_digits(text)))
            }
        }
        None => Some(0),
    }
}

fn front_digits(text: &[u8]) -> &[u8]
    ensures { result.now ≡ front_digits text.now }
{
    match digits_end(text) {
        Some(end) => text.split_at(end).0,
        None => text,
    }
}

fn digits_end(text: &[u8]) -> Option<usize>
    ensures end { result ≡ position (λ byte. not (is_digit byte)) text.now }
    ensures within { IfSome result (λ end. end ≤ length text.now) }
{
    text.iter().position(|byte| !byte.is_ascii_digit())
}

// The number that digits spell, or one that lies beyond as well where it lies beyond all numbers of 32 bits and
// their negatives.
fn digits_number(digits: &[u8]) -> u64
    requires { list_all is_digit digits.now ≡ true }
    ensures { result ≡ min (digits_value digits.now) 2147483649 }
{
    let mut number: u64 = 0;
    for digit in digits {
        if number > BEYOND {
            return BEYOND + 1;
        }
        number = number * 10 + u64::from(*digit - b'0');
    }
    if number > BEYOND { BEYOND + 1 } else { number }
}

fn above_zero(number: u64) -> Option<i32>
    ensures { or_fault result ≡ whole_in_range (pos number) }
{
    if number < BEYOND {
        Some(number as i32)
    } else {
        None
    }
}

fn below_zero(number: u64) -> Option<i32>
    ensures { or_fault result ≡ whole_in_range (neg_ℤ (pos number)) }
{
    if number <= BEYOND {
        Some((0 - number as i64) as i32)
    } else {
        None
    }
}
