//! Reading the numbers of a reply.
ghost use Rattle.std.specs.Prelude.{◌≡◌, ◌≤◌, ◌+◌, ◌-◌, ◌*◌, true, false, IsTrue, IfOk, IfSome, IfNone};
ghost use Rattle.kn_base.specs.Decimal.{is_digit};
ghost use Rattle.kn_follow.specs.InCode.{Gives};
ghost use Rattle.kn_follow.specs.Reading.{begins_number, digits_at, ends_number, is_between, is_next_digit, number_at};
ghost use Rattle.kn_follow.specs.declared.reply.TheConstants.{NINE_DIGITS};

use crate::reply::{NINE_DIGITS, ReadStop};

/// A number from `least` to `most`, through the byte that ends it, and what is left.
#[tactic(auto, unfolding(crate::specs::Reading::number_at))]
pub(crate) fn read_number<'a>(
    least: u32,
    most: u32,
    end: u8,
    text: &'a [u8],
) -> Result<(u32, &'a [u8]), ReadStop<'a>>
    requires { most ≤ NINE_DIGITS }
    ensures number { Gives (λ x. (x.0, x.1.now)) result (number_at least most end text.now) }
    ensures least { IfOk result (λ x. least ≤ x.0) }
    ensures most { IfOk result (λ x. x.0 ≤ most) }
{
    let Some((first, behind)) = text.split_first() else {
        return Err(ReadStop::Departs(text));
    };
    if !is_digit(*first) {
        return Err(ReadStop::Departs(text));
    }
    let digit = u32::from(*first - b'0');
    if !begins_number(least, most, u64::from(digit)) {
        return Err(ReadStop::Departs(text));
    }
    read_digits(least, most, end, digit, behind)
}

/// The rest of a number, behind digits that are those of `number`.
#[tactic(auto, using(crate::proofs::Loops::digits_short, crate::proofs::Loops::digits_end, crate::proofs::Loops::digits_next, crate::proofs::Loops::digits_other))]
fn read_digits<'a>(
    least: u32,
    most: u32,
    end: u8,
    number: u32,
    text: &'a [u8],
) -> Result<(u32, &'a [u8]), ReadStop<'a>>
    requires most { most ≤ NINE_DIGITS }
    requires number { number ≤ most }
    ensures number { Gives (λ x. (x.0, x.1.now)) result (digits_at least most end number text.now) }
    ensures least { IfOk result (λ x. least ≤ x.0) }
    ensures most { IfOk result (λ x. x.0 ≤ most) }
{
    let mut number = number;
    let mut rest = text;
    'digits: while let Some((byte, behind)) = rest.split_first() {
        if ends_number(least, most, end, number, *byte) {
            return Ok((number, behind));
        }
        number = match next_number(least, most, number, *byte) {
            Some(next) => next,
            None => return Err(ReadStop::Departs(rest)),
        };
        rest = behind;
    }
    Err(ReadStop::Departs(rest))
}

/// Whether the byte ends a number with these digits.
fn ends_number(least: u32, most: u32, end: u8, number: u32, byte: u8) -> bool
    ensures ends { result ≡ ends_number least most end number byte }
    ensures least { IsTrue result → least ≤ number }
{
    byte == end && least <= number && number <= most
}

/// The number with the byte as one more digit, if it may have it.
#[tactic(auto, using(crate::proofs::Loops::next_is_not, crate::proofs::Loops::next_follows, crate::proofs::Numerals::begins_within))]
fn next_number(least: u32, most: u32, number: u32, byte: u8) -> Option<u32>
    requires most { most ≤ NINE_DIGITS }
    requires number { number ≤ most }
    ensures some { IfSome result (λ next. is_next_digit least most number byte ≡ true) }
    ensures next { IfSome result (λ next. next ≡ number * 10 + (byte - 48)) }
    ensures most { IfSome result (λ next. next ≤ most) }
    ensures none { IfNone result (is_next_digit least most number byte ≡ false) }
{
    if number == 0 || !is_digit(byte) {
        return None;
    }
    let next = u64::from(number) * 10 + u64::from(byte - b'0');
    if begins_number(least, most, next) {
        Some(next as u32)
    } else {
        None
    }
}

fn is_digit(byte: u8) -> bool
    ensures { result ≡ is_digit byte }
{
    b'0' <= byte && byte <= b'9'
}

/// Whether the digits of this number, with at most eight digits behind them, are a number from `least` to `most`.
#[tactic(auto, using(crate::proofs::Loops::begins_found, crate::proofs::Loops::begins_zero, crate::proofs::Loops::begins_more, crate::proofs::Loops::begins_last, crate::proofs::Numerals::begins_within))]
fn begins_number(least: u32, most: u32, number: u64) -> bool
    ensures begins { result ≡ begins_number 8 least most number }
    ensures within { IsTrue result → number ≤ most }
{
    let mut least = u64::from(least);
    let mut most = u64::from(most);
    for _ in 0..8_u32 {
        if is_between(least, most, number) {
            return true;
        }
        if number == 0 {
            return false;
        }
        least /= 10;
        most /= 10;
    }
    is_between(least, most, number)
}

fn is_between(least: u64, most: u64, number: u64) -> bool
    ensures { result ≡ is_between least most number }
{
    least <= number && number <= most
}
