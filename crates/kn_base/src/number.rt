//! Numbers in decimal digits.
ghost use Rattle.std.specs.Prelude.{◌≡◌, ◌≤◌, ◌-◌, true, false, length, IfSome, IfNone, if◌then◌else◌};
ghost use Rattle.std.specs.List.{list_all};
ghost use Rattle.kn_base.specs.Decimal.{decimal_of, digits_value, digits_within, has_decimal_form, is_digit};

/// The number that decimal digits spell: one to nine digits without a leading zero, or the text `0`;
/// else None. The form is keynoted's own.
pub fn decimal(text: &[u8]) -> Option<u32>
    ensures { result ≡ decimal_of text.now }
{
    if has_form(text) {
        digits_number(text)
    } else {
        None
    }
}

fn has_form(text: &[u8]) -> bool
    ensures form { result ≡ has_decimal_form text.now }
    ensures short { result ≡ true → length text.now ≤ 9 }
{
    !text.is_empty() && text.len() <= 9 && (text.len() == 1 || text[0] != b'0')
}

fn digits_number(text: &[u8]) -> Option<u32>
    requires { length text.now ≤ 9 }
    ensures { result ≡ (if list_all is_digit text.now then Some (digits_value text.now) else None) }
{
    let mut number: u32 = 0;
    for byte in text {
        match digit(*byte) {
            Some(value) => number = number * 10 + value as u32,
            None => return None,
        }
    }
    Some(number)
}

fn digit(byte: u8) -> Option<u8>
    ensures some { IfSome result (λ value. (is_digit byte ≡ true) × (value ≡ byte - 48) × (value ≤ 9)) }
    ensures none { IfNone result (is_digit byte ≡ false) }
{
    if byte >= b'0' && byte <= b'9' {
        Some(byte - b'0')
    } else {
        None
    }
}

/// The number that digits spell, or None above a limit. A byte below the digit 0 counts as that digit.
pub fn digits_within(limit: u32, digits: &[u8]) -> Option<u32>
    ensures { result ≡ digits_within limit digits.now }
{
    let mut value: u64 = 0;
    for byte in digits {
        value = value * 10 + u64::from(byte.saturating_sub(b'0'));
        if value > u64::from(limit) {
            return None;
        }
    }
    Some(value as u32)
}
