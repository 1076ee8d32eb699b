//! Cutting texts at a byte.
ghost use Rattle.std.specs.Prelude.{◌≡◌, ◌≤◌, ◌==◌, length, option_map};
ghost use Rattle.std.specs.List.{before_first, position_or_len};
ghost use Rattle.kn_wire.specs.Requests.{behind_space, is_space, number_after, number_and_rest, without_return};

use kn_base::decimal;

/// The place of the first byte `wanted`, or the length of the text where there is none, if it isn't among the first
/// `searched` bytes.
pub(crate) fn place_of(wanted: u8, text: &[u8], searched: usize) -> usize
    requires { searched ≤ position_or_len (λ byte. byte == wanted) text.now }
    ensures place { result ≡ position_or_len (λ byte. byte == wanted) text.now }
    ensures within { result ≤ length text.now }
{
    let mut at = searched;
    while at < text.len() && text[at] != wanted {
        at += 1;
    }
    at
}

/// The bytes before the first space, and those behind it, if there is one.
#[tactic(auto, using(crate::proofs::Splits::behind_first, crate::proofs::Splits::behind_none))]
pub(crate) fn split_word(text: &[u8]) -> (&[u8], Option<&[u8]>)
    ensures word { result.0.now ≡ before_first is_space text.now }
    ensures rest { option_map (λ behind. behind.now) result.1 ≡ behind_space text.now }
{
    let at = place_of(b' ', text, 0);
    let word = text.split_at(at).0;
    if at == text.len() {
        (word, None)
    } else {
        (word, Some(text.split_at(at + 1).1))
    }
}

/// A line without a carriage return at its end.
pub(crate) fn without_return(line: &[u8]) -> &[u8]
    ensures { result.now ≡ without_return line.now }
{
    match line.strip_suffix(b"\r") {
        Some(bare) => bare,
        None => line,
    }
}

/// The number before the first space, and what follows the space.
pub(crate) fn split_number(text: &[u8]) -> Option<(u32, &[u8])>
    ensures { option_map (λ parts. (parts.0, parts.1.now)) result ≡ number_and_rest text.now }
{
    let (word, rest) = split_word(text);
    let rest = rest?;
    let number = decimal(word)?;
    Some((number, rest))
}

/// The number that stands behind this letter.
pub(crate) fn number_behind(letter: u8, text: &[u8]) -> Option<u32>
    ensures { result ≡ number_after letter text.now }
{
    let (first, rest) = text.split_first()?;
    if *first != letter {
        return None;
    }
    decimal(rest)
}
