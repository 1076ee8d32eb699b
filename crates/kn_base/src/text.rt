//! Texts cut at a front, or at a byte.
ghost use Rattle.std.specs.Prelude.{◌≡◌, ◌≢◌, ◌==◌, ◌∷◌, ◌++◌, ℕ, List, false, MatchOption, IfSome};
ghost use Rattle.std.specs.List.{list_any};

/// What stands behind the front of a text; None where the text doesn't begin so.
pub fn behind<'a>(text: &'a [u8], front: &[u8]) -> Option<&'a [u8]>
    ensures { MatchOption result
        ((rest : List ℕ) → text.now ≢ front.now ++ rest)
        (λ rest. text.now ≡ front.now ++ rest.now) }
{
    text.strip_prefix(front)
}

/// The bytes before the first byte `at`, and those behind it; None where there is no such byte.
pub fn cut(text: &[u8], at: u8) -> Option<(&[u8], &[u8])>
    ensures cut { MatchOption result
        (list_any (λ b. b == at) text.now ≡ false)
        (λ parts. text.now ≡ parts.0.now ++ at ∷ parts.1.now) }
    ensures first { IfSome result (λ parts. list_any (λ b. b == at) parts.0.now ≡ false) }
{
    for (place, byte) in text.iter().enumerate() {
        if *byte == at {
            return Some((text.split_at(place).0, text.split_at(place + 1).1));
        }
    }
    None
}
