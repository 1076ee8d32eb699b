//! Texts that end by their first line END.
ghost use Rattle.std.specs.Prelude.{◌≡◌, ℕ, List, IfSome, IsSomeAnd};
ghost use Rattle.kn_reply_reader.specs.ValueReplies.{IsThroughEnd};

use kn_base::text::{behind, cut};

/// The bytes through the first line END of a text, and those behind it; None where no line is END.
pub(crate) fn cut_behind_end(text: &[u8]) -> Option<(&[u8], &[u8])>
    ensures through { IfSome result (λ parts. IsThroughEnd text.now parts.0.now parts.1.now) }
    // The text is cut wherever it has such a line, and there is one way.
    ensures only { (reply rest : List ℕ) → IsThroughEnd text.now reply rest
        → IsSomeAnd result (λ parts. (parts.0.now ≡ reply) × (parts.1.now ≡ rest)) }
{
    let mut lines = text;
    'lines: loop {
        if let Some(rest) = behind(lines, b"END\n") {
            return Some(text.split_at(text.len() - rest.len()));
        }
        let Some((_line, rest)) = cut(lines, b'\n') else {
            return None;
        };
        lines = rest;
    }
}
