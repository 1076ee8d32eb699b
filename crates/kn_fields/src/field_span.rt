//! Where a field stands among the tokens.
ghost use Rattle.std.specs.Prelude.{◌≡◌, slice_get, option_map};

use kn_lex::Tokens;

/// Where a field stands among the tokens of a text, counted from 0.
#[derive(Clone, Copy, PartialEq, Eq, Default)]
pub struct FieldSpan {
    /// Its label; its tokens begin behind it.
    pub label: u32,
    /// Where its tokens end: the place of the next label, or the number of tokens.
    pub end: u32,
}

/// The place in the text of the label of a field.
pub(crate) fn label_start(tokens: &Tokens<'_>, part: FieldSpan) -> Option<u32>
    ensures { result ≡ option_map (λ label. label.span.start) (slice_get tokens.now part.label) }
{
    match tokens.get(part.label) {
        Some(label) => Some(label.span.start),
        None => None,
    }
}
