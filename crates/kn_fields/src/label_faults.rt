//! Labels and lines that are wrong by the tokens before them.
ghost use Rattle.std.specs.Prelude.{◌≡◌, ◌≤◌, ◌==◌, None, false, List, [], ◌∷◌, length, take, is_none};
ghost use Rattle.std.specs.List.{list_any};
ghost use Rattle.kn_lex.specs.Cutting.{TokenView};
ghost use Rattle.kn_lex.specs.TokenViews.{token_view};
ghost use Rattle.kn_fields.specs.Fields.{is_this, between};
ghost use Rattle.kn_fields.specs.Faults.{is_bad_field};
ghost use Rattle.kn_fields.specs.Scanning.{is_wrong, first_place, order_place, AreNumbered};

use crate::field_span::label_start;
use crate::heading::{Heading, LabelledTokens};
use crate::label::{SIGNATURE, VERSION, field_of};
use kn_lex::{Token, Tokens};

/// How a label can be wrong by those before it.
#[derive(Clone, Copy)]
pub enum Wrong {
    /// The label of a field that stood before.
    Second,
    /// The label of a version that isn't the first field.
    LateVersion,
    /// A label behind that of a signature.
    BehindSignature,
}

fn stands_among(headings: &[Heading], number: u8) -> bool
    ensures { result ≡ list_any (λ heading. is_this number heading.number) headings.now }
{
    headings.iter().any(|heading| heading.is_of(number))
}

/// Whether a label is wrong behind others.
#[tactic(auto, using(crate::proofs::Headings::numbered))]
fn is_wrong(wrong: Wrong, before: &[Heading], heading: &Heading) -> bool
    ensures { (labels : List TokenView) (label : TokenView)
        → AreNumbered labels before.now → AreNumbered (label ∷ []) (heading.now ∷ [])
        → result ≡ is_wrong wrong labels label }
{
    match wrong {
        Wrong::Second => match heading.number {
            Some(number) => stands_among(before, number),
            None => false,
        },
        Wrong::LateVersion => heading.is_of(VERSION) && !before.is_empty(),
        Wrong::BehindSignature => stands_among(before, SIGNATURE),
    }
}

/// The place of the first label that is wrong.
pub(crate) fn wrong_place(wrong: Wrong, tokens: &LabelledTokens<'_>) -> Option<u32>
    ensures { result ≡ first_place (is_wrong wrong) [] tokens.now }
{
    let headings = tokens.headings();
    for (i, heading) in headings.iter().enumerate() {
        if is_wrong(wrong, &headings[..i], heading) {
            return label_start(tokens.tokens(), heading.part);
        }
    }
    None
}

/// The place of the first label that stands out of order.
pub(crate) fn order_place(tokens: &LabelledTokens<'_>) -> Option<u32>
    ensures { result ≡ order_place tokens.now }
{
    match wrong_place(Wrong::LateVersion, tokens) {
        Some(at) => Some(at),
        None => wrong_place(Wrong::BehindSignature, tokens),
    }
}

fn begins_with_label(headings: &[Heading]) -> bool
    ensures { result ≡ list_any (λ heading. heading.part.label == 0) (take 1 headings.now) }
{
    match headings.get(0) {
        Some(heading) => heading.part.label == 0,
        None => false,
    }
}

/// Whether a token may stand where a label of a field must. None does where the text begins with a label, no token
/// but a label begins a line, and each label is one of a field.
fn may_have_bad_field(tokens: &LabelledTokens<'_>) -> bool
    ensures { result ≡ false → first_place is_bad_field [] tokens.now ≡ None }
{
    let headings = tokens.headings();
    tokens.has_stray() || !begins_with_label(headings) || has_unknown_label(headings)
}

fn has_unknown_label(headings: &[Heading]) -> bool
    ensures { result ≡ list_any (λ heading. is_none heading.number) headings.now }
{
    headings.iter().any(|heading| heading.number.is_none())
}

/// Whether a token stands where a label must, as the first one or at the beginning of a line, and is none of a field.
#[tactic(auto, using(crate::proofs::Between::between_length))]
fn is_bad_field(tokens: &Tokens<'_>, at: u32, token: &Token<'_>) -> bool
    requires { at ≤ length tokens.now }
    ensures { result ≡ is_bad_field (between 0 at tokens.now) (token_view token.now) }
{
    (at == 0 || token.first) && field_of(token).is_none()
}

/// The place of the first token that stands where a label of a field must.
#[tactic(auto, using(crate::proofs::Between::steps), unfolding(crate::specs::Scanning::first_place))]
pub(crate) fn bad_field_place(tokens: &LabelledTokens<'_>) -> Option<u32>
    ensures { result ≡ first_place is_bad_field [] tokens.now }
{
    if !may_have_bad_field(tokens) {
        return None;
    }
    let tokens = tokens.tokens();
    for i in 0..tokens.len() {
        if let Some(token) = tokens.get(i) {
            if is_bad_field(tokens, i, token) {
                return Some(token.span.start);
            }
        }
    }
    None
}
