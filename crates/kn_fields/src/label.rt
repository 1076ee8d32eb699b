//! Which field a label names.
ghost use Rattle.std.specs.Prelude.{◌≡◌};
ghost use Rattle.kn_lex.specs.TokenViews.{token_view};
ghost use Rattle.kn_fields.specs.Fields.{field_number, is_label, field_of};

use kn_lex::{Sort, Token};

/// The number of the field whose label is `Authorizer:`.
pub const AUTHORIZER: u8 = 1;

/// The number of the field whose label is `Comment:`.
pub(crate) const COMMENT: u8 = 2;

/// The number of the field whose label is `Conditions:`.
pub const CONDITIONS: u8 = 3;

/// The number of the field whose label is `KeyNote-Version:`.
pub(crate) const VERSION: u8 = 4;

/// The number of the field whose label is `Licensees:`.
pub const LICENSEES: u8 = 5;

/// The number of the field whose label is `Local-Constants:`.
pub(crate) const LOCAL_CONSTANTS: u8 = 6;

/// The number of the field whose label is `Signature:`.
pub const SIGNATURE: u8 = 7;

/// The number of the field that a label names.
fn field_number(label: &[u8]) -> Option<u8>
    ensures { result ≡ field_number label.now }
{
    if label.eq_ignore_ascii_case(b"Authorizer:".as_slice()) {
        Some(AUTHORIZER)
    } else if label.eq_ignore_ascii_case(b"Comment:".as_slice()) {
        Some(COMMENT)
    } else if label.eq_ignore_ascii_case(b"Conditions:".as_slice()) {
        Some(CONDITIONS)
    } else if label.eq_ignore_ascii_case(b"KeyNote-Version:".as_slice()) {
        Some(VERSION)
    } else if label.eq_ignore_ascii_case(b"Licensees:".as_slice()) {
        Some(LICENSEES)
    } else if label.eq_ignore_ascii_case(b"Local-Constants:".as_slice()) {
        Some(LOCAL_CONSTANTS)
    } else if label.eq_ignore_ascii_case(b"Signature:".as_slice()) {
        Some(SIGNATURE)
    } else {
        None
    }
}

#[inline(always)]
pub(crate) fn is_label(token: &Token<'_>) -> bool
    ensures { result ≡ is_label (token_view token.now) }
{
    matches!(token.sort, Sort::Label)
}

/// The number of the field whose label a token is.
#[inline(always)]
#[tactic(auto, unfolding(crate::specs::Fields::field_of))]
pub(crate) fn field_of(token: &Token<'_>) -> Option<u8>
    ensures { result ≡ field_of (token_view token.now) }
{
    if is_label(token) {
        field_number(token.text)
    } else {
        None
    }
}
