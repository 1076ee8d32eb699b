//! Texts of a form at the front of bytes.
ghost use Rattle.std.specs.Prelude.{◌≡◌, ◌≢◌, [], ◌∷◌, true, map, option_map};
ghost use Rattle.kn_reply_reader.specs.Forms.{IsOfForm, IsOfOneForm, are_forms, is_form};
ghost use Rattle.kn_reply_reader.specs.Fronts.{IsBehindOne};
ghost use Rattle.kn_reply_reader.specs.Numerals.{IsBehindNumber};

use crate::numerals::behind_number;
use kn_base::text::behind;

/// What is left behind one part of a form: a number for `#`, else the byte itself.
fn behind_part(left: &[u8], part: u8) -> Option<&[u8]>
    ensures number { part ≡ 35 → IsBehindNumber left.now (option_map (λ rest. rest.now) result) }
    ensures byte { part ≢ 35
        → IsBehindOne (λ text. text ≡ part ∷ []) left.now (option_map (λ rest. rest.now) result) }
{
    if part == b'#' {
        behind_number(left)
    } else {
        behind(left, &[part])
    }
}

/// What is left behind a text of the form; None where the bytes begin with none.
pub(crate) fn behind_form<'a>(left: &'a [u8], form: &[u8]) -> Option<&'a [u8]>
    requires { is_form form.now ≡ true }
    ensures { IsBehindOne (IsOfForm form.now) left.now (option_map (λ rest. rest.now) result) }
{
    let mut rest = left;
    for part in form {
        rest = behind_part(rest, *part)?;
    }
    Some(rest)
}

/// What is left behind a text of one of these forms, the first that fits.
pub(crate) fn behind_one_form<'a>(left: &'a [u8], forms: &[&[u8]]) -> Option<&'a [u8]>
    requires { are_forms (map (λ form. form.now) forms.now) ≡ true }
    ensures { IsBehindOne (IsOfOneForm (map (λ form. form.now) forms.now)) left.now
        (option_map (λ rest. rest.now) result) }
{
    for form in forms {
        if let Some(rest) = behind_form(left, *form) {
            return Some(rest);
        }
    }
    None
}
