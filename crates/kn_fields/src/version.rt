//! The field KeyNote-Version.
ghost use Rattle.std.specs.Prelude.{◌≡◌, ◌+◌, ◌<◌, ◌≤◌, length, IfOk};
ghost use Rattle.kn_fields.specs.Fields.{between};
ghost use Rattle.kn_fields.specs.Faults.{is_two, is_two_by, is_version};
ghost use Rattle.kn_fields.specs.Scanning.{version_place};

use crate::field_span::{FieldSpan, label_start};
use crate::heading::LabelledTokens;
use crate::label::VERSION;
use kn_base::NoMemory;
use kn_lex::{Sort, Token, Tokens, literal};
use std::alloc::Global;

fn is_two(text: &[u8]) -> bool
    ensures { result ≡ is_two text.now }
{
    text == b"2".as_slice()
}

/// Whether a token is the number 2, or a literal of that value.
fn is_two_by(alloc: Global, token: &Token<'_>) -> Result<bool, NoMemory>
    ensures { IfOk result (λ two. two ≡ is_two_by token.now.sort token.now.text.now) }
{
    match token.sort {
        Sort::Number => Ok(is_two(token.text)),
        Sort::Text => {
            let value = literal(alloc, token)?;
            Ok(is_two(value.as_slice()))
        }
        _ => Ok(false),
    }
}

/// Whether the tokens of a field are the version 2 alone.
#[tactic(auto, using(crate::proofs::Parts::version_steps))]
fn is_version(alloc: Global, tokens: &Tokens<'_>, part: FieldSpan) -> Result<bool, NoMemory>
    requires before { part.label < part.end }
    requires within { part.end ≤ length tokens.now }
    ensures { IfOk result (λ right. right ≡ is_version (between (part.label + 1) part.end tokens.now)) }
{
    if part.end - part.label != 2 {
        return Ok(false);
    }
    match tokens.get(part.label + 1) {
        Some(token) => is_two_by(alloc, token),
        None => Ok(false),
    }
}

/// The place of the label of a version that isn't 2.
#[tactic(auto, unfolding(crate::specs::Scanning::version_place))]
pub(crate) fn version_place(
    alloc: Global,
    tokens: &LabelledTokens<'_>,
) -> Result<Option<u32>, NoMemory>
    ensures { IfOk result (λ place. place ≡ version_place tokens.now) }
{
    let Some(part) = tokens.part(VERSION) else {
        return Ok(None);
    };
    if is_version(alloc, tokens.tokens(), part)? {
        return Ok(None);
    }
    Ok(label_start(tokens.tokens(), part))
}
