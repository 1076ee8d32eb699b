//! Cutting a text into its fields, or finding its first fault.
ghost use Rattle.std.specs.Prelude.{◌≡◌, ◌≤◌, ℕ, Some, List, length, MatchOption, IfOk, IfErr, OnOk};
ghost use Rattle.kn_base.specs.declared.limits.TheConstants.{ASSERTION_BYTES};
ghost use Rattle.kn_lex.specs.Cutting.{Cuts};
ghost use Rattle.kn_lex.specs.Faults.{IsFaultless};
ghost use Rattle.kn_fields.specs.Fields.{field_with, signed_to};
ghost use Rattle.kn_fields.specs.Faults.{IsWellFielded, HasCause, constants_in};
ghost use Rattle.kn_fields.specs.Scanning.{StandsRight, fault_in};

use crate::constants::{constant_place, constants};
use crate::fault::ReadFault;
use crate::field_list::Fields;
use crate::field_span::label_start;
use crate::heading::LabelledTokens;
use crate::label::{AUTHORIZER, SIGNATURE};
use crate::label_faults::{Wrong, bad_field_place, order_place, wrong_place};
use crate::version::version_place;
use kn_base::NoMemory;
use kn_base::limits::ASSERTION_BYTES;
use kn_lex::{Tokens, laws, tokens};
use std::alloc::Global;

/// The tokens of a text that is short enough and has no lexical fault.
fn read_tokens<'a>(alloc: Global, text: &'a [u8]) -> Result<Tokens<'a>, ReadFault>
    ensures ok { IfOk result (λ tokens. Cuts text.now tokens) }
    ensures faultless { OnOk result (IsFaultless text.now) }
    ensures within { OnOk result (length text.now ≤ ASSERTION_BYTES) }
    ensures err { IfErr result (λ fault. HasCause text.now fault) }
{
    laws::tokens_or_first_fault();
    if text.len() > ASSERTION_BYTES {
        return Err(ReadFault::TooLong { len: text.len() });
    }
    Ok(tokens(alloc, text)?)
}

/// The first fault by what stands where among the tokens.
#[tactic(auto, unfolding(crate::specs::Scanning::fault_in, crate::specs::Scanning::fault_at))]
fn wrong_fault(tokens: &LabelledTokens<'_>) -> Option<ReadFault>
    ensures { MatchOption result (StandsRight tokens.now) (λ fault. fault_in tokens.now ≡ Some fault) }
{
    if let Some(at) = bad_field_place(tokens) {
        return Some(ReadFault::BadField { at });
    }
    if let Some(at) = wrong_place(Wrong::Second, tokens) {
        return Some(ReadFault::FieldTwice { at });
    }
    match order_place(tokens) {
        Some(at) => Some(ReadFault::FieldOrder { at }),
        None => None,
    }
}

/// The first fault that tokens show, if there is one.
#[tactic(auto, using(crate::proofs::Firsts::first_faults))]
fn fault_in(alloc: Global, tokens: &LabelledTokens<'_>) -> Result<Option<ReadFault>, NoMemory>
    ensures { IfOk result (λ fault. fault ≡ fault_in tokens.now) }
{
    if let Some(fault) = wrong_fault(tokens) {
        return Ok(Some(fault));
    }
    let Some(_authorizer) = tokens.part(AUTHORIZER) else {
        return Ok(Some(ReadFault::NoAuthorizer));
    };
    if let Some(at) = version_place(alloc, tokens)? {
        return Ok(Some(ReadFault::Version { at }));
    }
    match constant_place(alloc, tokens)? {
        Some(at) => Ok(Some(ReadFault::Constant { at })),
        None => Ok(None),
    }
}

/// The place of the label of a signature, or the length of the text.
fn signed_to(tokens: &LabelledTokens<'_>, end: u32) -> u32
    ensures { (text : List ℕ) → length text ≡ end → result ≡ signed_to text tokens.now }
{
    match tokens.part(SIGNATURE) {
        Some(part) => label_start(tokens.tokens(), part).unwrap_or(end),
        None => end,
    }
}

/// The fields of an assertion's text, or its first fault up to those of its local constants (RFC 2704,
/// section 4; the faults and their order are keynoted's own).
pub fn fields<'a>(alloc: Global, text: &'a [u8]) -> Result<Fields<'a>, ReadFault>
    ensures tokens { IfOk result (λ fields. Cuts text.now fields.tokens) }
    ensures constants { IfOk result (λ fields. fields.constants ≡ constants_in (field_with 6 fields.tokens)) }
    ensures signed_to { IfOk result (λ fields. fields.signed_to ≡ signed_to text.now fields.tokens) }
    ensures faultless { OnOk result (IsWellFielded text.now) }
    ensures fault { IfErr result (λ fault. HasCause text.now fault) }
{
    laws::tokens_or_first_fault();
    let list = read_tokens(alloc, text)?;
    let tokens = LabelledTokens::of(alloc, list)?;
    if let Some(fault) = fault_in(alloc, &tokens)? {
        return Err(fault);
    }
    let constants = constants(alloc, &tokens)?;
    let signed_to = signed_to(&tokens, text.len() as u32);
    Ok(Fields {
        tokens,
        constants,
        signed_to,
    })
}
