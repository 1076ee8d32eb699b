//! What each field of an assertion states.
ghost use Rattle.std.specs.Prelude.{◌≡◌, ◌+◌, ◌≤◌, ◌<◌, true, false, None, Some, length, ok_or};
ghost use Rattle.std.specs.Prelude.{OnOk, OnErr, IfErr, MatchResult};
ghost use Rattle.std.specs.Option.{option_copied, option_map};
ghost use Rattle.kn_lex.specs.TokenViews.{token_view};
ghost use Rattle.kn_fields.specs.Fields.{tokens_in_span};
ghost use Rattle.kn_fields.specs.Scanning.{goes_deep};
ghost use Rattle.kn_formula.specs.Trees.{principal_text};
ghost use Rattle.kn_formula.specs.declared.written.Principal.TheVariants.{Name as Unquoted};
ghost use Rattle.kn_assert.specs.Parts.{normal_in, only_of, authorizer_by, signature_by, Gives};
ghost use Rattle.kn_assert.specs.Reading.{authorizer_in, conditions_in, licensees_in, signature_in};

use kn_base::{List, Octets};
use kn_env::{Constant, constant_value};
use kn_fields::{
    AUTHORIZER, CONDITIONS, FieldSpan, Fields, LICENSEES, ReadFault, SIGNATURE, goes_deep,
};
use kn_formula::FormulaFault;
use kn_lex::{Sort, Token, Tokens, literal};
use kn_principal::{POLICY, PrincipalFault, normal};
use kn_program::ProgramFault;
use kn_trees::{Formula, Program};
use std::alloc::Global;

/// Refuses a field that goes too deep.
fn check_depth(tokens: &Tokens<'_>, part: FieldSpan, field: u8) -> Result<(), ReadFault>
    requires before { part.label < part.end }
    requires within { part.end ≤ length tokens.now }
    ensures ok { OnOk result (goes_deep 0 0 (tokens_in_span part tokens.now) ≡ false) }
    ensures deep { OnErr result (goes_deep 0 0 (tokens_in_span part tokens.now) ≡ true) }
    ensures err { IfErr result (λ fault. fault ≡ ReadFault.TooDeep field) }
{
    if goes_deep(tokens, part.label + 1, part.end) {
        Err(ReadFault::TooDeep { field })
    } else {
        Ok(())
    }
}

/// The one token of a field, where it has one alone.
fn only<'a, 'b>(tokens: &'b Tokens<'a>, part: FieldSpan) -> Option<&'b Token<'a>>
    requires before { part.label < part.end }
    requires within { part.end ≤ length tokens.now }
    ensures { option_map token_view (option_copied result) ≡ only_of (tokens_in_span part tokens.now) }
{
    if part.end - part.label != 2 {
        return None;
    }
    tokens.get(part.label + 1)
}

/// The principal of an Authorizer's text in normal form.
fn principal_in(alloc: Global, text: &[u8]) -> Result<Octets, ReadFault>
    ensures { Gives result (ok_or (normal_in (Some text.now)) (ReadFault.Name 1)) }
{
    match normal(alloc, text) {
        Ok(principal) => Ok(principal),
        Err(PrincipalFault::NoMemory) => Err(ReadFault::NoMemory),
        Err(PrincipalFault::Empty) => Err(ReadFault::Name { field: AUTHORIZER }),
        Err(PrincipalFault::TooLong { .. }) => Err(ReadFault::Name { field: AUTHORIZER }),
    }
}

/// The principal that a name without quotes stands for.
#[tactic(auto, unfolding(kn_formula::specs::Trees::constant_value))]
fn principal_named(
    alloc: Global,
    constants: &List<Constant>,
    name: &[u8],
) -> Result<Octets, ReadFault>
    ensures { Gives result (ok_or (normal_in (principal_text constants.now (Unquoted name.now))) (ReadFault.Name 1)) }
{
    if name == POLICY {
        return principal_in(alloc, name);
    }
    match constant_value(constants.as_slice(), name) {
        Some(value) => principal_in(alloc, value),
        None => Err(ReadFault::Name { field: AUTHORIZER }),
    }
}

/// The authorizer that one token states.
#[tactic(auto, unfolding(crate::specs::Parts::principal_of))]
fn authorizer_by(
    alloc: Global,
    constants: &List<Constant>,
    token: &Token<'_>,
) -> Result<Octets, ReadFault>
    ensures { Gives result (authorizer_by constants.now (Some (token_view token.now))) }
{
    match token.sort {
        Sort::Name => principal_named(alloc, constants, token.text),
        Sort::Text => {
            let text = literal(alloc, token)?;
            principal_in(alloc, text.as_slice())
        }
        _ => Err(ReadFault::Syntax { field: AUTHORIZER }),
    }
}

/// The principal of an Authorizer field in normal form.
#[tactic(auto, unfolding(crate::specs::Parts::authorizer_of))]
pub(crate) fn authorizer(
    alloc: Global,
    fields: &Fields<'_>,
    part: FieldSpan,
) -> Result<Octets, ReadFault>
    requires before { part.label < part.end }
    requires within { part.end ≤ length fields.now.tokens }
    ensures { Gives result (authorizer_in fields.now.constants (tokens_in_span part fields.now.tokens)) }
{
    check_depth(fields.tokens.tokens(), part, AUTHORIZER)?;
    match only(fields.tokens.tokens(), part) {
        Some(token) => authorizer_by(alloc, &fields.constants, token),
        None => Err(ReadFault::Syntax { field: AUTHORIZER }),
    }
}

/// The program of a Conditions field.
pub(crate) fn conditions(
    alloc: Global,
    fields: &Fields<'_>,
    part: FieldSpan,
) -> Result<Option<Program>, ReadFault>
    requires before { part.label < part.end }
    requires within { part.end ≤ length fields.now.tokens }
    ensures { Gives result (conditions_in (tokens_in_span part fields.now.tokens)) }
{
    kn_fields::laws::depth_is_computed();
    check_depth(fields.tokens.tokens(), part, CONDITIONS)?;
    match kn_program::conditions(alloc, fields.tokens.tokens(), part) {
        Ok(conditions) => Ok(conditions),
        Err(ProgramFault::Syntax) => Err(ReadFault::Syntax { field: CONDITIONS }),
        Err(ProgramFault::Kind) => Err(ReadFault::Kind { field: CONDITIONS }),
        Err(ProgramFault::NoMemory) => Err(ReadFault::NoMemory),
    }
}

/// The formula of a Licensees field.
pub(crate) fn licensees(
    alloc: Global,
    fields: &Fields<'_>,
    part: FieldSpan,
) -> Result<Option<Formula>, ReadFault>
    requires before { part.label < part.end }
    requires within { part.end ≤ length fields.now.tokens }
    ensures { Gives result (licensees_in fields.now.constants (tokens_in_span part fields.now.tokens)) }
{
    kn_fields::laws::depth_is_computed();
    check_depth(fields.tokens.tokens(), part, LICENSEES)?;
    match kn_formula::licensees(alloc, fields.tokens.tokens(), part, &fields.constants) {
        Ok(licensees) => Ok(licensees),
        Err(FormulaFault::Syntax) => Err(ReadFault::Syntax { field: LICENSEES }),
        Err(FormulaFault::Threshold) => Err(ReadFault::Threshold { field: LICENSEES }),
        Err(FormulaFault::Name) => Err(ReadFault::Name { field: LICENSEES }),
        Err(FormulaFault::NoMemory) => Err(ReadFault::NoMemory),
    }
}

/// The signature that one token states.
fn signature_by(alloc: Global, token: &Token<'_>) -> Result<Option<Octets>, ReadFault>
    ensures { Gives result (signature_by (Some (token_view token.now))) }
{
    match token.sort {
        Sort::Text => Ok(Some(literal(alloc, token)?)),
        _ => Err(ReadFault::Syntax { field: SIGNATURE }),
    }
}

/// The value of a Signature field.
#[tactic(auto, unfolding(crate::specs::Parts::signature_of))]
pub(crate) fn signature(
    alloc: Global,
    fields: &Fields<'_>,
    part: FieldSpan,
) -> Result<Option<Octets>, ReadFault>
    requires before { part.label < part.end }
    requires within { part.end ≤ length fields.now.tokens }
    ensures { Gives result (signature_in (tokens_in_span part fields.now.tokens)) }
{
    check_depth(fields.tokens.tokens(), part, SIGNATURE)?;
    match only(fields.tokens.tokens(), part) {
        Some(token) => signature_by(alloc, token),
        None => Err(ReadFault::Syntax { field: SIGNATURE }),
    }
}
