//! The field Local-Constants.
ghost use Rattle.std.specs.Prelude.{◌≡◌, ◌+◌, ◌<◌, ◌≤◌, ◌^◌, [], ◌∷◌, ◌++◌};
ghost use Rattle.std.specs.Prelude.{Some, None, length, slice_get, slice_index, IfOk, OnOk};
ghost use Rattle.kn_lex.specs.Cutting.{TokenView};
ghost use Rattle.kn_lex.specs.TokenViews.{token_view};
ghost use Rattle.kn_fields.specs.Fields.{between, field_with};
ghost use Rattle.kn_fields.specs.Constants.{constant_of, constants_of, AreSettings};
ghost use Rattle.kn_fields.specs.Expectations.{AreNames, next_expecting, fits};
ghost use Rattle.kn_fields.specs.Faults.{constants_in};
ghost use Rattle.kn_fields.specs.Scanning.{end_place, departure, constant_place};

use crate::field_span::label_start;
use crate::heading::LabelledTokens;
use crate::label::LOCAL_CONSTANTS;
use kn_base::{List, NoMemory, Octets};
use kn_env::Constant;
use kn_lex::{Sort, Token, Tokens, literal};
use std::alloc::Global;
use std::collections::BTreeSet;

/// What is due next in a list of constants.
#[derive(Clone, Copy)]
pub enum Expecting {
    /// The name of a further constant.
    Setting,
    /// The sign `=`.
    Equals,
    /// The literal of its value.
    Value,
}

fn next_expecting(expecting: Expecting) -> Expecting
    ensures { result ≡ next_expecting expecting }
{
    match expecting {
        Expecting::Setting => Expecting::Equals,
        Expecting::Equals => Expecting::Value,
        Expecting::Value => Expecting::Setting,
    }
}

/// The names among the tokens of a list so far: a tree, since no choice of names makes that slow.
type Names<'a> = BTreeSet<&'a [u8]>;

/// Adds a token to the names of those before it, if it is a name.
fn add_name<'a>(names: &mut Names<'a>, token: &Token<'a>) -> Result<(), NoMemory>
    ensures { (before : List TokenView) → AreNames names.old before
        → OnOk result (AreNames names.new (before ++ token_view token.now ∷ [])) }
{
    if !matches!(token.sort, Sort::Name) {
        return Ok(());
    }
    match names.insert(token.text) {
        Ok(_) => Ok(()),
        Err(_) => Err(NoMemory),
    }
}

/// Whether a token may be set: a name that doesn't begin with `_` and is none of those before.
fn is_new_name(names: &Names<'_>, token: &Token<'_>) -> bool
    ensures { (before : List TokenView) → AreNames names.now before
        → result ≡ fits Expecting.Setting before (token_view token.now) }
{
    matches!(token.sort, Sort::Name)
        && first_byte(token.text) != b'_'
        && !names.contains(token.text)
}

fn first_byte(text: &[u8]) -> u8
    ensures { result ≡ slice_index text.now 0 }
{
    if text.is_empty() { 0 } else { text[0] }
}

/// Whether a token is what is due at its place, behind tokens with these names.
fn fits(names: &Names<'_>, expecting: Expecting, token: &Token<'_>) -> bool
    ensures { (before : List TokenView) → AreNames names.now before
        → result ≡ fits expecting before (token_view token.now) }
{
    match expecting {
        Expecting::Setting => is_new_name(names, token),
        Expecting::Equals => matches!(token.sort, Sort::Sign) && token.text == b"=".as_slice(),
        Expecting::Value => matches!(token.sort, Sort::Text),
    }
}

/// Where a list breaks off at whose end this is due.
fn end_place(label: Option<u32>, expecting: Expecting) -> Option<u32>
    ensures { result ≡ end_place label expecting }
{
    match expecting {
        Expecting::Setting => None,
        Expecting::Equals => label,
        Expecting::Value => label,
    }
}

/// Where a list of constants departs, or `label` where it breaks off at its end.
#[tactic(auto, using(crate::proofs::Firsts::departure_steps))]
fn departure(
    alloc: Global,
    tokens: &Tokens<'_>,
    from: u32,
    to: u32,
    label: Option<u32>,
) -> Result<Option<u32>, NoMemory>
    requires ordered { from ≤ to }
    requires within { to ≤ length tokens.now }
    ensures { IfOk result (λ place. place ≡ departure (between from to tokens.now) label) }
{
    let mut names = BTreeSet::new(alloc);
    let mut expecting = Expecting::Setting;
    for i in from..to {
        if let Some(token) = tokens.get(i) {
            if !fits(&names, expecting, token) {
                return Ok(Some(token.span.start));
            }
            add_name(&mut names, token)?;
        }
        expecting = next_expecting(expecting);
    }
    Ok(end_place(label, expecting))
}

/// Adds the constant whose name, sign and literal stand from this place on.
fn push_constant(
    alloc: Global,
    list: &mut List<Constant>,
    tokens: &Tokens<'_>,
    at: u32,
) -> Result<(), NoMemory>
    requires fits { at + 2 < 2 ^ 32 }
    requires literal { (value : TokenView) → slice_get tokens.now (at + 2) ≡ Some value → value.sort ≡ Sort.Text }
    ensures { (name value : TokenView)
        → slice_get tokens.now at ≡ Some name → slice_get tokens.now (at + 2) ≡ Some value
        → OnOk result (list.new ≡ list.old ++ constant_of name value ∷ []) }
{
    let Some(name) = tokens.get(at) else {
        return Ok(());
    };
    let Some(value) = tokens.get(at + 2) else {
        return Ok(());
    };
    let constant = Constant {
        name: Octets::from_slice(alloc, name.text)?,
        value: literal(alloc, value)?,
    };
    list.add(constant)
}

/// The constants of a list that is known to be right.
fn constants_between(
    alloc: Global,
    tokens: &Tokens<'_>,
    from: u32,
    to: u32,
) -> Result<List<Constant>, NoMemory>
    requires ordered { from ≤ to }
    requires within { to ≤ length tokens.now }
    requires settings { AreSettings (between from to tokens.now) }
    ensures { IfOk result (λ list. list ≡ constants_of (between from to tokens.now)) }
{
    let mut list = List::new(alloc);
    let mut i = from;
    while to - i > 2 {
        push_constant(alloc, &mut list, tokens, i)?;
        i += 3;
    }
    Ok(list)
}

/// The place of the first fault of the local constants, if there are any.
#[tactic(auto, unfolding(crate::specs::Scanning::constant_place))]
pub(crate) fn constant_place(
    alloc: Global,
    tokens: &LabelledTokens<'_>,
) -> Result<Option<u32>, NoMemory>
    ensures { IfOk result (λ place. place ≡ constant_place tokens.now) }
{
    let Some(part) = tokens.part(LOCAL_CONSTANTS) else {
        return Ok(None);
    };
    let list = tokens.tokens();
    departure(
        alloc,
        list,
        part.label + 1,
        part.end,
        label_start(list, part),
    )
}

/// The local constants of a text.
pub(crate) fn constants(
    alloc: Global,
    tokens: &LabelledTokens<'_>,
) -> Result<List<Constant>, NoMemory>
    requires { constant_place tokens.now ≡ None }
    ensures { IfOk result (λ list. list ≡ constants_in (field_with 6 tokens.now)) }
{
    match tokens.part(LOCAL_CONSTANTS) {
        Some(part) => constants_between(alloc, tokens.tokens(), part.label + 1, part.end),
        None => Ok(List::new(alloc)),
    }
}
