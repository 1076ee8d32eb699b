//! The labels among the tokens of a text, each with its field.
ghost use Rattle.std.specs.Prelude.{◌≡◌, ◌≤◌, ◌+◌, not, [], ◌∷◌, ◌++◌, length, drop, slice_get, find, IfOk, OnOk};
ghost use Rattle.std.specs.List.{prefix_len, list_any};
ghost use Rattle.std.specs.Option.{option_copied, option_and_then};
ghost use Rattle.kn_fields.specs.Fields.{is_this, is_label, field_of, fields_of, between, AreHeadings};
ghost use Rattle.kn_fields.specs.Scanning.{is_stray, IsSpanOf};

use crate::field_span::FieldSpan;
use crate::label::{field_of, is_label};
use kn_base::NoMemory;
use kn_lex::Tokens;
use smallvec::SmallVec;
use std::alloc::Global;
use std::marker::Model;

/// What a label tells of its field.
#[derive(Clone, Copy, Default)]
pub struct Heading {
    /// Where the field stands.
    pub part: FieldSpan,
    /// The number of the field: 1 is Authorizer, 2 Comment, 3 Conditions, 4 KeyNote-Version, 5 Licensees,
    /// 6 Local-Constants and 7 Signature. None where the label is none of a field.
    pub number: Option<u8>,
}

impl Heading {
    pub(crate) fn is_of(&self, number: u8) -> bool
        ensures { result ≡ is_this number self.now.number }
    {
        match self.number {
            Some(other) => other == number,
            None => false,
        }
    }
}

// The headings of a text. Up to eight, more than there are fields, take no memory beyond the value itself.
type Headings = SmallVec<Heading, 8>;

/// The tokens of a text, with what each label tells of its field. It is seen as the list of the tokens.
#[derive(Drop)]
pub struct LabelledTokens<'a> {
    tokens: Tokens<'a>,
    /// A place that isn't used holds the default.
    headings: Headings,
    /// Whether a token begins a line and is no label.
    has_stray: bool,
}

impl<'a> Model for LabelledTokens<'a> {
    ghost use Rattle.std.specs.Prelude.{◌≡◌, List};
    ghost use Rattle.std.specs.List.{list_any};
    ghost use Rattle.kn_lex.specs.Cutting.{TokenView};
    ghost use Rattle.kn_fields.specs.Fields.{fields_of, AreHeadings};
    ghost use Rattle.kn_fields.specs.Scanning.{is_stray};

    ghost Value = { List TokenView };

    ghost view = { λ l. l.tokens };

    ghost invariant = { λ l.
        AreHeadings l.tokens (fields_of l.tokens) l.headings.items
        × (l.has_stray ≡ list_any is_stray l.tokens) };
}

impl<'a> LabelledTokens<'a> {
    /// These tokens, with the fields of their labels.
    pub(crate) fn of(alloc: Global, tokens: Tokens<'a>) -> Result<LabelledTokens<'a>, NoMemory>
        ensures { IfOk result (λ labelled. labelled ≡ tokens.entry) }
    {
        let mut headings = SmallVec::new(alloc);
        let Stretch {
            end: mut label,
            mut has_stray,
        } = stretch_from(&tokens, 0);
        while label < tokens.len() {
            let behind = stretch_from(&tokens, label + 1);
            let end = behind.end;
            let part = FieldSpan { label, end };
            let number = number_at(&tokens, label);
            add_heading(&mut headings, Heading { part, number })?;
            has_stray |= behind.has_stray;
            label = end;
        }
        Ok(LabelledTokens {
            tokens,
            headings,
            has_stray,
        })
    }

    /// The tokens alone.
    pub fn tokens(&self) -> &Tokens<'a>
        ensures { result.now ≡ self.now }
    {
        &self.tokens
    }

    /// What each label tells of its field, in their order.
    pub fn headings(&self) -> &[Heading]
        ensures { AreHeadings self.now (fields_of self.now) result.now }
    {
        self.headings.as_slice()
    }

    /// Whether a token begins a line and is no label.
    pub(crate) fn has_stray(&self) -> bool
        ensures { result ≡ list_any is_stray self.now }
    {
        self.has_stray
    }

    /// Where the first field of this number stands, or None where there is none.
    pub(crate) fn part(&self, number: u8) -> Option<FieldSpan>
        ensures { IsSpanOf number self.now result }
    {
        match heading_of(self.headings(), number) {
            Some(heading) => Some(heading.part),
            None => None,
        }
    }
}

fn add_heading(headings: &mut Headings, heading: Heading) -> Result<(), NoMemory>
    ensures { OnOk result (headings.new.items ≡ headings.old.items ++ heading ∷ []) }
{
    match headings.push(heading) {
        Ok(()) => Ok(()),
        Err(_) => Err(NoMemory),
    }
}

fn heading_of(headings: &[Heading], number: u8) -> Option<&Heading>
    ensures { option_copied result ≡ find (λ heading. is_this number heading.number) headings.now }
{
    headings.iter().find(|heading| heading.is_of(number))
}

/// The number of the field whose label stands at a place.
fn number_at(tokens: &Tokens<'_>, at: u32) -> Option<u8>
    ensures { result ≡ option_and_then field_of (slice_get tokens.now at) }
{
    match tokens.get(at) {
        Some(token) => field_of(token),
        None => None,
    }
}

/// Tokens in a row that are no labels, up to the next label.
#[derive(Clone, Copy)]
struct Stretch {
    /// The place of the next label, or the number of tokens.
    end: u32,
    /// Whether one of them begins a line.
    has_stray: bool,
}

/// The tokens from a place up to the next label.
#[tactic(auto, using(crate::proofs::Between::stretch_steps))]
fn stretch_from(tokens: &Tokens<'_>, from: u32) -> Stretch
    requires { from ≤ length tokens.now }
    ensures end { result.end ≡ from + prefix_len (λ token. not (is_label token)) (drop from tokens.now) }
    ensures has_stray { result.has_stray ≡ list_any is_stray (between from result.end tokens.now) }
{
    let mut has_stray = false;
    for i in from..tokens.len() {
        if let Some(token) = tokens.get(i) {
            if is_label(token) {
                return Stretch { end: i, has_stray };
            }
            has_stray |= token.first;
        }
    }
    Stretch {
        end: tokens.len(),
        has_stray,
    }
}
