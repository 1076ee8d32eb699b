//! The tokens of a field, one after the other.
ghost use Rattle.std.specs.Prelude.{◌≡◌, ◌+◌, ◌<◌, ◌≤◌, [], ◌∷◌, length, false, codes, MatchOption};
ghost use Rattle.std.specs.Option.{option_map};
ghost use Rattle.kn_lex.specs.TokenViews.{token_view};
ghost use Rattle.kn_fields.specs.Fields.{between};
ghost use Rattle.kn_fields.specs.Words.{words_of, word_of, first_sign, rest_of, mark_if};
ghost use Rattle.kn_fields.specs.Reading.{Reads, read_mark, named};

use crate::field_span::FieldSpan;
use crate::grammar_fault::GrammarFault;
use kn_lex::{Sort, Token, Tokens};
use std::marker::Model;

/// The tokens of a field that are still to be read, seen as their words.
#[derive(Drop)]
pub struct Cursor<'t, 'a> {
    tokens: &'t Tokens<'a>,
    /// The place of the next token.
    at: u32,
    /// Where the field ends.
    end: u32,
}

impl<'t, 'a> Model for Cursor<'t, 'a> {
    ghost use Rattle.std.specs.Prelude.{◌≤◌, List, length};
    ghost use Rattle.kn_fields.specs.Fields.{between};
    ghost use Rattle.kn_fields.specs.Words.{Word, words_of};

    ghost Value = { List Word };

    ghost view = { λ c. words_of (between c.at c.end c.tokens.now) };

    ghost invariant = { λ c. (c.at ≤ c.end) × (c.end ≤ length c.tokens.now) };
}

#[tactic(auto, using(crate::proofs::Words::cursor_steps), unfolding(crate::specs::Words::words_of))]
impl<'t, 'a> Cursor<'t, 'a> {
    /// All the tokens of the field that stands there.
    #[inline(always)]
    pub fn of_field(tokens: &'t Tokens<'a>, part: FieldSpan) -> Cursor<'t, 'a>
        requires before { part.label < part.end }
        requires within { part.end ≤ length tokens.now }
        ensures { result ≡ words_of (between (part.label + 1) part.end tokens.now) }
    {
        let at = part.label + 1;
        let end = part.end;
        Cursor { tokens, at, end }
    }

    /// How many tokens are left.
    #[inline(always)]
    pub fn len(&self) -> u32
        ensures { result ≡ length self.now }
    {
        self.end - self.at
    }

    /// The next token, or None at the end of the field.
    #[inline(always)]
    pub fn peek(&self) -> Option<&'t Token<'a>>
        ensures { MatchOption result (self.now ≡ []) (λ token. self.now
            ≡ word_of (token_view token.now) ∷ rest_of self.now) }
    {
        if self.at >= self.end {
            return None;
        }
        let tokens = self.tokens;
        match tokens.get(self.at) {
            Some(token) => Some(token),
            None => None,
        }
    }

    /// Passes the next token, if there is one.
    #[inline(always)]
    pub fn step(&mut self)
        ensures { self.new ≡ rest_of self.old }
    {
        if self.at < self.end {
            self.at += 1;
        }
    }

    /// Takes the next token, or None at the end of the field.
    #[inline(always)]
    pub fn take(&mut self) -> Option<&'t Token<'a>>
        ensures { MatchOption result (self.old ≡ []) (λ token. self.old ≡ word_of (token_view token.now) ∷ self.new) }
    {
        let token = self.peek();
        self.step();
        token
    }

    /// The next token where it is a sign.
    #[inline(always)]
    pub fn sign(&self) -> Option<&'a [u8]>
        ensures { option_map (λ text. text.now) result ≡ first_sign self.now }
    {
        let token = self.peek()?;
        match token.sort {
            Sort::Sign => Some(token.text),
            _ => None,
        }
    }

    /// Whether this sign comes next.
    #[inline(always)]
    #[tactic(auto, unfolding(crate::specs::Reading::taken, crate::specs::Words::itself))]
    pub fn is_sign(&self, text: &[u8]) -> bool
        ensures { mark_if result (rest_of self.now) ≡ read_mark text.now self.now }
    {
        let Some(next) = self.sign() else {
            return false;
        };
        match (next, text) {
            ([next], [byte]) => next == byte,
            ([next, after], [first, second]) => next == first && after == second,
            _ => next == text,
        }
    }

    /// Whether this sign came next; then it is passed.
    #[inline(always)]
    pub fn take_sign(&mut self, text: &[u8]) -> bool
        ensures taken { mark_if result self.new ≡ read_mark text.now self.old }
        ensures kept { result ≡ false → self.new ≡ self.old }
    {
        let there = self.is_sign(text);
        if there {
            self.step();
        }
        there
    }

    /// Passes this sign, which has to come next.
    #[inline(always)]
    pub fn expect_sign(&mut self, text: &[u8]) -> Result<(), GrammarFault>
        ensures { Reads result (read_mark text.now self.old) self.new }
    {
        if self.take_sign(text) {
            Ok(())
        } else {
            Err(GrammarFault::Syntax)
        }
    }

    /// Passes this name, which has to come next.
    #[tactic(auto, unfolding(crate::specs::Reading::named, crate::specs::Words::itself))]
    pub fn expect_name(&mut self, text: &[u8]) -> Result<(), GrammarFault>
        ensures { Reads result (named text.now self.old) self.new }
    {
        let Some(token) = self.take() else {
            return Err(GrammarFault::Syntax);
        };
        if matches!(token.sort, Sort::Name) && token.text == text {
            Ok(())
        } else {
            Err(GrammarFault::Syntax)
        }
    }
}
