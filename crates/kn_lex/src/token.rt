//! Tokens, and the list of those of a text.

ghost use Rattle.std.specs.Prelude.{◌≡◌, length, map, slice_get};
ghost use Rattle.std.specs.Option.{option_copied, option_map};

use kn_base::{List, Span};
use std::marker::Model;

/// What a token is.
#[derive(Clone, Copy, PartialEq, Eq)]
pub enum Sort {
    /// A field's name with its colon, at the beginning of a line.
    Label,
    /// All that stands behind the label of a comment, with its continuation lines.
    Body,
    /// An attribute name, or a word of a grammar.
    Name,
    /// A run of digits, of value 2147483647 at most.
    Number,
    /// A string literal with its quotes.
    Text,
    /// An operator or a mark.
    Sign,
}

/// A token of a text, whose bytes it borrows.
#[derive(Clone, Copy)]
pub struct Token<'a> {
    pub sort: Sort,
    /// Whether it stands at the beginning of a line.
    pub first: bool,
    /// Where it stands in the text, in bytes.
    pub span: Span,
    /// Its bytes, as they stand in the text.
    pub text: &'a [u8],
}

/// The tokens of a text in their order, seen as that list.
#[derive(Drop)]
pub struct Tokens<'a> {
    list: List<Token<'a>>,
}

impl<'a> Model for Tokens<'a> {
    ghost use Rattle.std.specs.Prelude.{List, map};
    ghost use Rattle.kn_lex.specs.Cutting.{TokenView};
    ghost use Rattle.kn_lex.specs.TokenViews.{token_view};

    ghost Value = { List TokenView };

    ghost view = { λ tokens. map token_view tokens.list };
}

impl<'a> Tokens<'a> {
    ghost use Rattle.kn_lex.specs.TokenViews.{token_view};

    pub(crate) fn of(list: List<Token<'a>>) -> Tokens<'a>
        ensures { result ≡ map token_view list.entry }
    {
        Tokens { list }
    }

    /// How many tokens there are.
    pub fn len(&self) -> u32
        ensures { result ≡ length self.now }
    {
        self.list.len()
    }

    /// The token at place `i`, counted from 0, or None past the end.
    pub fn get(&self, i: u32) -> Option<&Token<'a>>
        ensures { option_map token_view (option_copied result) ≡ slice_get self.now i }
    {
        self.list.get(i)
    }
}
