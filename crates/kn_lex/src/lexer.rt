//! The tokens of a text, lexeme by lexeme.

ghost use Rattle.std.specs.Prelude.{◌≡◌, ◌+◌, ◌≤◌, ◌<◌, ◌^◌, ◌++◌, [], List, length, map, OnOk, IfOk, IfErr};
ghost use Rattle.kn_lex.specs.Cutting.{token_of, TokenView, Cuts};
ghost use Rattle.kn_lex.specs.Faults.{IsFaultless};
ghost use Rattle.kn_lex.specs.TokenViews.{token_view, GivesTokens, HasCause};

use crate::fault::LexFault;
use crate::lexeme::{Context, Lexeme, is_line_start, place_after, start};
use crate::place_faults::{has_zero, read_lexeme};
use crate::token::{Token, Tokens};
use kn_base::limits::ASSERTION_BYTES;
use kn_base::{List, Reserved, Span};
use std::alloc::Global;

/// Adds the token that a lexeme is. White space, comments and empty bodies are none.
fn push_token<'a>(
    list: &mut Reserved<Token<'a>>,
    context: Context,
    at: u32,
    lexeme: Lexeme,
    bytes: &'a [u8],
)
    requires place { at + length bytes.now < 2 ^ 32 }
    requires room { length bytes.now ≤ list.old.spare }
    ensures pushed { map token_view list.new.items
        ≡ map token_view list.old.items ++ token_of context at lexeme bytes.now }
    ensures room { list.old.spare ≤ list.new.spare + length bytes.now }
{
    let Lexeme::Token(sort) = lexeme else {
        return;
    };
    if bytes.is_empty() {
        return;
    }
    let token = Token {
        sort,
        span: Span {
            start: at,
            end: at + bytes.len() as u32,
        },
        text: bytes,
        first: is_line_start(context),
    };
    list.put(token);
}

/// The empty list, with room for as many tokens as bytes.
fn with_room<'a>(alloc: Global, bytes: usize) -> Result<Reserved<Token<'a>>, LexFault>
    requires { bytes ≤ ASSERTION_BYTES }
    ensures items { IfOk result (λ list. list.items ≡ []) }
    ensures room { IfOk result (λ list. bytes ≤ list.spare) }
    ensures err { IfErr result (λ fault. fault ≡ LexFault.NoMemory) }
{
    match List::new(alloc).reserve(bytes as u32) {
        Ok(list) => Ok(list),
        Err(_) => Err(LexFault::NoMemory),
    }
}

/// The tokens of a text, or its first lexical fault (RFC 2704, section 4; the faults are keynoted's own).
pub fn tokens<'a>(alloc: Global, text: &'a [u8]) -> Result<Tokens<'a>, LexFault>
    requires { length text.now ≤ ASSERTION_BYTES }
    ensures found { IfOk result (λ tokens. Cuts text.now tokens) }
    ensures faultless { OnOk result (IsFaultless text.now) }
    ensures only { (tokens : List TokenView) → Cuts text.now tokens → IsFaultless text.now → GivesTokens tokens result }
    ensures stuck { IfErr result (λ fault. HasCause text.now fault) }
{
    let has_zero = has_zero(text);
    let mut list = match with_room(alloc, text.len()) {
        Ok(list) => list,
        Err(_) => return Err(LexFault::NoMemory),
    };
    let mut place = start();
    let mut settled = false;
    let mut at: usize = 0;
    while at < text.len() {
        let rest = text.split_at(at).1;
        let read = match read_lexeme(place, at as u32, rest, settled, has_zero) {
            Ok(read) => read,
            Err(fault) => return Err(fault),
        };
        let bytes = rest.split_at(read.len).0;
        push_token(&mut list, place.context, at as u32, read.lexeme, bytes);
        place = place_after(place, read.lexeme, bytes);
        settled = read.settled;
        at += read.len;
    }
    Ok(Tokens::of(list.finish()))
}
