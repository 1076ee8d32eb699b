//! What a line asks that names no block.
ghost use Rattle.std.specs.Prelude.{◌≡◌, not, option_map, Some, None};
ghost use Rattle.std.specs.List.{list_all};
ghost use Rattle.kn_wire.specs.Lines.{blocked_of, line_of_request, word_text};
ghost use Rattle.kn_wire.specs.Requests as D;
ghost use Rattle.kn_wire.specs.Requests.{is_space, is_word, line_of, line_of_command, name_and_rest, or_malformed};
ghost use Rattle.kn_wire.specs.Requests.{admin_line, letter_line, name_line, name_hex_line, number_line};
ghost use Rattle.kn_wire.specs.Requests.{number_text_line, pin_line, when, with_number};
ghost use Rattle.kn_wire.specs.Wired.{request_or_fault};

use crate::fault::WireFault;
use crate::hex::is_hex;
use crate::request::Request;
use crate::split::{number_behind, split_number, split_word};
use crate::word::Word;
use kn_base::decimal;

/// The request of a line whose newline, and a carriage return before it, were taken away. It names no block.
pub(crate) fn read_line(line: &[u8]) -> Result<Request<'_>, WireFault>
    requires { blocked_of (line_of line.now) ≡ None }
    ensures { D.Whole (request_or_fault result) ≡ line_of line.now }
{
    let (word, rest) = split_word(line);
    let Some(word) = Word::of(word) else {
        return Err(WireFault::Command);
    };
    match rest {
        Some(text) => read_behind(word, text).ok_or(WireFault::Syntax),
        None => read_alone(word).ok_or(WireFault::Syntax),
    }
}

/// The request that is a command word alone; None where it isn't of its form.
fn read_alone<'a>(word: Word) -> Option<Request<'a>>
    ensures { or_malformed (option_map line_of_request result) ≡ line_of_command (word_text word) None }
{
    match word {
        Word::Open => Some(Request::Open),
        Word::Bye => Some(Request::Bye),
        _ => None,
    }
}

/// The request of a command word, a space and this text, which names no block; None where it isn't of its form.
fn read_behind(word: Word, text: &[u8]) -> Option<Request<'_>>
    requires { blocked_of (line_of_command (word_text word) (Some text.now)) ≡ None }
    ensures { or_malformed (option_map line_of_request result) ≡ line_of_command (word_text word) (Some text.now) }
{
    match word {
        Word::Open | Word::Bye | Word::Assert | Word::Add | Word::Batch => None,
        Word::Close => read_close(text),
        Word::Pin => read_pin(text),
        Word::Retract => read_retract(text),
        Word::Set => read_set(text),
        Word::SetHex => read_set_hex(text),
        Word::Unset => read_unset(text),
        Word::Auth => read_auth(text),
        Word::Unauth => read_unauth(text),
        Word::Clear => read_clear(text),
        Word::Query => read_query(text),
        Word::Watch => read_watch(text),
        Word::News => read_news(text),
        Word::Unwatch => read_unwatch(text),
        Word::Critical => read_critical(text),
        Word::Admin => read_admin(text),
        Word::Drop => read_drop(text),
        Word::Log => read_log(text),
    }
}

fn read_close(text: &[u8]) -> Option<Request<'_>>
    ensures { option_map line_of_request result ≡ number_line D.Close text.now }
{
    let s = decimal(text)?;
    Some(Request::Close { s })
}

fn read_pin(text: &[u8]) -> Option<Request<'_>>
    ensures { option_map line_of_request result ≡ pin_line text.now }
{
    match decimal(text) {
        Some(s) => Some(Request::Pin { s }),
        None => read_pin_at(text),
    }
}

fn read_pin_at(text: &[u8]) -> Option<Request<'_>>
    ensures { option_map line_of_request result ≡ with_number (λ s. number_line (D.PinAt s)) text.now }
{
    let (s, rest) = split_number(text)?;
    let version = decimal(rest)?;
    Some(Request::PinAt { s, version })
}

fn read_log(text: &[u8]) -> Option<Request<'_>>
    ensures { option_map line_of_request result ≡ number_line D.Log text.now }
{
    let n = decimal(text)?;
    Some(Request::Log { n })
}

fn read_clear(text: &[u8]) -> Option<Request<'_>>
    ensures { option_map line_of_request result ≡ number_line D.Clear text.now }
{
    let s = decimal(text)?;
    Some(Request::Clear { s })
}

fn read_drop(text: &[u8]) -> Option<Request<'_>>
    ensures { option_map line_of_request result ≡ letter_line 97 D.Drop text.now }
{
    let k = number_behind(b'a', text)?;
    Some(Request::Drop { k })
}

fn read_admin(text: &[u8]) -> Option<Request<'_>>
    ensures { option_map line_of_request result ≡ admin_line text.now }
{
    if text.is_empty() || !is_hex(text) {
        return None;
    }
    Some(Request::Admin { digits: text })
}

fn read_retract(text: &[u8]) -> Option<Request<'_>>
    ensures { option_map line_of_request result ≡ with_number (λ s. letter_line 112 (D.Retract s)) text.now }
{
    let (s, rest) = split_number(text)?;
    let k = number_behind(b'p', rest)?;
    Some(Request::Retract { s, k })
}

fn read_set(text: &[u8]) -> Option<Request<'_>>
    ensures { option_map line_of_request result ≡ with_number (λ s. name_line (D.Set s)) text.now }
{
    let (s, rest) = split_number(text)?;
    let (name, value) = split_name(rest)?;
    Some(Request::Set { s, name, value })
}

fn read_set_hex(text: &[u8]) -> Option<Request<'_>>
    ensures { option_map line_of_request result ≡ with_number (λ s. name_hex_line (D.SetHex s)) text.now }
{
    let (s, rest) = split_number(text)?;
    let (name, digits) = split_name(rest)?;
    if !is_hex(digits) {
        return None;
    }
    Some(Request::SetHex { s, name, digits })
}

fn read_unset(text: &[u8]) -> Option<Request<'_>>
    ensures { option_map line_of_request result
        ≡ with_number (λ s name. when (is_word name) (D.Unset s name)) text.now }
{
    let (s, name) = split_number(text)?;
    if name.is_empty() || !has_no_space(name) {
        return None;
    }
    Some(Request::Unset { s, name })
}

fn read_auth(text: &[u8]) -> Option<Request<'_>>
    ensures { option_map line_of_request result ≡ number_text_line D.Auth text.now }
{
    let (s, principal) = split_number(text)?;
    Some(Request::Auth { s, principal })
}

fn read_unauth(text: &[u8]) -> Option<Request<'_>>
    ensures { option_map line_of_request result ≡ number_text_line D.Unauth text.now }
{
    let (s, principal) = split_number(text)?;
    Some(Request::Unauth { s, principal })
}

fn read_query(text: &[u8]) -> Option<Request<'_>>
    ensures { option_map line_of_request result ≡ number_text_line D.Query text.now }
{
    let (s, values) = split_number(text)?;
    Some(Request::Query { s, values })
}

fn read_watch(text: &[u8]) -> Option<Request<'_>>
    ensures { option_map line_of_request result ≡ number_text_line D.Watch text.now }
{
    let (s, values) = split_number(text)?;
    Some(Request::Watch { s, values })
}

fn read_news(text: &[u8]) -> Option<Request<'_>>
    ensures { option_map line_of_request result ≡ number_line D.News text.now }
{
    let s = decimal(text)?;
    Some(Request::News { s })
}

fn read_unwatch(text: &[u8]) -> Option<Request<'_>>
    ensures { option_map line_of_request result ≡ number_line D.Unwatch text.now }
{
    let s = decimal(text)?;
    Some(Request::Unwatch { s })
}

fn read_critical(text: &[u8]) -> Option<Request<'_>>
    ensures { option_map line_of_request result ≡ number_text_line D.Critical text.now }
{
    let (s, values) = split_number(text)?;
    Some(Request::Critical { s, values })
}

/// The word before the first space, and what follows the space, nothing without one; None where the word is empty.
fn split_name(text: &[u8]) -> Option<(&[u8], &[u8])>
    ensures { option_map (λ parts. (parts.0.now, parts.1.now)) result ≡ name_and_rest text.now }
{
    let (name, rest) = split_word(text);
    if name.is_empty() {
        return None;
    }
    match rest {
        Some(rest) => Some((name, rest)),
        None => Some((name, b"")),
    }
}

fn has_no_space(text: &[u8]) -> bool
    ensures { result ≡ list_all (λ byte. not (is_space byte)) text.now }
{
    text.iter().all(|byte| *byte != b' ')
}
