//! The text of any reply at the front of bytes.
ghost use Rattle.std.specs.Prelude.{◌≡◌, ◌==◌, ◌&&◌, ◌↔◌, nat_le, true, IsTrue, map, option_map};
ghost use Rattle.std.specs.List.{list_all, list_any};
ghost use Rattle.kn_proof.specs.Lines.{is_name};
ghost use Rattle.kn_reply.specs.Replies.{need_text};
ghost use Rattle.kn_reply_reader.specs.Fronts.{IsBehindOne, Items, TextOf};
ghost use Rattle.kn_reply_reader.specs.Texts.{BeginsWithReply};
ghost use Rattle.kn_reply_reader.specs.Kinds.{IsAnyId, IsNameWord, IsReplyText, IsTextOf, CriticalKind, OneLine};
ghost use Rattle.kn_reply_reader.specs.Kinds.{Proved, NewsKind};

use crate::ending::cut_behind_end;
use crate::forms::{behind_form, behind_one_form};
use crate::logs::behind_log;
use crate::numerals::read_number;
use kn_base::limits::COMPLIANCE_VALUE_BYTES;
use kn_base::text::{behind, cut};
use kn_proof::scan_reply;

/// The forms of replies of one line without a name. `#` stands for a decimal number.
const ONE_LINE_FORMS: &[&[u8]] = &[
    b"OK\n",
    b"OK # #\n",
    b"OK #\n",
    b"OK p#\n",
    b"OK a# #\n",
    b"OK a# # #\n",
    b"NO 1 syntax\n",
    b"NO 2 command\n",
    b"NO 3 session\n",
    b"NO 4 admin\n",
    b"NO 5 read # #\n",
    b"NO 6 policy\n",
    b"NO 7 auth #\n",
    b"NO 8 name\n",
    b"NO 9 value\n",
    b"NO 10 values\n",
    b"NO 11 principal\n",
    b"NO 12 unknown\n",
    b"NO 13 limit sessions #\n",
    b"NO 13 limit private #\n",
    b"NO 13 limit private-bytes #\n",
    b"NO 13 limit requesters #\n",
    b"NO 13 limit attributes #\n",
    b"NO 13 limit live #\n",
    b"NO 13 limit live-bytes #\n",
    b"NO 13 limit updates #\n",
    b"NO 13 limit log-bytes #\n",
    b"NO 13 limit nodes #\n",
    b"NO 14 long\n",
    b"NO 15 block\n",
    b"NO 16 batch #\n",
    b"NO 17 item # 5 read # #\n",
    b"NO 17 item # 7 auth #\n",
    b"NO 17 item # 12 unknown\n",
    b"NO 17 item # 13 limit sessions #\n",
    b"NO 17 item # 13 limit private #\n",
    b"NO 17 item # 13 limit private-bytes #\n",
    b"NO 17 item # 13 limit requesters #\n",
    b"NO 17 item # 13 limit attributes #\n",
    b"NO 17 item # 13 limit live #\n",
    b"NO 17 item # 13 limit live-bytes #\n",
    b"NO 17 item # 13 limit updates #\n",
    b"NO 17 item # 13 limit log-bytes #\n",
    b"NO 17 item # 13 limit nodes #\n",
    b"NO 18 retained #\n",
    b"NO 19 ahead #\n",
    b"NOMEM\n",
];

const NEED_FORMS: &[&[u8]] = &[b"NEED a#\n", b"NEED p#\n"];

/// Whether the text of some reply is at the front of the bytes: of one that accepts a request or refuses it, of a
/// `VALUE`, `LOG`, `NEWS` or `CRITICAL` reply, or of `NOMEM`. Takes no memory.
pub fn begins_with_reply(left: &[u8]) -> bool
    ensures { IsTrue result ↔ BeginsWithReply left.now }
{
    behind_any_reply(left).is_some()
}

/// What is left behind the text of some reply; None where the bytes begin with none.
fn behind_any_reply(left: &[u8]) -> Option<&[u8]>
    ensures { IsBehindOne IsReplyText left.now (option_map (λ rest. rest.now) result) }
{
    if let Some(rest) = behind_one_line(left) {
        return Some(rest);
    }
    if let Some(rest) = behind_value(left) {
        return Some(rest);
    }
    if let Some(rest) = behind_news(left) {
        return Some(rest);
    }
    if let Some(rest) = behind_critical(left) {
        return Some(rest);
    }
    behind_log(left)
}

/// What is left behind a reply of one line without a name.
fn behind_one_line(left: &[u8]) -> Option<&[u8]>
    ensures { IsBehindOne (IsTextOf OneLine) left.now (option_map (λ rest. rest.now) result) }
{
    behind_one_form(left, ONE_LINE_FORMS)
}

/// What is left behind a `NEWS` reply.
fn behind_news(left: &[u8]) -> Option<&[u8]>
    ensures { IsBehindOne (IsTextOf NewsKind) left.now (option_map (λ rest. rest.now) result) }
{
    let named = behind_form(left, b"NEWS # ")?;
    let numbered = behind_name(named)?;
    let rest = behind_form(numbered, b"#\n")?;
    Some(rest)
}

/// What is left behind the name of a compliance value and the space that ends it.
fn behind_name(left: &[u8]) -> Option<&[u8]>
    ensures { IsBehindOne IsNameWord left.now (option_map (λ rest. rest.now) result) }
{
    let (name, rest) = cut(left, b' ')?;
    if is_name(name) { Some(rest) } else { None }
}

/// Whether a reply may name a compliance value so.
fn is_name(text: &[u8]) -> bool
    ensures { result ≡ is_name text.now }
{
    1 <= text.len()
        && text.len() <= COMPLIANCE_VALUE_BYTES
        && are_printing(text)
        && !has_comma(text)
}

fn are_printing(text: &[u8]) -> bool
    ensures { result ≡ list_all (λ byte. nat_le 33 byte && nat_le byte 126) text.now }
{
    text.iter().all(|byte| 33 <= *byte && *byte <= 126)
}

fn has_comma(text: &[u8]) -> bool
    ensures { result ≡ list_any (λ byte. byte == 44) text.now }
{
    text.iter().any(|byte| *byte == b',')
}

/// What is left behind a `CRITICAL` reply.
fn behind_critical(left: &[u8]) -> Option<&[u8]>
    ensures { IsBehindOne (IsTextOf CriticalKind) left.now (option_map (λ rest. rest.now) result) }
{
    let counted = behind_form(left, b"CRITICAL # ")?;
    let (count, needs) = read_number(counted, left.len() as u64, b'\n')?;
    let end = behind_needs(needs, count)?;
    let rest = behind(end, b"END\n")?;
    Some(rest)
}

/// What is left behind so many lines NEED.
fn behind_needs(left: &[u8], count: u64) -> Option<&[u8]>
    ensures { IsBehindOne (Items IsAnyId need_text count) left.now (option_map (λ rest. rest.now) result) }
{
    let mut rest = left;
    for _ in 0..count {
        rest = behind_need(rest)?;
    }
    Some(rest)
}

fn behind_need(left: &[u8]) -> Option<&[u8]>
    ensures { IsBehindOne (TextOf IsAnyId need_text) left.now (option_map (λ rest. rest.now) result) }
{
    behind_one_form(left, NEED_FORMS)
}

/// What is left behind a `VALUE` reply.
fn behind_value(left: &[u8]) -> Option<&[u8]>
    ensures { IsBehindOne (IsTextOf Proved) left.now (option_map (λ rest. rest.now) result) }
{
    let (text, rest) = cut_behind_end(left)?;
    match scan_reply(text) {
        Ok(_head) => Some(rest),
        Err(_fault) => None,
    }
}
