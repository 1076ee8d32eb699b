//! The text of a reply to LOG at the front of bytes.
ghost use Rattle.std.specs.Prelude.{option_map};
ghost use Rattle.kn_reply.specs.Logs.{change_text, update_text};
ghost use Rattle.kn_reply_reader.specs.Fronts.{IsBehindOne, Items, TextOf};
ghost use Rattle.kn_reply_reader.specs.Kinds.{IsReadNumbered, IsShortId, IsShortText, IsTextOf, LogKind};
ghost use Rattle.kn_reply_reader.specs.Kinds.{addition_text, removal_text};
ghost use Rattle.kn_reply_reader.specs.Texts.{IsReadUpdate};

use crate::numerals::read_number;
use kn_base::limits::{CHANGES, LOG_UPDATES};
use kn_base::text::behind;

/// The greatest number in a reply to LOG: its numbers have at most nine digits.
const NINE_DIGITS: u64 = 999_999_999;

const MOST_CHANGES: u64 = CHANGES as u64;

const MOST_UPDATES: u64 = LOG_UPDATES as u64;

/// What is left behind a reply to LOG.
pub(crate) fn behind_log(left: &[u8]) -> Option<&[u8]>
    ensures { IsBehindOne (IsTextOf LogKind) left.now (option_map (λ rest. rest.now) result) }
{
    let numbers = behind(left, b"LOG ")?;
    let (from, others) = read_number(numbers, NINE_DIGITS, b' ')?;
    let (count, last) = read_number(others, NINE_DIGITS, b' ')?;
    let (place, updates) = read_number(last, NINE_DIGITS, b'\n')?;
    if count != MOST_UPDATES.min(place.saturating_sub(from)) {
        return None;
    }
    let end = behind_updates(updates, count)?;
    let rest = behind(end, b"END\n")?;
    Some(rest)
}

/// What is left behind so many updates.
fn behind_updates(left: &[u8], count: u64) -> Option<&[u8]>
    ensures { IsBehindOne (Items IsReadUpdate update_text count) left.now (option_map (λ rest. rest.now) result) }
{
    let mut rest = left;
    for _ in 0..count {
        rest = behind_update(rest)?;
    }
    Some(rest)
}

/// What is left behind an update of 1 to 256 changes.
fn behind_update(left: &[u8]) -> Option<&[u8]>
    ensures { IsBehindOne (TextOf IsReadUpdate update_text) left.now (option_map (λ rest. rest.now) result) }
{
    let named = behind(left, b"UPDATE ")?;
    let (_caller, counted) = read_number(named, NINE_DIGITS, b' ')?;
    let (count, changes) = read_number(counted, MOST_CHANGES, b'\n')?;
    if count == 0 {
        return None;
    }
    let rest = behind_changes(changes, count)?;
    Some(rest)
}

/// What is left behind so many changes.
fn behind_changes(left: &[u8], count: u64) -> Option<&[u8]>
    ensures { IsBehindOne (Items IsReadNumbered change_text count) left.now (option_map (λ rest. rest.now) result) }
{
    let mut rest = left;
    for _ in 0..count {
        rest = behind_change(rest)?;
    }
    Some(rest)
}

/// What is left behind a change: an addition or a removal.
fn behind_change(left: &[u8]) -> Option<&[u8]>
    ensures { IsBehindOne (TextOf IsReadNumbered change_text) left.now (option_map (λ rest. rest.now) result) }
{
    if let Some(rest) = behind_addition(left) {
        return Some(rest);
    }
    behind_removal(left)
}

/// What is left behind an addition, with its text and the newline behind that.
fn behind_addition(left: &[u8]) -> Option<&[u8]>
    ensures { IsBehindOne (TextOf IsShortText addition_text) left.now (option_map (λ rest. rest.now) result) }
{
    let counted = behind(left, b"ADD ")?;
    let (count, text) = read_number(counted, NINE_DIGITS, b'\n')?;
    let count = count as usize;
    if text.len() < count {
        return None;
    }
    let (_text, end) = text.split_at(count);
    let rest = behind(end, b"\n")?;
    Some(rest)
}

/// What is left behind a removal.
fn behind_removal(left: &[u8]) -> Option<&[u8]>
    ensures { IsBehindOne (TextOf IsShortId removal_text) left.now (option_map (λ rest. rest.now) result) }
{
    let number = behind(left, b"DROP a")?;
    let (_k, rest) = read_number(number, NINE_DIGITS, b'\n')?;
    Some(rest)
}
