//! Reading a reply to LOG from its first byte on.
ghost use Rattle.std.specs.Prelude.{◌≡◌, ◌≤◌, ◌+◌, min, IfOk, All, map, List as Of, length};
ghost use Rattle.kn_base.specs.declared.limits.TheConstants.{LOG_UPDATES};
ghost use Rattle.kn_wire.specs.ItemsInCode.{item_of};
ghost use Rattle.kn_follow.specs.InCode.{Gives, update_of, updates_of, reply_of};
ghost use Rattle.kn_follow.specs.Reading.{literal_at, bytes_at, addition_at, removal_at, item_at, update_at};
ghost use Rattle.kn_follow.specs.Reading.{reply_at, times};
ghost use Rattle.kn_follow.specs.Reading.{greatest_place};
ghost use Rattle.kn_follow.specs.declared.reply.TheConstants.{NINE_DIGITS};

use crate::numbers::read_number;
use crate::reply::{NINE_DIGITS, ReadStop, Received, Reply};
use kn_base::List;
use kn_base::limits::{CHANGES, LOG_UPDATES};
use kn_wire::BatchItem;
use std::alloc::Global;

/// The reply with which a text begins, and what is left.
#[tactic(auto, unfolding(crate::specs::Reading::reply_at))]
pub(crate) fn read_reply<'a>(
    alloc: Global,
    text: &'a [u8],
) -> Result<(Reply<'a>, &'a [u8]), ReadStop<'a>>
    ensures { Gives (λ x. (reply_of x.0, x.1.now)) result (reply_at text.now) }
{
    let rest = skip(b"LOG ", text)?;
    let (from, rest) = read_number(0, NINE_DIGITS, b' ', rest)?;
    let most = LOG_UPDATES.min(NINE_DIGITS - from);
    let (count, rest) = read_number(0, most, b' ', rest)?;
    let greatest = greatest_place(from, count);
    let (place, rest) = read_number(from + count, greatest, b'\n', rest)?;
    let (updates, rest) = read_updates(alloc, count, rest)?;
    let rest = skip(b"END\n", rest)?;
    Ok((
        Reply {
            from,
            place,
            updates,
        },
        rest,
    ))
}

/// The greatest place of a reply to a client that holds `from` updates, where it tells `count`.
fn greatest_place(from: u32, count: u32) -> u32
    requires { from + count ≤ NINE_DIGITS }
    ensures place { result ≡ greatest_place from count }
    ensures small { result ≤ NINE_DIGITS }
{
    if count == LOG_UPDATES {
        NINE_DIGITS
    } else {
        from + count
    }
}

fn read_updates<'a>(
    alloc: Global,
    count: u32,
    text: &'a [u8],
) -> Result<(List<Received<'a>>, &'a [u8]), ReadStop<'a>>
    ensures { Gives (λ x. (updates_of x.0, x.1.now)) result (times update_at count text.now) }
{
    let mut updates = List::new(alloc);
    let mut rest = text;
    for _ in 0..count {
        let (update, behind) = read_update(alloc, rest)?;
        updates.add(update)?;
        rest = behind;
    }
    Ok((updates, rest))
}

#[tactic(auto, unfolding(crate::specs::Reading::update_at))]
fn read_update<'a>(alloc: Global, text: &'a [u8]) -> Result<(Received<'a>, &'a [u8]), ReadStop<'a>>
    ensures { Gives (λ x. (update_of x.0, x.1.now)) result (update_at text.now) }
{
    let rest = skip(b"UPDATE ", text)?;
    let (caller, rest) = read_number(0, NINE_DIGITS, b' ', rest)?;
    let (count, rest) = read_number(1, CHANGES, b'\n', rest)?;
    let (items, rest) = read_items(alloc, count, rest)?;
    Ok((Received { caller, items }, rest))
}

fn read_items<'a>(
    alloc: Global,
    count: u32,
    text: &'a [u8],
) -> Result<(List<BatchItem<'a>>, &'a [u8]), ReadStop<'a>>
    ensures { Gives (λ x. (map item_of x.0, x.1.now)) result (times item_at count text.now) }
{
    let mut items = List::new(alloc);
    let mut rest = text;
    for _ in 0..count {
        let (item, behind) = read_item(rest)?;
        items.add(item)?;
        rest = behind;
    }
    Ok((items, rest))
}

/// An item, by its first byte.
#[tactic(auto, unfolding(crate::specs::Reading::item_at))]
fn read_item<'a>(text: &'a [u8]) -> Result<(BatchItem<'a>, &'a [u8]), ReadStop<'a>>
    ensures { Gives (λ x. (item_of x.0, x.1.now)) result (item_at text.now) }
{
    let Some((first, _)) = text.split_first() else {
        return Err(ReadStop::Departs(text));
    };
    if *first == b'A' {
        read_addition(text)
    } else if *first == b'D' {
        read_removal(text)
    } else {
        Err(ReadStop::Departs(text))
    }
}

#[tactic(auto, unfolding(crate::specs::Reading::addition_at))]
fn read_addition<'a>(text: &'a [u8]) -> Result<(BatchItem<'a>, &'a [u8]), ReadStop<'a>>
    ensures { Gives (λ x. (item_of x.0, x.1.now)) result (addition_at text.now) }
{
    let rest = skip(b"ADD ", text)?;
    let (len, rest) = read_number(0, NINE_DIGITS, b'\n', rest)?;
    let (text, rest) = read_bytes(len, rest)?;
    let rest = skip(b"\n", rest)?;
    Ok((BatchItem::Add { text }, rest))
}

#[tactic(auto, unfolding(crate::specs::Reading::removal_at))]
fn read_removal<'a>(text: &'a [u8]) -> Result<(BatchItem<'a>, &'a [u8]), ReadStop<'a>>
    ensures { Gives (λ x. (item_of x.0, x.1.now)) result (removal_at text.now) }
{
    let rest = skip(b"DROP a", text)?;
    let (k, rest) = read_number(0, NINE_DIGITS, b'\n', rest)?;
    Ok((BatchItem::Remove { k }, rest))
}

/// So many bytes, and what is left.
#[tactic(auto, unfolding(crate::specs::Reading::bytes_at))]
fn read_bytes<'a>(count: u32, text: &'a [u8]) -> Result<(&'a [u8], &'a [u8]), ReadStop<'a>>
    ensures { Gives (λ x. (x.0.now, x.1.now)) result (bytes_at count text.now) }
{
    let count = count as usize;
    if text.len() < count {
        return Err(ReadStop::Departs(b""));
    }
    Ok(text.split_at(count))
}

/// What is left of a text behind these bytes.
fn skip<'a>(literal: &[u8], text: &'a [u8]) -> Result<&'a [u8], ReadStop<'a>>
    ensures { Gives (λ rest. (tt, rest.now)) result (literal_at literal.now text.now) }
{
    let mut rest = text;
    for byte in literal {
        let Some((first, behind)) = rest.split_first() else {
            return Err(ReadStop::Departs(rest));
        };
        if *first != *byte {
            return Err(ReadStop::Departs(rest));
        }
        rest = behind;
    }
    Ok(rest)
}
