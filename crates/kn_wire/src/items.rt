//! The items of a batch's block (keynoted's own line protocol).
ghost use Rattle.std.specs.Prelude.{ℕ, ◌≡◌, ◌≤◌, All, IfErr, IfOk, length, map, Ok, option_map};
ghost use Rattle.kn_wire.specs.Items.{addition_of, first_item, item_of_line, items_of, removal_of};
ghost use Rattle.kn_wire.specs.ItemsInCode.{item_of, HasFault, IsWithin};

use crate::split::{number_behind, place_of, split_word};
use kn_base::limits::CHANGES;
use kn_base::{List, decimal};
use std::alloc::Global;

/// An item of a batch.
#[derive(Clone, Copy)]
pub enum BatchItem<'a> {
    /// Adds a credential of this text: `ADD` with the length of the text, and the text.
    Add { text: &'a [u8] },
    /// Removes a shared credential: `DROP` with its number.
    Remove { k: u32 },
}

/// Why a block gives no items.
#[derive(Clone, Copy, PartialEq, Eq, Drop)]
pub enum BatchText {
    /// The block departs from the form at this item, counted from 1: none begins there, or 256 items stand before it
    /// and a byte follows.
    Form { item: u32 },
    /// Out of memory for the list of items.
    NoMemory,
}

/// The items of a block, of which there are 1 to 256, with nothing between or behind them. No text of theirs is longer
/// than the block.
pub fn batch_items<'a>(alloc: Global, block: &'a [u8]) -> Result<List<BatchItem<'a>>, BatchText>
    ensures items { IfOk result (λ items. items_of block.now ≡ Ok (map item_of items)) }
    ensures some { IfOk result (λ items. 1 ≤ length items) }
    ensures few { IfOk result (λ items. length items ≤ CHANGES) }
    ensures short { IfOk result (λ items. (limit : ℕ) → length block.now ≤ limit → All (IsWithin limit) items) }
    ensures fault { IfErr result (λ fault. HasFault block.now fault) }
{
    if block.is_empty() {
        return Err(BatchText::Form { item: 1 });
    }
    let mut items = List::new(alloc);
    let mut rest = block;
    while !rest.is_empty() {
        let number = items.len() + 1;
        if number > CHANGES {
            return Err(BatchText::Form { item: number });
        }
        let Some((item, left)) = first_item(rest) else {
            return Err(BatchText::Form { item: number });
        };
        match items.push(item) {
            Ok(()) => rest = left,
            Err(_) => return Err(BatchText::NoMemory),
        }
    }
    Ok(items)
}

/// The item with which a text begins, and what is left; None where it begins with none.
fn first_item(text: &[u8]) -> Option<(BatchItem<'_>, &[u8])>
    ensures { option_map (λ found. (item_of found.0, found.1.now)) result ≡ first_item text.now }
{
    let end = place_of(b'\n', text, 0);
    if end == text.len() {
        return None;
    }
    item_of_line(text.split_at(end).0, text.split_at(end + 1).1)
}

/// The item of a line and of what follows its newline, and what is left.
fn item_of_line<'a>(line: &'a [u8], text: &'a [u8]) -> Option<(BatchItem<'a>, &'a [u8])>
    ensures { option_map (λ found. (item_of found.0, found.1.now)) result ≡ item_of_line line.now text.now }
{
    let (word, rest) = split_word(line);
    let rest = rest?;
    if word == b"ADD".as_slice() {
        read_addition(rest, text)
    } else if word == b"DROP".as_slice() {
        read_removal(rest, text)
    } else {
        None
    }
}

/// The addition of as many bytes as these digits say. A newline has to follow them.
fn read_addition<'a>(digits: &[u8], text: &'a [u8]) -> Option<(BatchItem<'a>, &'a [u8])>
    ensures { option_map (λ found. (item_of found.0, found.1.now)) result ≡ addition_of digits.now text.now }
{
    let size = decimal(digits)? as usize;
    if *text.get(size)? != b'\n' {
        return None;
    }
    let added = text.split_at(size).0;
    Some((BatchItem::Add { text: added }, text.split_at(size + 1).1))
}

/// The removal of the credential that an id names.
fn read_removal<'a>(id: &[u8], text: &'a [u8]) -> Option<(BatchItem<'a>, &'a [u8])>
    ensures { option_map (λ found. (item_of found.0, found.1.now)) result ≡ removal_of id.now text.now }
{
    let k = number_behind(b'a', id)?;
    Some((BatchItem::Remove { k }, text))
}
