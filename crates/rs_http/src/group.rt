//! The items that the body of a group asks for.

ghost use Rattle.std.specs.Prelude.{◌≡◌, ◌⊎◌, ◌<◌, ◌≤◌, ◌++◌, ◌∷◌, [], List, length, take, IfOk, IfErr, IfSome, IfNone, OnOk};
ghost use Rattle.std.specs.List.{position};
ghost use Rattle.rs_model.specs.declared.command.Item.{Item};
ghost use Rattle.rs_items.specs.Items.{item_of_line};
ghost use Rattle.rs_http.specs.Groups.{is_break, lines_of, items_of_lines, items_in};
ghost use Rattle.rs_items.specs.Lines.{cut_return as without_return, last_line};

use rs_items::{ItemFault, item_of};
use rs_model::{Item, MOST_GROUPED};
use std::alloc::{AllocError, Global};

/// The number of items that are kept: one more than a group may have. The source refuses them as it would refuse all of
/// them.
const MOST_KEPT: usize = MOST_GROUPED + 1;

/// Returns a line without its line feed and without a carriage return before that.
fn cut_return(raw: &[u8]) -> &[u8]
    ensures { result.now ≡ without_return raw.now }
{
    match raw {
        [line @ .., b'\r'] => line,
        _ => raw,
    }
}

/// Returns the index of the first line feed.
fn first_break(bytes: &[u8]) -> Option<usize>
    ensures { result ≡ position is_break bytes.now }
{
    bytes.iter().position(|b| *b == b'\n')
}

/// Returns the first line of some bytes and the bytes after its line feed, or `None` without a line feed.
fn split_line(bytes: &[u8]) -> Option<(&[u8], &[u8])>
    ensures some { IfSome result (λ parts.
        lines_of bytes.now ≡ parts.0.now ∷ lines_of parts.1.now) }
    ensures shorter { IfSome result (λ parts. length parts.1.now < length bytes.now) }
    ensures none { IfNone result (lines_of bytes.now ≡ last_line bytes.now) }
{
    match first_break(bytes) {
        Some(i) => Some((cut_return(&bytes[..i]), &bytes[i + 1..])),
        None => None,
    }
}

/// Adds an item to those that are kept, unless there are enough.
fn keep(items: &mut Vec<Item>, item: Item) -> Result<(), AllocError>
    requires { length items.old.items ≤ 17 }
    ensures { OnOk result (items.new.items ≡ take 17 (items.old.items ++ item ∷ [])) }
{
    if items.len() >= MOST_KEPT {
        return Ok(());
    }
    items.push(item)?;
    Ok(())
}

/// Reads a line, and keeps its item if it is one of the first.
fn add_item(alloc: Global, items: &mut Vec<Item>, line: &[u8]) -> Result<(), ItemFault>
    requires { length items.old.items ≤ 17 }
    ensures ok { OnOk result ((item : Item) × (item_of_line line.now ≡ Ok item)
        × (items.new.items ≡ take 17 (items.old.items ++ item ∷ []))) }
    ensures err { IfErr result (λ fault. (fault ≡ ItemFault.NoMemory)
        ⊎ (item_of_line line.now ≡ Err fault)) }
{
    let item = item_of(alloc, line)?;
    keep(items, item)?;
    Ok(())
}

/// Reads the bytes after the last line feed. They are a line unless they are empty.
fn add_last(alloc: Global, items: &mut Vec<Item>, bytes: &[u8]) -> Result<(), ItemFault>
    requires { length items.old.items ≤ 17 }
    ensures ok { OnOk result ((last : List Item) × (items_of_lines (last_line bytes.now) ≡ Ok last)
        × (items.new.items ≡ take 17 (items.old.items ++ last))) }
    ensures err { IfErr result (λ fault. (fault ≡ ItemFault.NoMemory)
        ⊎ (items_of_lines (last_line bytes.now) ≡ Err fault)) }
{
    if bytes.is_empty() {
        return Ok(());
    }
    add_item(alloc, items, bytes)
}

/// Reads the first 17 items of a body. Every line is read, those after the kept items too.
///
/// # Errors
///
/// The fault of the first line that has one, or [`ItemFault::NoMemory`] if the memory for an item is refused.
pub(crate) fn first_items(alloc: Global, body: &[u8]) -> Result<Vec<Item>, ItemFault>
    ensures ok { IfOk result (λ items. (all : List Item) × (items_in body.now ≡ Ok all)
        × (items.items ≡ take 17 all)) }
    ensures err { IfErr result (λ fault. (fault ≡ ItemFault.NoMemory)
        ⊎ (items_in body.now ≡ Err fault)) }
{
    let mut items = Vec::new(alloc);
    let mut rest = body;
    while let Some((line, after)) = split_line(rest) {
        add_item(alloc, &mut items, line)?;
        rest = after;
    }
    add_last(alloc, &mut items, rest)?;
    Ok(items)
}
