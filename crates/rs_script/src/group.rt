//! A group while its lines come.

ghost use Rattle.std.specs.Prelude.{◌≡◌, ◌⊎◌, ◌∷◌, [], ◌++◌, ◌≤◌, ℕ, List, IfSome};
ghost use Rattle.rs_script.specs.PartialLine.{IsContent};
ghost use Rattle.rs_script.specs.Room.{TakesRoom};
ghost use Rattle.rs_script.specs.Statements.{group_size as size_of, grouped_item};
ghost use Rattle.rs_script.specs.Taken.{KeepsItems};

use crate::line::Content;
use crate::refusal::Refusal;
use crate::request::item_in_line;
use rs_items::{ItemFault, after};
use rs_model::{Item, MOST_GROUPED};
use rs_record::number;
use std::alloc::Global;

/// A group that lacks at least one of its lines.
#[derive(Drop)]
pub struct Taking {
    /// The number of lines that it lacks after the next one.
    pub later: usize,
    /// The items of the lines that have come, or the first fault, for which the group is refused.
    pub items: Result<Vec<Item>, Refusal>,
}

/// Returns the number of lines of the group that `line` begins, 1 to 16, or `None` if it begins no group.
fn group_size(line: &[u8]) -> Option<usize>
    ensures value { result ≡ size_of line.now }
    ensures some { IfSome result (λ size. 1 ≤ size) }
{
    let digits = after(b"group ", line)?;
    let size = number(digits, 2)? as usize;
    if size == 0 || size > MOST_GROUPED {
        return None;
    }
    Some(size)
}

/// Returns the number of lines of the group that this line begins, or `None` if it begins no group.
pub fn size_begun(content: Content<'_>) -> Option<usize>
    ensures value { (line : List ℕ) → IsContent content.entry line → result ≡ size_of line }
    ensures some { IfSome result (λ size. 1 ≤ size) }
{
    match content {
        Content::Bytes(line) => group_size(line),
        Content::Foreign | Content::Refused | Content::TooLong => None,
    }
}

/// Returns the items with that of one more line, or the first fault. Lack of memory is a fault as well.
pub fn with_line(
    alloc: Global,
    items: Result<Vec<Item>, Refusal>,
    content: Content<'_>,
) -> Result<Vec<Item>, Refusal>
    ensures { (line : List ℕ) (lines : List (List ℕ))
        → IsContent content.entry line → KeepsItems items lines
        → KeepsItems result (lines ++ line ∷ []) }
{
    let mut items = items?;
    let item = item_in(alloc, content)?;
    match items.push(item) {
        Ok(()) => Ok(items),
        Err(_) => Err(Refusal::Line(ItemFault::NoMemory)),
    }
}

/// Returns the item of a line of a group.
fn item_in(alloc: Global, content: Content<'_>) -> Result<Item, Refusal>
    ensures { (line : List ℕ) → IsContent content.entry line
        → (result ≡ grouped_item line) ⊎ ((result ≡ Err (Refusal.Line ItemFault.NoMemory)) × TakesRoom line) }
{
    match content {
        Content::Bytes(bytes) => item_in_line(alloc, bytes),
        Content::Foreign => Err(Refusal::Line(ItemFault::BadLine)),
        Content::Refused => Err(Refusal::Line(ItemFault::NoMemory)),
        Content::TooLong => Err(Refusal::LongLine),
    }
}
