//! A page as it is read.
ghost use Rattle.std.specs.Prelude.{◌≡◌, ◌<◌, ◌^◌, ◌∷◌, ◌++◌, length, All, IfOk, IsErrOf, MatchOption};
ghost use Rattle.std.specs.Int.{w32, to_be_bytes};
ghost use Rattle.rs_page.specs.Format.{ArePageItems, page_bytes, items_bytes, AreNoPage, BeginWithFewer};

use crate::PageItem;
use rs_record::{MOST_ITEMS, ValueFault};
use std::alloc::Global;

/// Reads the items of which these bytes are a page.
///
/// # Errors
/// `Malformed` if the bytes are no page of such items; `NoMemory` if the memory for the items was refused.
pub(crate) fn read_items<T: PageItem>(alloc: Global, bytes: &[u8]) -> Result<Vec<T>, ValueFault>
    ensures lawful { IfOk result (λ read. ArePageItems T.format read.items) }
    ensures found { IfOk result (λ read. bytes.now ≡ page_bytes T.format read.items) }
    ensures malformed { IsErrOf result ValueFault.Malformed → AreNoPage T.format bytes.now }
{
    let Some((kind, count, rest)) = head_of(bytes) else {
        return Err(ValueFault::Malformed);
    };
    if kind != T::kind().byte() || count == 0 || count > MOST_ITEMS {
        return Err(ValueFault::Malformed);
    }
    T::formats_stand_alone();
    let (items, rest) = read_first(alloc, count, rest)?;
    if !rest.is_empty() {
        return Err(ValueFault::Malformed);
    }
    Ok(items)
}

/// Returns the kind and the number of items that the bytes begin with, and the bytes after them.
fn head_of(bytes: &[u8]) -> Option<(u8, usize, &[u8])>
    ensures { MatchOption result (length bytes.now < 5) (λ head. (head.1 < 2 ^ 32)
        × (bytes.now ≡ head.0 ∷ (to_be_bytes w32 head.1 ++ head.2.now))) }
{
    let (kind, rest) = bytes.split_first()?;
    let (count, rest) = rest.split_first_chunk::<4>()?;
    Some((*kind, u32::from_be_bytes(*count) as usize, rest))
}

/// Returns the first `count` items that the bytes begin with, and the bytes after them.
fn read_first<T: PageItem>(
    alloc: Global,
    count: usize,
    bytes: &[u8],
) -> Result<(Vec<T>, &[u8]), ValueFault>
    ensures count { IfOk result (λ read. length read.0.items ≡ count) }
    ensures lawful { IfOk result (λ read. All T.format.IsLawful read.0.items) }
    ensures found { IfOk result (λ read. bytes.now ≡ items_bytes T.format read.0.items
        ++ read.1.now) }
    ensures malformed { IsErrOf result ValueFault.Malformed
        → BeginWithFewer T.format count bytes.now }
{
    T::formats_stand_alone();
    let mut items = Vec::new(alloc);
    let mut rest = bytes;
    for _ in 0..count {
        let (item, size) = T::read(alloc, rest)?;
        items.push(item).map_err(|_| ValueFault::NoMemory)?;
        (_, rest) = rest.split_at(size);
    }
    Ok((items, rest))
}
