//! Pages that are made and copied.
ghost use Rattle.std.specs.Prelude.{◌≡◌, ◌+◌, ◌++◌, ◌∷◌, ◌≤◌, [], length, take, drop, map, IfOk, OnOk};
ghost use Rattle.rs_pages.specs.Rule.{cut_into_pieces_of, touched, touched_pages};

use rs_page::{Page, PageItem};
use rs_record::{Duplicate, duplicate_all};
use std::alloc::{AllocError, Global};

/// The most items of a page that is touched: a last page with fewer takes one more at its end.
pub(crate) const MOST: usize = 64;

// The number of items of a page that is cut from the front of a touched page.
const CUT: usize = 32;

/// Appends the pages that these items are cut into.
pub(crate) fn cut_into<T: PageItem>(
    pages: &mut Vec<Page<T>>,
    items: Vec<T>,
) -> Result<(), AllocError>
    ensures { OnOk result (pages.new.items ≡ pages.old.items ++ touched_pages items.items) }
{
    cut_into_pieces(pages, items, CUT)
}

/// Appends pages of `piece` of these items each until at most 64 are left, and a page of those.
pub(crate) fn cut_into_pieces<T: PageItem>(
    pages: &mut Vec<Page<T>>,
    items: Vec<T>,
    piece: usize,
) -> Result<(), AllocError>
    requires some { 1 ≤ piece }
    requires within { piece ≤ 64 }
    ensures { OnOk result
        (pages.new.items ≡ pages.old.items ++ map touched (cut_into_pieces_of piece items.items)) }
{
    if items.is_empty() {
        return Ok(());
    }
    let mut rest = items;
    while rest.len() > MOST {
        let later = rest.split_off(piece)?;
        pages.push(Page::new(rest))?;
        rest = later;
    }
    pages.push(Page::new(rest))?;
    Ok(())
}

/// Appends pages of copies of these items, 64 each, of which the last has the rest. It copies every
/// item once.
pub(crate) fn copy_in_pages<T: PageItem + Duplicate>(
    alloc: Global,
    pages: &mut Vec<Page<T>>,
    items: &[T],
) -> Result<(), AllocError>
    ensures { OnOk result
        (pages.new.items ≡ pages.old.items ++ map touched (cut_into_pieces_of 64 items.now)) }
{
    if items.is_empty() {
        return Ok(());
    }
    let mut rest = items;
    while rest.len() > MOST {
        let (page, later) = split_off_page(rest);
        add_copy(alloc, pages, page)?;
        rest = later;
    }
    add_copy(alloc, pages, rest)
}

/// Returns the first 64 of these items, and those after them.
fn split_off_page<T>(items: &[T]) -> (&[T], &[T])
    requires { 64 ≤ length items.now }
    ensures page { result.0.now ≡ take 64 items.now }
    ensures size { length result.0.now ≡ 64 }
    ensures later { result.1.now ≡ drop 64 items.now }
    ensures left { length result.1.now + 64 ≡ length items.now }
{
    items.split_at(MOST)
}

/// Appends a page of copies of these items.
fn add_copy<T: PageItem + Duplicate>(
    alloc: Global,
    pages: &mut Vec<Page<T>>,
    items: &[T],
) -> Result<(), AllocError>
    requires some { 1 ≤ length items.now }
    requires few { length items.now ≤ 64 }
    ensures { OnOk result (pages.new.items ≡ pages.old.items ++ touched items.now ∷ []) }
{
    pages.push(Page::new(duplicate_all(alloc, items)?))?;
    Ok(())
}

/// Appends copies of these pages.
pub(crate) fn copy_into<T: PageItem + Duplicate>(
    alloc: Global,
    copied: &mut Vec<Page<T>>,
    pages: &[Page<T>],
) -> Result<(), AllocError>
    ensures { OnOk result (copied.new.items ≡ copied.old.items ++ pages.now) }
{
    for page in pages {
        copied.push(page.copy(alloc)?)?;
    }
    Ok(())
}

/// Returns the pages before, the pages that the items are cut into, and the pages after.
pub(crate) fn spliced<T: PageItem + Duplicate>(
    alloc: Global,
    before: &[Page<T>],
    items: Vec<T>,
    after: &[Page<T>],
) -> Result<Vec<Page<T>>, AllocError>
    ensures { IfOk result
        (λ pages. pages.items ≡ before.now ++ (touched_pages items.items ++ after.now)) }
{
    let mut pages = Vec::with_capacity(alloc, before.len())?;
    copy_into(alloc, &mut pages, before)?;
    cut_into(&mut pages, items)?;
    copy_into(alloc, &mut pages, after)?;
    Ok(pages)
}
