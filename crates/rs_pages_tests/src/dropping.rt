//! Lists of pages without their first items, and histories without their first parts: the number of
//! pages that are left.

use crate::lists::with;
use crate::pages::store;
use crate::values::deletion;
use rs_changes::History;
use rs_disk::MemoryDisk;
use rs_extent::Used;
use rs_page::{Page, Place};
use rs_pages::Pages;
use rs_record::Change;
use std::process::Abort;
use std::test::Fail;

/// Returns `len` changes, each at the moment of its place.
fn changes(rt: &impl AllocGlobal, len: u64) -> Result<Vec<Change>, Fail> {
    let mut items = Vec::new(rt.alloc());
    for ms in 0..len {
        items.push(deletion(rt, b"a", ms)?)?;
    }
    Ok(items)
}

/// Returns `len` changes, appended one after the other.
fn appended(rt: &impl AllocGlobal, len: u64) -> Result<Pages<Change>, Fail> {
    let mut pages = Pages::empty(rt.alloc());
    for ms in 0..len {
        pages = pages.append(rt.alloc(), deletion(rt, b"a", ms)?)?;
    }
    Ok(pages)
}

/// Returns one page of 200 changes, as an older disk has it.
fn older(rt: &(impl Abort + AllocGlobal)) -> Result<Pages<Change>, Fail> {
    let items = changes(rt, 200)?;
    assert!(rt; items.len() == 200);
    let mut page = Page::new(items);
    let mut used = Used::new(rt.alloc(), 64)?;
    page.place_in(&mut used)?;
    let mut disk = MemoryDisk::new(rt.alloc(), 32_768)?;
    store(rt, &mut page, &mut disk)?;
    let Place::Stored(at) = page.place() else {
        panic!(rt; "the page is not stored");
    };
    Ok(Pages::load(rt.alloc(), &mut disk, &[at])?)
}

// The number of items dropped of pages of 64, 64 and 2, and the number of pages left.
const APPENDED: [(usize, usize); 8] = [
    (0, 3),
    (1, 3),
    (63, 3),
    (64, 2),
    (70, 2),
    (128, 1),
    (129, 1),
    (130, 0),
];

// The same of one page of 200.
const OLDER: [(usize, usize); 6] = [(0, 1), (3, 4), (8, 3), (136, 1), (137, 1), (200, 0)];

/// Drops as many changes as the rows say, and checks the number of pages left, and the first change.
fn drop_each(
    rt: &(impl Abort + AllocGlobal),
    pages: &Pages<Change>,
    rows: &[(usize, usize)],
) -> Result<(), Fail> {
    for (count, left) in rows {
        assert!(rt; *count <= pages.len());
        let next = pages.without_front(rt.alloc(), *count)?;
        let rest = pages.len() - *count;
        assert_eq!(rt; (next.page_count(), next.len()), (*left, rest), "{count}");
        if next.len() > 0 {
            assert_eq!(rt; next.at(0).moment.ms(), *count as u64, "{count}");
        }
    }
    Ok(())
}

#[test]
fn first_changes_are_dropped(rt: HostRuntime) -> Result<(), Fail> {
    drop_each(&rt, &appended(&rt, 130)?, &APPENDED)?;
    drop_each(&rt, &older(&rt)?, &OLDER)
}

/// Returns a history of 130 of these changes.
fn history(rt: &(impl Abort + AllocGlobal)) -> Result<History, Fail> {
    let mut history = History::empty(rt.alloc());
    for ms in 0..130 {
        history = with(rt, &history, ms)?;
    }
    Ok(history)
}

// The number of dropped parts, and of changes of a part, of 130 changes in pages of 64, 64 and 2,
// and the number of pages left.
const PARTS: [(u16, u16, usize); 6] = [
    (0, 50, 3),
    (1, 50, 3),
    (2, 50, 2),
    (1, 64, 2),
    (2, 65, 0),
    (65, 2, 0),
];

#[test]
fn first_parts_are_dropped(rt: HostRuntime) -> Result<(), Fail> {
    let whole = history(&rt)?;
    for (count, limit, pages) in &PARTS {
        let dropped = u64::from(*count) * u64::from(*limit);
        assert!(rt; dropped <= whole.len() as u64 && whole.first() == 0);
        let left = whole.drop_parts(rt.alloc(), u64::from(*count), *limit)?;
        let rest = whole.len() as u64 - dropped;
        assert_eq!(rt;
            (left.as_pages().page_count(), left.len() as u64),
            (*pages, rest)
        );
        assert_eq!(rt; left.first(), u64::from(*count));
        if left.len() > 0 {
            assert_eq!(rt; left.at(0).moment.ms(), dropped);
        }
    }
    Ok(())
}
