//! Histories on the disk whose first parts are dropped: the number of changes that are not after a moment, and the
//! pages that are left without the full parts of these, and that go.

use crate::paging::{append, counts, store_history};
use rs_changes::History;
use rs_disk::MemoryDisk;
use rs_extent::Used;
use rs_page::PageRef;
use rs_record::Change;
use rs_time::Moment;
use std::process::Abort;
use std::test::Fail;

/// Returns the references to the pages, of 64, 64 and 1, of 129 changes, each at the moment of its
/// place.
fn grown(
    rt: &(impl Abort + AllocGlobal),
    disk: &mut MemoryDisk,
    used: &mut Used,
) -> Result<Vec<PageRef>, Fail> {
    let mut pages = Vec::new(rt.alloc());
    for ms in 0..129 {
        pages = append(rt, disk, used, &pages, ms)?;
    }
    Ok(pages)
}

/// A moment and a limit; the number of changes that are not after the moment, and of the full parts of these; the
/// number of pages that are left without these parts, and of those on the disk that have a change of them.
type Row = (u64, u16, usize, u16, usize, usize);

// The changes of the moments from 0 on, in pages that begin at the places 0, 64 and 128.
const ROWS: [Row; 9] = [
    (0, 2, 1, 0, 3, 0),
    (1, 2, 2, 1, 3, 1),
    (63, 2, 64, 32, 2, 1),
    (64, 2, 65, 32, 2, 1),
    (65, 2, 66, 33, 2, 2),
    (66, 2, 67, 33, 2, 2),
    (127, 2, 128, 64, 1, 2),
    (500, 2, 129, 64, 1, 2),
    (500, 3, 129, 43, 0, 3),
];

/// Drops the parts of a row from the history, whose first part is number 7, and checks the counts.
fn drop_parts(
    rt: &(impl Abort + AllocGlobal),
    history: &History,
    pages: &[PageRef],
    row: &Row,
) -> Result<(), Fail> {
    let (_, limit, _, parts, left, gone) = *row;
    let (parts, dropped) = (u64::from(parts), u64::from(parts) * u64::from(limit));
    assert_eq!(rt; (history.first(), history.len()), (7, 129));
    assert!(rt; dropped <= 129 && gone <= pages.len());
    let entries = history.dropped_entries(rt.alloc(), parts, limit)?;
    assert_eq!(rt; entries.as_slice(), &pages[..gone], "{dropped}");
    let next = history.drop_parts(rt.alloc(), parts, limit)?;
    assert_eq!(rt;
        (next.first(), next.as_pages().page_count()),
        (7 + parts, left),
        "{dropped}"
    );
    assert_eq!(rt; next.len() as u64, 129 - dropped, "{dropped}");
    assert_eq!(rt;
        next.pages(rt.alloc())?.as_slice(),
        &pages[gone..],
        "{dropped}"
    );
    Ok(())
}

#[test]
fn parts_up_to_a_moment_are_dropped(rt: HostRuntime) -> Result<(), Fail> {
    let mut used = Used::new(rt.alloc(), 2048)?;
    let mut disk = MemoryDisk::new(rt.alloc(), 1_048_576)?;
    let pages = grown(&rt, &mut disk, &mut used)?;
    let history = History::load(rt.alloc(), &mut disk, 7, &pages)?;
    for row in &ROWS {
        let (ms, _, passed, _, _, _) = *row;
        let moment = Moment::new(ms).ok_or("a moment")?;
        assert_eq!(rt; history.count_up_to(moment), passed, "{ms}");
        drop_parts(&rt, &history, &pages, row)?;
    }
    Ok(())
}

/// Stores the history of these pages without its first parts of two changes, and returns the
/// references to its pages.
#[tactic(auto, using(crate::proofs::Placed::none_placed))]
fn store_without(
    rt: &(impl Abort + AllocGlobal),
    disk: &mut MemoryDisk,
    used: &mut Used,
    pages: &[PageRef],
    parts: u16,
) -> Result<Vec<PageRef>, Fail> {
    let parts = u64::from(parts);
    let old = History::load(rt.alloc(), disk, 0, pages)?;
    assert!(rt; parts * 2 <= old.len() as u64);
    let mut history = old.drop_parts(rt.alloc(), parts, 2)?;
    store_history(rt, &mut history, used, disk)
}

#[test]
fn the_page_of_the_cut_is_written(rt: HostRuntime) -> Result<(), Fail> {
    let mut used = Used::new(rt.alloc(), 2048)?;
    let mut disk = MemoryDisk::new(rt.alloc(), 1_048_576)?;
    let pages = grown(&rt, &mut disk, &mut used)?;
    let left = store_without(&rt, &mut disk, &mut used, &pages, 33)?;
    let counts = counts::<Change>(&rt, &mut disk, &left)?;
    assert_eq!(rt; counts.as_slice(), [62, 1].as_slice());
    assert_eq!(rt; left.last(), pages.last());
    let history = History::load(rt.alloc(), &mut disk, 33, &left)?;
    assert_eq!(rt; (history.first(), history.len()), (33, 63));
    for i in 0..history.len() {
        assert_eq!(rt; history.at(i).moment.ms(), 66 + i as u64);
    }
    Ok(())
}
