//! Catalogues and histories of many pages: how these are cut, and which of them are rewritten.
//!
//! No page is freed here, so every page that was ever stored stays on the disk.
ghost use Rattle.std.specs.Prelude.{◌≡◌, []};
ghost use Rattle.rs_page.specs.Pages.{placed_extents};

use crate::lists::with;
use rs_catalogue::Catalogue;
use rs_changes::History;
use rs_disk::{Disk, MemoryDisk};
use rs_extent::{Extent, Used};
use rs_fixity::digests_of;
use rs_page::{Page, PageItem, PageRef};
use rs_record::{Change, MediaType, Name, Record};
use rs_time::Moment;
use std::process::Abort;
use std::test::Fail;

/// Returns the name of this number, as `n007`.
fn named(rt: &impl AllocGlobal, number: u64) -> Result<Name, Fail> {
    let text = format!(in rt.alloc(); "n{number:03}")?;
    Ok(Name::new(rt.alloc(), text.as_bytes())?)
}

/// Returns a record of the name of this number.
fn record(rt: &impl AllocGlobal, number: u64) -> Result<Record, Fail> {
    let kind = MediaType::new(rt.alloc(), b"text/plain")?;
    Ok(Record {
        name: named(rt, number)?,
        kind,
        length: 5,
        digests: digests_of(b"hello"),
        moment: Moment::first(),
        extent: Extent {
            first: 2,
            blocks: 1,
        },
    })
}

/// Stores a catalogue, and returns the references to its pages.
fn store(
    rt: &(impl Abort + AllocGlobal),
    catalogue: &mut Catalogue,
    used: &mut Used,
    disk: &mut MemoryDisk,
) -> Result<Vec<PageRef>, Fail>
    requires { placed_extents catalogue.old ≡ [] }
{
    assert_eq!(rt; disk.size(), 512 * u64::from(used.blocks()));
    catalogue.place_touched(used)?;
    catalogue.store_touched(rt.alloc(), disk)?;
    Ok(catalogue.pages(rt.alloc())?)
}

/// Binds the name of this number in the catalogue of these pages.
#[tactic(auto, using(crate::proofs::Placed::none_placed))]
fn bind(
    rt: &(impl Abort + AllocGlobal),
    disk: &mut MemoryDisk,
    used: &mut Used,
    pages: &[PageRef],
    number: u64,
) -> Result<Vec<PageRef>, Fail> {
    let old = Catalogue::load(rt.alloc(), disk, pages)?;
    assert!(rt; old.len() < 50_000);
    let mut catalogue = old.with(rt.alloc(), record(rt, number)?)?;
    store(rt, &mut catalogue, used, disk)
}

/// Unbinds the name of this number in the catalogue of these pages.
#[tactic(auto, using(crate::proofs::Placed::none_placed))]
fn unbind(
    rt: &(impl Abort + AllocGlobal),
    disk: &mut MemoryDisk,
    used: &mut Used,
    pages: &[PageRef],
    number: u64,
) -> Result<Vec<PageRef>, Fail> {
    let old = Catalogue::load(rt.alloc(), disk, pages)?;
    let mut catalogue = old.without(rt.alloc(), &named(rt, number)?)?;
    store(rt, &mut catalogue, used, disk)
}

/// Stores a history, and returns the references to its pages.
pub(super) fn store_history(
    rt: &(impl Abort + AllocGlobal),
    history: &mut History,
    used: &mut Used,
    disk: &mut MemoryDisk,
) -> Result<Vec<PageRef>, Fail>
    requires { placed_extents history.old.pages ≡ [] }
{
    assert_eq!(rt; disk.size(), 512 * u64::from(used.blocks()));
    history.place_touched(used)?;
    history.store_touched(rt.alloc(), disk)?;
    Ok(history.pages(rt.alloc())?)
}

/// Appends a change at this moment to the history of these pages.
#[tactic(auto, using(crate::proofs::Placed::none_placed))]
pub(super) fn append(
    rt: &(impl Abort + AllocGlobal),
    disk: &mut MemoryDisk,
    used: &mut Used,
    pages: &[PageRef],
    ms: u64,
) -> Result<Vec<PageRef>, Fail> {
    let old = History::load(rt.alloc(), disk, 0, pages)?;
    let mut history = with(rt, &old, ms)?;
    store_history(rt, &mut history, used, disk)
}

/// Returns the number of items of every page.
pub(super) fn counts<T: PageItem>(
    rt: &impl AllocGlobal,
    disk: &mut MemoryDisk,
    pages: &[PageRef],
) -> Result<Vec<usize>, Fail> {
    let mut counts = Vec::new(rt.alloc());
    for page in pages {
        let page: Page<T> = Page::load(rt.alloc(), disk, page)?;
        counts.push(page.items().len())?;
    }
    Ok(counts)
}

/// Returns for all new pages whether they are among the old ones.
fn kept(rt: &impl AllocGlobal, old: &[PageRef], new: &[PageRef]) -> Result<Vec<bool>, Fail> {
    let mut kept = Vec::new(rt.alloc());
    for page in new {
        kept.push(old.contains(page))?;
    }
    Ok(kept)
}

/// Checks that the catalogue of these pages has the names of the numbers below 130.
fn are_numbered(
    rt: &(impl Abort + AllocGlobal),
    disk: &mut MemoryDisk,
    pages: &[PageRef],
) -> Result<(), Fail> {
    let catalogue = Catalogue::load(rt.alloc(), disk, pages)?;
    assert_eq!(rt; catalogue.len(), 130);
    for i in 0..catalogue.len() {
        let name = named(rt, i as u64)?;
        assert_eq!(rt; catalogue.at(i).name.bytes(), name.bytes());
    }
    Ok(())
}

/// Checks that the history of these pages has the changes of the moments before 130.
fn are_timed(
    rt: &(impl Abort + AllocGlobal),
    disk: &mut MemoryDisk,
    pages: &[PageRef],
) -> Result<(), Fail> {
    let history = History::load(rt.alloc(), disk, 0, pages)?;
    assert_eq!(rt; history.len(), 130);
    for i in 0..history.len() {
        assert_eq!(rt; history.at(i).moment.ms(), i as u64);
    }
    Ok(())
}

/// Returns the pages of a catalogue in which the names of the numbers below 130 were bound in their
/// order.
fn bound(
    rt: &(impl Abort + AllocGlobal),
    disk: &mut MemoryDisk,
    used: &mut Used,
) -> Result<Vec<PageRef>, Fail> {
    let mut pages = Vec::new(rt.alloc());
    for number in 0..130 {
        pages = bind(rt, disk, used, &pages, number)?;
    }
    Ok(pages)
}

#[test]
fn a_bind_writes_the_page_that_it_touches(rt: HostRuntime) -> Result<(), Fail> {
    let mut used = Used::new(rt.alloc(), 2048)?;
    let mut disk = MemoryDisk::new(rt.alloc(), 1_048_576)?;
    let pages = bound(&rt, &mut disk, &mut used)?;
    let counts = counts::<Record>(&rt, &mut disk, &pages)?;
    assert_eq!(rt; counts.as_slice(), [32, 32, 32, 34].as_slice());
    are_numbered(&rt, &mut disk, &pages)?;
    let again = bind(&rt, &mut disk, &mut used, &pages, 129)?;
    let kept = kept(&rt, &pages, &again)?;
    assert_eq!(rt; kept.as_slice(), [true, true, true, false].as_slice());
    Ok(())
}

#[test]
fn a_page_without_names_goes(rt: HostRuntime) -> Result<(), Fail> {
    let mut used = Used::new(rt.alloc(), 2048)?;
    let mut disk = MemoryDisk::new(rt.alloc(), 1_048_576)?;
    let old = bound(&rt, &mut disk, &mut used)?;
    let mut pages = unbind(&rt, &mut disk, &mut used, &old, 32)?;
    for number in 33..64 {
        pages = unbind(&rt, &mut disk, &mut used, &pages, number)?;
    }
    let counts = counts::<Record>(&rt, &mut disk, &pages)?;
    assert_eq!(rt; counts.as_slice(), [32, 32, 34].as_slice());
    let kept = kept(&rt, &old, &pages)?;
    assert_eq!(rt; kept.as_slice(), [true, true, true].as_slice());
    Ok(())
}

#[test]
fn a_change_writes_the_last_page(rt: HostRuntime) -> Result<(), Fail> {
    let mut used = Used::new(rt.alloc(), 2048)?;
    let mut disk = MemoryDisk::new(rt.alloc(), 1_048_576)?;
    let mut pages = Vec::new(rt.alloc());
    for ms in 0..130 {
        pages = append(&rt, &mut disk, &mut used, &pages, ms)?;
    }
    let counts = counts::<Change>(&rt, &mut disk, &pages)?;
    assert_eq!(rt; counts.as_slice(), [64, 64, 2].as_slice());
    are_timed(&rt, &mut disk, &pages)?;
    let longer = append(&rt, &mut disk, &mut used, &pages, 130)?;
    let kept = kept(&rt, &pages, &longer)?;
    assert_eq!(rt; kept.as_slice(), [true, true, false].as_slice());
    Ok(())
}
