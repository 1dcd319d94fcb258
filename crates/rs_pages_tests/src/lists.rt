//! Catalogues and histories on a device that fails, and the parts of a history.
ghost use Rattle.std.specs.Prelude.{◌≡◌, [], IfOk};
ghost use Rattle.rs_page.specs.Pages.{placed_extents};

use crate::values::deletion;
use rs_body::LoadFault;
use rs_catalogue::{Catalogue, StoreFault};
use rs_changes::History;
use rs_disk::{Disk, MemoryDisk};
use rs_extent::{Extent, Used};
use rs_fixity::digests_of;
use rs_record::{MediaType, Name, Record};
use rs_time::Moment;
use std::process::Abort;
use std::test::Fail;

/// Returns a record of `a`.
fn record(rt: &impl AllocGlobal) -> Result<Record, Fail> {
    let moment = Moment::new(1000).ok_or("a moment")?;
    let kind = MediaType::new(rt.alloc(), b"text/plain")?;
    Ok(Record {
        name: Name::new(rt.alloc(), b"a")?,
        kind,
        length: 5,
        digests: digests_of(b"hello"),
        moment,
        extent: Extent {
            first: 2,
            blocks: 1,
        },
    })
}

/// Stores a catalogue where its first write fails.
fn is_not_stored(
    rt: &(impl Abort + AllocGlobal),
    catalogue: &mut Catalogue,
    used: &mut Used,
    disk: &mut MemoryDisk,
) -> Result<(), Fail>
    requires { placed_extents catalogue.old ≡ [] }
{
    assert_eq!(rt; disk.size(), 512 * u64::from(used.blocks()));
    catalogue.place_touched(used)?;
    disk.fail_once(0);
    assert_eq!(rt;
        catalogue.store_touched(rt.alloc(), disk),
        Err(StoreFault::Device)
    );
    assert_eq!(rt; (disk.faults(), catalogue.len()), (1, 1));
    Ok(())
}

#[test]
fn a_catalogue_is_not_stored_by_a_failing_write(rt: HostRuntime) -> Result<(), Fail> {
    let mut used = Used::new(rt.alloc(), 4)?;
    let mut disk = MemoryDisk::new(rt.alloc(), 2048)?;
    let mut catalogue = Catalogue::empty(rt.alloc()).with(rt.alloc(), record(&rt)?)?;
    is_not_stored(&rt, &mut catalogue, &mut used, &mut disk)
}

/// Stores a history where its first write fails.
fn is_not_kept(
    rt: &(impl Abort + AllocGlobal),
    history: &mut History,
    used: &mut Used,
    disk: &mut MemoryDisk,
) -> Result<(), Fail>
    requires { placed_extents history.old.pages ≡ [] }
{
    assert_eq!(rt; disk.size(), 512 * u64::from(used.blocks()));
    history.place_touched(used)?;
    disk.fail_once(0);
    assert_eq!(rt;
        history.store_touched(rt.alloc(), disk),
        Err(StoreFault::Device)
    );
    assert_eq!(rt; (disk.faults(), history.len()), (1, 1));
    Ok(())
}

#[test]
fn a_history_is_not_stored_by_a_failing_write(rt: HostRuntime) -> Result<(), Fail> {
    let mut used = Used::new(rt.alloc(), 4)?;
    let mut disk = MemoryDisk::new(rt.alloc(), 2048)?;
    let mut history = History::empty(rt.alloc()).with(rt.alloc(), deletion(&rt, b"a", 1000)?)?;
    is_not_kept(&rt, &mut history, &mut used, &mut disk)
}

/// Returns the history with one more change, at this moment.
pub(super) fn with(
    rt: &(impl Abort + AllocGlobal),
    history: &History,
    ms: u64,
) -> Result<History, Fail>
    ensures { placed_extents history.now.pages ≡ []
        → IfOk result (λ next. placed_extents next.pages ≡ []) }
{
    let change = deletion(rt, b"a", ms)?;
    let len = history.len();
    assert!(rt; len < 50_000);
    if len > 0 {
        assert!(rt; history.at(len - 1).moment < change.moment);
    }
    Ok(history.with(rt.alloc(), change)?)
}

// The number of changes, the part of two changes that is asked for, its start and its end.
const PARTS: [(usize, u64, usize, usize); 17] = [
    (0, 0, 0, 0),
    (0, 1, 0, 0),
    (0, u64::MAX, 0, 0),
    (1, 0, 0, 1),
    (1, 1, 1, 1),
    (2, 0, 0, 2),
    (2, 1, 2, 2),
    (2, u64::MAX, 2, 2),
    (3, 0, 0, 2),
    (3, 1, 2, 3),
    (3, 2, 3, 3),
    (4, 0, 0, 2),
    (4, 1, 2, 4),
    (4, 2, 4, 4),
    (4, 1 << 62, 4, 4),
    (4, 1 << 63, 4, 4),
    (4, u64::MAX, 4, 4),
];

/// Checks that the changes are dealt into parts of two as the rows of their number say.
fn are_dealt(rt: &impl Abort, history: &History, len: usize) {
    assert_eq!(rt; (history.len(), history.first()), (len, 0));
    for (count, k, start, end) in PARTS {
        if count == len {
            assert_eq!(rt; history.part(k, 2), start..end, "part {k} of {len}");
        }
    }
}

#[test]
fn changes_are_dealt_into_parts(rt: HostRuntime) -> Result<(), Fail> {
    let mut history = History::empty(rt.alloc());
    are_dealt(&rt, &history, 0);
    for (len, ms) in [(1, 1), (2, 2), (3, 4), (4, 6)] {
        history = with(&rt, &history, ms)?;
        are_dealt(&rt, &history, len);
    }
    Ok(())
}
