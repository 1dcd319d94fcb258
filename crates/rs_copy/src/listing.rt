//! The lists of a copy.

ghost use Rattle.std.specs.Prelude.{◌≡◌, map, IfOk};
ghost use Rattle.std.specs.List.{AllZip};
ghost use Rattle.rs_catalogue.specs.Catalogue.{records_of, AreHeld};
ghost use Rattle.rs_changes.specs.History.{changes_of, AreKept};
ghost use Rattle.rs_image.specs.Reach.{bodies_of};
ghost use Rattle.rs_copy.specs.Laying.{IsMoved, as_published, extent_published as extent_of, copied_lists as lists_of};
ghost use Rattle.rs_copy.specs.Copying.{AreAllUnplaced};

use rs_body::blocks_for;
use rs_catalogue::Catalogue;
use rs_changes::History;
use rs_directory::Header;
use rs_extent::Extent;
use rs_image::Contents;
use rs_record::{Change, Record};
use std::alloc::{AllocError, Global};

/// Returns the lists of a copy that holds these records. Every list has its own pages of 64 items, which have no places
/// yet. A published record with the name, the moment and the length of a held record takes the extent of that record.
/// Any other published record takes block 0 and the number of blocks for its length.
///
/// # Errors
///
/// [`AllocError`] if memory runs out.
pub(crate) fn copied_lists(
    alloc: Global,
    old: &Contents,
    held: &[Record],
) -> Result<Contents, AllocError>
    requires alike { AllZip IsMoved (records_of old.now.catalogue) held.now }
    requires lawful { AreHeld held.now }
    ensures lists { IfOk result (λ lists. lists ≡ lists_of old.now (bodies_of held.now)) }
    ensures unplaced { IfOk result AreAllUnplaced }
{
    let catalogue = Catalogue::from_records(alloc, held)?;
    let published = published_records(alloc, &old.published, &catalogue)?;
    let changes = kept_changes(alloc, &old.history)?;
    Ok(Contents {
        header: same_header(alloc, &old.header)?,
        history: History::from_changes(alloc, old.history.first(), &changes)?,
        published: Catalogue::from_records(alloc, &published)?,
        catalogue,
    })
}

/// Returns the published records with their extents in a copy that holds these records.
fn published_records(
    alloc: Global,
    published: &Catalogue,
    held: &Catalogue,
) -> Result<Vec<Record>, AllocError>
    ensures records { IfOk result (λ records. records.items
        ≡ map (as_published (records_of held.now)) (records_of published.now)) }
    ensures lawful { IfOk result (λ records. AreHeld records.items) }
{
    let mut records = Vec::new(alloc);
    for i in 0..published.len() {
        let mut item = published.at(i).copy(alloc)?;
        item.extent = extent_published(held, published.at(i));
        records.push(item)?;
    }
    Ok(records)
}

/// Returns the extent of a published record in a copy that holds these records.
fn extent_published(held: &Catalogue, item: &Record) -> Extent
    ensures { result ≡ extent_of (records_of held.now) item.now }
{
    match held.get(&item.name) {
        Some(same) if same.moment == item.moment && same.length == item.length => same.extent,
        _ => Extent {
            first: 0,
            blocks: blocks_for(item.length),
        },
    }
}

/// Returns the kept changes, the earliest first.
fn kept_changes(alloc: Global, history: &History) -> Result<Vec<Change>, AllocError>
    ensures changes { IfOk result (λ changes. changes.items ≡ changes_of history.now.pages) }
    ensures lawful { IfOk result (λ changes. AreKept changes.items) }
{
    let mut changes = Vec::new(alloc);
    for i in 0..history.len() {
        changes.push(history.at(i).copy(alloc)?)?;
    }
    Ok(changes)
}

/// Returns a copy of the header.
fn same_header(alloc: Global, old: &Header) -> Result<Header, AllocError>
    ensures { IfOk result (λ header. header ≡ old.now) }
{
    Ok(Header {
        base: old.base.copy(alloc)?,
        limit: old.limit,
        start: old.start,
        last: old.last,
        number: old.number,
        at: old.at,
        first: old.first,
        begin: old.begin,
    })
}
