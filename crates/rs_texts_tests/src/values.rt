//! Values that the tests share.

use rs_extent::Extent;
use rs_fixity::digests_of;
use rs_record::{Change, Facts, MediaType, Name, Record};
use rs_time::Moment;
use std::alloc::Global;
use std::test::Fail;

/// Returns the moment of this many milliseconds.
pub fn at(ms: u64) -> Result<Moment, Fail> {
    Ok(Moment::new(ms).ok_or("no moment")?)
}

/// A name, a media type, a length and a moment. The digests are those of no bytes.
pub type Put<'a> = (&'a [u8], &'a [u8], u32, u64);

/// Returns the record of a resource.
pub fn record(alloc: Global, (name, kind, length, ms): Put<'_>) -> Result<Record, Fail> {
    Ok(Record {
        name: Name::new(alloc, name)?,
        kind: MediaType::new(alloc, kind)?,
        length,
        digests: digests_of(b""),
        moment: at(ms)?,
        extent: Extent {
            first: 0,
            blocks: 0,
        },
    })
}

/// Returns the change that updates it.
pub fn updated(alloc: Global, (name, kind, length, ms): Put<'_>) -> Result<Change, Fail> {
    let facts = Facts {
        kind: MediaType::new(alloc, kind)?,
        length,
        digests: digests_of(b""),
    };
    Ok(Change::bound(Name::new(alloc, name)?, true, at(ms)?, facts))
}
