//! Documents that no short script makes: parts that are numbered from 7 on and begin after the start, and documents of
//! the longest values. A Python program, which spells the table of docs/DOCUMENTS.md, counted their lengths.

use crate::alike::Alike;
use crate::narrow::Narrow;
use crate::texts::{INDEX_END, INDEX_FRONT, INDEX_LINK, LIST_END, LIST_FRONT, NO_BYTES, joined};
use crate::values::{Put, at, record, updated};
use rs_io::Watched;
use rs_lists::{Doc, ListError, change_parts, list_length, resource_parts, write_list};
use rs_record::Base;
use rs_time::Moment;
use std::alloc::Global;
use std::process::Abort;
use std::test::Fail;

/// An item limit, a number of items, a part counted from 0 (`None` means the heads), and its length in the Resource
/// List and in the Change List, where it exists.
type Row = (u16, usize, Option<u64>, Option<u64>, Option<u64>);

/// A view that repeats one resource and its update, and its expected documents.
#[derive(Drop)]
struct Case<'a> {
    base: &'a [u8],
    put: Put<'a>,
    start: u64,
    number: u64,
    first: u64,
    begin: u64,
    rows: &'a [Row],
    /// The number of parts, with the limit and the items of the last row.
    parts: u64,
    /// Documents that do not exist then.
    missing: &'a [Doc],
    /// Texts of some documents then, in pieces.
    texts: &'a [(Doc, &'a [&'a [u8]])],
}

/// Writes a list to writers with too little room for it, or for its first thousand bytes.
fn fails_until(rt: &impl Abort, view: &Alike<'_>, doc: Doc, length: usize) {
    for room in 0..length.min(1000) {
        let mut out = Watched::new(Narrow { room });
        let result = write_list(view, doc, &mut out);
        assert_eq!(rt;
            result,
            Err(ListError::WriteFault),
            "{doc:?}, room for {room}"
        );
        assert_eq!(rt; out.failures(), 1, "{doc:?}, room for {room}");
    }
}

/// Checks the length of a list. A writer with that much room takes all of it, and one with less room fails.
fn is_so_long(rt: &impl Abort, view: &Alike<'_>, doc: Doc, length: Option<u64>) {
    let (room, wanted) = match length {
        Some(length) => (length as usize, Ok(())),
        None => (0, Err(ListError::NoSuchDocument)),
    };
    let mut out = Watched::new(Narrow { room });
    let result = write_list(view, doc, &mut out);
    assert_eq!(rt; (result, out.get_ref().room), (wanted, 0), "{doc:?}");
    assert_eq!(rt; list_length(view, doc), length, "{doc:?}");
    fails_until(rt, view, doc, room);
}

/// Checks a part of both lists, or both heads.
fn are_so_long(rt: &impl Abort, view: &Alike<'_>, row: &Row) {
    let (_, _, part, resources, changes) = row;
    let (resource_doc, change_doc) = match *part {
        None => (Doc::ResourceHead, Doc::ChangeHead),
        Some(part) => (
            Doc::ResourcePart {
                publication: view.number,
                part,
            },
            Doc::ChangePart {
                part: view.first.saturating_add(part),
            },
        ),
    };
    is_so_long(rt, view, resource_doc, *resources);
    is_so_long(rt, view, change_doc, *changes);
}

/// Checks all rows.
fn all_are_so_long(rt: &impl Abort, view: &mut Alike<'_>, case: &Case<'_>) -> Result<(), Fail> {
    for row in case.rows {
        view.show(row.0, row.1, case.first)?;
        are_so_long(rt, view, row);
    }
    Ok(())
}

/// Returns the text of a list.
fn text(alloc: Global, view: &Alike<'_>, doc: Doc) -> Result<Vec<u8>, ListError> {
    let mut out = Watched::new(Vec::new(alloc));
    write_list(view, doc, &mut out)?;
    Ok(out.into_inner())
}

/// Checks the view of a case against the case.
fn is_so(
    rt: &(impl Abort + AllocGlobal),
    view: &mut Alike<'_>,
    case: &Case<'_>,
) -> Result<(), Fail> {
    all_are_so_long(rt, view, case)?;
    assert_eq!(rt;
        (resource_parts(view), change_parts(view)),
        (case.parts, case.parts)
    );
    for doc in case.missing {
        is_so_long(rt, view, *doc, None);
    }
    for (doc, pieces) in case.texts {
        let wanted = joined(rt.alloc(), pieces)?;
        assert_eq!(rt;
            text(rt.alloc(), view, *doc)?.as_slice(),
            wanted.as_slice(),
            "{doc:?}"
        );
    }
    Ok(())
}

/// Makes the view of a case, and checks it.
fn look(rt: &(impl Abort + AllocGlobal), case: &Case<'_>) -> Result<(), Fail> {
    let start = at(case.start)?;
    let published = at(case.put.3)?;
    let base = Base::new(rt.alloc(), case.base)?;
    let record = record(rt.alloc(), case.put)?;
    let change = updated(rt.alloc(), case.put)?;
    let mut view = Alike {
        base: &base,
        start,
        at: published,
        number: case.number,
        first: 0,
        begin: at(case.begin)?,
        record: &record,
        change: &change,
        limit: 2,
        items: 0,
    };
    is_so(rt, &mut view, case)
}

/// The longest base.
const LONGEST_BASE: &[u8] =
    b"https://bbbbbbbbbbbbbbbbbbbbbbbbbbbbbbbbbbbbbbbbbbbbbbbbbbbbbbbbbbbbbbbbbbbbbbbbbbbbbbbbbbbbbbbbbbbbbbbbbbbbbbbbbbbbbbbbbbbbbbbb";

/// A name of the greatest length. All its characters are escaped.
const LONGEST_NAME: &[u8] =
    b"''''''''''''''''''''''''''''''''''''''''''''''''''''''''''''''''''''''''''''''''''''''''''''''''''''''''''''''''''''''''''''''''''''''''''''''''''''''''''''''''''''''''''''''''''''''''''''''''''''''''''''''''''''''''''''''''''''''''''''''''";

/// A media type of the greatest length. All its characters but `/` are escaped.
const LONGEST_KIND: &[u8] =
    b"'/''''''''''''''''''''''''''''''''''''''''''''''''''''''''''''''''''''''''''''''''''''''''''''''''''";

#[test]
fn the_longest_documents(rt: HostRuntime) -> Result<(), Fail> {
    const ROWS: [Row; 10] = [
        (4000, 0, None, Some(397), Some(397)),
        (4000, 4000, Some(0), None, None),
        (4000, 4001, None, Some(883), Some(902)),
        (4000, 4001, Some(0), Some(9_568_571), Some(9_780_602)),
        (4000, 4001, Some(1), Some(2963), Some(3014)),
        (4000, 4001, Some(2), None, None),
        (2, 2, None, Some(5181), Some(5287)),
        (2, 50_000, None, Some(6_014_299), Some(6_575_409)),
        (2, 50_000, Some(24_999), Some(5355), Some(5492)),
        (2, 50_000, Some(25_000), None, None),
    ];
    const MISSING: [Doc; 2] = [
        Doc::ResourcePart {
            publication: 0,
            part: 0,
        },
        Doc::ChangePart { part: u64::MAX },
    ];
    let case = Case {
        base: LONGEST_BASE,
        put: (LONGEST_NAME, LONGEST_KIND, u32::MAX, Moment::GREATEST),
        start: Moment::GREATEST,
        number: u64::MAX,
        first: 253_402_300_799_999,
        begin: Moment::GREATEST,
        rows: &ROWS,
        parts: 25_000,
        missing: &MISSING,
        texts: &[],
    };
    look(&rt, &case)
}

/// The index of the changes that begin a millisecond after the start.
const INDEX: &[&[u8]] = &[
    INDEX_FRONT,
    b"<rs:md capability=\"changelist\" from=\"1970-01-01T00:00:00.001Z\"/>\n",
    b"<sitemap><loc>http://127.0.0.1:8080/changelist/7.xml</loc><rs:md from=\"1970-01-01T00:00:00.001Z\" until=\"1970-01-01T00:00:00.002Z\"/></sitemap>\n",
    b"<sitemap><loc>http://127.0.0.1:8080/changelist/8.xml</loc><rs:md from=\"1970-01-01T00:00:00.002Z\"/></sitemap>\n",
    INDEX_END,
];

/// Its first part.
const FIRST_PART: &[&[u8]] = &[
    LIST_FRONT,
    INDEX_LINK,
    b"<rs:md capability=\"changelist\" from=\"1970-01-01T00:00:00.001Z\" until=\"1970-01-01T00:00:00.002Z\"/>\n",
    b"<url><loc>http://127.0.0.1:8080/resource/a</loc><lastmod>1970-01-01T00:00:00.002Z</lastmod><rs:md change=\"updated\" datetime=\"1970-01-01T00:00:00.002Z\"",
    NO_BYTES,
    b"<url><loc>http://127.0.0.1:8080/resource/a</loc><lastmod>1970-01-01T00:00:00.002Z</lastmod><rs:md change=\"updated\" datetime=\"1970-01-01T00:00:00.002Z\"",
    NO_BYTES,
    LIST_END,
];

/// Its last part.
const LAST_PART: &[&[u8]] = &[
    LIST_FRONT,
    INDEX_LINK,
    b"<rs:md capability=\"changelist\" from=\"1970-01-01T00:00:00.002Z\"/>\n",
    b"<url><loc>http://127.0.0.1:8080/resource/a</loc><lastmod>1970-01-01T00:00:00.002Z</lastmod><rs:md change=\"updated\" datetime=\"1970-01-01T00:00:00.002Z\"",
    NO_BYTES,
    LIST_END,
];

/// The first two changes in one list, which has no parts.
const ONE_LIST: &[&[u8]] = &[
    LIST_FRONT,
    b"<rs:md capability=\"changelist\" from=\"1970-01-01T00:00:00.001Z\"/>\n",
    b"<url><loc>http://127.0.0.1:8080/resource/a</loc><lastmod>1970-01-01T00:00:00.002Z</lastmod><rs:md change=\"updated\" datetime=\"1970-01-01T00:00:00.002Z\"",
    NO_BYTES,
    b"<url><loc>http://127.0.0.1:8080/resource/a</loc><lastmod>1970-01-01T00:00:00.002Z</lastmod><rs:md change=\"updated\" datetime=\"1970-01-01T00:00:00.002Z\"",
    NO_BYTES,
    LIST_END,
];

/// A view whose first part has the number 7, and whose changes begin at the moment 1.
fn from_seven_on<'a>(
    rows: &'a [Row],
    parts: u64,
    missing: &'a [Doc],
    texts: &'a [(Doc, &'a [&'a [u8]])],
) -> Case<'a> {
    Case {
        base: b"http://127.0.0.1:8080",
        put: (b"a", b"text/plain", 0, 2),
        start: 0,
        number: 1,
        first: 7,
        begin: 1,
        rows,
        parts,
        missing,
        texts,
    }
}

#[test]
fn parts_from_seven_on(rt: HostRuntime) -> Result<(), Fail> {
    const ROWS: [Row; 5] = [
        (2, 3, None, Some(524), Some(553)),
        (2, 3, Some(0), Some(861), Some(998)),
        (2, 3, Some(1), Some(609), Some(660)),
        (2, 3, Some(2), None, None),
        (2, 3, Some(u64::MAX), None, None),
    ];
    const MISSING: [Doc; 6] = [
        Doc::Description,
        Doc::Capabilities,
        Doc::ResourcePart {
            publication: 0,
            part: 0,
        },
        Doc::ResourcePart {
            publication: 2,
            part: 0,
        },
        Doc::ChangePart { part: 0 },
        Doc::ChangePart { part: 6 },
    ];
    const TEXTS: [(Doc, &[&[u8]]); 3] = [
        (Doc::ChangeHead, INDEX),
        (Doc::ChangePart { part: 7 }, FIRST_PART),
        (Doc::ChangePart { part: 8 }, LAST_PART),
    ];
    look(&rt, &from_seven_on(&ROWS, 2, &MISSING, &TEXTS))
}

#[test]
fn one_list_that_begins_after_the_start(rt: HostRuntime) -> Result<(), Fail> {
    const ROWS: [Row; 2] = [
        (2, 2, None, Some(794), Some(900)),
        (2, 2, Some(0), None, None),
    ];
    const MISSING: [Doc; 3] = [
        Doc::ResourcePart {
            publication: 1,
            part: 7,
        },
        Doc::ChangePart { part: 0 },
        Doc::ChangePart { part: 7 },
    ];
    const TEXTS: [(Doc, &[&[u8]]); 1] = [(Doc::ChangeHead, ONE_LIST)];
    look(&rt, &from_seven_on(&ROWS, 1, &MISSING, &TEXTS))
}
