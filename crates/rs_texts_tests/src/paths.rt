//! The paths of documents.

use crate::narrow::Narrow;
use rs_caps::{doc_of, path_of, write_path};
use rs_io::{Watched, WriteFault};
use rs_lists::Doc;
use std::alloc::Global;
use std::process::Abort;
use std::test::Fail;

/// Paths, and their documents.
const ROWS: [(&[u8], Doc); 9] = [
    (b"/.well-known/resourcesync", Doc::Description),
    (b"/capabilitylist.xml", Doc::Capabilities),
    (b"/resourcelist.xml", Doc::ResourceHead),
    (
        b"/resourcelist/2/0.xml",
        Doc::ResourcePart {
            publication: 2,
            part: 0,
        },
    ),
    (
        b"/resourcelist/18446744073709551615/18446744073709551615.xml",
        Doc::ResourcePart {
            publication: u64::MAX,
            part: u64::MAX,
        },
    ),
    (b"/changelist.xml", Doc::ChangeHead),
    (b"/changelist/0.xml", Doc::ChangePart { part: 0 }),
    (b"/changelist/10.xml", Doc::ChangePart { part: 10 }),
    (
        b"/changelist/18446744073709551615.xml",
        Doc::ChangePart { part: u64::MAX },
    ),
];

/// Returns the path of a document, as it is written.
fn written(alloc: Global, doc: Doc) -> Result<Vec<u8>, Fail> {
    let mut out = Watched::new(Vec::new(alloc));
    write_path(doc, &mut out)?;
    Ok(out.into_inner())
}

/// Writes a path to writers with too little room for it.
fn needs_its_room(rt: &impl Abort, path: &[u8], doc: Doc) {
    for room in 0..path.len() {
        let mut out = Watched::new(Narrow { room });
        assert_eq!(rt;
            write_path(doc, &mut out),
            Err(WriteFault),
            "{doc:?}, room for {room}"
        );
        assert_eq!(rt; out.failures(), 1, "{doc:?}, room for {room}");
    }
}

#[test]
fn each_path_is_its_documents(rt: HostRuntime) -> Result<(), Fail> {
    for (path, doc) in ROWS {
        assert_eq!(rt; doc_of(path), Some(doc), "at {doc:?}");
        assert_eq!(rt; path_of(rt.alloc(), doc)?.as_slice(), path, "of {doc:?}");
        assert_eq!(rt; written(rt.alloc(), doc)?.as_slice(), path, "of {doc:?}");
        needs_its_room(&rt, path, doc);
    }
    Ok(())
}

#[test]
fn other_paths_are_no_documents(rt: HostRuntime) {
    // No line of a script can have the first five. The last is the path of a resource.
    let rows: [&[u8]; 6] = [
        b"/changelist.xml ",
        b" /changelist.xml",
        b"/resourcelist/1/0.xml ",
        b"/resourcelist/1/ 0.xml",
        b"/changelist/1.xml\n",
        b"/resource/a",
    ];
    for path in rows {
        assert_eq!(rt; doc_of(path), None);
    }
}
