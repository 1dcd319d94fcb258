//! The changes that a publication drops: the full parts whose last change is not after the previous publication.

use super::asking::Answer::{self, Created, Published};
use super::asking::Asked::{self, Publish, Put};
use super::asking::{ask, disk_of, made, opened, told};
use rs_disk::MemoryDisk;
use rs_lists::{Doc, View, change_parts, list_length};
use rs_store::Source;
use std::process::Abort;

/// The kept changes: their number, the number of their parts, the number of the first part, and the moment at which
/// they begin.
type Kept = (usize, u64, u64, u64);

/// Returns the kept changes, as a view shows them.
fn shown<V: View>(view: &V) -> Kept {
    let parts = change_parts(view);
    (view.changes_len(), parts, view.first(), view.begin().ms())
}

/// Returns the changes that a source keeps.
fn kept(rt: &impl Abort, source: &Source<MemoryDisk>) -> Kept {
    shown(&source.view().expect(rt, "a view"))
}

/// Returns whether there is a document of this part of the Change List.
fn is_there<V: View>(view: &V, part: u64) -> bool {
    list_length(view, Doc::ChangePart { part }).is_some()
}

/// Returns which of the first three parts of the Change List have a document.
fn documents(rt: &impl Abort, source: &Source<MemoryDisk>) -> [bool; 3] {
    let view = source.view().expect(rt, "a view");
    [is_there(&view, 0), is_there(&view, 1), is_there(&view, 2)]
}

/// A command at moment 0, its answer, and then the kept changes and the parts that have a document.
type Row = (Asked, Answer, Kept, [bool; 3]);

const NONE: [bool; 3] = [false, false, false];

const ROWS: [Row; 9] = [
    (Put(b"a", b""), Created(1), (1, 1, 0, 0), NONE),
    (Put(b"b", b""), Created(2), (2, 1, 0, 0), NONE),
    (Publish, Published(1, 3), (2, 1, 0, 0), NONE),
    (
        Put(b"c", b""),
        Created(4),
        (3, 2, 0, 0),
        [true, true, false],
    ),
    // `a` and `b` are not after the publication at 3.
    (Publish, Published(2, 5), (1, 1, 1, 2), NONE),
    (Put(b"d", b""), Created(6), (2, 1, 1, 2), NONE),
    // Nor is `c` after the publication at 5; but its part also has `d`, which is.
    (Publish, Published(3, 7), (2, 1, 1, 2), NONE),
    (
        Put(b"e", b""),
        Created(8),
        (3, 2, 1, 2),
        [false, true, true],
    ),
    (Publish, Published(4, 9), (1, 1, 2, 6), NONE),
];

#[test]
fn a_publication_drops_full_parts(rt: HostRuntime) {
    let mut source = made(&rt, disk_of(&rt, 65536));
    for (asked, answer, left, parts) in &ROWS {
        assert_eq!(rt; ask(&rt, &mut source, *asked), *answer);
        assert_eq!(rt; kept(&rt, &source), *left, "{asked:?}");
        assert_eq!(rt; documents(&rt, &source), *parts, "{asked:?}");
    }
    let mut source = opened(&rt, source.into_disk());
    assert_eq!(rt; kept(&rt, &source), (1, 1, 2, 6));
    assert_eq!(rt;
        told(&rt, &mut source).as_str(),
        "held: a= b= c= d= e=; changes: Created e; published 4: a b c d e"
    );
}
