//! A run of commands, its mirror at a destination, and its documents. The digests are those of "abc" in RFC 1321 (A.5)
//! and FIPS 180-4.

use crate::narrow::Narrow;
use crate::texts::{LIST_END, LIST_FRONT, joined};
use crate::values::at;
use rs_caps::{StateView, document_length, write_document};
use rs_fixity::hash_text;
use rs_io::Watched;
use rs_lists::{Doc, ListError};
use rs_model::{Body, Command, Entry, Reply, State, mirror};
use rs_record::{Base, Duplicate, MediaType, Name, What};
use rs_time::Moment;
use std::alloc::{AllocError, Global};
use std::process::Abort;
use std::test::Fail;

/// The base of the source.
const BASE: &[u8] = b"http://127.0.0.1:8080";

/// Returns the name `z`.
fn z(alloc: Global) -> Result<Name, Fail> {
    Ok(Name::new(alloc, b"z")?)
}

/// Returns a put of "abc" as `z`.
fn put(alloc: Global) -> Result<Command, Fail> {
    Ok(Command::Put {
        name: z(alloc)?,
        kind: MediaType::new(alloc, b"text/plain")?,
        bytes: Body::new(b"abc".to_vec(alloc)?),
    })
}

/// Returns a put of `z`, or its delete.
fn command(alloc: Global, is_put: bool) -> Result<Command, Fail> {
    if is_put {
        put(alloc)
    } else {
        Ok(Command::Delete { name: z(alloc)? })
    }
}

/// Returns a delete, a put, a delete and a put of `z`, all at the moment 1000.
fn commands(alloc: Global) -> Result<Vec<(Command, Moment)>, Fail> {
    let now = at(1000)?;
    let mut commands = Vec::new(alloc);
    for is_put in [false, true, false, true] {
        commands.push((command(alloc, is_put)?, now))?;
    }
    Ok(commands)
}

/// Returns a source with the item limit 2, formatted at the moment 0.
fn started(alloc: Global) -> Result<State, Fail> {
    let start = at(0)?;
    Ok(State::start(alloc, Base::new(alloc, BASE)?, 2, start))
}

/// Returns the state after these commands. The first is refused.
fn folded(alloc: Global, commands: &[(Command, Moment)]) -> Result<State, Fail> {
    let state = started(alloc)?;
    Ok(state.fold(alloc, commands)?)
}

/// Returns the state after the four commands.
fn made(alloc: Global) -> Result<State, Fail> {
    let commands = commands(alloc)?;
    folded(alloc, &commands)
}

/// Returns the bytes of the resource of this name.
fn body<'a>(alloc: Global, state: &'a State, name: &[u8]) -> Result<Option<&'a [u8]>, Fail> {
    let name = Name::new(alloc, name)?;
    Ok(state.body(&name))
}

/// Checks the resources and the changes.
fn holds_z(rt: &(impl Abort + AllocGlobal), state: &State) -> Result<(), Fail> {
    assert_eq!(rt; body(rt.alloc(), state, b"z")?, Some(b"abc".as_slice()));
    assert_eq!(rt; body(rt.alloc(), state, b"y")?, None);
    assert_eq!(rt; (state.resources(), state.held().len()), (1, 1));
    match state.changes() {
        [a, b, c] => {
            let whats = (a.what, b.what, c.what);
            let moments = (a.moment.ms(), b.moment.ms(), c.moment.ms());
            assert_eq!(rt; whats, (What::Created, What::Deleted, What::Created));
            assert_eq!(rt; moments, (1000, 1001, 1002));
        }
        _ => assert!(rt; false, "not three changes"),
    }
    assert_eq!(rt;
        (state.limit(), state.formatted().ms(), state.last().ms()),
        (2, 0, 1002)
    );
    assert_eq!(rt; state.base().bytes(), BASE);
    Ok(())
}

/// Checks a mirror that has only `z`.
fn is_z(rt: &impl Abort, mirrored: &[(Name, Entry)]) {
    const HASH: &[u8] = b"md5:900150983cd24fb0d6963f7d28e17f72 sha-256:\
        ba7816bf8f01cfea414140de5dae2223b00361a396177a9cb410ff61f20015ad";
    match mirrored {
        [(name, entry)] => {
            assert_eq!(rt; name.bytes(), b"z".as_slice());
            assert_eq!(rt; (entry.facts.length, entry.moment.ms()), (3, 1002));
            assert_eq!(rt; entry.facts.kind.bytes(), b"text/plain".as_slice());
            assert_eq!(rt; hash_text(&entry.facts.digests).as_slice(), HASH);
        }
        _ => assert!(rt; false, "not one resource"),
    }
}

/// Checks the mirror that the changes make of an empty list of the moment 0.
fn mirrors_z(rt: &(impl Abort + AllocGlobal), state: &State) -> Result<(), Fail> {
    let start = at(0)?;
    let mirrored = mirror(rt.alloc(), &[], start, state.changes())?;
    is_z(rt, &mirrored);
    Ok(())
}

/// Returns the reply to another put, and the last moment of the state after it.
fn stepped(alloc: Global, state: &State, now: Moment) -> Result<(Reply, Moment), Fail> {
    let put = put(alloc)?;
    let (next, reply) = state.step(alloc, &put, now)?;
    Ok((reply, next.last()))
}

/// Returns the number of changes of a copy.
fn copied(alloc: Global, state: &State) -> Result<usize, AllocError> {
    let copy = state.copy(alloc)?;
    Ok(copy.changes().len())
}

/// Publishes, and checks the list.
fn lists_z(rt: &(impl Abort + AllocGlobal), state: &mut State) -> Result<(), Fail> {
    let (now, third, fourth) = (at(1000)?, at(1003)?, at(1004)?);
    let reply = state.apply(rt.alloc(), Command::Publish, now)?;
    assert_eq!(rt; reply, Reply::Published(1, third));
    assert_eq!(rt; (state.number(), state.at()), (1, third));
    match state.listed() {
        [listed] => {
            assert_eq!(rt; listed.name.bytes(), b"z".as_slice());
            assert_eq!(rt; (listed.length, listed.moment.ms()), (3, 1002));
            assert_eq!(rt; (listed.extent.first, listed.extent.blocks), (0, 0));
        }
        _ => assert!(rt; false, "not one record"),
    }
    assert_eq!(rt;
        stepped(rt.alloc(), state, now)?,
        (Reply::Updated(fourth), fourth)
    );
    assert_eq!(rt; copied(rt.alloc(), state)?, 3);
    Ok(())
}

/// The Resource List of the publication.
const LIST: &[&[u8]] = &[
    LIST_FRONT,
    b"<rs:md capability=\"resourcelist\" at=\"1970-01-01T00:00:01.003Z\"/>\n",
    b"<url><loc>http://127.0.0.1:8080/resource/z</loc><lastmod>1970-01-01T00:00:01.002Z</lastmod><rs:md hash=\"md5:900150983cd24fb0d6963f7d28e17f72 sha-256:ba7816bf8f01cfea414140de5dae2223b00361a396177a9cb410ff61f20015ad\" length=\"3\" type=\"text/plain\"/></url>\n",
    LIST_END,
];

/// Returns the text of a document.
fn text(alloc: Global, view: &StateView<'_>, doc: Doc) -> Result<Vec<u8>, ListError> {
    let mut out = Watched::new(Vec::new(alloc));
    write_document(view, doc, &mut out)?;
    Ok(out.into_inner())
}

/// Writes a document to writers with too little room for it.
fn fails_until(rt: &impl Abort, view: &StateView<'_>, doc: Doc, length: usize) {
    for room in 0..length {
        let mut out = Watched::new(Narrow { room });
        let result = write_document(view, doc, &mut out);
        assert_eq!(rt;
            result,
            Err(ListError::WriteFault),
            "{doc:?}, room for {room}"
        );
        assert_eq!(rt; out.failures(), 1, "{doc:?}, room for {room}");
    }
}

/// Checks the documents after the publication.
fn shows_z(rt: &(impl Abort + AllocGlobal), view: &StateView<'_>) -> Result<(), Fail> {
    const ROWS: [(Doc, Option<u64>); 8] = [
        (Doc::Description, Some(292)),
        (Doc::Capabilities, Some(454)),
        (Doc::ResourceHead, Some(542)),
        (
            Doc::ResourcePart {
                publication: 1,
                part: 0,
            },
            None,
        ),
        (Doc::ChangeHead, Some(553)),
        (Doc::ChangePart { part: 0 }, Some(809)),
        (Doc::ChangePart { part: 1 }, Some(660)),
        (Doc::ChangePart { part: 2 }, None),
    ];
    for (doc, length) in ROWS {
        assert_eq!(rt; document_length(view, doc), length, "{doc:?}");
        fails_until(rt, view, doc, length.unwrap_or(0) as usize);
    }
    let wanted = joined(rt.alloc(), LIST)?;
    assert_eq!(rt;
        text(rt.alloc(), view, Doc::ResourceHead)?.as_slice(),
        wanted.as_slice()
    );
    Ok(())
}

/// Checks a state, publishes, and checks the documents.
fn is_a_source(rt: &(impl Abort + AllocGlobal), state: &mut State) -> Result<(), Fail> {
    holds_z(rt, state)?;
    mirrors_z(rt, state)?;
    lists_z(rt, state)?;
    shows_z(rt, &StateView::new(rt.alloc(), state)?)
}

#[test]
fn a_run_and_its_mirror(rt: HostRuntime) -> Result<(), Fail> {
    let mut state = made(rt.alloc())?;
    is_a_source(&rt, &mut state)
}

#[test]
fn a_body_is_its_bytes(rt: HostRuntime) -> Result<(), Fail> {
    let body = Body::new(b"abc".to_vec(rt.alloc())?);
    let copied = body.duplicate(rt.alloc())?;
    assert_eq!(rt; copied.bytes(), b"abc".as_slice());
    Ok(())
}
