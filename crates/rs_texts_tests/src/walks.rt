//! A destination that fetches between commands and stops: the worked walks, by `walk` and `answer`.

use crate::texts::{INDEX_END, INDEX_FRONT, INDEX_LINK, LIST_END, LIST_FRONT, NO_BYTES, joined};
use crate::values::at;
use rs_caps::answer;
use rs_model::{Body, Command, Event, State, walk};
use rs_record::{Base, MediaType, Name};
use std::alloc::Global;
use std::process::Abort;
use std::test::Fail;

/// Returns a put of no bytes under this name.
fn put(alloc: Global, name: &[u8]) -> Result<Command, Fail> {
    Ok(Command::Put {
        name: Name::new(alloc, name)?,
        kind: MediaType::new(alloc, b"text/plain")?,
        bytes: Body::new(Vec::new(alloc)),
    })
}

/// Returns the event of a command that is tried at the moment 0.
fn tried(command: Command) -> Result<Event, Fail> {
    Ok(Event::Tried(command, at(0)?))
}

/// The fate of the put of `c`.
#[derive(Clone, Copy, Debug, PartialEq, Eq)]
enum Fate {
    Answered,
    Stopped(bool),
    Refused,
    NotAsked,
}

/// Returns the event of the put of `c`.
fn put_of_c(alloc: Global, fate: Fate) -> Result<Event, Fail> {
    match fate {
        Fate::Answered => tried(put(alloc, b"c")?),
        Fate::Stopped(stands) => Ok(Event::Stopped(put(alloc, b"c")?, at(0)?, stands)),
        Fate::Refused => Ok(Event::Refused(put(alloc, b"c")?)),
        Fate::NotAsked => Ok(Event::Idle),
    }
}

/// Returns the events: a put of `a` and a publication, then a fetch of the Resource List; a put of `b` and a delete of
/// `a`, then a fetch of the head of the Change List; the puts of `c` and `d`, then fetches of both parts of the Change
/// List.
fn events(alloc: Global, fate: Fate) -> Result<Vec<Event>, Fail> {
    let mut events = Vec::new(alloc);
    events.push(tried(put(alloc, b"a")?)?)?;
    events.push(tried(Command::Publish)?)?;
    events.push(Event::Fetch)?;
    events.push(tried(put(alloc, b"b")?)?)?;
    let name = Name::new(alloc, b"a")?;
    events.push(tried(Command::Delete { name })?)?;
    events.push(Event::Fetch)?;
    events.push(put_of_c(alloc, fate)?)?;
    events.push(tried(put(alloc, b"d")?)?)?;
    events.push(Event::Fetch)?;
    events.push(Event::Fetch)?;
    Ok(events)
}

/// Returns a source with the item limit 2, formatted at the moment 0, after the first `count` events.
fn after(alloc: Global, events: &[Event], count: usize) -> Result<State, Fail> {
    let base = Base::new(alloc, b"http://127.0.0.1:8080")?;
    let start = State::start(alloc, base, 2, at(0)?);
    let (first, _rest) = events.split_at(count.min(events.len()));
    Ok(walk(alloc, &start, first)?)
}

/// The Resource List after 2 events.
const RESOURCES: &[&[u8]] = &[
    LIST_FRONT,
    b"<rs:md capability=\"resourcelist\" at=\"1970-01-01T00:00:00.002Z\"/>\n",
    b"<url><loc>http://127.0.0.1:8080/resource/a</loc><lastmod>1970-01-01T00:00:00.001Z</lastmod><rs:md",
    NO_BYTES,
    LIST_END,
];

/// The head of the Change List after 5 events.
const INDEX: &[&[u8]] = &[
    INDEX_FRONT,
    b"<rs:md capability=\"changelist\" from=\"1970-01-01T00:00:00.000Z\"/>\n",
    b"<sitemap><loc>http://127.0.0.1:8080/changelist/0.xml</loc><rs:md from=\"1970-01-01T00:00:00.000Z\" until=\"1970-01-01T00:00:00.003Z\"/></sitemap>\n",
    b"<sitemap><loc>http://127.0.0.1:8080/changelist/1.xml</loc><rs:md from=\"1970-01-01T00:00:00.003Z\"/></sitemap>\n",
    INDEX_END,
];

/// The first part of the Change List after 8 events.
const FIRST: &[&[u8]] = &[
    LIST_FRONT,
    INDEX_LINK,
    b"<rs:md capability=\"changelist\" from=\"1970-01-01T00:00:00.000Z\" until=\"1970-01-01T00:00:00.003Z\"/>\n",
    b"<url><loc>http://127.0.0.1:8080/resource/a</loc><lastmod>1970-01-01T00:00:00.001Z</lastmod><rs:md change=\"created\" datetime=\"1970-01-01T00:00:00.001Z\"",
    NO_BYTES,
    b"<url><loc>http://127.0.0.1:8080/resource/b</loc><lastmod>1970-01-01T00:00:00.003Z</lastmod><rs:md change=\"created\" datetime=\"1970-01-01T00:00:00.003Z\"",
    NO_BYTES,
    LIST_END,
];

/// The second part of the Change List after 9 events: the text before the name in its last entry, and the text after
/// it.
const SECOND: [&[&[u8]]; 2] = [
    &[
        LIST_FRONT,
        INDEX_LINK,
        b"<rs:md capability=\"changelist\" from=\"1970-01-01T00:00:00.003Z\" until=\"1970-01-01T00:00:00.005Z\"/>\n",
        b"<url><loc>http://127.0.0.1:8080/resource/a</loc><rs:md change=\"deleted\" datetime=\"1970-01-01T00:00:00.004Z\"/></url>\n",
        b"<url><loc>http://127.0.0.1:8080/resource/",
    ],
    &[
        b"</loc><lastmod>1970-01-01T00:00:00.005Z</lastmod><rs:md change=\"created\" datetime=\"1970-01-01T00:00:00.005Z\"",
        NO_BYTES,
        LIST_END,
    ],
];

/// Returns the answer to a fetch of a path after the first `count` events.
fn fetched(
    alloc: Global,
    events: &[Event],
    count: usize,
    path: &[u8],
) -> Result<Option<Vec<u8>>, Fail> {
    let state = after(alloc, events, count)?;
    Ok(answer(alloc, &state, path)?)
}

/// Checks an answer: these bytes, or no answer.
fn is_answered(
    rt: &(impl Abort + AllocGlobal),
    events: &[Event],
    (count, path, wanted): (usize, &[u8], Option<&[u8]>),
) -> Result<(), Fail> {
    let answered = fetched(rt.alloc(), events, count, path)?;
    let bytes = answered.as_ref().map(|bytes| bytes.as_slice());
    assert_eq!(rt; bytes, wanted, "{path:?} after {count}");
    Ok(())
}

/// Checks the fetches that are the same in every walk.
fn answers_what_it_holds(rt: &(impl Abort + AllocGlobal), events: &[Event]) -> Result<(), Fail> {
    const ROWS: [(usize, &[u8], Option<&[&[u8]]>); 9] = [
        (2, b"/resourcelist.xml", Some(RESOURCES)),
        (5, b"/changelist.xml", Some(INDEX)),
        (8, b"/changelist/0.xml", Some(FIRST)),
        (2, b"/resource/a", Some(&[])),
        (5, b"/resource/a", None),
        (5, b"/changelist/2.xml", None),
        (8, b"/resourcelist/1/0.xml", None),
        (8, b"/resource/", None),
        (8, b"/", None),
    ];
    for (count, path, pieces) in ROWS {
        let wanted = match pieces {
            Some(pieces) => Some(joined(rt.alloc(), pieces)?),
            None => None,
        };
        let bytes = wanted.as_ref().map(|bytes| bytes.as_slice());
        is_answered(rt, events, (count, path, bytes))?;
    }
    Ok(())
}

/// Checks the second part of the Change List, whose last change created this name, and the resources after the first
/// `count` events: `b` of the moment 3 and this name of the moment 5.
fn gives(
    rt: &(impl Abort + AllocGlobal),
    events: &[Event],
    (name, count, last): (&[u8], usize, u64),
) -> Result<(), Fail> {
    let mut second = joined(rt.alloc(), SECOND[0])?;
    second.extend_from_slice(name)?;
    let end = joined(rt.alloc(), SECOND[1])?;
    second.extend_from_slice(&end)?;
    is_answered(rt, events, (9, b"/changelist/1.xml", Some(&second)))?;
    match after(rt.alloc(), events, count)?.held() {
        [(b, first), (other, second)] => {
            assert_eq!(rt; (b.bytes(), other.bytes()), (b"b".as_slice(), name));
            assert_eq!(rt; (first.entry.moment.ms(), second.entry.moment.ms()), (3, 5));
        }
        _ => assert!(rt; false, "not two resources"),
    }
    let end = after(rt.alloc(), events, events.len())?;
    assert_eq!(rt; end.last().ms(), last);
    Ok(())
}

#[test]
fn fetches_amid_commands_and_stops(rt: HostRuntime) -> Result<(), Fail> {
    const WALKS: [(Fate, &[u8], usize, u64); 5] = [
        (Fate::Answered, b"c", 7, 6),
        (Fate::Stopped(true), b"c", 7, 6),
        (Fate::Stopped(false), b"d", 8, 5),
        (Fate::Refused, b"d", 8, 5),
        (Fate::NotAsked, b"d", 8, 5),
    ];
    for (fate, name, count, last) in WALKS {
        let events = events(rt.alloc(), fate)?;
        answers_what_it_holds(&rt, &events)?;
        gives(&rt, &events, (name, count, last))?;
    }
    Ok(())
}
