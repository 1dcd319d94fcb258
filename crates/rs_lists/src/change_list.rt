//! The Change List.

ghost use Rattle.std.specs.Prelude.{◌≡◌, ◌<◌, ◌≤◌, Some, None, take, length};
ghost use Rattle.rs_record.specs.Changes.{last_moment};
ghost use Rattle.rs_lists.specs.Shown.{change_parts_of};
ghost use Rattle.rs_lists.specs.Sinks.{Puts};
ghost use Rattle.rs_lists.specs.Text.{line, what_text, change_line, change_md, from_of, until_of};

use crate::listing::Listing;
use crate::meter::hash_length;
use crate::sink::{Sink, put_line};
use crate::{Piece, View};
use rs_io::WriteFault;
use rs_record::{Base, Change, Facts, What};
use rs_time::Moment;

/// The Change List: the kept changes.
pub struct Changes;

impl Listing for Changes {
    ghost use Rattle.rs_lists.specs.Listed.{changes};

    ghost list = { changes };

    fn path() -> &'static [u8] {
        b"/changelist.xml"
    }

    fn len<V: View>(view: &V) -> usize {
        view.changes_len()
    }

    /// Its `from` is the moment at which the kept changes begin. It has no `until`.
    fn put_bounds<V: View, S: Sink>(view: &V, sink: &mut S) -> Result<(), WriteFault> {
        put_change_md(view.begin(), None, sink)
    }

    fn put_part_bounds<V: View, S: Sink>(
        view: &V,
        part: u64,
        sink: &mut S,
    ) -> Result<(), WriteFault> {
        put_change_md(part_from(view, part), part_until(view, part), sink)
    }

    fn put_item<V: View, S: Sink>(view: &V, i: usize, sink: &mut S) -> Result<(), WriteFault> {
        put_change(view.base(), view.change(i), sink)
    }

    fn put_entry<V: View, S: Sink>(view: &V, part: u64, sink: &mut S) -> Result<(), WriteFault> {
        let location = Piece::Plain(b"<sitemap><loc>");
        let base = Piece::Plain(view.base().bytes());
        let folder = Piece::Plain(b"/changelist/");
        let number = Piece::Number(view.first() + part);
        let start = Piece::Plain(b".xml</loc><rs:md from=\"");
        let from = Piece::At(part_from(view, part));
        let end = Piece::Plain(b"\"/></sitemap>");
        match part_until(view, part) {
            Some(moment) => {
                let between = Piece::Plain(b"\" until=\"");
                let until = Piece::At(moment);
                put_line(
                    &[
                        location, base, folder, number, start, from, between, until, end,
                    ],
                    sink,
                )
            }
            None => put_line(&[location, base, folder, number, start, from, end], sink),
        }
    }
}

/// Returns the `from` of a part: the moment of the last change before it, or the moment at which the kept changes
/// begin.
fn part_from<V: View>(view: &V, part: u64) -> Moment
    requires { part < change_parts_of (V.shown view.now) }
    ensures { result ≡ from_of (V.shown view.now) part }
{
    moment_after(view, part as usize * view.limit() as usize)
}

/// Returns the `until` of a full part: the moment of its last change. An open part has no `until`.
fn part_until<V: View>(view: &V, part: u64) -> Option<Moment>
    requires { part < change_parts_of (V.shown view.now) }
    ensures { result ≡ until_of (V.shown view.now) part }
{
    let limit = view.limit() as usize;
    let end = (part as usize + 1) * limit;
    if end <= view.changes_len() {
        Some(moment_after(view, end))
    } else {
        None
    }
}

/// Returns the moment of the last of the first `count` changes. Without a change it is the moment at which the kept
/// changes begin.
fn moment_after<V: View>(view: &V, count: usize) -> Moment
    requires { count ≤ length (V.shown view.now).changes }
    ensures { result
        ≡ last_moment (V.shown view.now).begin (take count (V.shown view.now).changes) }
{
    match count.checked_sub(1) {
        Some(last) => view.change(last).moment,
        None => view.begin(),
    }
}

/// Puts the `rs:md` of a list of changes: its `from` and its `until`.
fn put_change_md<S: Sink>(
    from: Moment,
    until: Option<Moment>,
    sink: &mut S,
) -> Result<(), WriteFault>
    ensures { Puts S.takes S.fails sink.old sink.new result (line (change_md from until)) }
{
    let start = Piece::Plain(b"<rs:md capability=\"changelist\" from=\"");
    let end = Piece::Plain(b"\"/>");
    match until {
        Some(until) => put_line(
            &[
                start,
                Piece::At(from),
                Piece::Plain(b"\" until=\""),
                Piece::At(until),
                end,
            ],
            sink,
        ),
        None => put_line(&[start, Piece::At(from), end], sink),
    }
}

/// Puts the line of a change.
fn put_change<'a, S: Sink>(
    base: &'a Base,
    change: &'a Change,
    sink: &mut S,
) -> Result<(), WriteFault>
    ensures puts { Puts S.takes S.fails sink.old sink.new result
        (line (change_line base.now change.now)) }
    ensures small { length (line (change_line base.now change.now)) ≤ 2450 }
{
    match &change.facts {
        Some(facts) => put_binding(base, change, facts, sink),
        None => put_deletion(base, change, sink),
    }
}

/// Puts the line of a change that created or updated a resource.
fn put_binding<'a, S: Sink>(
    base: &'a Base,
    change: &'a Change,
    facts: &'a Facts,
    sink: &mut S,
) -> Result<(), WriteFault>
    requires { change.now.facts ≡ Some facts.now }
    ensures puts { Puts S.takes S.fails sink.old sink.new result
        (line (change_line base.now change.now)) }
    ensures small { length (line (change_line base.now change.now)) ≤ 2450 }
{
    let bytes = hash_length(&facts.digests);
    prove!(bytes == 109);
    put_line(
        &[
            Piece::Plain(b"<url><loc>"),
            Piece::Plain(base.bytes()),
            Piece::Plain(b"/resource/"),
            Piece::Escaped(change.name.bytes()),
            Piece::Plain(b"</loc><lastmod>"),
            Piece::At(change.moment),
            Piece::Plain(b"</lastmod><rs:md change=\""),
            Piece::Plain(word(change.what)),
            Piece::Plain(b"\" datetime=\""),
            Piece::At(change.moment),
            Piece::Plain(b"\" hash=\""),
            Piece::Hash(facts.digests),
            Piece::Plain(b"\" length=\""),
            Piece::Number(facts.length as u64),
            Piece::Plain(b"\" type=\""),
            Piece::Escaped(facts.kind.bytes()),
            Piece::Plain(b"\"/></url>"),
        ],
        sink,
    )
}

/// Puts the line of a change that deleted a resource.
fn put_deletion<'a, S: Sink>(
    base: &'a Base,
    change: &'a Change,
    sink: &mut S,
) -> Result<(), WriteFault>
    requires { change.now.facts ≡ None }
    ensures puts { Puts S.takes S.fails sink.old sink.new result
        (line (change_line base.now change.now)) }
    ensures small { length (line (change_line base.now change.now)) ≤ 2450 }
{
    put_line(
        &[
            Piece::Plain(b"<url><loc>"),
            Piece::Plain(base.bytes()),
            Piece::Plain(b"/resource/"),
            Piece::Escaped(change.name.bytes()),
            Piece::Plain(b"</loc><rs:md change=\""),
            Piece::Plain(word(change.what)),
            Piece::Plain(b"\" datetime=\""),
            Piece::At(change.moment),
            Piece::Plain(b"\"/></url>"),
        ],
        sink,
    )
}

/// Returns the value of the attribute `change`.
fn word(what: What) -> &'static [u8]
    ensures { result.now ≡ what_text what }
{
    match what {
        What::Created => b"created",
        What::Updated => b"updated",
        What::Deleted => b"deleted",
    }
}
