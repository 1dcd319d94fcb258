//! The Resource List.

ghost use Rattle.std.specs.Prelude.{◌≤◌, length};
ghost use Rattle.rs_lists.specs.Sinks.{Puts};
ghost use Rattle.rs_lists.specs.Text.{line, resource_line};

use crate::listing::Listing;
use crate::meter::hash_length;
use crate::sink::{Sink, put_line};
use crate::{Piece, View};
use rs_io::WriteFault;
use rs_record::{Base, Record};

/// The Resource List: the published records.
pub struct Resources;

impl Listing for Resources {
    ghost use Rattle.rs_lists.specs.Listed.{resources};

    ghost list = { resources };

    fn path() -> &'static [u8] {
        b"/resourcelist.xml"
    }

    fn len<V: View>(view: &V) -> usize {
        view.published_len()
    }

    /// Its `at` is the moment of the publication.
    fn put_bounds<V: View, S: Sink>(view: &V, sink: &mut S) -> Result<(), WriteFault> {
        put_line(
            &[
                Piece::Plain(b"<rs:md capability=\"resourcelist\" at=\""),
                Piece::At(view.at()),
                Piece::Plain(b"\"/>"),
            ],
            sink,
        )
    }

    /// A part has the bounds of the whole list.
    fn put_part_bounds<V: View, S: Sink>(
        view: &V,
        _part: u64,
        sink: &mut S,
    ) -> Result<(), WriteFault> {
        Resources::put_bounds(view, sink)
    }

    fn put_item<V: View, S: Sink>(view: &V, i: usize, sink: &mut S) -> Result<(), WriteFault> {
        put_resource(view.base(), view.published(i), sink)
    }

    fn put_entry<V: View, S: Sink>(view: &V, part: u64, sink: &mut S) -> Result<(), WriteFault> {
        put_line(
            &[
                Piece::Plain(b"<sitemap><loc>"),
                Piece::Plain(view.base().bytes()),
                Piece::Plain(b"/resourcelist/"),
                Piece::Number(view.number()),
                Piece::Plain(b"/"),
                Piece::Number(part),
                Piece::Plain(b".xml</loc><rs:md at=\""),
                Piece::At(view.at()),
                Piece::Plain(b"\"/></sitemap>"),
            ],
            sink,
        )
    }
}

/// Puts the line of a resource.
fn put_resource<'a, S: Sink>(
    base: &'a Base,
    record: &'a Record,
    sink: &mut S,
) -> Result<(), WriteFault>
    ensures puts { Puts S.takes S.fails sink.old sink.new result
        (line (resource_line base.now «record».now)) }
    ensures small { length (line (resource_line base.now «record».now)) ≤ 2450 }
{
    let bytes = hash_length(&record.digests);
    prove!(bytes == 109);
    put_line(
        &[
            Piece::Plain(b"<url><loc>"),
            Piece::Plain(base.bytes()),
            Piece::Plain(b"/resource/"),
            Piece::Escaped(record.name.bytes()),
            Piece::Plain(b"</loc><lastmod>"),
            Piece::At(record.moment),
            Piece::Plain(b"</lastmod><rs:md hash=\""),
            Piece::Hash(record.digests),
            Piece::Plain(b"\" length=\""),
            Piece::Number(record.length as u64),
            Piece::Plain(b"\" type=\""),
            Piece::Escaped(record.kind.bytes()),
            Piece::Plain(b"\"/></url>"),
        ],
        sink,
    )
}
