//! The frame of every list and index: the XML declaration, the root element and the links.

ghost use Rattle.std.specs.Prelude.{◌≡◌, ◌≤◌, ◌∷◌, [], length, OnOk, OnErr, codes};
ghost use Rattle.rs_lists.specs.Root.{tag_of};
ghost use Rattle.rs_lists.specs.Sinks.{Puts};
ghost use Rattle.rs_lists.specs.Text.{line, joined, xml_line, open_line, close_line, up_line, link_line};

use crate::Piece;
use crate::sink::{Sink, put_line};
use rs_io::WriteFault;
use rs_record::Base;

/// The root element of a document (Sitemap 0.9).
#[derive(Clone, Copy)]
pub enum RootElement {
    /// Of a list: `urlset`.
    UrlSet,

    /// Of an index: `sitemapindex`.
    SitemapIndex,
}

impl RootElement {
    /// Returns the name of the element.
    fn tag(self) -> &'static [u8]
        ensures { result.now ≡ tag_of self }
    {
        match self {
            RootElement::UrlSet => b"urlset",
            RootElement::SitemapIndex => b"sitemapindex",
        }
    }
}

/// Puts the first lines of a document: the XML declaration, the start of its root element and the link
/// to the Capability List.
pub fn put_opening<S: Sink>(root: RootElement, base: &Base, sink: &mut S) -> Result<(), WriteFault>
    ensures puts { Puts S.takes S.fails sink.old sink.new result
        (joined (xml_line ∷ open_line (tag_of root) ∷ up_line base.now ∷ [])) }
    ensures base { OnOk result (length base.now ≤ 128) }
{
    put_line(
        &[Piece::Plain(b"<?xml version=\"1.0\" encoding=\"UTF-8\"?>")],
        sink,
    )?;
    put_line(
        &[
            Piece::Plain(b"<"),
            Piece::Plain(root.tag()),
            Piece::Plain(b" xmlns=\"http://www.sitemaps.org/schemas/sitemap/0.9\""),
            Piece::Plain(b" xmlns:rs=\"http://www.openarchives.org/rs/terms/\">"),
        ],
        sink,
    )?;
    put_link(b"up", base, b"/capabilitylist.xml", sink)
}

/// Puts the first lines of a part: those of a list, and the link to its index.
pub fn put_part_opening<S: Sink>(base: &Base, index: &[u8], sink: &mut S) -> Result<(), WriteFault>
    ensures puts { Puts S.takes S.fails sink.old sink.new result
        (joined (xml_line ∷ open_line (codes "urlset") ∷ up_line base.now
        ∷ link_line (codes "index") base.now index.now ∷ [])) }
    ensures base { OnOk result (length base.now ≤ 128) }
{
    put_opening(RootElement::UrlSet, base, sink)?;
    put_link(b"index", base, index, sink)
}

/// Puts a link to a path of the source.
fn put_link<'a, S: Sink>(
    relation: &'a [u8],
    base: &'a Base,
    path: &'a [u8],
    sink: &mut S,
) -> Result<(), WriteFault>
    ensures puts { Puts S.takes S.fails sink.old sink.new result
        (line (link_line relation.now base.now path.now)) }
    ensures base { length base.now ≤ 128 }
{
    put_line(
        &[
            Piece::Plain(b"<rs:ln rel=\""),
            Piece::Plain(relation),
            Piece::Plain(b"\" href=\""),
            Piece::Plain(base.bytes()),
            Piece::Plain(path),
            Piece::Plain(b"\"/>"),
        ],
        sink,
    )
}

/// Puts the last line of a document: the end of its root element.
pub fn put_closing<S: Sink>(root: RootElement, sink: &mut S) -> Result<(), WriteFault>
    ensures { Puts S.takes S.fails sink.old sink.new result (line (close_line (tag_of root))) }
{
    put_line(
        &[
            Piece::Plain(b"</"),
            Piece::Plain(root.tag()),
            Piece::Plain(b">"),
        ],
        sink,
    )
}
