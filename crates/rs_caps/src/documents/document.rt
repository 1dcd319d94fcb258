//! The text of every document, written and measured.

ghost use Rattle.std.specs.Prelude.{◌≡◌, ◌↔◌, None, OnOk, OnErr, IfSome, IsErrOf, IsTrue, length, option_map};
ghost use Rattle.rs_io.specs.Watch.{EndFailed, FailedWithin, Wrote};
ghost use Rattle.rs_record.specs.Base.{is_base};
ghost use Rattle.rs_lists.specs.Piece.{pieces_text};
ghost use Rattle.rs_caps.specs.DocumentTexts.{document_text, description_text, capabilities_text};

use rs_io::{Watched, WriteFault};
use rs_lists::{Doc, ListDocument, ListError, Piece, View, pieces_length, put_pieces};
use rs_record::Base;
use std::io::Write;
use std::marker::Model;

/// The content of a document: the base that it names, or a list.
#[derive(Drop)]
enum Content<'a, V: View> {
    Description(&'a Base),
    Capabilities(&'a Base),
    List(ListDocument<'a, V>),
}

/// A document that exists. Contracts see its text.
///
/// It borrows the view, and makes the text only as it writes it.
#[derive(Drop)]
pub struct Document<'a, V: View> {
    content: Content<'a, V>,
}

impl<'a, V: View> Model for Document<'a, V> {
    ghost use Rattle.std.specs.Prelude.{ℕ, List};
    ghost use Rattle.rs_caps.specs.Contents.{content_text};

    ghost Value = { List ℕ };

    ghost view = { λ document. content_text document.content };
}

impl<'a, V: View> Document<'a, V> {
    /// Returns the document, or `None` exactly where it does not exist.
    ///
    /// The Source Description, the Capability List and the heads of both lists always exist. A part exists only where
    /// its head is an index, and a part of a Resource List only under the number of the latest publication.
    pub fn of(view: &'a V, doc: Doc) -> Option<Document<'a, V>>
        ensures { result ≡ document_text (V.shown view.now) doc }
    {
        let content = match doc {
            Doc::Description => Content::Description(view.base()),
            Doc::Capabilities => Content::Capabilities(view.base()),
            _ => Content::List(ListDocument::of(view, doc)?),
        };
        Some(Document { content })
    }

    /// Returns the length of its text in bytes. It makes no text and takes no memory.
    pub fn len(&self) -> u64
        ensures { result ≡ length self.now }
    {
        match &self.content {
            Content::Description(base) => pieces_length(&description(base)),
            Content::Capabilities(base) => pieces_length(&capabilities(base)),
            Content::List(list) => list.len(),
        }
    }

    /// Writes its whole text: UTF-8, every line ended by a line feed.
    ///
    /// # Errors
    ///
    /// [`WriteFault`] only where the writer failed in this call; then it has written a beginning of the text and no
    /// other byte.
    pub fn write<W: Write>(&self, out: &mut Watched<W>) -> Result<(), WriteFault>
        ensures written { OnOk result (Wrote W.contents out.old out.new self.now) }
        ensures fault { OnErr result (EndFailed out.old out.new) }
        ensures within { OnErr result (FailedWithin W.contents out.old out.new self.now) }
    {
        match &self.content {
            Content::Description(base) => put_pieces(&description(base), out),
            Content::Capabilities(base) => put_pieces(&capabilities(base), out),
            Content::List(list) => list.write(out),
        }
    }
}

/// Writes the whole text of a document, as [`Document::write`] does.
///
/// # Errors
///
/// `NoSuchDocument` exactly where the document does not exist; then it writes no byte. `WriteFault` only where the
/// writer failed in this call; then it has written a beginning of the text and no other byte.
pub fn write_document<V: View, W: Write>(
    view: &V,
    doc: Doc,
    out: &mut Watched<W>,
) -> Result<(), ListError>
    ensures written { OnOk result
        (IfSome (document_text (V.shown view.now) doc) (Wrote W.contents out.old out.new)) }
    ensures missing { IsErrOf result ListError.NoSuchDocument
        ↔ (document_text (V.shown view.now) doc ≡ None) }
    ensures untouched { IsErrOf result ListError.NoSuchDocument → out.new ≡ out.old }
    ensures fault { IsErrOf result ListError.WriteFault → EndFailed out.old out.new }
    ensures within { IsErrOf result ListError.WriteFault →
        IfSome (document_text (V.shown view.now) doc) (FailedWithin W.contents out.old out.new) }
{
    let Some(document) = Document::of(view, doc) else {
        return Err(ListError::NoSuchDocument);
    };
    match document.write(out) {
        Ok(()) => Ok(()),
        Err(WriteFault) => Err(ListError::WriteFault),
    }
}

/// Returns the length in bytes of the text that [`write_document`] writes, or `None` where the document does not exist.
/// It makes no text and takes no memory.
pub fn document_length<V: View>(view: &V, doc: Doc) -> Option<u64>
    ensures { result ≡ option_map length (document_text (V.shown view.now) doc) }
{
    let document = Document::of(view, doc)?;
    Some(document.len())
}

/// Returns the Source Description, in pieces.
fn description(base: &Base) -> [Piece<'_>; 6]
    ensures text { pieces_text result ≡ description_text base.now }
    ensures lawful { IsTrue (is_base base.now) }
{
    [
        Piece::Plain(b"<?xml version=\"1.0\" encoding=\"UTF-8\"?>\n"),
        Piece::Plain(b"<urlset xmlns=\"http://www.sitemaps.org/schemas/sitemap/0.9\""),
        Piece::Plain(b" xmlns:rs=\"http://www.openarchives.org/rs/terms/\">\n"),
        Piece::Plain(b"<rs:md capability=\"description\"/>\n<url><loc>"),
        Piece::Plain(base.bytes()),
        Piece::Plain(
            b"/capabilitylist.xml</loc><rs:md capability=\"capabilitylist\"/></url>\n</urlset>\n",
        ),
    ]
}

/// Returns the Capability List, in pieces.
fn capabilities(base: &Base) -> [Piece<'_>; 10]
    ensures text { pieces_text result ≡ capabilities_text base.now }
    ensures lawful { IsTrue (is_base base.now) }
{
    [
        Piece::Plain(b"<?xml version=\"1.0\" encoding=\"UTF-8\"?>\n"),
        Piece::Plain(b"<urlset xmlns=\"http://www.sitemaps.org/schemas/sitemap/0.9\""),
        Piece::Plain(b" xmlns:rs=\"http://www.openarchives.org/rs/terms/\">\n"),
        Piece::Plain(b"<rs:ln rel=\"up\" href=\""),
        Piece::Plain(base.bytes()),
        Piece::Plain(
            b"/.well-known/resourcesync\"/>\n<rs:md capability=\"capabilitylist\"/>\n<url><loc>",
        ),
        Piece::Plain(base.bytes()),
        Piece::Plain(
            b"/resourcelist.xml</loc><rs:md capability=\"resourcelist\"/></url>\n<url><loc>",
        ),
        Piece::Plain(base.bytes()),
        Piece::Plain(b"/changelist.xml</loc><rs:md capability=\"changelist\"/></url>\n</urlset>\n"),
    ]
}
