//! Writing the path of a document.

ghost use Rattle.std.specs.Prelude.{◌≡◌, OnOk, OnErr, IfOk};
ghost use Rattle.rs_io.specs.Watch.{EndFailed, FailedWithin, Wrote};
ghost use Rattle.rs_caps.specs.Paths.{path_of as path_text};

use rs_io::{Watched, WriteFault};
use rs_lists::{Doc, Piece, put_pieces};
use std::alloc::{AllocError, Global};
use std::io::Write;

/// Writes the path of a document, from its first `/` on. It also writes the path of a part that does not exist.
///
/// # Errors
///
/// [`WriteFault`] only where the writer failed in this call. It has then written a beginning of the path and no other
/// byte.
pub fn write_path<W: Write>(doc: Doc, out: &mut Watched<W>) -> Result<(), WriteFault>
    ensures written { OnOk result (Wrote W.contents out.old out.new (path_text doc)) }
    ensures fault { OnErr result (EndFailed out.old out.new) }
    ensures within { OnErr result (FailedWithin W.contents out.old out.new (path_text doc)) }
{
    match doc {
        Doc::Description => out.put(b"/.well-known/resourcesync"),
        Doc::Capabilities => out.put(b"/capabilitylist.xml"),
        Doc::ResourceHead => out.put(b"/resourcelist.xml"),
        Doc::ResourcePart { publication, part } => put_pieces(
            &[
                Piece::Plain(b"/resourcelist/"),
                Piece::Number(publication),
                Piece::Plain(b"/"),
                Piece::Number(part),
                Piece::Plain(b".xml"),
            ],
            out,
        ),
        Doc::ChangeHead => out.put(b"/changelist.xml"),
        Doc::ChangePart { part } => put_pieces(
            &[
                Piece::Plain(b"/changelist/"),
                Piece::Number(part),
                Piece::Plain(b".xml"),
            ],
            out,
        ),
    }
}

/// Returns the path of a document, at most 60 bytes.
///
/// # Errors
///
/// An error where a growth of memory is refused.
pub fn path_of(alloc: Global, doc: Doc) -> Result<Vec<u8>, AllocError>
    ensures { IfOk result (λ path. path.items ≡ path_text doc) }
{
    let mut out = Watched::new(Vec::new(alloc));
    match write_path(doc, &mut out) {
        Ok(()) => Ok(out.into_inner()),
        Err(WriteFault) => Err(AllocError),
    }
}
