//! The lists as documents, written and measured.

ghost use Rattle.std.specs.Prelude.{◌≡◌, ◌<◌, ◌↔◌, None, IfSome, IsErrOf, OnOk, length};
ghost use Rattle.std.specs.Option.{option_map};
ghost use Rattle.rs_io.specs.Watch.{EndFailed, FailedWithin, Wrote};
ghost use Rattle.rs_lists.specs.Lawful.{IsSmall};
ghost use Rattle.rs_lists.specs.Text.{list_text};

use crate::{Doc, ListDocument, View};
use rs_io::{Watched, WriteFault};
use std::io::Write;
use thiserror::Error;

/// The reason why a list was not written.
#[derive(Clone, Copy, Debug, PartialEq, Eq, Error)]
pub enum ListError {
    /// The list, the index or the part does not exist. No byte was written.
    #[error("there is no such document")]
    NoSuchDocument,

    /// The writer failed. A beginning of the text is written, and no other byte.
    #[error("the writer failed")]
    WriteFault,
}

/// Writes exactly the text of a list, an index or a part, as [`ListDocument::write`] does.
///
/// This function does not write the Source Description and the Capability List: for them it answers
/// [`ListError::NoSuchDocument`].
///
/// # Errors
///
/// [`ListError::NoSuchDocument`] exactly if the document does not exist; no byte is written then.
/// [`ListError::WriteFault`] only if a call of the writer failed in this call; a beginning of the text is written then,
/// and no other byte.
pub fn write_list<V: View, W: Write>(
    view: &V,
    doc: Doc,
    out: &mut Watched<W>,
) -> Result<(), ListError>
    ensures written { OnOk result
        (IfSome (list_text (V.shown view.now) doc) (Wrote W.contents out.old out.new)) }
    ensures missing { IsErrOf result ListError.NoSuchDocument
        ↔ (list_text (V.shown view.now) doc ≡ None) }
    ensures untouched { IsErrOf result ListError.NoSuchDocument → out.new ≡ out.old }
    ensures small { OnOk result (IfSome (list_text (V.shown view.now) doc) IsSmall) }
    ensures fault { IsErrOf result ListError.WriteFault → EndFailed out.old out.new }
    ensures within { IsErrOf result ListError.WriteFault →
        IfSome (list_text (V.shown view.now) doc) (FailedWithin W.contents out.old out.new) }
{
    let Some(document) = ListDocument::of(view, doc) else {
        return Err(ListError::NoSuchDocument);
    };
    match document.write(out) {
        Ok(()) => Ok(()),
        Err(WriteFault) => Err(ListError::WriteFault),
    }
}

/// Returns the number of bytes that [`write_list`] writes, or `None` exactly if the document does not exist. It makes
/// no text and takes no memory.
pub fn list_length<V: View>(view: &V, doc: Doc) -> Option<u64>
    ensures value { result ≡ option_map length (list_text (V.shown view.now) doc) }
    ensures small { IfSome result (λ bytes. bytes < 10485760) }
{
    let document = ListDocument::of(view, doc)?;
    Some(document.len())
}
