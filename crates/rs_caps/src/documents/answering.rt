//! The answer at a path.

ghost use Rattle.std.specs.Prelude.{◌≡◌, IfOk, option_copied, option_map};
ghost use Rattle.rs_model.specs.State.{body_of};
ghost use Rattle.rs_caps.specs.Answer.{answer as answer_of, body_at};
ghost use Rattle.rs_caps.specs.DocumentTexts.{document_text};
ghost use Rattle.rs_caps.specs.Shows.{shown_of};

use crate::documents::document::write_document;
use crate::documents::path_reading::{doc_of, strip};
use crate::documents::state_view::StateView;
use rs_io::Watched;
use rs_lists::{Doc, ListError};
use rs_model::{State, states_are_lawful};
use rs_record::{Name, ValueFault};
use std::alloc::{AllocError, Global};

/// Returns the answer at this path: the text of the document that has it, or the bytes of the resource that has it.
/// `None` where the document does not exist, or the resource is not held.
///
/// # Errors
///
/// An error where a growth of memory is refused.
pub fn answer(alloc: Global, state: &State, path: &[u8]) -> Result<Option<Vec<u8>>, AllocError>
    ensures { IfOk result (λ answered.
        option_map (λ bytes. bytes.items) answered ≡ answer_of state.now path.now) }
{
    match doc_of(path) {
        Some(doc) => document(alloc, state, doc),
        None => resource(alloc, state, path),
    }
}

/// Returns the text of a document, if it exists.
fn document(alloc: Global, state: &State, doc: Doc) -> Result<Option<Vec<u8>>, AllocError>
    ensures { IfOk result (λ text.
        option_map (λ bytes. bytes.items) text ≡ document_text (shown_of state.now) doc) }
{
    let view = StateView::new(alloc, state)?;
    let mut out = Watched::new(Vec::new(alloc));
    match write_document(&view, doc, &mut out) {
        Ok(()) => Ok(Some(out.into_inner())),
        Err(ListError::NoSuchDocument) => Ok(None),
        Err(ListError::WriteFault) => Err(AllocError),
    }
}

/// Returns the bytes of the resource that has this path, if it is held.
fn resource(alloc: Global, state: &State, path: &[u8]) -> Result<Option<Vec<u8>>, AllocError>
    ensures { IfOk result
        (λ body. option_map (λ bytes. bytes.items) body ≡ body_at state.now path.now) }
{
    match strip(b"/resource/", path) {
        Some(name) => body(alloc, state, name),
        None => Ok(None),
    }
}

/// Returns the bytes of the resource of this name, if it is held. No state holds a name that is not
/// lawful.
fn body(alloc: Global, state: &State, name: &[u8]) -> Result<Option<Vec<u8>>, AllocError>
    ensures { IfOk result
        (λ body. option_map (λ bytes. bytes.items) body ≡ body_of name.now state.now) }
{
    states_are_lawful(state);
    match Name::new(alloc, name) {
        Ok(name) => copied(alloc, state.body(&name)),
        Err(ValueFault::Malformed) => Ok(None),
        Err(ValueFault::NoMemory) => Err(AllocError),
    }
}

/// Returns a copy of the bytes.
fn copied(alloc: Global, bytes: Option<&[u8]>) -> Result<Option<Vec<u8>>, AllocError>
    ensures { IfOk result
        (λ copied. option_map (λ copy. copy.items) copied ≡ option_copied bytes.entry) }
{
    match bytes {
        Some(bytes) => Ok(Some(Vec::from_slice(alloc, bytes)?)),
        None => Ok(None),
    }
}
