//! Laws of the answers at paths.

ghost use Rattle.rs_caps.specs.PathAnswers.{DocumentsAreAnswered, BodiesAreAnswered};

/// The answer at the path of a document is its text, and at the path of a resource its bytes. No document has the path
/// of a resource.
pub fn paths_are_answered()
    ensures documents { DocumentsAreAnswered }
    ensures bodies { BodiesAreAnswered }
{}
