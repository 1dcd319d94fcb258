//! Laws of the documents that a source serves.

ghost use Rattle.rs_model.specs.State.{Source};
ghost use Rattle.rs_model.specs.Regular.{IsRegular};
ghost use Rattle.rs_model.specs.Lawful.{IsLawful};
ghost use Rattle.rs_caps.specs.Statements.{TextsAreAnswered, TextsRead, ResourcesAreGathered, ChangesAreGathered, ListsMirror, ListedPartsStay, ClosedPartsStay, PartsAreBounded, BlocksAreNotShown, AlikeViewsHaveOneText};

use rs_lists::parts_are_chunks;
use rs_model::{State, changes_are_kept, lawful_stays, states_are_lawful};
use rs_record::{Change, Record};

/// The answer at the path of an existing list, part or index is its text, and the text reads as exactly that document:
/// its moments, and its children in order with all their values.
pub fn texts_read()
    ensures answered { TextsAreAnswered }
    ensures read { TextsRead }
{}

/// Served lists mirror the held resources. The texts of the Resource List give the whole publication. The texts of the
/// Change List give all kept changes and where they begin. In a regular state the published resources with the changes
/// after their publication are the resources that are held.
pub fn lists_read()
    ensures resources { (s : Source) → IsLawful s → ResourcesAreGathered s }
    ensures changes { (s : Source) → IsLawful s → ChangesAreGathered s }
    ensures mirrored { (s : Source) → IsRegular s → IsLawful s → ListsMirror s }
{
    parts_are_chunks::<Record>();
    parts_are_chunks::<Change>();
}

/// The same for every [`State`]: its type keeps all that its lists need to read.
pub fn lists_of_a_state_read(state: &State)
    ensures resources { ResourcesAreGathered state.now }
    ensures changes { ChangesAreGathered state.now }
    ensures mirrored { IsRegular state.now → ListsMirror state.now }
{
    lists_read();
    states_are_lawful(state);
}

/// A part of the Resource List stays as it is: two answers at its path are equal, with any commands between them. The
/// law does not apply where there is no answer, as after the next publication.
pub fn listed_parts_stay()
    ensures { ListedPartsStay }
{}

/// A part of the Change List stays as it is once it has an `until`, also where earlier parts are dropped.
pub fn closed_parts_stay()
    ensures { ClosedPartsStay }
{
    changes_are_kept();
    lawful_stays();
}

/// In a regular state the changes of every part of the Change List are after the part's `from`, and not after the
/// `from` of the next, which is its `until` where it has one.
pub fn parts_are_bounded()
    ensures { PartsAreBounded }
{}

/// No document says where the blocks of a body are. A view of a stored source shows published records with the blocks
/// of their bodies, and a view of a state shows them without blocks. Their documents are equal.
pub fn blocks_are_not_shown()
    ensures bare { BlocksAreNotShown }
    ensures alike { AlikeViewsHaveOneText }
{}
