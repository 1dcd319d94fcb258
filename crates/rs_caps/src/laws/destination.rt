//! Laws of a destination that fetches one document after another while the source goes on.

ghost use Rattle.rs_caps.specs.Destination.{DestinationMirrors, MirrorWasHeld, FetchedListedPartsStay, FetchedClosedPartsStay};

use rs_lists::parts_are_chunks;
use rs_model::{
    changes_are_kept, walks_are_catalogued, walks_are_folds, walks_pass_each_count,
    walks_stay_lawful,
};
use rs_record::{Change, Record};

/// A destination fetches the Resource List and then the Change List, each with the parts that its head names, and
/// mirrors the one with the other. Between its fetches there may be commands, refusals, and crashes within commands and
/// between them. The mirror is a catalogue of the source: the result of its first n changes, where change n came
/// between the fetches of the Change List. The source held that at a point between them. Where a group came next there,
/// the mirror may be the resources held followed by the group's first changes.
///
/// The premise is that the fetched Change List does not begin after the moment of the Resource List. It may do so where
/// publications between the two fetches drop changes. A destination that sees this begins again.
pub fn destination_mirrors()
    ensures mirrored { DestinationMirrors }
    ensures held { MirrorWasHeld }
{
    parts_are_chunks::<Record>();
    parts_are_chunks::<Change>();
    walks_are_folds();
    walks_stay_lawful();
    walks_are_catalogued();
    walks_pass_each_count();
}

/// All answers at the path of a part are the same: of a part of the Resource List always, and of a part of the Change
/// List once it has an `until`.
pub fn fetched_parts_stay()
    ensures listed { FetchedListedPartsStay }
    ensures closed { FetchedClosedPartsStay }
{
    changes_are_kept();
    walks_are_folds();
    walks_stay_lawful();
}
