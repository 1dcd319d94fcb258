//! Laws of walks: the resources held after any events, and the result of the changes.
//!
//! The functions here have no effect: their contracts are the laws, which the check proves.

ghost use Rattle.rs_model.specs.WalkLaws.{WalksAreFolds, WalksStayLawful, ChangesAreRecorded, HeldIsCatalogued, HeldThenIsCatalogued, ListIsFollowed, KeptListIsFollowed, EachCountIsPassed};

/// A walk leaves the state that its done commands leave, at their moments and in their order. So every law of runs of
/// commands holds of walks.
pub fn walks_are_folds()
    ensures { WalksAreFolds }
{}

/// A walk whose commands are lawful leaves a lawful state lawful.
pub fn walks_stay_lawful()
    ensures { WalksStayLawful }
{}

/// The changes of a state are those that its walk has recorded, without the dropped parts. The held resources are the
/// result of all recorded changes, at the end and after any event. A list published on the way, followed by the changes
/// after it, gives the same. So it does with only the changes that a state of the walk keeps, if that state's history
/// begins no later than the list's moment.
pub fn walks_are_catalogued()
    ensures recorded { ChangesAreRecorded }
    ensures held { HeldIsCatalogued }
    ensures held_then { HeldThenIsCatalogued }
    ensures followed { ListIsFollowed }
    ensures kept_followed { KeptListIsFollowed }
{}

/// Between two of its states a walk passes every number of changes, perhaps within a group.
pub fn walks_pass_each_count()
    ensures { EachCountIsPassed }
{}
