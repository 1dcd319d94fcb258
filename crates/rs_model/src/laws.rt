//! Laws of the definitions that the contracts cite.
//!
//! The functions here have no effect: their contracts are the laws, which the check proves.

ghost use Rattle.std.specs.Prelude.{ℕ, List};
ghost use Rattle.rs_model.specs.State.{start_of};
ghost use Rattle.rs_model.specs.Regular.{IsRegular, IsTimely};
ghost use Rattle.rs_model.specs.Laws.{GroupsStepInTurn, BadGroupsAreRefused, ItemsMakeChanges, FrontsAreAccepted, FrontsMakeTheFirst, GroupsComeAtTheirMoment, StepIsRegular, StepIsTimely, FoldIsRegular, FoldIsTimely, ChangesAreKept, PartsDoNotRunOut, OrderedWhenBound, OrderedWhenUnbound, OrderedWhenMirrored, BoundIsFound, OthersStayBound, UnboundIsGone, OthersStayUnbound, StartIsLawful, StepIsLawful, FoldIsLawful};

/// A formatted state is regular and timely.
pub fn start_is_regular()
    ensures regular { (base : List ℕ) (limit moment : ℕ) → IsRegular (start_of base limit moment) }
    ensures timely { (base : List ℕ) (limit moment : ℕ) → IsTimely (start_of base limit moment) }
{}

/// A step keeps a state regular, and a timely one timely.
pub fn step_is_regular()
    ensures regular { StepIsRegular }
    ensures timely { StepIsTimely }
{}

/// A group of 1 to 16 items has the effect of its items one by one, all at the same moment. It is refused as the first
/// refused item is. Any other group is refused as no group. Every item makes one change. The first items of an accepted
/// group are an accepted group, and make the first of its changes.
pub fn groups_step_in_turn()
    ensures steps { GroupsStepInTurn }
    ensures bad { BadGroupsAreRefused }
    ensures changes { ItemsMakeChanges }
    ensures fronts { FrontsAreAccepted }
    ensures first { FrontsMakeTheFirst }
    ensures moment { GroupsComeAtTheirMoment }
{}

/// Any run of commands keeps a state regular, and a timely one timely.
pub fn fold_is_regular()
    ensures regular { FoldIsRegular }
    ensures timely { FoldIsTimely }
{}

/// Any run of commands keeps the changes and appends to them, but drops whole parts from the front. The first number
/// and the begin give the number of dropped parts and the moment of the last dropped change.
pub fn changes_are_kept()
    ensures { ChangesAreKept }
{}

/// No regular state refuses a publication for want of a number for the first part that it keeps.
pub fn parts_do_not_run_out()
    ensures { PartsDoNotRunOut }
{}

/// The names of a map stay in strictly ascending order.
pub fn names_stay_ordered<V>()
    ensures bound { OrderedWhenBound V }
    ensures unbound { OrderedWhenUnbound V }
    ensures mirrored { OrderedWhenMirrored }
{}

/// Binding a name changes its value and no other, and unbinding it takes its value and no other.
pub fn names_are_a_map<V>()
    ensures bound { BoundIsFound V }
    ensures bound_alone { OthersStayBound V }
    ensures unbound { UnboundIsGone V }
    ensures unbound_alone { OthersStayUnbound V }
{}

/// A source formatted with a lawful base, limit and moment is lawful. Commands of lawful names and types keep it
/// lawful, at any moments.
pub fn lawful_stays()
    ensures start { StartIsLawful }
    ensures step { StepIsLawful }
    ensures fold { FoldIsLawful }
{}
