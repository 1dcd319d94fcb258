//! Laws of the state that an image holds, over the definitions alone.
//!
//! Every function here has an empty body: its contract is the law, which the check proves. Proofs
//! cite the lemmas for these laws, in `proofs/Once.antt` and `proofs/Frame.antt`.
ghost use Rattle.rs_image.specs.Laws.{StandsOnce, TellsOnce, TellsStays, TellsBehind};

/// An image holds at most one state.
pub fn stands_once()
    ensures { StandsOnce }
{}

/// A root describes at most one set of lists in an image.
pub fn tells_once()
    ensures { TellsOnce }
{}

/// The lists that a root describes depend only on the blocks that it reaches: they stay the same
/// while these blocks do.
pub fn tells_stays()
    ensures { TellsStays }
{}

/// The lists that a root describes stay the same while all blocks after the slots do.
pub fn tells_behind()
    ensures { TellsBehind }
{}
