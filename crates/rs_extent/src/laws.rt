//! Laws of extents, over their definitions alone.
//!
//! The functions here have no effect: their contracts are the laws, which the check proves.
ghost use Rattle.rs_extent.specs.Laws.{ApartInParts, FreeIsTaken, TakenInTurn, CanTakeInTurn, TakenIsGivenBack};

/// Two lists of extents are apart together exactly if both are apart and have no block in common.
pub fn apart_in_parts()
    ensures { ApartInParts }
{}

/// A free extent is taken if its blocks become used.
pub fn free_is_taken()
    ensures { FreeIsTaken }
{}

/// Extents that are taken one after the other are taken, and those that can be taken can be taken
/// one after the other.
pub fn taken_in_turn()
    ensures taken { TakenInTurn }
    ensures can { CanTakeInTurn }
{}

/// Taking extents and giving them back leaves the set as it was.
pub fn taken_is_given_back()
    ensures { TakenIsGivenBack }
{}
