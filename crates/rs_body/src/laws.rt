//! Laws of blocks and of runs that write outside them, over their definitions alone.
//!
//! The functions here have no effect: their contracts are the laws, which the check proves. Proofs cite their lemmas,
//! in `proofs/KeptBlocks.antt` and `proofs/Only.antt`, and in rs_extent.
ghost use Rattle.rs_body.specs.Laws.{BesideEach, FewestBlocks, NoCallOutside, OutsideGoesOn, OutsideLess, OutsideRests, OnlyJoins, PartIsOnly, PartKept, ImagePartKept};

use rs_disk::laws::Told;

/// Extents are disjoint from a set of blocks exactly if all of them are.
pub fn beside_each()
    ensures { BesideEach }
{}

/// The blocks that bytes need are the fewest that have room for them.
pub fn fewest_blocks()
    ensures { FewestBlocks }
{}

/// A run without calls writes outside every set of blocks.
pub fn outside_none()
    ensures { NoCallOutside }
{}

/// Two runs in turn that write outside a set of blocks write outside it as one run.
pub fn outside_goes_on()
    ensures { OutsideGoesOn }
{}

/// A run that writes outside a set of blocks writes outside all its subsets.
pub fn outside_less()
    ensures { OutsideLess }
{}

/// A run that leaves the disk as it is writes outside every set of blocks.
pub fn outside_rests<A: Told>()
    ensures { OutsideRests A.told }
{}

/// Two runs in turn, both of which write only some extents, write only these as one run.
pub fn only_goes_on<A: Told, B: Told, C: Told>()
    ensures joins { OnlyJoins A.told B.told C.told }
    ensures part { PartIsOnly A.told }
{}

/// The bytes of an extent within a set of blocks stay if the set's blocks keep their bytes. In every image of a crash
/// within a run that writes outside the set, they are those of an image from before the run.
pub fn part_kept()
    ensures part { PartKept }
    ensures image { ImagePartKept }
{}
