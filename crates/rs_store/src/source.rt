//! A source on a disk.

ghost use Rattle.std.specs.Prelude.{◌≡◌};
ghost use Rattle.rs_image.specs.Rooted.{IsRooted, rooted};

use rs_commit::Slots;
use rs_disk::Disk;
use rs_extent::Used;
use rs_image::{Contents, Rooted};
use std::alloc::Global;
use std::marker::Model;

/// A source on a disk: its resources, the changes that it keeps and its latest publication. They survive
/// a crash at any moment.
///
/// It keeps the set of the blocks that its root reaches, so that no command walks over all pages. Contracts do not see
/// the set: between calls it is the set of the root and the lists.
#[derive(Drop)]
pub struct Source<D: Disk> {
    pub(crate) disk: D,
    pub(crate) slots: Slots,
    pub(crate) contents: Contents,
    pub(crate) used: Used,
    pub(crate) is_closed: bool,
    pub(crate) alloc: Global,
}

impl<D: Disk> Model for Source<D> {
    ghost use Rattle.rs_store.specs.Source.{Stored};
    ghost use Rattle.rs_image.specs.Rooted.{rooted, MemoryIsSound};

    ghost Value = { Stored D };

    ghost view = { λ s. record
        { disk = s.disk; slots = s.slots; contents = s.contents; is_closed = s.is_closed } };

    ghost invariant = { λ s. MemoryIsSound
        (rooted (D.state s.disk).size s.slots.root s.contents) s.used };
}

/// Returns the root of the slots with its lists, as planners take them. It borrows the lists alone, so that a planner
/// can also borrow the set of used blocks.
pub(crate) fn rooted_by<'a, D: Disk>(disk: &D, slots: &Slots, contents: &'a Contents) -> Rooted<'a>
    requires { IsRooted (rooted (D.state disk.now).size slots.now.root contents.now) }
    ensures { result ≡ rooted (D.state disk.now).size slots.now.root contents.now }
{
    Rooted::new(disk.size(), slots.root(), contents)
}
