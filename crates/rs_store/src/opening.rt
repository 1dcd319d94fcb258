//! Opening the source on a disk.

ghost use Rattle.std.specs.Prelude.{◌≡◌, ◌+◌, ◌<◌, IfOk, IfErr, OnOk, IsErrOf, IsErrAnd, IsTrue};
ghost use Rattle.rs_disk.specs.Medium.{resting};
ghost use Rattle.rs_disk.specs.Runs.{RunsReading, WritesNothing};
ghost use Rattle.rs_commit.specs.Commit.{AreSettled};
ghost use Rattle.rs_image.specs.Rooted.{rooted, MemoryIsSound};
ghost use Rattle.rs_store.specs.Opening.{disk_of, IsFound, IsOpened, IsNotOpened, ArePagesPlaced};

use crate::Source;
use rs_body::LoadFault;
use rs_commit::{SlotFault, Slots, open_slots};
use rs_disk::{Disk, Fault};
use rs_extent::BLOCK_SIZE;
use rs_image::{Loaded, load};
use std::alloc::Global;
use thiserror::Error;

// The bytes of the two slots.
const SLOTS_SIZE: u64 = 2 * BLOCK_SIZE as u64;

/// The reason why no source was opened.
#[derive(Clone, Copy, Debug, PartialEq, Eq, Error)]
pub enum OpenFault {
    /// The disk holds no source: no slot is open, an open one has an unknown version, or both are open
    /// with equal generations.
    #[error("the disk holds no source")]
    NotASource,
    /// The disk holds a source that breaks a rule of the format.
    #[error("the source is damaged")]
    Damaged,
    /// A device call failed.
    #[error("the device failed")]
    Device,
    /// An allocation failed.
    #[error("out of memory")]
    NoMemory,
}

impl From<Fault> for OpenFault {
    ghost use Rattle.rs_store.specs.declared.opening.OpenFault.{OpenFault};

    ghost from_gives = { λ _ fault. fault ≡ OpenFault.Device };

    fn from(_: Fault) -> OpenFault {
        OpenFault::Device
    }
}

impl From<SlotFault> for OpenFault {
    ghost use Rattle.rs_store.specs.Opening.{of_slots};

    ghost from_gives = { λ fault made. made ≡ of_slots fault };

    fn from(fault: SlotFault) -> OpenFault {
        match fault {
            SlotFault::NotASource => OpenFault::NotASource,
            SlotFault::Device => OpenFault::Device,
        }
    }
}

impl From<LoadFault> for OpenFault {
    ghost use Rattle.rs_store.specs.Opening.{of_lists};

    ghost from_gives = { λ fault made. made ≡ of_lists fault };

    fn from(fault: LoadFault) -> OpenFault {
        match fault {
            LoadFault::Damaged => OpenFault::Damaged,
            LoadFault::Device => OpenFault::Device,
            LoadFault::NoMemory => OpenFault::NoMemory,
        }
    }
}

impl<D: Disk> Source<D> {
    /// Opens the source on a disk of any content.
    ///
    /// It also opens a disk of version 1 of the format. That disk has all its changes, and the first accepted command
    /// turns it into version 2.
    ///
    /// It first syncs the disk, so that nothing is unsettled, and writes nothing. It checks the directory, all pages
    /// and all extents. It reads no bodies, and does not check whether the changes lead to the held resources.
    ///
    /// # Errors
    ///
    /// All errors return the disk.
    ///
    /// - [`OpenFault::NotASource`] exactly if the slots give no root.
    /// - [`OpenFault::Damaged`] if the root determines no state: the disk breaks a rule of the format.
    /// - [`OpenFault::Device`] exactly if a device call failed.
    /// - [`OpenFault::NoMemory`] if memory ran out. Opening asks for memory only once it has found that the root's
    ///   directory lies after the slots, in exactly the blocks of its length. Once the fourth call has read the
    ///   directory, it asks only if all pages that the directory names lie in the same way.
    ///
    /// The first two come only if no call failed and memory did not run out before.
    pub fn open(alloc: Global, disk: D) -> Result<Source<D>, (D, OpenFault)>
        ensures opened { IfOk result (IsOpened D.state (D.state disk)) }
        ensures refused { IfErr result (λ e. IsNotOpened (D.state disk) (D.state e.0) e.1) }
        ensures no_memory_behind { IfErr result (λ e. e.1 ≡ OpenFault.NoMemory
            → IsTrue (D.state e.0).honest → (D.state disk).calls + 3 < (D.state e.0).calls
            → ArePagesPlaced (D.state disk).size (D.state disk).now.seen) }

        // For every answer, a crash meanwhile leaves an image from before, and a read gives the same bytes as before.
        ensures runs { WritesNothing (IsErrAnd result (λ e. e.1 ≡ OpenFault.Device))
            (D.state disk) (D.state (disk_of result)) }
    {
        let mut disk = disk;
        match read_settled(alloc, &mut disk) {
            Ok((slots, found)) => Ok(Source {
                disk,
                slots,
                contents: found.contents,
                used: found.used,
                is_closed: false,
                alloc,
            }),
            Err(fault) => Err((disk, fault)),
        }
    }
}

/// Syncs a disk, and reads the source on it.
fn read_settled<D: Disk>(alloc: Global, disk: &mut D) -> Result<(Slots, Loaded), OpenFault>
    ensures sound { IfOk result (λ x.
        MemoryIsSound (rooted (D.state disk.new).size x.0.root x.1.contents) x.1.used) }
    ensures resting { OnOk result ((D.state disk.new).now ≡ resting (D.state disk.old).now.seen) }
    ensures found { IfOk result (λ x. IsTrue (D.state disk.new).honest
        → IsFound (D.state disk.old).now.seen (D.state disk.new).now x.0 x.1.contents) }
    ensures refused { IfErr result (IsNotOpened (D.state disk.old) (D.state disk.new)) }
    ensures no_memory_behind { IsErrOf result OpenFault.NoMemory → IsTrue (D.state disk.new).honest
        → (D.state disk.old).calls + 3 < (D.state disk.new).calls
        → ArePagesPlaced (D.state disk.old).size (D.state disk.old).now.seen }
    ensures runs { WritesNothing (IsErrOf result OpenFault.Device)
        (D.state disk.old) (D.state disk.new) }
{
    disk.sync()?;
    read_source(alloc, disk)
}

/// Reads the source on a disk.
fn read_source<D: Disk>(alloc: Global, disk: &mut D) -> Result<(Slots, Loaded), OpenFault>
    ensures sound { IfOk result (λ x.
        MemoryIsSound (rooted (D.state disk.new).size x.0.root x.1.contents) x.1.used) }
    ensures found { IfOk result (λ x. IsTrue (D.state disk.new).honest
        → AreSettled (D.state disk.old).now
        → IsFound (D.state disk.old).now.seen (D.state disk.new).now x.0 x.1.contents) }
    ensures refused { IfErr result (IsNotOpened (D.state disk.old) (D.state disk.new)) }
    ensures no_memory_behind { IsErrOf result OpenFault.NoMemory → IsTrue (D.state disk.new).honest
        → (D.state disk.old).calls + 2 < (D.state disk.new).calls
        → ArePagesPlaced (D.state disk.old).size (D.state disk.old).now.seen }
    ensures runs { RunsReading (IsErrOf result OpenFault.Device)
        (D.state disk.old) (D.state disk.new) }
{
    let (slots, root) = open_slots(disk)?;
    // A disk of fewer bytes has no room for a directory after the slots.
    if disk.size() < SLOTS_SIZE {
        return Err(OpenFault::Damaged);
    }
    let found = load(alloc, disk, &root)?;
    Ok((slots, found))
}
