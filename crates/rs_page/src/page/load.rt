//! Reading a page.
ghost use Rattle.std.specs.Prelude.{◌≡◌, IfOk, IsErrOf, IsTrue};
ghost use Rattle.rs_disk.specs.Runs.{RunsReading, CallsAtMost};
ghost use Rattle.rs_page.specs.Faults.{fault_of_fields};
ghost use Rattle.rs_page.specs.Format.{ArePageItems};
ghost use Rattle.rs_page.specs.DiskPages.{HasItsBlocks, IsPage, HoldsNoPage};

use crate::reading::read_items;
use crate::shared::SharedItems;
use crate::{Page, PageItem, PageRef, Place};
use rs_body::{LoadFault, is_on_disk, is_sized, read_body};
use rs_disk::Disk;
use rs_record::ValueFault;
use std::alloc::Global;

/// Returns the fault of a page or a directory whose fields cannot be read: it is damaged if they are malformed.
pub fn fault_of_fields(fault: ValueFault) -> LoadFault
    ensures { result ≡ fault_of_fields fault }
{
    match fault {
        ValueFault::Malformed => LoadFault::Damaged,
        ValueFault::NoMemory => LoadFault::NoMemory,
    }
}

impl<T: PageItem> Page<T> {
    /// Reads the page that a reference points to, for any reference. The disk stays as it is.
    ///
    /// It asks for no memory before it has checked that the extent lies on the disk and has exactly the blocks of the
    /// length, and for no memory because of the number of items alone.
    ///
    /// # Errors
    /// - [`LoadFault::Device`] if the device fails.
    /// - [`LoadFault::Damaged`] if the disk holds no page there: extent, length, SHA-256 or bytes are not those of a
    ///   page of such items.
    /// - [`LoadFault::NoMemory`] if the memory for the bytes or the items is refused.
    pub fn load<D: Disk>(alloc: Global, disk: &mut D, page: &PageRef) -> Result<Page<T>, LoadFault>
        ensures place { IfOk result (λ loaded. loaded.place ≡ Place.Stored page.now) }
        ensures blocks { IfOk result (λ _. HasItsBlocks (D.state disk.new).size page.now) }
        ensures lawful { IfOk result (λ loaded. ArePageItems T.format loaded.items) }

        // If the device has followed the model:
        ensures found { IfOk result (λ loaded. IsTrue (D.state disk.new).honest
            → IsPage T.format page.now (D.state disk.new).now.seen loaded.items) }
        ensures damaged { IsErrOf result LoadFault.Damaged
            → IsTrue (D.state disk.new).honest
            → HoldsNoPage T.format page.now (D.state disk.new).now.seen }
        ensures no_memory { IsErrOf result LoadFault.NoMemory
            → HasItsBlocks (D.state disk.old).size page.now }

        ensures runs { RunsReading (IsErrOf result LoadFault.Device)
            (D.state disk.old) (D.state disk.new) }
        ensures calls { CallsAtMost 1 (D.state disk.old) (D.state disk.new) }
    {
        if !is_sized(page.extent, page.length) || !is_on_disk(page.extent, disk.size()) {
            return Err(LoadFault::Damaged);
        }
        let mut bytes = Vec::new(alloc);
        read_body(disk, page.extent, page.length, &page.sha256, &mut bytes)?;
        let mut items = SharedItems::new(read_items(alloc, &bytes).map_err(fault_of_fields)?);
        items.share(alloc);
        Ok(Page {
            items,
            place: Place::Stored(*page),
        })
    }
}
