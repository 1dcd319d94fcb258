//! Writing a page.
ghost use Rattle.std.specs.Prelude.{◌≡◌, [], ◌∷◌, IfSome, IsSome, OnOk, OnErr, IsErrOf};
ghost use Rattle.rs_disk.specs.Runs.{CallsAtMost};
ghost use Rattle.rs_extent.specs.Extents.{IsOnDisk};
ghost use Rattle.rs_body.specs.Outside.{WritesOnly};
ghost use Rattle.rs_page.specs.Pages.{IsTouched, placed_extent, placed_extents, stored_ref, page_stored};
ghost use Rattle.rs_page.specs.DiskPages.{IsWritten};

use crate::format::page_bytes;
use crate::{Page, PageItem, PageRef, Place};
use rs_body::write_body;
use rs_disk::{Disk, Fault};
use rs_fixity::sha256_of;
use std::alloc::{AllocError, Global};
use thiserror::Error;

/// The fault of a page that was not stored.
#[derive(Clone, Copy, Debug, PartialEq, Eq, Error)]
pub enum StoreFault {
    /// The device failed.
    #[error("the device failed")]
    Device,
    /// The memory for the bytes of the page was refused.
    #[error("out of memory")]
    NoMemory,
}

impl From<AllocError> for StoreFault {
    ghost use Rattle.rs_page.specs.declared.page.store.StoreFault.{StoreFault};

    ghost from_gives = { λ _ fault. fault ≡ StoreFault.NoMemory };

    fn from(_: AllocError) -> StoreFault {
        StoreFault::NoMemory
    }
}

impl From<Fault> for StoreFault {
    ghost use Rattle.rs_page.specs.declared.page.store.StoreFault.{StoreFault};

    ghost from_gives = { λ _ fault. fault ≡ StoreFault.Device };

    fn from(_: Fault) -> StoreFault {
        StoreFault::Device
    }
}

impl<T: PageItem> Page<T> {
    /// Writes the page at the front of the blocks that it was given, by one device call. A page
    /// that is on the disk already is not written again.
    ///
    /// It has blocks, and they lie on the disk. A read gives the page from then on; a crash may leave any bytes in its
    /// blocks until the next sync. No other block of the disk changes, whether it succeeds or not: every set of blocks
    /// disjoint from the page's stays as it is, at every moment of the call.
    ///
    /// # Errors
    /// - [`StoreFault::NoMemory`] if the memory for its bytes is refused; the device is not called then.
    /// - [`StoreFault::Device`] if the device fails. Its blocks may then hold any bytes.
    ///
    /// After any of these errors the page is as it was, and may be stored again.
    pub fn store<D: Disk>(&mut self, alloc: Global, disk: &mut D) -> Result<(), StoreFault>
        requires placed { ¬ IsTouched self.old.place }
        requires room { IfSome (placed_extent self.old.place)
            (λ extent. IsOnDisk extent (D.state disk.old).size) }
        ensures ok { OnOk result (self.new ≡ page_stored T.format self.old) }
        ensures reads { OnOk result (IsWritten T.format (D.state disk.new).now.seen self.old) }
        ensures err { OnErr result (self.new ≡ self.old) }
        ensures no_memory { IsErrOf result StoreFault.NoMemory
            → D.state disk.new ≡ D.state disk.old }
        ensures stored { IsSome (stored_ref self.old.place)
            → (result ≡ Ok tt) × (D.state disk.new ≡ D.state disk.old) }

        // With any answer:
        ensures writes { WritesOnly (placed_extents (self.old ∷ []))
            (IsErrOf result StoreFault.Device) (D.state disk.old) (D.state disk.new) }
        ensures calls { CallsAtMost 1 (D.state disk.old) (D.state disk.new) }
    {
        let Place::Placed(extent) = self.place else {
            return Ok(());
        };
        let bytes = page_bytes(alloc, self.items.as_slice())?;
        let sha256 = sha256_of(&bytes);
        write_body(disk, extent, &bytes)?;
        self.items.share(alloc);
        self.place = Place::Stored(PageRef {
            extent,
            length: bytes.len() as u32,
            sha256,
        });
        Ok(())
    }
}
