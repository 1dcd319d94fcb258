//! The items of pages.
ghost use Rattle.std.specs.Prelude.{◌≡◌, ◌<◌, ◌≤◌, ◌+◌, ◌++◌, ◌↔◌, length, vec_len, vec_capacity, IfOk, OnOk, OnErr, IsErrOf};
ghost use Rattle.rs_record.specs.Format.{BeginsWith};
ghost use Rattle.rs_page.specs.Format.{ItemFormat, StandAlone};

use crate::PageKind;
use rs_record::ValueFault;
use std::alloc::{AllocError, Global};

/// An item of a page: a value with a format of its own. No format begins another one.
pub trait PageItem: Drop {
    // The kind of a page of such items, the bytes of an item, and which items are lawful.
    ghost format: { ItemFormat Self };

    /// Returns the kind of a page of such items.
    fn kind() -> PageKind
        ensures { result ≡ format.kind };

    /// Returns the number of bytes of the format of the item: at most 410.
    fn size(&self) -> usize
        ensures size { result ≡ length (format.bytes self.now) }
        ensures bound { result ≤ 410 };

    /// Appends the format of the item.
    ///
    /// # Errors
    /// [`AllocError`] if the vector had no room and more memory was refused; its elements stay.
    fn write(&self, out: &mut Vec<u8>) -> Result<(), AllocError>
        ensures ok { OnOk result (out.new.items ≡ out.old.items ++ format.bytes self.now) }
        ensures err { OnErr result (out.new.items ≡ out.old.items) }
        ensures full { OnErr result (vec_capacity out.old < vec_len out.old
            + length (format.bytes self.now)) }

        // So it can be read back.
        ensures lawful { format.IsLawful self.now };

    /// Returns the item whose format the bytes begin with, and the number of bytes of the format. Other bytes may
    /// follow it.
    ///
    /// # Errors
    /// `Malformed` exactly if the bytes begin with no format of a lawful item; `NoMemory` if the memory for the item
    /// was refused.
    fn read(alloc: Global, bytes: &[u8]) -> Result<(Self, usize), ValueFault>
        ensures found { IfOk result (λ read. format.IsLawful read.0
            × BeginsWith bytes.now (format.bytes read.0)) }
        ensures size { IfOk result (λ read. read.1 ≡ length (format.bytes read.0)) }
        ensures only { (item : Self)
            → format.IsLawful item
            → BeginsWith bytes.now (format.bytes item)
            → IfOk result (λ read. read.0 ≡ item) }
        ensures malformed { IsErrOf result ValueFault.Malformed
            ↔ ((item : Self) → format.IsLawful item → ¬ BeginsWith bytes.now (format.bytes item)) };

    /// The law that no format begins another, so that formats in a row read in one way only. It has no effect.
    fn formats_stand_alone()
        ensures { StandAlone format };
}
