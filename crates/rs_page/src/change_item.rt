//! Changes as the items of a page.
ghost use Rattle.rs_page.specs.Items.{change_format};

use crate::{PageItem, PageKind};
use rs_record::{Change, ValueFault, change_size, formats_stand_alone, read_change, write_change};
use std::alloc::{AllocError, Global};

impl PageItem for Change {
    ghost format = { change_format };

    fn kind() -> PageKind {
        PageKind::Changes
    }

    fn size(&self) -> usize {
        change_size(self)
    }

    fn write(&self, out: &mut Vec<u8>) -> Result<(), AllocError> {
        write_change(self, out)
    }

    fn read(alloc: Global, bytes: &[u8]) -> Result<(Change, usize), ValueFault> {
        read_change(alloc, bytes)
    }

    fn formats_stand_alone() {
        formats_stand_alone();
    }
}
