//! Records as the items of a page.
ghost use Rattle.rs_page.specs.Items.{record_format};

use crate::{PageItem, PageKind};
use rs_record::{Record, ValueFault, formats_stand_alone, read_record, record_size, write_record};
use std::alloc::{AllocError, Global};

impl PageItem for Record {
    ghost format = { record_format };

    fn kind() -> PageKind {
        PageKind::Records
    }

    fn size(&self) -> usize {
        record_size(self)
    }

    fn write(&self, out: &mut Vec<u8>) -> Result<(), AllocError> {
        write_record(self, out)
    }

    fn read(alloc: Global, bytes: &[u8]) -> Result<(Record, usize), ValueFault> {
        read_record(alloc, bytes)
    }

    fn formats_stand_alone() {
        formats_stand_alone();
    }
}
