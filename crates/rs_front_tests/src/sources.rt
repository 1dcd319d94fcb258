//! Sources for the tests.

use rs_disk::MemoryDisk;
use rs_store::Source;
use rs_time::Moment;
use std::alloc::Global;
use std::test::Fail;

/// Returns a source with the item limit 2, formatted at the moment 0.
pub fn new_source(alloc: Global) -> Result<Source<MemoryDisk>, Fail> {
    new_source_on(alloc, MemoryDisk::new(alloc, 65_536)?)
}

/// Returns a new source on this disk. Without a fault the formatting makes six device calls.
pub fn new_source_on(alloc: Global, disk: MemoryDisk) -> Result<Source<MemoryDisk>, Fail> {
    match Source::format(alloc, disk, b"http://127.0.0.1:8080", 2, Moment::first()) {
        Ok(source) => Ok(source),
        Err((_, fault)) => Err(fault.into()),
    }
}

/// Returns the number of commands that the source has accepted. All came at the moment 0, so every command took the
/// next millisecond.
pub fn commands_of(source: &Source<MemoryDisk>) -> Result<u64, Fail> {
    Ok(source.status()?.last.ms())
}
