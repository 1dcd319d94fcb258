//! The texts of faults.

use rs_body::LoadFault;
use rs_commit::{CommitFault, SlotFault};
use rs_disk::Fault;
use rs_file::FileFault;
use std::test::Fail;

#[test]
fn faults_are_shown(rt: HostRuntime) -> Result<(), Fail> {
    let text = format!(in rt.alloc();
        "{}; {}; {}; {}; {}; {}; {}; {}; {} {}",
        Fault,
        SlotFault::NotASource,
        SlotFault::Device,
        CommitFault::Exhausted,
        CommitFault::Device,
        LoadFault::Device,
        LoadFault::Damaged,
        LoadFault::NoMemory,
        FileFault::Exists,
        FileFault::Device
    )?;
    let wanted =
        "the device failed; the disk holds no source; the device failed; no generation is left; \
        the device failed; the device failed; what stands there is damaged; out of memory; Exists Device";
    assert_eq!(rt; text.as_str(), wanted);
    Ok(())
}
