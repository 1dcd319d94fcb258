//! Faults and refusals as text.

use rs_plan::PlanFault;
use rs_store::{CopyFault, CopyRefusal, FormatFault, OpenFault, Refusal};
use std::fmt::Display;
use std::process::Abort;

/// Checks the texts of these values.
fn are_shown<T: Display>(rt: &(impl Abort + AllocGlobal), rows: &[(T, &str)]) {
    for (fault, want) in rows {
        let text = format!(in rt.alloc(); "{fault}").expect(rt, "memory for text");
        assert_eq!(rt; text.as_str(), *want);
    }
}

const FORMAT_FAULTS: [(FormatFault, &str); 5] = [
    (FormatFault::BadBase, "the base is not lawful"),
    (
        FormatFault::BadLimit,
        "the item limit is not from 2 to 4000",
    ),
    (FormatFault::TooSmall, "the disk has fewer than 8192 bytes"),
    (FormatFault::Device, "the device failed"),
    (FormatFault::NoMemory, "out of memory"),
];

const OPEN_FAULTS: [(OpenFault, &str); 4] = [
    (OpenFault::NotASource, "the disk holds no source"),
    (OpenFault::Damaged, "the source is damaged"),
    (OpenFault::Device, "the device failed"),
    (OpenFault::NoMemory, "out of memory"),
];

const PLAN_FAULTS: [(PlanFault, &str); 2] = [
    (PlanFault::Full, "the disk is full"),
    (PlanFault::NoMemory, "out of memory"),
];

const COPY_REFUSALS: [(CopyRefusal, &str); 6] = [
    (CopyRefusal::Closed, "the source is closed"),
    (
        CopyRefusal::Fault(CopyFault::TooSmall),
        "the disk has fewer than 8192 bytes",
    ),
    (CopyRefusal::Fault(CopyFault::Full), "the disk is full"),
    (CopyRefusal::Fault(CopyFault::Device), "the device failed"),
    (CopyRefusal::Fault(CopyFault::Damaged), "a body is damaged"),
    (CopyRefusal::Fault(CopyFault::NoMemory), "out of memory"),
];

const REFUSALS: [(Refusal, &str); 13] = [
    (Refusal::Closed, "the source is closed"),
    (Refusal::BadGroup, "a group has 1 to 16 items"),
    (Refusal::TooLong, "the body is longer than 16777216 bytes"),
    (Refusal::NotHeld, "the resource is not held"),
    (Refusal::TooManyResources, "50000 resources are held"),
    (Refusal::TooManyChanges, "50000 changes are kept"),
    (
        Refusal::Exhausted,
        "no moment, publication number, part number or generation is left",
    ),
    (Refusal::Full, "the disk is full"),
    (Refusal::ReadFault, "the body cannot be read"),
    (Refusal::ShortBody, "the body is shorter than was said"),
    (Refusal::Device, "the device failed"),
    (Refusal::Damaged, "the body is damaged"),
    (Refusal::NoMemory, "out of memory"),
];

#[test]
fn faults_are_shown(rt: HostRuntime) {
    are_shown(&rt, &FORMAT_FAULTS);
    are_shown(&rt, &OPEN_FAULTS);
    are_shown(&rt, &PLAN_FAULTS);
    are_shown(&rt, &COPY_REFUSALS);
    are_shown(&rt, &REFUSALS);
}
