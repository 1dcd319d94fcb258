//! The used blocks of a disk. A slow list of blocks in Python found the expected free blocks.

use rs_extent::{Extent, Used};
use std::alloc::{AllocError, Global};
use std::test::Fail;

/// The first block of a run, and its number of blocks.
type Run = (u32, u32);

fn extent(run: Run) -> Extent {
    Extent {
        first: run.0,
        blocks: run.1,
    }
}

/// Takes the blocks of a run if they are free.
fn take(used: &mut Used, run: Run) {
    let extent = extent(run);
    if used.is_free(extent) {
        used.take(extent);
    }
}

/// Runs on a disk of ten blocks, and whether they are free. Blocks 0, 1 and all past the end are not free.
const FREE: [(Run, bool); 10] = [
    ((2, 8), true),
    ((2, 9), false),
    ((1, 2), false),
    ((9, 1), true),
    ((10, 1), false),
    ((2, u32::MAX), false),
    ((9, u32::MAX - 8), false),
    ((u32::MAX, 3), false),
    ((u32::MAX, u32::MAX), false),
    ((u32::MAX, 0), true),
];

#[test]
fn ten_blocks_are_free_or_not(rt: HostRuntime) -> Result<(), Fail> {
    let used = Used::new(rt.alloc(), 10)?;
    let wrong = FREE
        .iter()
        .position(|(run, want)| used.is_free(extent(*run)) != *want);
    assert_eq!(rt; wrong, None);
    Ok(())
}

/// Returns the runs of one, two and three blocks found on a disk of ten blocks where 4 and 7 are used, the length of
/// the longest free run, and the number of all blocks.
fn found_beside_4_and_7(alloc: Global) -> Result<([Option<Extent>; 3], u32, u32), AllocError> {
    let mut used = Used::new(alloc, 10)?;
    take(&mut used, (4, 1));
    take(&mut used, (7, 1));
    let found = [used.find(1), used.find(2), used.find(3)];
    Ok((found, used.longest_free(), used.blocks()))
}

#[test]
fn blocks_4_and_7_of_10_are_used(rt: HostRuntime) -> Result<(), Fail> {
    let (found, longest, blocks) = found_beside_4_and_7(rt.alloc())?;
    assert_eq!(rt; found, [Some(extent((2, 1))), Some(extent((2, 2))), None]);
    assert_eq!(rt; (longest, blocks), (2, 10));
    Ok(())
}

/// The lowest free block, the length of the longest free run, and the first block of the lowest run of this length.
type Found = (Option<u32>, u32, Option<u32>);

fn first_of(found: Option<Extent>) -> Option<u32> {
    found.map(|run| run.first)
}

fn found(used: &Used) -> Found {
    let longest = used.longest_free();
    let most = used.find(longest.max(1));
    (first_of(used.find(1)), longest, first_of(most))
}

/// Returns the findings while the blocks of a free run are taken. It gives the blocks back.
fn found_without(used: &mut Used, run: Run) -> Option<Found> {
    let extent = extent(run);
    if !used.is_free(extent) {
        return None;
    }
    used.take(extent);
    let found = found(used);
    used.give(extent);
    Some(found)
}

/// The size of a disk in blocks, a used run, another run that is taken too, and the findings then. Words have 64
/// blocks; tests/rows/full_disks.session has disks that end next to the border of a word.
const RUNS: [(u32, Run, Run, Found); 7] = [
    (200, (65, 3), (63, 2), (Some(2), 132, Some(68))),
    (200, (128, 3), (64, 64), (Some(2), 69, Some(131))),
    (200, (131, 3), (127, 4), (Some(2), 125, Some(2))),
    (200, (200, 0), (2, 198), (None, 0, None)),
    (200, (150, 3), (150, 0), (Some(2), 148, Some(2))),
    (8_388_607, (2, 8_388_604), (8_388_606, 1), (None, 0, None)),
    (
        8_388_608,
        (2, 9),
        (11, 8_388_596),
        (Some(8_388_607), 1, Some(8_388_607)),
    ),
];

/// Returns the findings on a disk with both runs, if taking the second again after it was given back finds the same.
fn found_twice(
    alloc: Global,
    blocks: u32,
    beside: Run,
    run: Run,
) -> Result<Option<Found>, AllocError> {
    let mut used = Used::new(alloc, blocks.max(2))?;
    take(&mut used, beside);
    let first = found_without(&mut used, run);
    let second = found_without(&mut used, run);
    Ok(if first == second { first } else { None })
}

#[test]
fn runs_across_words_are_taken_and_given(rt: HostRuntime) -> Result<(), Fail> {
    for (blocks, beside, run, want) in RUNS {
        let found = found_twice(rt.alloc(), blocks, beside, run)?;
        assert_eq!(rt; found, Some(want), "{run:?} of {blocks}");
    }
    Ok(())
}
