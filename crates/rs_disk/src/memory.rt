//! A disk in memory, whose faults and crashes its caller plans.
mod calls;

ghost use Rattle.std.specs.Prelude.{◌≡◌, ℕ, ◌≤◌, false, replicate, length, IfOk};
ghost use Rattle.rs_disk.specs.Medium.{IsImage, resting, image_of};
ghost use Rattle.rs_disk.specs.Contents.{medium_of};
ghost use Rattle.rs_disk.specs.History.{held_within};

use crate::contents::HeldBytes;
use crate::history::CallHistory;
use crate::plan::FaultPlan;
use std::alloc::{AllocError, Global};

/// A disk in memory, which keeps a record of its writes and syncs.
///
/// It follows the disk model by proof. A call fails where the caller planned it, by
/// [`stop_after`](MemoryDisk::stop_after) or [`fail_once`](MemoryDisk::fail_once), where the record
/// gets no memory to grow, and at the last value of the count of calls. The record grows with every
/// write and sync.
#[derive(Drop)]
pub struct MemoryDisk {
    alloc: Global,
    contents: HeldBytes,
    history: CallHistory,
    calls: u64,
    faults: u64,
    last_failed: bool,
    plan: FaultPlan,
    ghost replays: { (k : ℕ) → calls ≤ k → held_within k history ≡ medium_of contents },
    ghost fewer: { faults ≤ calls },
}

impl MemoryDisk {
    ghost use Rattle.rs_disk.specs.Memory.{memory_state, planned};
    ghost use Rattle.rs_disk.specs.Plan.{stops_after, fails_once};
    ghost use Rattle.rs_disk.specs.declared.plan.Outcome.TheVariants.{Works};

    /// Makes a disk with these bytes, all settled. No call is planned to fail.
    ///
    /// # Errors
    /// [`AllocError`] where memory is refused.
    pub fn from_bytes(alloc: Global, bytes: &[u8]) -> Result<Self, AllocError>
        ensures now { IfOk result (λ d. (memory_state d).now ≡ resting bytes.now) }
        ensures size { IfOk result (λ d. (memory_state d).size ≡ length bytes.now) }
        ensures calls { IfOk result (λ d. (memory_state d).calls ≡ 0) }
        ensures faults { IfOk result (λ d. (memory_state d).faults ≡ 0) }
        ensures last { IfOk result (λ d. (memory_state d).last_failed ≡ false) }
        ensures plan { IfOk result (λ d. (i : ℕ) → planned d i ≡ Works) }
    {
        Ok(MemoryDisk {
            alloc,
            contents: HeldBytes::resting(alloc, bytes)?,
            history: CallHistory::starting_with(alloc, bytes)?,
            calls: 0,
            faults: 0,
            last_failed: false,
            plan: FaultPlan::Sound,
        })
    }

    /// Makes a disk of `size` zero bytes, all settled. No call is planned to fail.
    ///
    /// # Errors
    /// [`AllocError`] where memory is refused.
    pub fn new(alloc: Global, size: u64) -> Result<Self, AllocError>
        ensures now { IfOk result (λ d. (memory_state d).now ≡ resting (replicate size 0)) }
        ensures size { IfOk result (λ d. (memory_state d).size ≡ size) }
        ensures calls { IfOk result (λ d. (memory_state d).calls ≡ 0) }
        ensures faults { IfOk result (λ d. (memory_state d).faults ≡ 0) }
        ensures last { IfOk result (λ d. (memory_state d).last_failed ≡ false) }
        ensures plan { IfOk result (λ d. (i : ℕ) → planned d i ≡ Works) }
    {
        let zeros: Vec<u8> = vec![in alloc; 0; size as usize]?;
        MemoryDisk::from_bytes(alloc, &zeros)
    }

    /// Plans that after `k` further calls every call fails.
    ///
    /// The first of the failing calls, if it is a write, leaves its range unsettled. The later ones
    /// leave the disk as it was. This plan replaces an earlier plan by `stop_after` or `fail_once`.
    pub fn stop_after(&mut self, k: u64)
        ensures state { memory_state self.new ≡ memory_state self.old }
        ensures plan { (i : ℕ) → planned self.new i ≡ stops_after k i }
    {
        self.plan = FaultPlan::StopsAfter(k);
    }

    /// Plans that after `k` further calls one call fails, and the later ones work.
    ///
    /// If that call is a write, it puts the first half of its bytes, rounded down, and leaves its
    /// whole range unsettled. This plan replaces an earlier plan by `stop_after` or `fail_once`.
    pub fn fail_once(&mut self, k: u64)
        ensures state { memory_state self.new ≡ memory_state self.old }
        ensures plan { (i : ℕ) → planned self.new i ≡ fails_once k i }
    {
        self.plan = FaultPlan::FailsAfter(k);
    }

    /// Returns an image that a crash may leave now: the settled bytes, but the i-th unsettled
    /// place, counted from 0 in ascending order, holds `choice[i % choice.len()]`. An empty choice
    /// yields the bytes that a read returns.
    ///
    /// # Errors
    /// [`AllocError`] where memory is refused.
    pub fn image(&self, choice: &[u8]) -> Result<Vec<u8>, AllocError>
        ensures chosen { IfOk result (λ v. v.items
            ≡ image_of choice.now (memory_state self.now).now) }
        ensures image { IfOk result (λ v. IsImage (memory_state self.now).now v.items) }
    {
        self.contents.image(self.alloc, choice)
    }
}
