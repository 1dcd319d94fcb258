//! The calls of a memory disk.
ghost use Rattle.std.specs.Prelude.{◌≡◌, ℕ, ◌^◌, ◌+◌, ◌≤◌, ◌<◌, ◌⊎◌, ◌↔◌, is_ok, not, if◌then◌else◌, length, take, drop, IsOk, OnOk, OnErr, IfOk};
ghost use Rattle.rs_disk.specs.Memory.{memory_state, planned, sound, MovesOn, Begun, Changes, SameContents, SameCounts};
ghost use Rattle.rs_disk.specs.Calls.{CountsCall, Stays, Writes, Tears, Settles};
ghost use Rattle.rs_disk.specs.Medium.{resting, widened, partly_written};
ghost use Rattle.rs_disk.specs.Plan.{left_by_write};
ghost use Rattle.rs_disk.specs.declared.plan.Outcome.TheVariants.{Works};

use super::MemoryDisk;
use crate::history::HeldChange;
use crate::plan::Outcome;
use crate::{Disk, Fault};
use std::alloc::AllocError;

impl MemoryDisk {
    /// Counts a call, and returns the number of calls before it. At the last value of the count it
    /// fails, and changes no part of the disk.
    fn begin_call(&mut self) -> Result<u64, Fault>
        ensures spent { OnErr result (2 ^ 64 ≤ self.old.calls + 1) }
        ensures unchanged { OnErr result (self.new ≡ self.old) }
        ensures call { IfOk result (λ call. call ≡ self.old.calls) }
        ensures room { OnOk result (self.old.calls + 1 < 2 ^ 64) }
        ensures begun { IfOk result (λ call. Begun call (memory_state self.new)) }
        ensures state { OnOk result (memory_state self.new
            ≡ record (memory_state self.old) { calls = self.old.calls + 1 }) }
        ensures plan { OnOk result (self.new.plan ≡ self.old.plan) }
    {
        if self.calls == u64::MAX {
            return Err(Fault);
        }
        let call = self.calls;
        self.calls += 1;
        Ok(call)
    }

    /// Counts a fault where the call failed, and keeps whether it did.
    fn end_call(&mut self, done: Result<(), Fault>) -> Result<(), Fault>
        requires { self.old.faults < self.old.calls }
        ensures result { result ≡ done }
        ensures state { memory_state self.new
            ≡ record (memory_state self.old) {
              faults = self.old.faults + (if is_ok done then 0 else 1);
              last_failed = not (is_ok done);
            } }
        ensures plan { self.new.plan ≡ self.old.plan }
    {
        self.last_failed = done.is_err();
        if self.last_failed {
            self.faults += 1;
        }
        done
    }

    /// Puts the bytes at an offset, and makes `places` places from there on unsettled. Where the
    /// record cannot grow, the disk stays as it was.
    fn put(&mut self, call: u64, at: usize, places: usize, bytes: &[u8]) -> Result<(), AllocError>
        requires begun { Begun call (memory_state self.old) }
        requires range { at + places ≤ (memory_state self.old).size }
        requires front { length bytes.now ≤ places }
        ensures ok { OnOk result (Changes call (widened (memory_state self.old).now at places)
            (partly_written (memory_state self.old).now at places bytes.now) (memory_state self.old)
            (memory_state self.new)) }
        ensures err { OnErr result (SameContents (memory_state self.old) (memory_state self.new)) }
        ensures counts { SameCounts (memory_state self.old) (memory_state self.new) }
        ensures plan { self.new.plan ≡ self.old.plan }
    {
        let put = bytes.to_vec(self.alloc)?;
        let change = HeldChange::Write { at, places, put };
        self.history.note(call, change)?;
        self.contents.put(at, places, bytes);
        Ok(())
    }

    /// Settles the bytes that a read returns. Where the record cannot grow, the disk stays as it
    /// was.
    fn settle(&mut self, call: u64) -> Result<(), AllocError>
        requires begun { Begun call (memory_state self.old) }
        ensures ok { OnOk result
            (Changes call (memory_state self.old).now (resting (memory_state self.old).now.seen)
            (memory_state self.old) (memory_state self.new)) }
        ensures err { OnErr result (SameContents (memory_state self.old) (memory_state self.new)) }
        ensures counts { SameCounts (memory_state self.old) (memory_state self.new) }
        ensures plan { self.new.plan ≡ self.old.plan }
    {
        self.history.note(call, HeldChange::Sync)?;
        self.contents.settle();
        Ok(())
    }
}

impl Disk for MemoryDisk {
    ghost state = { memory_state };

    ghost holds = { sound };

    fn size(&self) -> u64 {
        self.contents.size() as u64
    }

    fn calls(&self) -> u64 {
        self.calls
    }

    fn faults(&self) -> u64 {
        self.faults
    }

    fn read(&mut self, at: u64, into: &mut [u8]) -> Result<(), Fault>
        requires { at + length into.old ≤ (memory_state self.old).size }
        ensures counts { CountsCall (memory_state self.old) (memory_state self.new) result }
        ensures stays { Stays (memory_state self.old) (memory_state self.new) }
        ensures gives { OnOk result (into.new
            ≡ take (length into.old) (drop at (memory_state self.old).now.seen)) }

        ensures works { IsOk result
            ↔ (((memory_state self.old).calls + 1 < 2 ^ 64) × (planned self.old 0 ≡ Works)) }
        ensures plan { MovesOn self.old self.new }
    {
        self.begin_call()?;
        let done = match self.plan.step() {
            Outcome::Works => {
                self.contents.get(at as usize, into);
                Ok(())
            }
            _ => Err(Fault),
        };
        self.end_call(done)
    }

    fn write(&mut self, at: u64, bytes: &[u8]) -> Result<(), Fault>
        requires { at + length bytes.now ≤ (memory_state self.old).size }
        ensures counts { CountsCall (memory_state self.old) (memory_state self.new) result }
        ensures writes { OnOk result
            (Writes at bytes.now (memory_state self.old) (memory_state self.new)) }
        ensures tears { OnErr result
            (Tears at (length bytes.now) (memory_state self.old) (memory_state self.new)) }

        ensures works { OnOk result (planned self.old 0 ≡ Works) }
        // A failing write leaves the planned content, or the old content where the record cannot
        // grow.
        ensures fails { OnErr result (((memory_state self.new).now
            ≡ left_by_write (planned self.old 0) at bytes.now (memory_state self.old).now)
            ⊎ ((memory_state self.new).now ≡ (memory_state self.old).now)) }
        ensures plan { MovesOn self.old self.new }
    {
        let call = self.begin_call()?;
        let at = at as usize;
        let places = bytes.len();
        let done = match self.plan.step() {
            Outcome::Works => self.put(call, at, places, bytes).map_err(|_| Fault),
            Outcome::FailsHalfway => {
                let _noted = self.put(call, at, places, &bytes[..places / 2]);
                Err(Fault)
            }
            Outcome::FailsAtStart => {
                let _noted = self.put(call, at, places, &[]);
                Err(Fault)
            }
            Outcome::Refused => Err(Fault),
        };
        self.end_call(done)
    }

    fn sync(&mut self) -> Result<(), Fault>
        ensures counts { CountsCall (memory_state self.old) (memory_state self.new) result }
        ensures settles { OnOk result (Settles (memory_state self.old) (memory_state self.new)) }
        ensures stays { OnErr result (Stays (memory_state self.old) (memory_state self.new)) }

        ensures works { OnOk result (planned self.old 0 ≡ Works) }
        ensures plan { MovesOn self.old self.new }
    {
        let call = self.begin_call()?;
        let done = match self.plan.step() {
            Outcome::Works => self.settle(call).map_err(|_| Fault),
            _ => Err(Fault),
        };
        self.end_call(done)
    }
}
