//! A file as a disk.
ghost use Rattle.std.specs.Prelude.{◌≡◌, ◌≤◌};
ghost use Rattle.rs_disk.specs.Medium.{IsMedium, resting};
ghost use Rattle.rs_file.specs.Replay.{replay_events};

use crate::Start;
use crate::calls::RecordedFile;
use rs_disk::{Disk, Fault};
use std::fs::File;
use std::marker::PhantomData;

/// A disk over a file of the operating system.
///
/// Its size is the length of the file when it was opened. It meets the contract of [`Disk`]: its
/// state is the replay of a record of its calls. The proofs leave three points for a reader to
/// trust: every `read`, `write` and `sync` makes the system call that it records;
/// [`open`](FileDisk::open) and [`create`](FileDisk::create) settle the content of the file; after
/// a crash the file holds one of the images of the state.
///
/// After a failed sync the system may have dropped written bytes, and a later sync may still
/// succeed. So the disk makes no further system call: every call answers [`Fault`] and is counted.
/// The system has no offset from 2^63 on: a call that reaches there fails.
#[derive(Drop)]
pub struct FileDisk<S: Start> {
    file: RecordedFile,
    size: u64,
    calls: u64,
    faults: u64,
    start: PhantomData<S>,
    ghost long: { (replay_events S.Start.first S.Start.torn size file.log.events).size ≡ size },
    ghost counted: { (replay_events S.Start.first S.Start.torn size file.log.events).calls
        ≡ calls },
    ghost failed: { (replay_events S.Start.first S.Start.torn size file.log.events).faults
        ≡ faults },
    ghost fewer: { faults ≤ calls },
    ghost sound: { IsMedium size
        (replay_events S.Start.first S.Start.torn size file.log.events).now },
}

impl<S: Start> FileDisk<S> {
    ghost use Rattle.rs_file.specs.Replay.{opened};
    ghost use Rattle.rs_file.specs.File.{state_of, events_of};
    ghost use Rattle.std.specs.Prelude.{◌≡◌, ◌↔◌, ◌+◌, ◌≤◌, ◌^◌, [], IsTrue};

    /// Returns a disk of this size over a file, without any calls so far.
    pub(crate) fn over(file: File, size: u64) -> FileDisk<S>
        ensures state { state_of S.Start result ≡ opened S.Start.first size }
        ensures first { IsTrue (state_of S.Start result).honest
            → (state_of S.Start result).now ≡ resting S.Start.first }
        ensures events { events_of result ≡ [] }
    {
        FileDisk {
            file: RecordedFile::new(file),
            size,
            calls: 0,
            faults: 0,
            start: PhantomData,
        }
    }

    /// Returns whether the count of calls has reached its last value.
    fn is_spent(&self) -> bool
        ensures { IsTrue result ↔ (2 ^ 64 ≤ (state_of S.Start self.now).calls + 1) }
    {
        self.calls == u64::MAX
    }
}

/// The methods have the clauses of the trait and two more: every counted call is recorded with its
/// answer, and fails after a failed sync.
impl<S: Start> Disk for FileDisk<S> {
    ghost use Rattle.std.specs.Prelude.{◌≡◌, ◌+◌, ◌<◌, ◌≤◌, ◌^◌, ◌∷◌, length, take, drop, is_ok, OnOk, OnErr, IsErr, IsTrue};
    ghost use Rattle.rs_disk.specs.Calls.{CountsCall, Stays, Writes, Tears, Settles};
    ghost use Rattle.rs_file.specs.Events.{sync_failed, WasRead, WasWritten, WasSynced};
    ghost use Rattle.rs_file.specs.File.{state_of, events_of, sound_of};

    ghost state = { λ d. state_of S.Start d };

    ghost holds = { λ d. sound_of S.Start d };

    fn size(&self) -> u64 {
        self.size
    }

    fn calls(&self) -> u64 {
        self.calls
    }

    fn faults(&self) -> u64 {
        self.faults
    }

    fn read(&mut self, at: u64, into: &mut [u8]) -> Result<(), Fault>
        requires { at + length into.old ≤ (state_of S.Start self.old).size }
        ensures counts { CountsCall (state_of S.Start self.old) (state_of S.Start self.new) result }
        ensures stays { Stays (state_of S.Start self.old) (state_of S.Start self.new) }
        ensures gives { IsTrue (state_of S.Start self.new).honest
            → OnOk result (into.new
            ≡ take (length into.old) (drop at (state_of S.Start self.old).now.seen)) }
        ensures keeps { IsTrue (state_of S.Start self.old).honest
            → OnOk result (into.new
            ≡ take (length into.old) (drop at (state_of S.Start self.old).now.seen))
            → IsTrue (state_of S.Start self.new).honest }

        ensures noted { (state_of S.Start self.old).calls + 1 < 2 ^ 64
            → events_of self.new ≡ WasRead at (is_ok result) into.new ∷ events_of self.old }
        ensures stopped { IsTrue (sync_failed (events_of self.old)) → IsErr result }
    {
        if self.is_spent() {
            return Err(Fault);
        }
        let done = self.file.read(at, into);
        self.calls += 1;
        self.faults += u64::from(done.is_err());
        done
    }

    fn write(&mut self, at: u64, bytes: &[u8]) -> Result<(), Fault>
        requires { at + length bytes.now ≤ (state_of S.Start self.old).size }
        ensures counts { CountsCall (state_of S.Start self.old) (state_of S.Start self.new) result }
        ensures writes { OnOk result
            (Writes at bytes.now (state_of S.Start self.old) (state_of S.Start self.new)) }
        ensures tears { OnErr result
            (Tears at (length bytes.now) (state_of S.Start self.old) (state_of S.Start self.new)) }
        ensures keeps { (state_of S.Start self.new).honest ≡ (state_of S.Start self.old).honest }

        ensures noted { (state_of S.Start self.old).calls + 1 < 2 ^ 64
            → events_of self.new ≡ WasWritten at (is_ok result) bytes.now ∷ events_of self.old }
        ensures stopped { IsTrue (sync_failed (events_of self.old)) → IsErr result }
    {
        if self.is_spent() {
            return Err(Fault);
        }
        let done = self.file.write(at, bytes);
        self.calls += 1;
        self.faults += u64::from(done.is_err());
        done
    }

    fn sync(&mut self) -> Result<(), Fault>
        ensures counts { CountsCall (state_of S.Start self.old) (state_of S.Start self.new) result }
        ensures settles { OnOk result
            (Settles (state_of S.Start self.old) (state_of S.Start self.new)) }
        ensures stays { OnErr result
            (Stays (state_of S.Start self.old) (state_of S.Start self.new)) }
        ensures keeps { (state_of S.Start self.new).honest ≡ (state_of S.Start self.old).honest }

        ensures noted { (state_of S.Start self.old).calls + 1 < 2 ^ 64
            → events_of self.new ≡ WasSynced (is_ok result) ∷ events_of self.old }
        ensures stopped { IsTrue (sync_failed (events_of self.old)) → IsErr result }
    {
        if self.is_spent() {
            return Err(Fault);
        }
        let done = self.file.sync();
        self.calls += 1;
        self.faults += u64::from(done.is_err());
        done
    }
}
