//! The system calls on the file of an open disk.
//!
//! The file is private to this module: once a disk is open, only the three methods here use it. A
//! method makes exactly the system call that it records, with its answer. Never call a method after
//! a failed sync. No proof can show that the call was made, so read this page.
ghost use Rattle.std.specs.Prelude.{◌≡◌, ◌∷◌, false, is_ok};
ghost use Rattle.rs_file.specs.Events.{sync_failed, WasRead, WasWritten, WasSynced};

use crate::record::{READ, Record, SYNC, WRITE};
use rs_disk::Fault;
use std::fs::File;
use std::os::unix::fs::FileExt;

#[derive(Drop)]
pub(crate) struct SystemFile {
    file: File,
}

impl SystemFile {
    pub(crate) fn new(file: File) -> SystemFile {
        SystemFile { file }
    }

    pub(crate) fn read(&self, calls: &mut Record, at: u64, into: &mut [u8]) -> Result<(), Fault>
        requires { sync_failed calls.old.events ≡ false }
        ensures { calls.new.events ≡ WasRead at (is_ok result) into.new ∷ calls.old.events }
    {
        if self.file.read_exact_at(into, at).is_ok() {
            calls.note(&[READ, at, 1], into);
            Ok(())
        } else {
            calls.note(&[READ, at, 0], into);
            Err(Fault)
        }
    }

    pub(crate) fn write(&self, calls: &mut Record, at: u64, bytes: &[u8]) -> Result<(), Fault>
        requires { sync_failed calls.old.events ≡ false }
        ensures { calls.new.events ≡ WasWritten at (is_ok result) bytes.now ∷ calls.old.events }
    {
        if self.file.write_all_at(bytes, at).is_ok() {
            calls.note(&[WRITE, at, 1], bytes);
            Ok(())
        } else {
            calls.note(&[WRITE, at, 0], bytes);
            Err(Fault)
        }
    }

    pub(crate) fn sync(&self, calls: &mut Record) -> Result<(), Fault>
        requires { sync_failed calls.old.events ≡ false }
        ensures { calls.new.events ≡ WasSynced (is_ok result) ∷ calls.old.events }
    {
        if self.file.sync_all().is_ok() {
            calls.note(&[SYNC, 0, 1], &[]);
            Ok(())
        } else {
            calls.note(&[SYNC, 0, 0], &[]);
            Err(Fault)
        }
    }
}
