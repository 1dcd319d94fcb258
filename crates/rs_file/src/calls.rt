//! A file with the record of its calls.
ghost use Rattle.std.specs.Prelude.{◌≡◌, ◌∷◌, is_ok, IsErr, IsTrue};
ghost use Rattle.rs_file.specs.Events.{sync_failed, WasRead, WasWritten, WasSynced};

use crate::record::{READ, Record, SYNC, WRITE};
use crate::system::SystemFile;
use rs_disk::Fault;
use std::fs::File;

/// An open file with the record of its calls. After a failed sync it makes no further system call,
/// and records every call as failed.
#[derive(Drop)]
pub(crate) struct RecordedFile {
    file: SystemFile,
    log: Record,
    lost: bool,
    ghost lost_is: { sync_failed log.events ≡ lost },
}

impl RecordedFile {
    ghost use Rattle.std.specs.Prelude.{[]};

    pub(crate) fn new(file: File) -> RecordedFile
        ensures { result.log.events ≡ [] }
    {
        RecordedFile {
            file: SystemFile::new(file),
            log: Record::new(),
            lost: false,
        }
    }

    pub(crate) fn read(&mut self, at: u64, into: &mut [u8]) -> Result<(), Fault>
        ensures noted { self.new.log.events
            ≡ WasRead at (is_ok result) into.new ∷ self.old.log.events }
        ensures stopped { IsTrue (sync_failed self.old.log.events) → IsErr result }
    {
        if self.lost {
            self.log.note(&[READ, at, 0], into);
            return Err(Fault);
        }
        self.file.read(&mut self.log, at, into)
    }

    pub(crate) fn write(&mut self, at: u64, bytes: &[u8]) -> Result<(), Fault>
        ensures noted { self.new.log.events
            ≡ WasWritten at (is_ok result) bytes.now ∷ self.old.log.events }
        ensures stopped { IsTrue (sync_failed self.old.log.events) → IsErr result }
    {
        if self.lost {
            self.log.note(&[WRITE, at, 0], bytes);
            return Err(Fault);
        }
        self.file.write(&mut self.log, at, bytes)
    }

    pub(crate) fn sync(&mut self) -> Result<(), Fault>
        ensures noted { self.new.log.events ≡ WasSynced (is_ok result) ∷ self.old.log.events }
        ensures stopped { IsTrue (sync_failed self.old.log.events) → IsErr result }
    {
        if self.lost {
            self.log.note(&[SYNC, 0, 0], &[]);
            return Err(Fault);
        }
        let synced = self.file.sync(&mut self.log);
        self.lost = synced.is_err();
        synced
    }
}
