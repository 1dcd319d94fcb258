//! How the program begins and ends: its errors, and the source in memory.

ghost use Rattle.std.specs.Prelude.{◌≡◌, ◌<◌, ◌≤◌, false, IfOk, IfErr, OnOk, IsErrOf, IsTrue};
ghost use Rattle.rs_model.specs.State.{start_of};
ghost use Rattle.rs_record.specs.Base.{is_base};
ghost use Rattle.rs_directory.specs.Limit.{IsLimit};
ghost use Rattle.rs_disk.specs.Memory.{memory_state};
ghost use Rattle.rs_store.specs.Source.{Holds};
ghost use Rattle.rs_source.specs.Arguments.{error_of, error_of_copy, error_of_file, error_of_format, error_of_opening, IsOfStart, exit_status, unread_of};
ghost use Rattle.rs_source.specs.Files.{MayBegin};

use rs_disk::MemoryDisk;
use rs_file::FileFault;
use rs_io::StreamFault;
use rs_store::{CopyFault, CopyRefusal, FormatFault, OpenFault, Source};
use rs_time::Moment;
use std::alloc::{AllocError, Global};
use std::io::ErrorKind;
use thiserror::Error;

/// The cause of an exit status other than 0. The program prints its text on standard error.
#[derive(Clone, Copy, Debug, PartialEq, Eq, Error)]
pub enum ProgramError {
    /// The arguments are wrong: status 2.
    #[error("usage: rs_source mem SIZE BASE LIMIT | format FILE SIZE BASE LIMIT | run FILE | serve FILE PORT COUNT | copy OLD NEW SIZE")]
    Usage,
    /// The name of a new file is taken.
    #[error("rs_source: Exists")]
    Exists,
    /// BASE is not a lawful base.
    #[error("rs_source: BadBase")]
    BadBase,
    /// LIMIT is not from 2 to 4,000.
    #[error("rs_source: BadLimit")]
    BadLimit,
    /// SIZE is less than 8,192.
    #[error("rs_source: TooSmall")]
    TooSmall,
    /// The file holds no source.
    #[error("rs_source: NotASource")]
    NotASource,
    /// The new disk has no room for the copy.
    #[error("rs_source: Full")]
    Full,
    /// The source on the file breaks a rule of the format, or a body to be copied does not have its recorded SHA-256.
    #[error("rs_source: Damaged")]
    Damaged,
    /// The file or the socket cannot be opened or made, or the disk failed before the program began its work.
    #[error("rs_source: Device")]
    Device,
    /// There is not enough memory to begin.
    #[error("rs_source: NoMemory")]
    NoMemory,
    /// Standard input cannot be read.
    #[error("rs_source: Read")]
    Read,
    /// Standard output cannot be written.
    #[error("rs_source: Write")]
    Write,
}

impl ProgramError {
    /// Returns the exit status.
    pub fn status(self) -> u8
        ensures { result ≡ exit_status self }
    {
        match self {
            ProgramError::Usage => 2,
            ProgramError::Exists
            | ProgramError::BadBase
            | ProgramError::BadLimit
            | ProgramError::TooSmall
            | ProgramError::NotASource
            | ProgramError::Full
            | ProgramError::Damaged
            | ProgramError::Device
            | ProgramError::NoMemory
            | ProgramError::Read
            | ProgramError::Write => 1,
        }
    }
}

impl From<AllocError> for ProgramError {
    ghost use Rattle.rs_source.specs.declared.program.ProgramError.TheVariants.{NoMemory};

    ghost from_gives = { λ _ error. error ≡ NoMemory };

    fn from(_: AllocError) -> ProgramError {
        ProgramError::NoMemory
    }
}

impl From<StreamFault> for ProgramError {
    ghost from_gives = { λ fault error. error ≡ error_of fault };

    fn from(fault: StreamFault) -> ProgramError {
        match fault {
            StreamFault::Read => ProgramError::Read,
            StreamFault::Write => ProgramError::Write,
        }
    }
}

impl From<FormatFault> for ProgramError {
    ghost from_gives = { λ fault error. error ≡ error_of_format fault };

    fn from(fault: FormatFault) -> ProgramError {
        match fault {
            FormatFault::BadBase => ProgramError::BadBase,
            FormatFault::BadLimit => ProgramError::BadLimit,
            FormatFault::TooSmall => ProgramError::TooSmall,
            FormatFault::Device => ProgramError::Device,
            FormatFault::NoMemory => ProgramError::NoMemory,
        }
    }
}

impl From<FileFault> for ProgramError {
    ghost from_gives = { λ fault error. error ≡ error_of_file fault };

    fn from(fault: FileFault) -> ProgramError {
        match fault {
            FileFault::Exists => ProgramError::Exists,
            FileFault::Device => ProgramError::Device,
        }
    }
}

impl From<OpenFault> for ProgramError {
    ghost from_gives = { λ fault error. error ≡ error_of_opening fault };

    fn from(fault: OpenFault) -> ProgramError {
        match fault {
            OpenFault::NotASource => ProgramError::NotASource,
            OpenFault::Damaged => ProgramError::Damaged,
            OpenFault::Device => ProgramError::Device,
            OpenFault::NoMemory => ProgramError::NoMemory,
        }
    }
}

impl From<CopyRefusal> for ProgramError {
    ghost from_gives = { λ refusal error. error ≡ error_of_copy refusal };

    fn from(refusal: CopyRefusal) -> ProgramError {
        match refusal {
            // A source is closed after a fault of its device.
            CopyRefusal::Closed => ProgramError::Device,
            CopyRefusal::Fault(fault) => match fault {
                CopyFault::TooSmall => ProgramError::TooSmall,
                CopyFault::Full => ProgramError::Full,
                CopyFault::Device => ProgramError::Device,
                CopyFault::Damaged => ProgramError::Damaged,
                CopyFault::NoMemory => ProgramError::NoMemory,
            },
        }
    }
}

/// Returns the error where the arguments cannot be read: there was not enough memory, or an argument is not text.
pub fn unread(kind: ErrorKind) -> ProgramError
    ensures { result ≡ unread_of kind }
{
    match kind {
        ErrorKind::OutOfMemory => ProgramError::NoMemory,
        _ => ProgramError::Usage,
    }
}

/// Makes a source on a disk of `size` bytes in memory, formatted at the moment 0 with this base and item
/// limit.
///
/// # Errors
///
/// [`ProgramError::BadBase`], then [`ProgramError::BadLimit`], then [`ProgramError::TooSmall`];
/// [`ProgramError::NoMemory`] where there is no memory for the disk or the base. After the first three,
/// [`ProgramError::Device`] where there is no memory for the notes of the disk.
pub fn start(
    alloc: Global,
    size: u64,
    base: &[u8],
    limit: u16,
) -> Result<Source<MemoryDisk>, ProgramError>
    ensures holds { IfOk result (λ source. Holds memory_state source (start_of base.now limit 0)) }
    ensures bad_base { IsErrOf result ProgramError.BadBase → is_base base.now ≡ false }
    ensures bad_limit { IsErrOf result ProgramError.BadLimit
        → IsTrue (is_base base.now) × (¬ IsLimit limit) }
    ensures too_small { IsErrOf result ProgramError.TooSmall
        → IsTrue (is_base base.now) × IsLimit limit × (size < 8192) }
    ensures device { IsErrOf result ProgramError.Device → MayBegin base.now limit size }
    ensures in_range { OnOk result (MayBegin base.now limit size) }
    ensures err { IfErr result IsOfStart }
{
    let disk = MemoryDisk::new(alloc, size)?;
    match Source::format(alloc, disk, base, limit, Moment::first()) {
        Ok(source) => Ok(source),
        Err((_, fault)) => Err(fault.into()),
    }
}
