//! Opening and creating a file.
ghost use Rattle.std.specs.Prelude.{◌≡◌, ◌↔◌, ◌≤◌, ◌≤ℤ◌, ◌^◌, pos, false, [], length, IfOk, IfErr, IsErr, IsTrue};
ghost use Rattle.rs_disk.specs.Medium.{resting};
ghost use Rattle.rs_file.specs.Replay.{sized};
ghost use Rattle.rs_file.specs.File.{state_of, events_of};

use crate::{FileDisk, FileFault, Start};
use std::fs::{File, OpenOptions};
use std::io::{self, ErrorKind};
use std::os::fd::AsRawFd;
use std::path::Path;
use std::rt::Files;

// The last of the standard streams.
const STANDARD_ERROR: i32 = 2;

/// Returns whether a descriptor has the number of a standard stream.
fn is_standard_stream(descriptor: i32) -> bool
    ensures { IsTrue result ↔ (descriptor ≤ℤ pos 2) }
{
    descriptor <= STANDARD_ERROR
}

/// Locks a newly opened file, which has to be a regular file.
fn claimed(file: File) -> io::Result<File> {
    // If a standard stream was closed, the file may have its number. Output to the stream must not
    // land in the file.
    let file = if is_standard_stream(file.as_raw_fd()) {
        file.try_clone()?
    } else {
        file
    };
    if !file.metadata()?.is_file() {
        return Err(ErrorKind::Unsupported.into());
    }
    file.try_lock()?;
    Ok(file)
}

/// Syncs the file, and returns its length. It drops the pages that the system has cached: after a
/// failed sync of another process they may differ from the device.
fn settled_length(file: &File) -> io::Result<u64> {
    file.sync_all()?;
    let advised = libc::posix_fadvise(file.as_raw_fd(), 0, 0, libc::POSIX_FADV_DONTNEED);
    if advised != 0 {
        return Err(io::Error::from_raw_os_error(advised));
    }
    Ok(file.metadata()?.len())
}

/// Syncs the folder of this path, and so the names in it.
fn settle_folder<R: Files<File = File>>(rt: &R, path: &str) -> io::Result<()> {
    let folder = match Path::new(path).parent() {
        Some(folder) if !folder.as_str().is_empty() => folder.as_str(),
        _ => ".",
    };
    File::open(rt, folder)?.sync_all()
}

/// Opens an existing file, and returns it with its length.
fn open_existing<R: Files<File = File>>(rt: &R, path: &str) -> io::Result<(File, u64)> {
    let file = OpenOptions::new().read(true).write(true).open(rt, path)?;
    let file = claimed(file)?;
    let size = settled_length(&file)?;
    Ok((file, size))
}

/// Sets the length of a new file, whose bytes are then zeros. A length from 2^63 on fails.
fn filled(file: File, size: u64) -> io::Result<File>
    ensures { 2 ^ 63 ≤ size → IsErr result }
{
    let file = claimed(file)?;
    file.set_len(size)?;
    if settled_length(&file)? != size {
        return Err(ErrorKind::UnexpectedEof.into());
    }
    Ok(file)
}

impl<S: Start> FileDisk<S> {
    /// Opens the file of this name as a disk of the file's length.
    ///
    /// The file has to be a regular file, and is opened for reading and writing. It stays locked
    /// against every other `FileDisk` until the disk is dropped. It is synced once, so that its
    /// content is settled.
    ///
    /// # Errors
    /// [`FileFault::Device`] if the file does not exist, is no regular file, or cannot be opened
    /// for reading and writing, locked, synced or measured.
    pub fn open<R: Files<File = File>>(rt: &R, path: &str, _start: S) -> Result<Self, FileFault>
        // The content is settled. If its start names fewer bytes than the file has, zeros follow
        // them.
        ensures now { IfOk result (λ d. (state_of S.Start d).now
            ≡ resting (sized (state_of S.Start d).size S.Start.first)) }
        ensures honest { IfOk result (λ d. IsTrue (state_of S.Start d).honest
            ↔ ((state_of S.Start d).size ≡ length S.Start.first)) }
        ensures first { IfOk result (λ d. IsTrue (state_of S.Start d).honest
            → (state_of S.Start d).now ≡ resting S.Start.first) }
        ensures calls { IfOk result (λ d. (state_of S.Start d).calls ≡ 0) }
        ensures faults { IfOk result (λ d. (state_of S.Start d).faults ≡ 0) }
        ensures last { IfOk result (λ d. (state_of S.Start d).last_failed ≡ false) }
        ensures events { IfOk result (λ d. events_of d ≡ []) }
        ensures fault { IfErr result (λ e. e ≡ FileFault.Device) }
    {
        match open_existing(rt, path) {
            Ok((file, size)) => Ok(FileDisk::over(file, size)),
            Err(_) => Err(FileFault::Device),
        }
    }

    /// Creates a file of this name with `size` zero bytes, and opens it as a disk.
    ///
    /// The file is locked as by [`open`](FileDisk::open). It and its name in its folder are synced,
    /// so that both survive a crash. Its start has to name `size` zeros for the disk to be honest.
    ///
    /// # Errors
    /// [`FileFault::Exists`] if the name is already in use: the existing file is left as it is.
    /// [`FileFault::Device`] if the system fails otherwise, as it does at a size from 2^63 on. A
    /// file that was created by then stays.
    pub fn create<R: Files<File = File>>(
        rt: &R,
        path: &str,
        size: u64,
        _start: S,
    ) -> Result<Self, FileFault>
        ensures size { IfOk result (λ d. (state_of S.Start d).size ≡ size) }
        ensures now { IfOk result (λ d. (state_of S.Start d).now
            ≡ resting (sized size S.Start.first)) }
        ensures honest { IfOk result (λ d. IsTrue (state_of S.Start d).honest
            ↔ (size ≡ length S.Start.first)) }
        ensures first { IfOk result (λ d. IsTrue (state_of S.Start d).honest
            → (state_of S.Start d).now ≡ resting S.Start.first) }
        ensures calls { IfOk result (λ d. (state_of S.Start d).calls ≡ 0) }
        ensures faults { IfOk result (λ d. (state_of S.Start d).faults ≡ 0) }
        ensures last { IfOk result (λ d. (state_of S.Start d).last_failed ≡ false) }
        ensures events { IfOk result (λ d. events_of d ≡ []) }
        ensures too_large { 2 ^ 63 ≤ size → IsErr result }
    {
        let mut options = OpenOptions::new();
        options.read(true).write(true).create_new(true);
        let file = match options.open(rt, path) {
            Ok(file) => file,
            Err(error) if error.kind() == ErrorKind::AlreadyExists => {
                return Err(FileFault::Exists);
            }
            Err(_) => return Err(FileFault::Device),
        };
        let Ok(file) = filled(file, size) else {
            return Err(FileFault::Device);
        };
        match settle_folder(rt, path) {
            Ok(()) => Ok(FileDisk::over(file, size)),
            Err(_) => Err(FileFault::Device),
        }
    }
}
