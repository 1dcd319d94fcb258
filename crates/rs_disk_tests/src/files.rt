//! Disks on files of the system.

use rs_disk::Disk;
use rs_file::{FileDisk, FileFault, Unknown, honest_is};
use std::fs::{self, File, OpenOptions};
use std::process::Abort;
use std::test::Fail;

/// Returns the fault of opening a file of this name.
fn not_opened(rt: &HostRuntime, name: &str) -> Option<FileFault> {
    FileDisk::open(rt, name, Unknown).err()
}

/// Returns the fault of creating a file of this name.
fn not_made(rt: &HostRuntime, name: &str) -> Option<FileFault> {
    FileDisk::create(rt, name, 1, Unknown).err()
}

/// Returns whether a read returns these bytes, which have to lie on the disk.
fn gives(rt: &impl Abort, disk: &mut FileDisk<Unknown>, at: u32, wanted: &[u8]) -> bool {
    let n = wanted.len();
    assert!(rt; n <= 4 && u64::from(at) + n as u64 <= disk.size());
    let mut read = [9; 4];
    disk.read(u64::from(at), &mut read[..n]).is_ok() && &read[..n] == wanted
}

/// Writes bytes and syncs them. They have to lie on the disk.
fn takes(rt: &impl Abort, disk: &mut FileDisk<Unknown>, at: u32, bytes: &[u8]) -> bool {
    let n = bytes.len();
    assert!(rt; n <= 4 && u64::from(at) + n as u64 <= disk.size());
    disk.write(u64::from(at), bytes).is_ok() && disk.sync().is_ok()
}

/// Returns whether the disk has this size, and these counts of calls and faults.
fn counts(disk: &FileDisk<Unknown>, size: u64, calls: u64, faults: u64) -> bool {
    disk.size() == size && disk.calls() == calls && disk.faults() == faults
}

/// Checks the content of a new file, and writes to it.
fn keep_bytes(rt: &impl Abort, disk: &mut FileDisk<Unknown>) {
    assert!(rt; gives(rt, disk, 596, &[0, 0, 0, 0]));
    assert!(rt; takes(rt, disk, 2, &[1, 2, 3]));
    assert!(rt; gives(rt, disk, 1, &[0, 1, 2, 3]));
    assert!(rt; counts(disk, 600, 4, 0));
    honest_is(disk);
}

/// Checks the content that a second opening finds.
fn find_bytes(rt: &impl Abort, disk: &mut FileDisk<Unknown>) {
    assert!(rt; gives(rt, disk, 2, &[1, 2, 3, 0]));
    assert!(rt; counts(disk, 600, 1, 0));
}

#[test]
fn a_file_is_made_and_opened_again(rt: HostRuntime) -> Result<(), Fail> {
    let path = "rs_file_test_made";
    let _left = fs::remove_file(&rt, path);
    keep_bytes(&rt, &mut FileDisk::create(&rt, path, 600, Unknown)?);
    find_bytes(&rt, &mut FileDisk::open(&rt, path, Unknown)?);
    fs::remove_file(&rt, path)?;
    Ok(())
}

/// Names that cannot be opened as a disk. The last is a file that the system makes up: it can be locked and measured,
/// but not synced.
const NOT_OPENED: [&str; 5] = ["rs_file_test_none", ".", "/dev/null", "", "/proc/self/comm"];

/// Names that cannot be created, and the faults.
const NOT_MADE: [(&str, FileFault); 5] = [
    (".", FileFault::Exists),
    ("/", FileFault::Exists),
    ("rs_file_test_none/a", FileFault::Device),
    ("rs_file_test_none/", FileFault::Device),
    ("", FileFault::Device),
];

#[test]
fn names_that_are_refused(rt: HostRuntime) {
    for name in NOT_OPENED {
        assert_eq!(rt; not_opened(&rt, name), Some(FileFault::Device), "{name}");
    }
    for (name, wanted) in NOT_MADE {
        assert_eq!(rt; not_made(&rt, name), Some(wanted), "{name}");
    }
}

#[test]
fn a_file_that_is_there_is_left(rt: HostRuntime) -> Result<(), Fail> {
    let path = "rs_file_test_there";
    fs::write(&rt, path, b"kept".as_slice())?;
    assert_eq!(rt; not_made(&rt, path), Some(FileFault::Exists));
    assert_eq!(rt; fs::read_to_string(&rt, path)?.as_str(), "kept");
    fs::remove_file(&rt, path)?;
    Ok(())
}

/// Returns whether a file cannot be opened while `holder` lives.
fn is_locked<T: Drop>(rt: &HostRuntime, path: &str, holder: T) -> bool {
    let refused = not_opened(rt, path);
    drop(holder);
    refused == Some(FileFault::Device)
}

/// Opens a second handle of a file, which locks it.
fn locked(rt: &HostRuntime, path: &str) -> Result<File, Fail> {
    let file = OpenOptions::new().read(true).open(rt, path)?;
    file.lock_shared()?;
    Ok(file)
}

/// While a disk on the file lives, or another handle holds its lock, the file cannot be opened again.
#[test]
fn a_locked_file(rt: HostRuntime) -> Result<(), Fail> {
    let path = "rs_file_test_locked";
    let _left = fs::remove_file(&rt, path);
    let made = FileDisk::create(&rt, path, 4, Unknown)?;
    assert!(rt; is_locked(&rt, path, made));
    let opened = FileDisk::open(&rt, path, Unknown)?;
    assert!(rt; is_locked(&rt, path, opened));
    assert!(rt; is_locked(&rt, path, locked(&rt, path)?));
    assert_eq!(rt; not_opened(&rt, path), None);
    fs::remove_file(&rt, path)?;
    Ok(())
}

/// Reads at the end of a file of 4 bytes, whose disk has 8.
fn read_short(rt: &impl Abort, disk: &mut FileDisk<Unknown>) {
    assert!(rt; !gives(rt, disk, 3, b"de"));
    assert!(rt; gives(rt, disk, 3, b"d"));
    assert!(rt; counts(disk, 8, 2, 1));
}

/// If a file gets shorter than its disk, a read past the file's end fails.
#[test]
fn a_short_file(rt: HostRuntime) -> Result<(), Fail> {
    let path = "rs_file_test_short";
    let _left = fs::remove_file(&rt, path);
    let mut disk = FileDisk::create(&rt, path, 8, Unknown)?;
    fs::write(&rt, path, b"abcd".as_slice())?;
    read_short(&rt, &mut disk);
    fs::remove_file(&rt, path)?;
    Ok(())
}
