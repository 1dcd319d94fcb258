//! Sources on files.

ghost use Rattle.std.specs.Prelude.{◌≡◌, ◌<◌, ◌≤◌, false, Some, None, MatchOption, IfOk, IfErr, OnOk, IsErrAnd, IsTrue};
ghost use Rattle.rs_file.specs.Replay.{opened};
ghost use Rattle.rs_model.specs.State.{start_of, Source as State};
ghost use Rattle.rs_record.specs.Base.{is_base};
ghost use Rattle.rs_directory.specs.Limit.{IsLimit};
ghost use Rattle.rs_disk.specs.Runs.{RunsWriting};
ghost use Rattle.rs_image.specs.StateOfImage.{StandsFor};
ghost use Rattle.rs_file.specs.File.{state_of as device_of};
ghost use Rattle.rs_store.specs.OnlyReads.{OnlyReads};
ghost use Rattle.rs_store.specs.Source.{Holds, state_of};
ghost use Rattle.rs_source.specs.Arguments.{error_of_file, IsOfCopy, IsOfFormat, IsOfOpen};
ghost use Rattle.rs_source.specs.Files.{MayBegin, IsCopiedTo, IsUncopied, IsUnformatted, IsUnmade, IsUnopened, HeadlineOfFile};

use crate::command::SourceArguments;
use crate::program::ProgramError;
use rs_disk::Disk;
use rs_file::{FileDisk, FileFault, Start};
use rs_recovery::recover;
use rs_store::Source;
use rs_time::Moment;
use std::alloc::Global;
use std::fs::File;
use std::rt::Files;

/// The reason why a file gave no source.
#[derive(Drop)]
pub struct NoSource<D> {
    /// The file as a disk, where it could be opened or made.
    pub disk: Option<D>,
    /// The error of the program.
    pub error: ProgramError,
}

impl<D> NoSource<D> {
    /// Returns the reason where the file could be opened or made but gave no source.
    fn on(disk: D, error: ProgramError) -> NoSource<D>
        ensures disk { result.disk ≡ Some disk }
        ensures error { result.error ≡ error }
    {
        NoSource {
            disk: Some(disk),
            error,
        }
    }
}

impl<D> From<FileFault> for NoSource<D> {
    ghost from_gives = { λ fault lack. (lack.disk ≡ None) × (lack.error ≡ error_of_file fault) };

    fn from(fault: FileFault) -> NoSource<D> {
        NoSource {
            disk: None,
            error: fault.into(),
        }
    }
}

impl<D: Drop> From<NoSource<D>> for ProgramError {
    ghost from_gives = { λ lack error. error ≡ lack.error };

    fn from(lack: NoSource<D>) -> ProgramError {
        lack.error
    }
}

/// Makes a new file of this name, and a source on it, formatted at the moment 0.
///
/// # Errors
///
/// [`ProgramError::Exists`] where the name is taken, and [`ProgramError::Device`] where the file cannot be made. Then
/// [`ProgramError::BadBase`], [`ProgramError::BadLimit`] and [`ProgramError::TooSmall`], in this order, exactly where
/// their cause is there; [`ProgramError::Device`] where a call on the file fails; and [`ProgramError::NoMemory`]. After
/// all of these errors the file stays.
pub fn format_file<R: Files<File = File>, S: Start>(
    rt: &R,
    alloc: Global,
    file: &str,
    made: &SourceArguments<'_>,
    start: S,
) -> Result<Source<FileDisk<S>>, NoSource<FileDisk<S>>>
    ensures holds { IfOk result (λ source.
        Holds (device_of S.Start) source (start_of made.now.base.now made.now.limit 0)) }
    ensures size { IfOk result (λ source. (device_of S.Start source.disk).size ≡ made.now.size) }

    // The calls from the new file on, of which none failed.
    ensures runs { IfOk result (λ source. RunsWriting ⊥ (opened S.Start.first made.now.size)
        (device_of S.Start source.disk)) }

    ensures bad_base { IsErrAnd result (λ lack. lack.error ≡ ProgramError.BadBase)
        → is_base made.now.base.now ≡ false }
    ensures bad_limit { IsErrAnd result (λ lack. lack.error ≡ ProgramError.BadLimit)
        → IsTrue (is_base made.now.base.now) × (¬ IsLimit made.now.limit) }
    ensures too_small { IsErrAnd result (λ lack. lack.error ≡ ProgramError.TooSmall)
        → IsTrue (is_base made.now.base.now) × IsLimit made.now.limit × (made.now.size < 8192) }
    ensures device { IfErr result (λ lack. lack.error ≡ ProgramError.Device
        → MatchOption lack.disk (Unit {0})
        (λ _. MayBegin made.now.base.now made.now.limit made.now.size)) }
    ensures in_range { OnOk result
        (MayBegin made.now.base.now made.now.limit made.now.size) }
    ensures err { IfErr result (λ lack. IsOfFormat lack.error) }
    ensures unmade { IfErr result IsUnmade }

    // The file could not be made, or the error names the fault of the formatting.
    ensures unformatted { IfErr result (IsUnformatted (device_of S.Start) made.now.base.now
        made.now.limit (opened S.Start.first made.now.size)) }
{
    let disk = FileDisk::create(rt, file, made.size, start)?;
    match Source::format(alloc, disk, made.base, made.limit, Moment::first()) {
        Ok(source) => Ok(source),
        Err((disk, fault)) => Err(NoSource::on(disk, fault.into())),
    }
}

/// Opens the file of this name, and the source on it.
///
/// # Errors
///
/// [`ProgramError::Device`] where the file cannot be opened or a call on it fails,
/// [`ProgramError::NotASource`] where it holds no source, [`ProgramError::Damaged`] where it breaks a rule of the
/// format, and [`ProgramError::NoMemory`].
pub fn open_file<R: Files<File = File>, S: Start>(
    rt: &R,
    alloc: Global,
    file: &str,
    start: S,
) -> Result<Source<FileDisk<S>>, NoSource<FileDisk<S>>>
    ensures is_open { IfOk result (λ source. source.is_closed ≡ false) }

    // The file has followed the model.
    ensures holds { IfOk result (λ source. IsTrue (device_of S.Start source.disk).honest
        → Holds (device_of S.Start) source (state_of (device_of S.Start) source)) }
    ensures held { IfOk result (λ source. IsTrue (device_of S.Start source.disk).honest
        → StandsFor S.Start.first (state_of (device_of S.Start) source)) }

    // After a stop of any number of sessions.
    ensures headline { HeadlineOfFile (device_of S.Start) S.Start.first result }

    ensures err { IfErr result (λ lack. IsOfOpen lack.error) }
    ensures unopened { IfErr result (IsUnopened (device_of S.Start) S.Start.first) }
{
    let disk = FileDisk::open(rt, file, start)?;
    match recover(alloc, disk) {
        Ok(source) => Ok(source),
        Err((disk, fault)) => Err(NoSource::on(disk, fault.into())),
    }
}

/// Makes a new file of this name and of `size` bytes, and copies a source to it. The source stays
/// unchanged, and its disk is only read.
///
/// # Errors
///
/// [`ProgramError::Exists`] where the name is taken, and [`ProgramError::Device`] where the file cannot
/// be made. Then [`ProgramError::TooSmall`] and [`ProgramError::Full`], in this order;
/// [`ProgramError::Device`] where a call on either disk fails; [`ProgramError::Damaged`] where a body does not have its
/// recorded SHA-256; and [`ProgramError::NoMemory`]. After all of these errors the file stays.
pub fn copy_to_file<R: Files<File = File>, D: Disk, S: Start>(
    rt: &R,
    source: &mut Source<D>,
    file: &str,
    size: u64,
    start: S,
) -> Result<Source<FileDisk<S>>, NoSource<FileDisk<S>>>
    // The device has followed the model.
    ensures holds { (s : State) → Holds D.state source.old s
        → IsTrue (D.state source.new.disk).honest
        → IfOk result (λ copy. Holds (device_of S.Start) copy s) }
    ensures size { IfOk result (λ copy. (device_of S.Start copy.disk).size ≡ size) }

    // The content of the new file at every moment, from its first call on.
    ensures copied { IfOk result (IsCopiedTo D.state (device_of S.Start) source.old source.new
        (opened S.Start.first size)) }

    ensures too_small { IsErrAnd result (λ lack. lack.error ≡ ProgramError.TooSmall) → size < 8192 }
    ensures in_range { OnOk result (8192 ≤ size) }
    ensures err { IfErr result (λ lack. IsOfCopy lack.error) }
    ensures uncopied { IfErr result (IsUncopied D.state (device_of S.Start)
        source.old source.new (opened S.Start.first size)) }
    ensures reads_only { OnlyReads D.state source.old source.new }
{
    let disk = FileDisk::create(rt, file, size, start)?;
    match source.copy_to(disk) {
        Ok(copy) => Ok(copy),
        Err((disk, fault)) => Err(NoSource::on(disk, fault.into())),
    }
}
