//! A source on a memory disk, from its formatting through a stop to its recovery.

ghost use Rattle.std.specs.Prelude.{◌≡◌, IfOk, IfErr, OnOk};
ghost use Rattle.rs_disk.specs.Medium.{IsImage, image_of, resting};
ghost use Rattle.rs_disk.specs.Memory.{memory_state};
ghost use Rattle.rs_model.specs.State.{start_of};
ghost use Rattle.rs_recovery.specs.Surviving.{Survives, IsRunFrom, MayFormat, IsLost, HasHalted};

use crate::recover;
use rs_disk::{Disk, MemoryDisk};
use rs_model::Command;
use rs_store::{Ack, FormatFault, OpenFault, Refusal, Source};
use rs_time::Moment;
use std::alloc::{AllocError, Global};

/// The step at which a run ended without a recovery.
#[derive(Clone, Copy, Debug, PartialEq, Eq)]
pub enum Halt {
    /// The disk was not formatted.
    Formatting(FormatFault),
    /// No command was run.
    Running(Refusal),
    /// No disk of an image was made: its memory was refused, or no disk was given.
    Imaging,
    /// The source was not opened again.
    Opening(OpenFault),
}

/// Returns a disk with the image that a crash of the disk `left` may leave, by this choice of bytes. All its bytes are
/// settled.
fn image_disk(alloc: Global, left: &MemoryDisk, choice: &[u8]) -> Result<MemoryDisk, AllocError>
    ensures image { IfOk result (λ disk. IsImage (memory_state left.now).now
        (image_of choice.now (memory_state left.now).now)) }
    ensures resting { IfOk result (λ disk. (memory_state disk).now
        ≡ resting (image_of choice.now (memory_state left.now).now)) }
{
    MemoryDisk::from_bytes(alloc, &left.image(choice)?)
}

/// Formats a disk and runs commands on the source. Returns the answers, and the disk that the run left.
pub(crate) fn format_and_run<D: Disk + Drop>(
    alloc: Global,
    disk: D,
    base: &[u8],
    limit: u16,
    now: Moment,
    commands: &[(Command, Moment)],
) -> Result<(Vec<Ack>, D), Halt>
    ensures ran { IfOk result
        (λ x. IsRunFrom (start_of base.now limit now) commands.now x.0.items (D.state x.1)) }
    ensures may { OnOk result (MayFormat base.now limit (D.state disk).size) }
    ensures found { IfErr result (λ halt. ¬ IsLost halt) }
    ensures halted { IfErr result (HasHalted base.now limit (D.state disk).size) }
{
    let mut source = match Source::format(alloc, disk, base, limit, now) {
        Ok(source) => source,
        Err((_, fault)) => return Err(Halt::Formatting(fault)),
    };
    match source.run(commands) {
        Ok(acks) => Ok((acks, source.into_disk())),
        Err(refusal) => Err(Halt::Running(refusal)),
    }
}

/// Formats a memory disk, runs commands, and recovers the source from the image that a crash then may leave by this
/// choice of bytes. If the disk is set to stop after some calls, a crash in that call may leave the image.
///
/// Returns the answers, the disk that the run left, and the recovered source.
///
/// # Errors
///
/// Those of each step. The disk is never called empty or damaged.
pub fn format_run_recover(
    alloc: Global,
    disk: MemoryDisk,
    base: &[u8],
    limit: u16,
    now: Moment,
    commands: &[(Command, Moment)],
    choice: &[u8],
) -> Result<(Vec<Ack>, MemoryDisk, Source<MemoryDisk>), Halt>
    ensures survives { IfOk result
        (λ x. Survives (start_of base.now limit now) commands.now x.0.items x.1 choice.now x.2) }
    ensures found { IfErr result (λ halt. ¬ IsLost halt) }
    ensures halted { IfErr result (HasHalted base.now limit (memory_state disk).size) }
{
    let (acks, left) = format_and_run(alloc, disk, base, limit, now, commands)?;
    let Ok(disk) = image_disk(alloc, &left, choice) else {
        return Err(Halt::Imaging);
    };
    match recover(alloc, disk) {
        Ok(source) => Ok((acks, left, source)),
        Err((_, fault)) => Err(Halt::Opening(fault)),
    }
}
