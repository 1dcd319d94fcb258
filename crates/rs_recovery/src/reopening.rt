//! A source whose disk is reopened after each stop, as a disk of another type.

ghost use Rattle.std.specs.Prelude.{ℕ, List, IfOk, IfErr, IsTrue};
ghost use Rattle.rs_disk.specs.Medium.{DiskState};
ghost use Rattle.rs_image.specs.StateOfImage.{StandsFor};
ghost use Rattle.rs_model.specs.State.{Source as State, start_of};
ghost use Rattle.rs_recovery.specs.Surviving.{IsLost, MayFormat, HasHalted};
ghost use Rattle.rs_recovery.specs.Reopened.{three_disks, run_of, IsRunOn, SurvivesTwice, LosesNone};

use crate::recover;
use crate::surviving::{Halt, format_and_run};
use rs_disk::Disk;
use rs_model::Command;
use rs_store::laws::answers_leave_prefixes;
use rs_store::{Ack, Source};
use rs_time::Moment;
use std::alloc::Global;

/// Recovers the source on a disk and runs commands on it. Returns the answers, and the disk that the run left.
fn recover_and_run<D: Disk + Drop>(
    alloc: Global,
    disk: D,
    commands: &[(Command, Moment)],
) -> Result<(Vec<Ack>, D), (D, Halt)>
    ensures ran { IfOk result (λ x. (opened : DiskState) × IsRunOn
        (D.state disk).now.seen opened (run_of commands.now x.0.items) (D.state x.1)) }
    ensures found { IfErr result (λ e. IsTrue (D.state e.0).honest
        → (s : State) → StandsFor (D.state disk).now.seen s → ¬ IsLost e.1) }
    ensures halted { IfErr result (λ e. (base : List ℕ) (limit size : ℕ)
        → MayFormat base limit size → HasHalted base limit size e.1) }
{
    let mut source = match recover(alloc, disk) {
        Ok(source) => source,
        Err((disk, fault)) => return Err((disk, Halt::Opening(fault))),
    };
    match source.run(commands) {
        Ok(acks) => Ok((acks, source.into_disk())),
        Err(refusal) => Err((source.into_disk(), Halt::Running(refusal))),
    }
}

/// Formats a disk and runs commands, recovers the source on the disk that `second` gives and runs more, and recovers it
/// on the disk that `third` gives. `second` and `third` get the disk that the run before has left, so that they can
/// close a file before they open it again.
///
/// Returns the answers of both runs, and the recovered source. The three disks may be of three types. If the bytes of
/// the second and the third are images that a stop of the run before may have left, the source is as the clause
/// `headline` of [`recover`] promises.
///
/// # Errors
///
/// Those of each step: the first cause that refuses the formatting; without such a cause a failed device, refused
/// memory, or a disk that was not given. A disk with the bytes that the stop before has left is never called empty or
/// damaged.
pub fn format_run_recover_twice<A, B, C, F, G>(
    alloc: Global,
    disk: A,
    base: &[u8],
    limit: u16,
    now: Moment,
    commands: &[(Command, Moment)],
    second: F,
    more: &[(Command, Moment)],
    third: G,
) -> Result<(Vec<Ack>, Vec<Ack>, Source<C>), Halt>
where
    A: Disk + Drop,
    B: Disk + Drop,
    C: Disk + Drop,
    F: FnOnce(A) -> Option<B>,
    G: FnOnce(B) -> Option<C>,
    requires second { F.IsAlwaysCallable second }
    requires third { G.IsAlwaysCallable third }
    ensures survives { IfOk result (λ x. SurvivesTwice
        (three_disks A.state B.state C.state (F.post second) (G.post third))
        (start_of base.now limit now) (run_of commands.now x.0.items) (run_of more.now x.1.items)
        x.2) }
    ensures found { IfErr result (LosesNone
        (three_disks A.state B.state C.state (F.post second) (G.post third))
        (start_of base.now limit now) commands.now more.now) }
    ensures halted { IfErr result (HasHalted base.now limit (A.state disk).size) }
{
    answers_leave_prefixes();
    let (acks, left) = format_and_run(alloc, disk, base, limit, now, commands)?;
    let Some(disk) = second(left) else {
        return Err(Halt::Imaging);
    };
    let (answers, left) = match recover_and_run(alloc, disk, more) {
        Ok(ran) => ran,
        Err((_, halt)) => return Err(halt),
    };
    let Some(disk) = third(left) else {
        return Err(Halt::Imaging);
    };
    match recover(alloc, disk) {
        Ok(source) => Ok((acks, answers, source)),
        Err((_, fault)) => Err(Halt::Opening(fault)),
    }
}
