//! Recovery after a stop.

ghost use Rattle.std.specs.Prelude.{◌≡◌, ◌+◌, ◌<◌, IfOk, IfErr, IsErrAnd, IsTrue};
ghost use Rattle.rs_disk.specs.Runs.{WritesNothing};
ghost use Rattle.rs_model.specs.State.{Source as State};
ghost use Rattle.rs_image.specs.StateOfImage.{StandsFor};
ghost use Rattle.rs_store.specs.Opening.{disk_of, IsOpened, IsNotOpened, ArePagesPlaced};
ghost use Rattle.rs_recovery.specs.Recovered.{HandsBack, IsOpenedOn, GivesBackRun, Headline, GivesBackServed};

use crate::laws::sessions_stand;
use rs_disk::Disk;
use rs_image::laws::stands_once;
use rs_model::{fold_is_regular, start_is_regular};
use rs_store::{OpenFault, Source};
use std::alloc::Global;

/// Opens the source on a disk that a stop has left.
///
/// *Stopped before or within any disk call, during a command or between two, recovery gives exactly the resources and
/// published documents of a prefix of the accepted commands that holds every acknowledged one; and in every recovered
/// state the latest Resource List, followed by the changes recorded after its at-moment in their order, yields exactly
/// the resources held, with their lengths, hashes and types.*
///
/// The clause `headline` says this, and `served` adds that the recovered state includes the commands of every source
/// that was asked before a stop. A session is a source as its disk sees it, after it was formatted with the answer Ok,
/// made by [`Source::copy_to`] with that answer, or opened by this function: `Source::run`, scripts and requests
/// conclude it (`answered`). The other premises are trusted: the disk follows the model of rs_disk, and only the source
/// writes it; a stop leaves one of the images of its moment; and a read now gives the bytes that the last stop left.
/// Two more exclude a refusal: no growth of memory is refused, and the device does not fail.
///
/// # Errors
///
/// Those of [`Source::open`]. On a disk that a stop of a source has left, only [`OpenFault::Device`], if a device call
/// failed, and [`OpenFault::NoMemory`].
pub fn recover<D: Disk>(alloc: Global, disk: D) -> Result<Source<D>, (D, OpenFault)>
    // If the disk's bytes represent a state, the opening gives it back. An opened source may begin one more session.
    ensures recovers { IsTrue (D.state (disk_of result)).honest
        → (s : State) → StandsFor (D.state disk).now.seen s → HandsBack D.state disk result s }
    ensures found { IfOk result (IsOpened D.state (D.state disk)) }
    ensures opened { IfOk result (λ source. IsTrue (D.state source.disk).honest
        → IsOpenedOn D.state (D.state disk).now.seen source) }

    // After a stop of one run, and after those of any number of sessions.
    ensures after_a_run { GivesBackRun D.state disk result }
    ensures headline { Headline D.state disk result }
    ensures served { GivesBackServed D.state disk result }

    // The cause why no source was opened, whatever the disk held.
    ensures refused { IfErr result (λ e. IsNotOpened (D.state disk) (D.state e.0) e.1) }
    ensures no_memory_behind { IfErr result (λ e. e.1 ≡ OpenFault.NoMemory
        → IsTrue (D.state e.0).honest → (D.state disk).calls + 3 < (D.state e.0).calls
        → ArePagesPlaced (D.state disk).size (D.state disk).now.seen) }

    // Reads give the same bytes as before, and a stop within the opening leaves an image of the disk at its start. A
    // device that has followed the model at the end had followed it before. The answer is Device only if a call failed
    // or the count of calls is at its greatest value. Any other answer comes only if no call failed.
    ensures runs { WritesNothing (IsErrAnd result (λ e. e.1 ≡ OpenFault.Device))
        (D.state disk) (D.state (disk_of result)) }
{
    sessions_stand();
    start_is_regular();
    fold_is_regular();
    stands_once();
    Source::open(alloc, disk)
}
