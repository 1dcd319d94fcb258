//! Reading the lists of a root.

ghost use Rattle.std.specs.Prelude.{◌≤◌, IfOk, IsErrOf, IsTrue};
ghost use Rattle.rs_disk.specs.Runs.{RunsReading, CallsAtMost};
ghost use Rattle.rs_time.specs.Moment.{greatest};
ghost use Rattle.rs_image.specs.StateOfImage.{Tells, TellsNothing, state_in};
ghost use Rattle.rs_image.specs.Rooted.{MemoryIsSound, rooted};
ghost use Rattle.rs_image.specs.Loading.{ReadsBehind, RefusesMemory, IsReadBehind, ReadsLists, AreOf, HoldLists, HoldNoLists};

use crate::placed::{is_placed, names_placed};
use crate::whole::{has_first_part, whole_set};
use crate::{Contents, Loaded};
use rs_body::{LoadFault, read_body};
use rs_catalogue::Catalogue;
use rs_changes::History;
use rs_commit::Root;
use rs_directory::{Directory, read_directory};
use rs_disk::Disk;
use rs_page::fault_of_fields;
use std::alloc::Global;

/// Reads the directory and the lists of a root, for any root and any content of the disk, and
/// checks all rules of the format. The root says which version its directory has. The disk stays as
/// it is.
///
/// Before it reads the directory or asks for its memory, it checks the place of the directory: the
/// extent lies after the slots, among the usable blocks of the disk, and has exactly the blocks of
/// its length. Before it reads the first page or asks for any other memory, it checks the places of
/// all pages that the directory names.
///
/// # Errors
///
/// - [`LoadFault::Device`] where the device fails.
/// - [`LoadFault::Damaged`] where the root describes no lists on this disk: the bytes of the
///   directory or of a page do not match their digest or their format, or a rule of the lists or of
///   their blocks is broken.
/// - [`LoadFault::NoMemory`] where the memory is refused.
pub fn load<D: Disk>(alloc: Global, disk: &mut D, root: &Root) -> Result<Loaded, LoadFault>
    ensures sound { IfOk result (λ found.
        MemoryIsSound (rooted (D.state disk.new).size root.now found.contents) found.used) }

    // Of a device that has followed the model, these say what the disk holds.
    ensures told { IfOk result (λ found. IsTrue (D.state disk.new).honest
        → Tells root.now found.contents (D.state disk.new).now.seen
        (state_in (D.state disk.new).now.seen found.contents)) }
    ensures damaged { IsErrOf result LoadFault.Damaged
        → IsTrue (D.state disk.new).honest
        → TellsNothing root.now (D.state disk.new).now.seen }
    ensures no_memory { IsErrOf result LoadFault.NoMemory
        → RefusesMemory root.now (D.state disk.old) (D.state disk.new) }
    ensures reads { ReadsBehind root.now (IsErrOf result LoadFault.Device)
        (D.state disk.old) (D.state disk.new) }
{
    let directory = load_directory(alloc, disk, root)?;
    let contents = load_lists(alloc, disk, directory)?;
    match whole_set(alloc, disk.size(), root, &contents)? {
        Some(used) => Ok(Loaded { contents, used }),
        None => Err(LoadFault::Damaged),
    }
}

/// Reads the directory of a root, in the root's version. It is `Damaged` where a page that it names
/// is not placed, which is checked before its entries get memory, and where its history cannot begin
/// with the first part that it names.
fn load_directory<D: Disk>(alloc: Global, disk: &mut D, root: &Root) -> Result<Directory, LoadFault>
    ensures found { IfOk result (IsReadBehind root.now (D.state disk.new)) }
    ensures damaged { IsErrOf result LoadFault.Damaged
        → IsTrue (D.state disk.new).honest
        → TellsNothing root.now (D.state disk.new).now.seen }
    ensures no_memory { IsErrOf result LoadFault.NoMemory
        → RefusesMemory root.now (D.state disk.old) (D.state disk.new) }
    ensures runs { RunsReading (IsErrOf result LoadFault.Device)
        (D.state disk.old) (D.state disk.new) }
    ensures calls { CallsAtMost 1 (D.state disk.old) (D.state disk.new) }
{
    if !is_placed(root.directory, root.length, disk.size()) {
        return Err(LoadFault::Damaged);
    }
    let mut bytes = Vec::new(alloc);
    read_body(disk, root.directory, root.length, &root.sha256, &mut bytes)?;
    if !names_placed(root.version, &bytes, disk.size()) {
        return Err(LoadFault::Damaged);
    }
    let directory = match read_directory(alloc, root.version, &bytes) {
        Ok(directory) => directory,
        Err(fault) => return Err(fault_of_fields(fault)),
    };
    if !has_first_part(&directory.header) {
        return Err(LoadFault::Damaged);
    }
    Ok(directory)
}

/// Reads the lists whose pages a directory names. A published page that is also a catalogue page is
/// read once.
fn load_lists<D: Disk>(
    alloc: Global,
    disk: &mut D,
    directory: Directory,
) -> Result<Contents, LoadFault>
    requires { directory.header.first ≤ greatest }
    ensures lists { IfOk result (AreOf directory) }
    ensures found { IfOk result (λ c. IsTrue (D.state disk.new).honest
        → HoldLists directory (D.state disk.new).now.seen c) }
    ensures damaged { IsErrOf result LoadFault.Damaged
        → IsTrue (D.state disk.new).honest
        → HoldNoLists directory (D.state disk.new).now.seen }
    ensures reads { ReadsLists directory (IsErrOf result LoadFault.Device)
        (D.state disk.old) (D.state disk.new) }
{
    let catalogue = Catalogue::load(alloc, disk, &directory.catalogue)?;
    let first = directory.header.first;
    let history = History::load(alloc, disk, first, &directory.changes)?;
    let published = Catalogue::load_beside(alloc, disk, &directory.published, &catalogue)?;
    Ok(Contents {
        header: directory.header,
        catalogue,
        history,
        published,
    })
}
