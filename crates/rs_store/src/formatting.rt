//! Formatting a disk.

ghost use Rattle.std.specs.Prelude.{◌≡◌, ◌↔◌, ◌*◌, ◌<◌, ◌≤◌, false, length, take, IfOk, OnOk, IfErr, IsErrAnd, IsErrOf, IsTrue, IsErr};
ghost use Rattle.rs_disk.specs.Runs.{RunsWriting};
ghost use Rattle.rs_record.specs.Base.{is_base};
ghost use Rattle.rs_commit.specs.Slots.{written_version};
ghost use Rattle.rs_commit.specs.Format.{formatted, fresh};
ghost use Rattle.rs_directory.specs.Limit.{IsLimit};
ghost use Rattle.rs_model.specs.State.{start_of};
ghost use Rattle.rs_image.specs.Reach.{blocks_of_disk};
ghost use Rattle.rs_image.specs.Rooted.{rooted, MemoryIsSound};
ghost use Rattle.rs_store.specs.Source.{Holds};
ghost use Rattle.rs_store.specs.Opening.{disk_of};
ghost use Rattle.rs_store.specs.Formatting.{first_header as header_of, first_contents, first_root, IsBlank, FitsDisk, IsMade, MayMake, HasCauses};

use crate::Source;
use rs_body::{blocks_for, write_body};
use rs_catalogue::Catalogue;
use rs_changes::History;
use rs_commit::{Root, Slots, VERSION, format_slots};
use rs_directory::{Header, Limit, directory_bytes, directory_size};
use rs_disk::{Disk, Fault};
use rs_extent::{Extent, Used};
use rs_fixity::sha256_of;
use rs_image::{Contents, Rooted, used_of};
use rs_record::{Base, ValueFault};
use rs_time::Moment;
use std::alloc::{AllocError, Global};
use thiserror::Error;

// The bytes of 16 blocks.
const SMALLEST_DISK: u64 = 8192;

/// The reason why a disk was not formatted. Of several causes the first in this order is answered, but `NoMemory` may
/// come at any point.
#[derive(Clone, Copy, Debug, PartialEq, Eq, Error)]
pub enum FormatFault {
    /// The base is not lawful.
    #[error("the base is not lawful")]
    BadBase,
    /// The item limit is less than 2 or more than 4,000.
    #[error("the item limit is not from 2 to 4000")]
    BadLimit,
    /// The disk has fewer than 16 blocks of 512 bytes.
    #[error("the disk has fewer than 8192 bytes")]
    TooSmall,
    /// A device call failed.
    #[error("the device failed")]
    Device,
    /// An allocation failed.
    #[error("out of memory")]
    NoMemory,
}

impl From<AllocError> for FormatFault {
    ghost use Rattle.rs_store.specs.declared.formatting.FormatFault.{FormatFault};

    ghost from_gives = { λ _ fault. fault ≡ FormatFault.NoMemory };

    fn from(_: AllocError) -> FormatFault {
        FormatFault::NoMemory
    }
}

/// A new source, before it is written.
#[derive(Debug, Drop)]
struct Blank {
    /// Its empty lists.
    contents: Contents,
    /// The blocks of the slots and of the directory.
    used: Used,
    /// Its root.
    root: Root,
    /// The bytes of its directory.
    directory: Vec<u8>,
}

impl<D: Disk> Source<D> {
    /// Makes an empty source on a disk, and replaces any content of the disk. The source has no resources and no
    /// changes, and publication 0 lists no resources. All URIs of the source begin with `base`. Documents split a list
    /// of more than `limit` items into parts of `limit` items; it is from 2 to 4,000. The disk gets version 2 of the
    /// format.
    ///
    /// # Errors
    ///
    /// All errors return the disk. After [`FormatFault::Device`] it may have any content; all other errors leave it
    /// untouched.
    ///
    /// - [`FormatFault::BadBase`], [`FormatFault::BadLimit`] and [`FormatFault::TooSmall`] exactly if their cause is
    ///   there and no cause of an earlier one in this order.
    /// - [`FormatFault::Device`] if a device call failed.
    /// - [`FormatFault::NoMemory`] if memory ran out.
    pub fn format(
        alloc: Global,
        disk: D,
        base: &[u8],
        limit: u16,
        now: Moment,
    ) -> Result<Source<D>, (D, FormatFault)>
        // This holds on every device, since the function reads nothing.
        ensures holds { IfOk result (λ source. Holds D.state source (start_of base.now limit now)) }
        ensures version { IfOk result (λ source. source.slots.root.version ≡ written_version) }

        // Its lists are empty, its root is in the first slot, and its directory begins at block 2.
        // Blocks 0 and 1 are written whole.
        ensures contents { IfOk result
            (λ source. source.contents ≡ first_contents base.now limit now) }
        ensures slots { IfOk result
            (λ source. source.slots ≡ fresh (first_root (first_contents base.now limit now))) }
        ensures front { IfOk result (λ source.
            take 1024 (D.state source.disk).now.seen ≡ formatted source.slots.root) }

        ensures bad_base { IsErrAnd result (λ e. e.1 ≡ FormatFault.BadBase)
            ↔ (is_base base.now ≡ false) }
        ensures bad_limit { IsErrAnd result (λ e. e.1 ≡ FormatFault.BadLimit)
            ↔ (IsTrue (is_base base.now) × (¬ IsLimit limit)) }
        ensures too_small { IsErrAnd result (λ e. e.1 ≡ FormatFault.TooSmall)
            ↔ (IsTrue (is_base base.now)
            × IsLimit limit
            × (blocks_of_disk (D.state disk).size < 16)) }
        ensures untouched { IfErr result (λ e. ¬ (e.1 ≡ FormatFault.Device) → e.0 ≡ disk) }

        // This holds on every device and for every answer.
        ensures runs { RunsWriting (IsErrAnd result (λ e. e.1 ≡ FormatFault.Device))
            (D.state disk) (D.state (disk_of result)) }
    {
        let mut disk = disk;
        let blank = match lay_out(alloc, disk.size(), base, limit, now) {
            Ok(blank) => blank,
            Err(fault) => return Err((disk, fault)),
        };
        match write_blank(&mut disk, &blank) {
            Ok(slots) => Ok(Source {
                disk,
                slots,
                contents: blank.contents,
                used: blank.used,
                is_closed: false,
                alloc,
            }),
            Err(_) => Err((disk, FormatFault::Device)),
        }
    }
}

/// Lays out a new source for a disk of `size` bytes.
fn lay_out(
    alloc: Global,
    size: u64,
    base: &[u8],
    limit: u16,
    now: Moment,
) -> Result<Blank, FormatFault>
    ensures blank { IfOk result (IsBlank base.now limit now) }
    ensures sound { IfOk result
        (λ blank. MemoryIsSound (rooted size blank.root blank.contents) blank.used) }
    ensures may { OnOk result (MayMake size base.now limit) }
    ensures causes { HasCauses size base.now limit (IsErrOf result) }
    ensures device { ¬ IsErrOf result FormatFault.Device }
{
    let header = first_header(alloc, size, base, limit, now)?;
    let directory = directory_bytes(alloc, &header, &[], &[], &[])?;
    let length = directory_size(&header, 0);
    let sha256 = sha256_of(&directory);
    let root = Root {
        version: VERSION,
        generation: 1,
        directory: Extent {
            first: 2,
            blocks: blocks_for(length),
        },
        length,
        sha256,
    };
    let contents = Contents {
        header,
        catalogue: Catalogue::empty(alloc),
        history: History::empty(alloc),
        published: Catalogue::empty(alloc),
    };
    let used = used_of(alloc, &Rooted::new(size, root, &contents))?;
    Ok(Blank {
        contents,
        used,
        root,
        directory,
    })
}

/// Returns the header of a new source on a disk of `size` bytes.
fn first_header(
    alloc: Global,
    size: u64,
    base: &[u8],
    limit: u16,
    now: Moment,
) -> Result<Header, FormatFault>
    ensures header { IfOk result (λ header. header ≡ header_of base.now limit now) }
    ensures may { OnOk result (MayMake size base.now limit) }
    ensures causes { HasCauses size base.now limit (IsErrOf result) }
    ensures device { ¬ IsErrOf result FormatFault.Device }
{
    let base = match Base::new(alloc, base) {
        Err(ValueFault::Malformed) => return Err(FormatFault::BadBase),
        made => made,
    };
    let Some(limit) = Limit::new(limit) else {
        return Err(FormatFault::BadLimit);
    };
    if size < SMALLEST_DISK {
        return Err(FormatFault::TooSmall);
    }
    let Ok(base) = base else {
        return Err(FormatFault::NoMemory);
    };
    Ok(Header {
        base,
        limit,
        start: now,
        last: now,
        number: 0,
        at: now,
        first: 0,
        begin: now,
    })
}

/// Writes the directory, and then the slots. The first sync of the slots settles the directory too.
fn write_blank<D: Disk>(disk: &mut D, blank: &Blank) -> Result<Slots, Fault>
    requires fits { FitsDisk (D.state disk.old).size blank.now }
    ensures runs { RunsWriting (IsErr result) (D.state disk.old) (D.state disk.new) }
    ensures slots { IfOk result (λ slots. slots ≡ fresh blank.now.root) }
    ensures made { OnOk result (IsMade blank.now (D.state disk.new).now) }
{
    write_body(disk, blank.root.directory, &blank.directory)?;
    format_slots(disk, &blank.root)
}
