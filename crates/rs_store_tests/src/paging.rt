//! Sources whose lists have many pages: the cuts of the pages, the pages that a command rewrites, and devices that stop
//! meanwhile.

use super::asking::Answer::{self, Created, Deleted, Published, Refused, Updated};
use super::asking::Asked::{self, Delete, Publish, Put};
use super::asking::{answer_of, ask, disk_of, made, named, opened, plain, told};
use rs_commit::open_slots;
use rs_disk::{Disk, MemoryDisk};
use rs_image::{Contents, load};
use rs_page::{Page, PageItem, PageRef};
use rs_record::{Change, Record};
use rs_store::Refusal::Device;
use rs_store::Source;
use rs_time::Moment;
use std::process::Abort;

/// The references to the pages of all lists of a source.
#[derive(Drop)]
struct Lists {
    catalogue: Vec<PageRef>,
    changes: Vec<PageRef>,
    published: Vec<PageRef>,
}

/// Puts a resource of no bytes under a name of this number, as `n007`.
fn put(rt: &(impl Abort + AllocGlobal), source: &mut Source<MemoryDisk>, number: u64) -> Answer {
    let text = format!(in rt.alloc(); "n{number:03}").expect(rt, "memory for a name");
    let name = named(rt, text.as_bytes());
    answer_of(&source.put(&name, &plain(rt), b"", Moment::first()))
}

/// Returns a disk of this size with a new source of `count` resources, put in ascending order of their names.
fn disk_with(rt: &(impl Abort + AllocGlobal), size: u64, count: u64) -> MemoryDisk {
    let mut source = made(rt, disk_of(rt, size));
    for number in 0..count {
        assert_eq!(rt; put(rt, &mut source, number), Created(number + 1));
    }
    source.into_disk()
}

/// Returns the contents of a disk's root.
fn contents_of(rt: &(impl Abort + AllocGlobal), disk: &mut MemoryDisk) -> Contents {
    let (_slots, root) = open_slots(disk).expect(rt, "a root");
    load(rt.alloc(), disk, &root).expect(rt, "lists").contents
}

/// Returns the references to the pages on a disk.
fn lists_of(rt: &(impl Abort + AllocGlobal), disk: &mut MemoryDisk) -> Lists {
    let contents = contents_of(rt, disk);
    let memory = "memory for references";
    Lists {
        catalogue: contents.catalogue.pages(rt.alloc()).expect(rt, memory),
        changes: contents.history.pages(rt.alloc()).expect(rt, memory),
        published: contents.published.pages(rt.alloc()).expect(rt, memory),
    }
}

/// Returns the numbers of items of these pages.
fn counts<T: PageItem>(
    rt: &(impl Abort + AllocGlobal),
    disk: &mut MemoryDisk,
    pages: &[PageRef],
) -> Vec<usize> {
    let mut counts = Vec::new(rt.alloc());
    for page in pages {
        let page: Page<T> = Page::load(rt.alloc(), disk, page).expect(rt, "a page");
        counts
            .push(page.items().len())
            .expect(rt, "memory for counts");
    }
    counts
}

/// Returns whether the new pages are among the old pages, page by page.
fn kept(rt: &(impl Abort + AllocGlobal), old: &[PageRef], new: &[PageRef]) -> Vec<bool> {
    let mut kept = Vec::new(rt.alloc());
    for page in new {
        kept.push(old.contains(page))
            .expect(rt, "memory for answers");
    }
    kept
}

/// Checks the numbers of items of the pages of a source of 130 resources, and returns the references to the pages.
fn are_cut(rt: &(impl Abort + AllocGlobal), disk: &mut MemoryDisk) -> Lists {
    let lists = lists_of(rt, disk);
    let records = counts::<Record>(rt, disk, &lists.catalogue);
    assert_eq!(rt; records.as_slice(), [32, 32, 32, 34].as_slice());
    let changes = counts::<Change>(rt, disk, &lists.changes);
    assert_eq!(rt; changes.as_slice(), [64, 64, 2].as_slice());
    assert!(rt; lists.published.is_empty());
    lists
}

/// Checks which pages stay where the last name is put again.
fn are_kept(rt: &(impl Abort + AllocGlobal), old: &Lists, new: &Lists) {
    let catalogue = kept(rt, &old.catalogue, &new.catalogue);
    assert_eq!(rt; catalogue.as_slice(), [true, true, true, false].as_slice());
    let changes = kept(rt, &old.changes, &new.changes);
    assert_eq!(rt; changes.as_slice(), [true, true, false].as_slice());
}

#[test]
fn a_put_writes_the_pages_that_it_touches(rt: HostRuntime) {
    let mut disk = disk_with(&rt, 65536, 130);
    let old = are_cut(&rt, &mut disk);
    let mut source = opened(&rt, disk);
    assert_eq!(rt; put(&rt, &mut source, 129), Updated(131));
    let mut disk = source.into_disk();
    are_kept(&rt, &old, &lists_of(&rt, &mut disk));
}

#[test]
fn a_publication_shares_the_pages_that_stay(rt: HostRuntime) {
    let mut source = opened(&rt, disk_with(&rt, 65536, 130));
    assert_eq!(rt; ask(&rt, &mut source, Publish), Published(1, 131));
    assert_eq!(rt; put(&rt, &mut source, 0), Updated(132));
    let mut disk = source.into_disk();
    let lists = lists_of(&rt, &mut disk);
    let shared = kept(&rt, &lists.catalogue, &lists.published);
    assert_eq!(rt; shared.as_slice(), [false, true, true, true].as_slice());
}

/// A command at moment 0.
struct Step {
    /// The command.
    asked: Asked,
    /// The answer without a stop.
    answer: Answer,
    /// The number of its device calls.
    calls: u64,
}

// Commands to a source of 64 resources, in one page.
const STEPS: [Step; 3] = [
    // It writes the body, the two pages that the catalogue's page is cut into, a new page of the changes and the
    // directory. The commit makes six calls.
    Step {
        asked: Put(b"n064", b"abc"),
        answer: Created(65),
        calls: 11,
    },
    // A page of either list and the directory.
    Step {
        asked: Delete(b"n000"),
        answer: Deleted(66),
        calls: 9,
    },
    // The directory, which names both pages of the catalogue twice.
    Step {
        asked: Publish,
        answer: Published(1, 67),
        calls: 7,
    },
];

/// Returns the number of device calls of an opening of these bytes.
fn calls_of_opening(rt: &(impl Abort + AllocGlobal), bytes: &[u8]) -> u64 {
    let disk = MemoryDisk::from_bytes(rt.alloc(), bytes).expect(rt, "memory for a disk");
    opened(rt, disk).into_disk().calls()
}

/// Returns the answer to a command to the source in these bytes, and the disk, which stops after this many calls.
fn stopped(
    rt: &(impl Abort + AllocGlobal),
    bytes: &[u8],
    asked: Asked,
    calls: u64,
) -> (Answer, MemoryDisk) {
    let mut disk = MemoryDisk::from_bytes(rt.alloc(), bytes).expect(rt, "memory for a disk");
    disk.stop_after(calls);
    let mut source = opened(rt, disk);
    let answer = ask(rt, &mut source, asked);
    (answer, source.into_disk())
}

/// Returns the content of the source in these bytes.
fn told_by(rt: &(impl Abort + AllocGlobal), bytes: &[u8]) -> String {
    let disk = MemoryDisk::from_bytes(rt.alloc(), bytes).expect(rt, "memory for a disk");
    let mut source = opened(rt, disk);
    told(rt, &mut source)
}

// The choices that make images.
const CHOICES: [&[u8]; 3] = [&[0], &[1], &[0, 1]];

/// Checks that all of these images of a disk hold one of two contents.
fn images_tell(rt: &(impl Abort + AllocGlobal), disk: &MemoryDisk, old: &str, new: &str) {
    for choice in &CHOICES {
        let image = disk.image(choice).expect(rt, "memory for an image");
        let text = told_by(rt, &image);
        assert!(rt;
            text.as_str() == old || text.as_str() == new,
            "{choice:?}: {text}"
        );
    }
}

/// Stops the device at every call of a command to the source in these bytes, and returns the bytes after the whole
/// command.
fn stop_everywhere(rt: &(impl Abort + AllocGlobal), bytes: &[u8], step: &Step) -> Vec<u8> {
    let opening = calls_of_opening(rt, bytes);
    let (answer, disk) = stopped(rt, bytes, step.asked, opening.saturating_add(step.calls));
    assert_eq!(rt; answer, step.answer);
    let whole = disk.image(&[]).expect(rt, "memory for an image");
    let (old, new) = (told_by(rt, bytes), told_by(rt, &whole));
    images_tell(rt, &disk, &new, &new);
    for k in 0..step.calls {
        let (answer, disk) = stopped(rt, bytes, step.asked, opening.saturating_add(k));
        assert_eq!(rt; answer, Refused(Device), "{:?} after {k} calls", step.asked);
        images_tell(rt, &disk, &old, &new);
    }
    whole
}

#[test]
fn a_command_on_many_pages_is_whole_or_absent(rt: HostRuntime) {
    let disk = disk_with(&rt, 32768, 64);
    let mut bytes = disk.image(&[]).expect(&rt, "memory for an image");
    for step in &STEPS {
        bytes = stop_everywhere(&rt, &bytes, step);
    }
}
