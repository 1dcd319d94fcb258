//! Writing a directory as bytes.

ghost use Rattle.std.specs.Prelude.{◌≡◌, ◌≤◌, ◌+◌, ◌*◌, ◌++◌, vec_len, vec_capacity, length, flat_map, All, IfOk};
ghost use Rattle.rs_record.specs.Limits.{most_items};
ghost use Rattle.rs_directory.specs.Directory.{header_bytes, ref_bytes, count_bytes, directory_length, written_format, IsDirectory, IsLawfulHeader, IsLawfulRef};

use crate::Header;
use rs_page::PageRef;
use std::alloc::{AllocError, Global};

/// The size of a page's entry in bytes.
pub(crate) const ENTRY_SIZE: usize = 44;

/// Returns the size in bytes of a directory with this header and this number of entries, as it is written: at most 191,
/// and 44 per entry.
pub fn directory_size(header: &Header, entries: usize) -> u32
    requires { entries ≤ 3 * most_items }
    ensures size { result ≡ directory_length header.now entries }
    ensures bound { result ≤ 191 + 44 * entries }
{
    (63 + header.base.bytes().len() + ENTRY_SIZE * entries) as u32
}

/// Returns the bytes of a directory in version 2, the version that is written: its header, the numbers of entries by
/// kind, and the entries. A kind has at most [`MOST_ITEMS`](rs_record::MOST_ITEMS) entries.
///
/// It asks for memory once, for exactly the bytes of the directory.
///
/// # Errors
///
/// [`AllocError`] if the memory is refused.
pub fn directory_bytes(
    alloc: Global,
    header: &Header,
    catalogue: &[PageRef],
    changes: &[PageRef],
    published: &[PageRef],
) -> Result<Vec<u8>, AllocError>
    requires catalogue { length catalogue.now ≤ most_items }
    requires changes { length changes.now ≤ most_items }
    requires published { length published.now ≤ most_items }
    ensures bytes { IfOk result (λ out. IsDirectory written_format out.items
        header.now catalogue.now changes.now published.now) }
    ensures size { IfOk result (λ out. vec_len out ≡ directory_length header.now
        (length catalogue.now + length changes.now + length published.now)) }
{
    let entries = catalogue.len() + changes.len() + published.len();
    let mut out = Vec::with_capacity(alloc, directory_size(header, entries) as usize)?;
    append_header(header, &mut out);
    append_count(catalogue, &mut out);
    append_count(changes, &mut out);
    append_count(published, &mut out);
    append_refs(catalogue, &mut out);
    append_refs(changes, &mut out);
    append_refs(published, &mut out);
    Ok(out)
}

/// Appends a header. The vector has room for it.
fn append_header(header: &Header, out: &mut Vec<u8>)
    requires { vec_len out.old + 51 + length header.now.base ≤ vec_capacity out.old }
    ensures items { out.new.items ≡ out.old.items ++ header_bytes written_format header.now }
    ensures len { vec_len out.new ≡ vec_len out.old + 51 + length header.now.base }
    ensures capacity { vec_capacity out.old ≤ vec_capacity out.new }
    ensures lawful { IsLawfulHeader written_format header.now }
{
    let base = header.base.bytes();
    append(&header.limit.items().to_be_bytes(), out);
    append(&[base.len() as u8], out);
    append(base, out);
    append(&header.start.ms().to_be_bytes(), out);
    append(&header.last.ms().to_be_bytes(), out);
    append(&header.number.to_be_bytes(), out);
    append(&header.at.ms().to_be_bytes(), out);
    append(&header.first.to_be_bytes(), out);
    append(&header.begin.ms().to_be_bytes(), out);
}

/// Appends the number of entries. The vector has room for it.
fn append_count(refs: &[PageRef], out: &mut Vec<u8>)
    requires most { length refs.now ≤ most_items }
    requires room { vec_len out.old + 4 ≤ vec_capacity out.old }
    ensures items { out.new.items ≡ out.old.items ++ count_bytes refs.now }
    ensures len { vec_len out.new ≡ vec_len out.old + 4 }
    ensures capacity { vec_capacity out.old ≤ vec_capacity out.new }
{
    append(&(refs.len() as u32).to_be_bytes(), out);
}

/// Appends the entries. The vector has room for them.
fn append_refs(refs: &[PageRef], out: &mut Vec<u8>)
    requires { vec_len out.old + 44 * length refs.now ≤ vec_capacity out.old }
    ensures items { out.new.items ≡ out.old.items ++ flat_map ref_bytes refs.now }
    ensures len { vec_len out.new ≡ vec_len out.old + 44 * length refs.now }
    ensures capacity { vec_capacity out.old ≤ vec_capacity out.new }
    ensures lawful { All IsLawfulRef refs.now }
{
    for entry in refs {
        append_ref(entry, out);
    }
}

/// Appends an entry. The vector has room for it.
fn append_ref(entry: &PageRef, out: &mut Vec<u8>)
    requires { vec_len out.old + 44 ≤ vec_capacity out.old }
    ensures items { out.new.items ≡ out.old.items ++ ref_bytes entry.now }
    ensures len { vec_len out.new ≡ vec_len out.old + 44 }
    ensures capacity { vec_capacity out.old ≤ vec_capacity out.new }
    ensures lawful { IsLawfulRef entry.now }
{
    append(&entry.extent.first.to_be_bytes(), out);
    append(&entry.extent.blocks.to_be_bytes(), out);
    append(&entry.length.to_be_bytes(), out);
    append(&entry.sha256, out);
}

/// Appends bytes. The vector has room for them, so no memory is asked for.
fn append(bytes: &[u8], out: &mut Vec<u8>)
    requires room { vec_len out.old + length bytes.now ≤ vec_capacity out.old }
    ensures items { out.new.items ≡ out.old.items ++ bytes.now }
    ensures len { vec_len out.new ≡ vec_len out.old + length bytes.now }
    ensures capacity { vec_capacity out.old ≤ vec_capacity out.new }
{
    out.extend_from_slice(bytes).unwrap();
}
