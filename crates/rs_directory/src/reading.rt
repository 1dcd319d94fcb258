//! Reading a directory.

ghost use Rattle.std.specs.Prelude.{◌≡◌, ◌<◌, ◌+◌, ◌*◌, ◌++◌, ◌↔◌, ℕ, List, length, flat_map, All, false, IsTrue, IfOk, OnOk, IsErrOf};
ghost use Rattle.rs_directory.specs.Directory.{ref_bytes, IsDirectory, IsNoDirectory, IsLawfulRef};
ghost use Rattle.rs_record.specs.Base.{is_base};
ghost use Rattle.rs_directory.specs.Reading.{header_seen, pages_of, AreListsOf};

use crate::format::ENTRY_SIZE;
use crate::named::entry_at;
use crate::parts::{HeaderFields, PageCounts, entries_at, header_at};
use crate::{Directory, Header};
use rs_page::PageRef;
use rs_record::{Base, ValueFault};
use std::alloc::{AllocError, Global};

/// Reads the directory that these bytes are in this version of the format. Version 1 has no `first` and no `begin`:
/// they are 0 and the start. Every other version is read as version 2.
///
/// It compares the numbers of entries with the number of bytes before it asks for memory, so it asks
/// for memory for no more entries than the bytes have.
///
/// # Errors
///
/// - [`ValueFault::Malformed`] exactly if the bytes are no lawful directory.
/// - [`ValueFault::NoMemory`] if the memory for the base or the entries is refused.
pub fn read_directory(alloc: Global, version: u8, bytes: &[u8]) -> Result<Directory, ValueFault>
    ensures found { IfOk result (λ d. IsDirectory version bytes.now
        d.header d.catalogue.items d.changes.items d.published.items) }
    ensures malformed { IsErrOf result ValueFault.Malformed ↔ IsNoDirectory version bytes.now }
{
    let Some((fields, rest)) = header_at(version, bytes) else {
        return Err(ValueFault::Malformed);
    };
    let Some((counts, entries)) = entries_at(rest) else {
        return Err(ValueFault::Malformed);
    };
    let header = header_of(alloc, fields)?;
    let Ok((catalogue, changes, published)) = lists_of(alloc, counts, entries) else {
        return Err(ValueFault::NoMemory);
    };
    Ok(Directory {
        header,
        catalogue,
        changes,
        published,
    })
}

/// Returns the header in memory of its own. It is `Malformed` if its base is not lawful.
fn header_of(alloc: Global, fields: HeaderFields<'_>) -> Result<Header, ValueFault>
    ensures value { IfOk result (λ header. header ≡ header_seen fields.entry) }
    ensures lawful { OnOk result (IsTrue (is_base fields.entry.base.now)) }
    ensures malformed { IsErrOf result ValueFault.Malformed
        ↔ (is_base fields.entry.base.now ≡ false) }
{
    Ok(Header {
        base: Base::new(alloc, fields.base)?,
        limit: fields.limit,
        start: fields.start,
        last: fields.last,
        number: fields.number,
        at: fields.at,
        first: fields.first,
        begin: fields.begin,
    })
}

/// Reads the entries of every kind. The bytes have exactly as many as the counts say.
fn lists_of(
    alloc: Global,
    counts: PageCounts,
    entries: &[u8],
) -> Result<(Vec<PageRef>, Vec<PageRef>, Vec<PageRef>), AllocError>
    requires { length entries.now ≡ 44 * pages_of counts }
    ensures { IfOk result (λ lists. AreListsOf counts entries.now
        lists.0.items lists.1.items lists.2.items) }
{
    let (catalogue, rest) = entries.split_at(ENTRY_SIZE * counts.catalogue as usize);
    let (changes, published) = rest.split_at(ENTRY_SIZE * counts.changes as usize);
    Ok((
        refs_of(alloc, catalogue)?,
        refs_of(alloc, changes)?,
        refs_of(alloc, published)?,
    ))
}

/// Returns all the entries that the bytes begin with. Fewer bytes than an entry has may follow.
fn refs_of(alloc: Global, bytes: &[u8]) -> Result<Vec<PageRef>, AllocError>
    ensures lawful { IfOk result (λ refs. All IsLawfulRef refs.items) }
    ensures found { IfOk result (λ refs. (rest : List ℕ)
        × (bytes.now ≡ flat_map ref_bytes refs.items ++ rest) × (length rest < 44)) }
{
    let mut refs = Vec::with_capacity(alloc, bytes.len() / ENTRY_SIZE)?;
    let mut rest = bytes;
    while let Some((entry, after)) = entry_at(rest) {
        refs.push(entry)?;
        rest = after;
    }
    Ok(refs)
}
