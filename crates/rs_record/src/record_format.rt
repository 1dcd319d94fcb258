//! A record as bytes on the disk.

ghost use Rattle.std.specs.Prelude.{◌≡◌, ◌<◌, ◌≤◌, ◌+◌, ◌++◌, ◌↔◌, length, vec_len, vec_capacity, IfOk, OnOk, OnErr, IsErrOf, IfSome, IsTrue};
ghost use Rattle.rs_record.specs.declared.record.Record.{Record};
ghost use Rattle.rs_record.specs.Name.{is_name};
ghost use Rattle.rs_record.specs.MediaType.{is_media_type};
ghost use Rattle.rs_record.specs.Format.{record_bytes, BeginsWith};
ghost use Rattle.rs_record.specs.Lawful.{IsLawfulRecord};
ghost use Rattle.rs_record.specs.Borrowed.{record_seen};
ghost use Rattle.rs_record.specs.Reading.{IsSeenAs, IsValueAt, record_at as record_read};

use crate::Record;
use crate::borrowed::RecordFields;
use crate::fault::ValueFault;
use crate::fields::{append, facts_at, facts_size, name_at, u32_at, u64_at};
use rs_extent::Extent;
use rs_time::Moment;
use std::alloc::{AllocError, Global};

/// Returns the number of bytes of the format of a record: 74 to 410.
pub fn record_size(record: &Record) -> usize
    ensures size { result ≡ length (record_bytes «record».now) }
    ensures bound { result ≤ 410 }
{
    1 + record.name.bytes().len() + facts_size(&record.kind, record.digests) + 16
}

/// Appends the format of a record.
///
/// # Errors
///
/// An error if the vector had no room and more memory was refused; its elements stay.
pub fn write_record(record: &Record, out: &mut Vec<u8>) -> Result<(), AllocError>
    ensures ok { OnOk result (out.new.items ≡ out.old.items ++ record_bytes «record».now) }
    ensures err { OnErr result (out.new.items ≡ out.old.items) }
    ensures full { OnErr result (vec_capacity out.old
        < vec_len out.old + length (record_bytes «record».now)) }

    // So it can be read back.
    ensures lawful { IsLawfulRecord «record».now }
{
    let name = record.name.bytes();
    let kind = record.kind.bytes();
    let length = record.length;
    let digests = record.digests;
    let Extent { first, blocks } = record.extent;
    let pieces: [&[u8]; 10] = [
        &[name.len() as u8],
        name,
        &[kind.len() as u8],
        kind,
        &length.to_be_bytes(),
        &digests.md5,
        &digests.sha256,
        &record.moment.ms().to_be_bytes(),
        &first.to_be_bytes(),
        &blocks.to_be_bytes(),
    ];
    append(record_size(record), &pieces, out)
}

/// Returns the record whose format the bytes begin with, and the number of bytes of the format. Other bytes may follow
/// it.
///
/// It asks for memory for the name and the media type alone, of the lengths that were read.
///
/// # Errors
///
/// `Malformed` exactly if the bytes begin with no format of a lawful record; `NoMemory` if the memory for the name or
/// the media type was refused.
pub fn read_record(alloc: Global, bytes: &[u8]) -> Result<(Record, usize), ValueFault>
    ensures found { IfOk result (λ read. IsLawfulRecord read.0
        × BeginsWith bytes.now (record_bytes read.0)) }
    ensures size { IfOk result (λ read. read.1 ≡ length (record_bytes read.0)) }
    ensures only { (r : Record) → IsLawfulRecord r → BeginsWith bytes.now (record_bytes r)
        → IfOk result (λ read. read.0 ≡ r) }
    ensures malformed { IsErrOf result ValueFault.Malformed
        ↔ ((r : Record) → IsLawfulRecord r → ¬ BeginsWith bytes.now (record_bytes r)) }
{
    record_of(alloc, bytes)
}

/// Reads a record as `record_at` of `specs/Reading.antt` does.
fn record_of(alloc: Global, bytes: &[u8]) -> Result<(Record, usize), ValueFault>
    ensures { IsValueAt record_bytes result (record_read bytes.now) }
{
    let Some((fields, _)) = record_at(bytes) else {
        return Err(ValueFault::Malformed);
    };
    let record = fields.to_record(alloc).map_err(|_| ValueFault::NoMemory)?;
    let size = record_size(&record);
    Ok((record, size))
}

/// Returns a record, and the bytes after it.
#[tactic(auto, unfolding(crate::specs::Reading::record_at, crate::specs::Reading::moment_in))]
fn record_at(bytes: &[u8]) -> Option<(RecordFields<'_>, &[u8])>
    ensures read { IsSeenAs (λ x. (record_seen x.0, x.1.now)) result (record_read bytes.now) }
    ensures name { IfSome result (λ x. IsTrue (is_name x.0.name.now)) }
    ensures kind { IfSome result (λ x. IsTrue (is_media_type x.0.facts.kind.now)) }
{
    let (name, rest) = name_at(bytes)?;
    let (facts, rest) = facts_at(rest)?;
    let (ms, rest) = u64_at(rest)?;
    let moment = Moment::new(ms)?;
    let (first, rest) = u32_at(rest)?;
    let (blocks, rest) = u32_at(rest)?;
    let fields = RecordFields {
        name,
        facts,
        moment,
        extent: Extent { first, blocks },
    };
    Some((fields, rest))
}
