//! A change as bytes on the disk.

ghost use Rattle.std.specs.Prelude.{◌≡◌, ◌<◌, ◌≤◌, ◌+◌, ◌++◌, ◌↔◌, length, vec_len, vec_capacity, IfOk, OnOk, OnErr, IsErrOf, IfSome};
ghost use Rattle.rs_record.specs.declared.change.Change.{Change};
ghost use Rattle.rs_record.specs.Format.{change_bytes, what_byte as byte_of, BeginsWith};
ghost use Rattle.rs_record.specs.Lawful.{IsLawfulChange};
ghost use Rattle.rs_record.specs.Borrowed.{change_seen, AreLawfulTexts};
ghost use Rattle.rs_record.specs.Reading.{IsSeenAs, IsValueAt, change_at as change_read};

use crate::borrowed::ChangeFields;
use crate::fault::ValueFault;
use crate::fields::{append, facts_at, facts_size, name_at, u64_at};
use crate::{Change, What};
use rs_time::Moment;
use std::alloc::{AllocError, Global};

const CREATED: u8 = 1;

const UPDATED: u8 = 2;

const DELETED: u8 = 3;

/// Returns the number of bytes of the format of a change: 11 to 403.
pub fn change_size(change: &Change) -> usize
    ensures size { result ≡ length (change_bytes change.now) }
    ensures bound { result ≤ 403 }
{
    let facts = match &change.facts {
        Some(facts) => facts_size(&facts.kind, facts.digests),
        None => 0,
    };
    2 + change.name.bytes().len() + 8 + facts
}

/// Appends the format of a change.
///
/// # Errors
///
/// An error if the vector had no room and more memory was refused; its elements stay.
pub fn write_change(change: &Change, out: &mut Vec<u8>) -> Result<(), AllocError>
    ensures ok { OnOk result (out.new.items ≡ out.old.items ++ change_bytes change.now) }
    ensures err { OnErr result (out.new.items ≡ out.old.items) }
    ensures full { OnErr result (vec_capacity out.old
        < vec_len out.old + length (change_bytes change.now)) }

    // So it can be read back.
    ensures lawful { IsLawfulChange change.now }
{
    let size = change_size(change);
    let what = [what_byte(change.what)];
    let name = change.name.bytes();
    let name_length = [name.len() as u8];
    let moment = change.moment.ms().to_be_bytes();
    match &change.facts {
        None => append(size, &[&what, &name_length, name, &moment], out),
        Some(facts) => {
            let kind = facts.kind.bytes();
            let length = facts.length;
            let digests = facts.digests;
            let pieces: [&[u8]; 9] = [
                &what,
                &name_length,
                name,
                &moment,
                &[kind.len() as u8],
                kind,
                &length.to_be_bytes(),
                &digests.md5,
                &digests.sha256,
            ];
            append(size, &pieces, out)
        }
    }
}

/// Returns the change whose format the bytes begin with, and the number of bytes of the format. Other bytes may follow
/// it.
///
/// It asks for memory for the name and the media type alone, of the lengths that were read.
///
/// # Errors
///
/// `Malformed` exactly if the bytes begin with no format of a lawful change; `NoMemory` if the memory for the name or
/// the media type was refused.
pub fn read_change(alloc: Global, bytes: &[u8]) -> Result<(Change, usize), ValueFault>
    ensures found { IfOk result (λ read. IsLawfulChange read.0
        × BeginsWith bytes.now (change_bytes read.0)) }
    ensures size { IfOk result (λ read. read.1 ≡ length (change_bytes read.0)) }
    ensures only { (c : Change) → IsLawfulChange c → BeginsWith bytes.now (change_bytes c)
        → IfOk result (λ read. read.0 ≡ c) }
    ensures malformed { IsErrOf result ValueFault.Malformed
        ↔ ((c : Change) → IsLawfulChange c → ¬ BeginsWith bytes.now (change_bytes c)) }
{
    change_of(alloc, bytes)
}

/// Reads a change as `change_at` of `specs/Reading.antt` does.
fn change_of(alloc: Global, bytes: &[u8]) -> Result<(Change, usize), ValueFault>
    ensures { IsValueAt change_bytes result (change_read bytes.now) }
{
    let Some((fields, _)) = change_at(bytes) else {
        return Err(ValueFault::Malformed);
    };
    let change = fields.to_change(alloc).map_err(|_| ValueFault::NoMemory)?;
    let size = change_size(&change);
    Ok((change, size))
}

/// Returns a change, and the bytes after it.
#[tactic(auto, unfolding(crate::specs::Reading::change_at, crate::specs::Reading::moment_in, crate::specs::Reading::change_after, crate::specs::Reading::bound_at))]
fn change_at(bytes: &[u8]) -> Option<(ChangeFields<'_>, &[u8])>
    ensures read { IsSeenAs (λ x. (change_seen x.0, x.1.now)) result (change_read bytes.now) }
    ensures lawful { IfSome result (λ x. AreLawfulTexts x.0) }
{
    let (what, rest) = bytes.split_first()?;
    let (name, rest) = name_at(rest)?;
    let (ms, rest) = u64_at(rest)?;
    let moment = Moment::new(ms)?;
    match *what {
        DELETED => Some((ChangeFields::Deleted { name, moment }, rest)),
        CREATED | UPDATED => {
            let (facts, rest) = facts_at(rest)?;
            let again = *what == UPDATED;
            let fields = ChangeFields::Bound {
                name,
                again,
                moment,
                facts,
            };
            Some((fields, rest))
        }
        _ => None,
    }
}

/// Returns the byte of a kind of change.
fn what_byte(what: What) -> u8
    ensures { result ≡ byte_of what }
{
    match what {
        What::Created => CREATED,
        What::Updated => UPDATED,
        What::Deleted => DELETED,
    }
}
