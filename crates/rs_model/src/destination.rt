//! The mirror of a destination that follows a source.

ghost use Rattle.std.specs.Prelude.{◌≡◌, IfOk, OnOk};
ghost use Rattle.rs_model.specs.Step.{mirror_of, mirror_step};

use crate::Entry;
use crate::names::{bind_at, place_of};
use rs_record::{Change, Duplicate, Facts, Name, duplicate_all};
use rs_time::Moment;
use std::alloc::{AllocError, Global};

/// Returns the mirror of a destination that took over the list `listed` of the moment `at` and followed the changes.
/// Every change after that moment, in order, binds its name to its facts and moment, or unbinds it where it was
/// deleted.
///
/// Changes at or before `at` are skipped. Every change scans the map.
pub fn mirror(
    alloc: Global,
    listed: &[(Name, Entry)],
    at: Moment,
    changes: &[Change],
) -> Result<Vec<(Name, Entry)>, AllocError>
    ensures { IfOk result (λ mirrored. mirrored.items ≡ mirror_of listed.now at changes.now) }
{
    let mut mirrored = duplicate_all(alloc, listed)?;
    for change in changes {
        follow(alloc, &mut mirrored, at, change)?;
    }
    Ok(mirrored)
}

/// Follows a change that is after the moment of the list, and skips any other.
fn follow(
    alloc: Global,
    mirrored: &mut Vec<(Name, Entry)>,
    at: Moment,
    change: &Change,
) -> Result<(), AllocError>
    ensures { OnOk result (mirrored.new.items ≡ mirror_step at change.now mirrored.old.items) }
{
    if change.moment.ms() <= at.ms() {
        return Ok(());
    }
    let place = place_of(mirrored.as_slice(), &change.name);
    match &change.facts {
        Some(facts) => {
            let entry = Entry {
                facts: facts.copy(alloc)?,
                moment: change.moment,
            };
            bind_at(mirrored, place, change.name.copy(alloc)?, entry)
        }
        None => {
            if let Ok(i) = place {
                let _entry = mirrored.remove(i);
            }
            Ok(())
        }
    }
}
