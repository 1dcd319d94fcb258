//! The lists after a command.

ghost use Rattle.std.specs.Prelude.{◌≡◌, ◌≤◌, length, IfOk, MatchOption};
ghost use Rattle.rs_changes.specs.History.{changes_of, last_of};
ghost use Rattle.rs_image.specs.Whole.{AreMoments};
ghost use Rattle.rs_model.specs.declared.command.Item.TheVariants.{Delete};
ghost use Rattle.rs_plan.specs.Allowed.{MayChange, MayPut, MayDelete, MayPublish, changes_dropped, parts_dropped};
ghost use Rattle.rs_plan.specs.Published.{published_header, lists_after_publish};
ghost use Rattle.rs_plan.specs.Placed.{record_of_body};
ghost use Rattle.rs_plan.specs.Replies.{reply_of};
ghost use Rattle.rs_plan.specs.Turned.{no_body, lists_with, lists_after_item, lists_after_put};

use super::dropping::{begin_without, dropped_parts};
use rs_catalogue::Catalogue;
use rs_changes::History;
use rs_directory::Header;
use rs_extent::Extent;
use rs_fixity::Digests;
use rs_image::Contents;
use rs_model::Reply;
use rs_record::{Change, Facts, MediaType, Name, Record, What};
use rs_time::Moment;
use std::alloc::{AllocError, Global};

/// Returns the lists with the name bound, at a moment, to a body of this type, of `body_length`
/// bytes, with these digests, in this extent.
///
/// # Errors
///
/// [`AllocError`] where the memory is refused.
pub(crate) fn lists_after_put(
    alloc: Global,
    old: &Contents,
    name: &Name,
    kind: &MediaType,
    body_length: u32,
    digests: Digests,
    body: Extent,
    moment: Moment,
) -> Result<Contents, AllocError>
    requires moments { AreMoments old.now.header old.now }
    requires may { MayPut old.now name.now body_length moment }
    ensures { IfOk result (λ lists. lists ≡ lists_after_put old.now
        (record_of_body name.now kind.now body_length digests body moment)) }
{
    let record = Record {
        name: name.copy(alloc)?,
        kind: kind.copy(alloc)?,
        length: body_length,
        digests,
        moment,
        extent: body,
    };
    let facts = Facts {
        kind: kind.copy(alloc)?,
        length: body_length,
        digests,
    };
    let catalogue = old.catalogue.with(alloc, record)?;
    // The catalogue has grown where the name was not held.
    let again = catalogue.len() == old.catalogue.len();
    let change = Change::bound(name.copy(alloc)?, again, moment, facts);
    lists_with(alloc, old, catalogue, change)
}

/// Returns the reply to the command that made the last change.
pub(crate) fn reply_told(history: &History) -> Reply
    requires { 1 ≤ length (changes_of history.now.pages) }
    ensures { MatchOption (last_of (changes_of history.now.pages)) ⊥
        (λ change. result ≡ reply_of change) }
{
    let change = history.at(history.len() - 1);
    match change.what {
        What::Created => Reply::Created(change.moment),
        What::Updated => Reply::Updated(change.moment),
        What::Deleted => Reply::Deleted(change.moment),
    }
}

/// Returns the lists without a held name, at a moment.
///
/// # Errors
///
/// [`AllocError`] where the memory is refused.
pub(crate) fn lists_after_delete(
    alloc: Global,
    old: &Contents,
    name: &Name,
    moment: Moment,
) -> Result<Contents, AllocError>
    requires moments { AreMoments old.now.header old.now }
    requires may { MayDelete old.now name.now moment }
    ensures { IfOk result
        (λ lists. lists ≡ lists_after_item old.now (Delete name.now) moment no_body) }
{
    let change = Change::deleted(name.copy(alloc)?, moment);
    lists_with(alloc, old, old.catalogue.without(alloc, name)?, change)
}

/// Returns the lists with this catalogue, and with a change at the end of the history, at its
/// moment.
///
/// # Errors
///
/// [`AllocError`] where the memory is refused.
fn lists_with(
    alloc: Global,
    old: &Contents,
    catalogue: Catalogue,
    change: Change,
) -> Result<Contents, AllocError>
    requires moments { AreMoments old.now.header old.now }
    requires may { MayChange old.now «change».moment }
    ensures { IfOk result
        (λ lists. lists ≡ lists_with old.now catalogue «change» «change».moment) }
{
    let header = header_at(alloc, &old.header, change.moment)?;
    Ok(Contents {
        header,
        catalogue,
        history: old.history.with(alloc, change)?,
        published: old.published.copy(alloc)?,
    })
}

/// Returns the lists after a publication at a moment: all held resources are published, and the
/// parts of the changes that end no later than the publication before are dropped.
///
/// # Errors
///
/// [`AllocError`] where the memory is refused.
pub(crate) fn lists_after_publish(
    alloc: Global,
    old: &Contents,
    moment: Moment,
) -> Result<Contents, AllocError>
    requires may { MayPublish old.now moment }
    requires number { old.now.history.first ≡ old.now.header.first }
    ensures { IfOk result (λ lists. lists ≡ lists_after_publish old.now moment) }
{
    let dropped = dropped_parts(old);
    let limit = old.header.limit.items();
    Ok(Contents {
        header: published_header(alloc, old, dropped, moment)?,
        history: old.history.drop_parts(alloc, dropped, limit)?,
        catalogue: old.catalogue.copy(alloc)?,
        published: old.catalogue.copy(alloc)?,
    })
}

/// Returns the header after a publication at this moment that drops `dropped` parts.
///
/// # Errors
///
/// [`AllocError`] where the memory is refused.
fn published_header(
    alloc: Global,
    old: &Contents,
    dropped: u64,
    moment: Moment,
) -> Result<Header, AllocError>
    requires may { MayPublish old.now moment }
    requires number { old.now.history.first ≡ old.now.header.first }
    requires dropped { dropped ≡ parts_dropped old.now }
    requires full { changes_dropped old.now ≤ length (changes_of old.now.history.pages) }
    ensures { IfOk result (λ header. header ≡ published_header old.now moment) }
{
    let mut header = header_at(alloc, &old.header, moment)?;
    header.number += 1;
    header.at = moment;
    header.first += dropped;
    header.begin = begin_without(old, dropped);
    Ok(header)
}

/// Returns a copy of the lists.
///
/// # Errors
///
/// [`AllocError`] where the memory is refused.
pub(crate) fn lists_copied(alloc: Global, old: &Contents) -> Result<Contents, AllocError>
    ensures { IfOk result (λ lists. lists ≡ old.now) }
{
    Ok(Contents {
        header: header_at(alloc, &old.header, old.header.last)?,
        catalogue: old.catalogue.copy(alloc)?,
        history: old.history.copy(alloc)?,
        published: old.published.copy(alloc)?,
    })
}

/// Returns a copy of the header, with the last command at this moment.
///
/// # Errors
///
/// [`AllocError`] where the memory is refused.
fn header_at(alloc: Global, old: &Header, moment: Moment) -> Result<Header, AllocError>
    ensures { IfOk result (λ header. header ≡ record old.now { last = moment }) }
{
    Ok(Header {
        base: old.base.copy(alloc)?,
        limit: old.limit,
        start: old.start,
        last: moment,
        number: old.number,
        at: old.at,
        first: old.first,
        begin: old.begin,
    })
}
