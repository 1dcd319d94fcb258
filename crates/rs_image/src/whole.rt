//! Checking that a root and its lists keep the rules of an image.
ghost use Rattle.std.specs.Prelude.{◌≡◌, ◌≤◌, ◌↔◌, IsTrue, true, false, max, All, IfOk, IfSome, IfNone, MatchOption};
ghost use Rattle.rs_catalogue.specs.Catalogue.{records_of};
ghost use Rattle.rs_changes.specs.History.{changes_of, last_of};
ghost use Rattle.rs_image.specs.Whole.{HasFirstPart, IsWithin, IsSoundRecord, IsSoundChange, AreMoments, IsWhole};
ghost use Rattle.rs_image.specs.StateOfImage.{AreAllStored};
ghost use Rattle.rs_image.specs.Rooted.{AreUsed, rooted};

use crate::Contents;
use crate::used::{are_apart, reached};
use rs_body::is_sized;
use rs_catalogue::Catalogue;
use rs_changes::History;
use rs_commit::Root;
use rs_directory::Header;
use rs_extent::Used;
use rs_record::{Change, LONGEST_BODY, Record};
use rs_time::Moment;
use std::alloc::{AllocError, Global};

/// Returns the blocks of the slots and those that a root reaches. Returns `None` where the root and
/// its lists, which may hold anything, break a rule of an image of `size` bytes. The rules are: the
/// moments are in order, every record and every change is sound, the directory has exactly its
/// blocks, all extents that the root reaches lie on the disk after the slots, and no two of them
/// share a block, nor do two published pages.
///
/// All pages of the lists are on the disk, and the history has the header's first number.
///
/// # Errors
///
/// [`AllocError`] where the memory is refused.
pub(crate) fn whole_set(
    alloc: Global,
    size: u64,
    root: &Root,
    contents: &Contents,
) -> Result<Option<Used>, AllocError>
    requires room { 1024 ≤ size }
    requires stored { AreAllStored contents.now }
    requires number { contents.now.history.first ≡ contents.now.header.first }
    ensures whole { IfOk result
        (λ found. IfSome found (λ _. IsWhole size root.now contents.now)) }
    ensures used { IfOk result
        (λ found. IfSome found (AreUsed (rooted size root.now contents.now))) }
    ensures none { IfOk result (λ found. IfNone found (¬ IsWhole size root.now contents.now)) }
{
    let header = &contents.header;
    let is_sound = is_sized(root.directory, root.length)
        && are_moments(contents)
        && are_sound_records(header.start, header.last, &contents.catalogue)
        && are_sound_changes(header.begin, header.last, &contents.history)
        && are_sound_records(header.start, header.at, &contents.published);
    if !is_sound {
        return Ok(None);
    }
    let Some(used) = reached(alloc, size, root, contents)? else {
        return Ok(None);
    };
    let published = contents.published.pages(alloc)?;
    if are_apart(alloc, size, &published)? {
        Ok(Some(used))
    } else {
        Ok(None)
    }
}

/// Returns whether formatting, the begin of the history, the latest publication and the last
/// command are in order, the last command is the publication or the last change, and the first part
/// has a possible number.
fn are_moments(contents: &Contents) -> bool
    ensures yes { result ≡ true → AreMoments contents.now.header contents.now }
    ensures no { result ≡ false → ¬ AreMoments contents.now.header contents.now }
{
    let header = &contents.header;
    header.begin <= header.at
        && header.at <= header.last
        && header.last == latest(contents)
        && has_first_part(header)
}

/// Returns whether the kept history begins at formatting or later, no more parts were dropped than
/// moments lie between, and where no part was dropped, it begins at formatting.
pub(crate) fn has_first_part(header: &Header) -> bool
    ensures { IsTrue result ↔ HasFirstPart header.now }
{
    header.start <= header.begin
        && header.first <= header.begin.ms() - header.start.ms()
        && (header.first != 0 || header.begin == header.start)
}

/// Returns the later moment of the latest publication and of the last change, if there is one.
fn latest(contents: &Contents) -> Moment
    ensures { MatchOption (last_of (changes_of contents.now.history.pages))
        (result ≡ contents.now.header.at)
        (λ change. result ≡ max contents.now.header.at change.moment) }
{
    let at = contents.header.at;
    let changes = contents.history.len();
    if changes == 0 {
        at
    } else {
        at.max(contents.history.at(changes - 1).moment)
    }
}

/// Returns whether all records of a catalogue are sound.
fn are_sound_records(low: Moment, high: Moment, catalogue: &Catalogue) -> bool
    ensures yes { result ≡ true → All (IsSoundRecord low high) (records_of catalogue.now) }
    ensures no { result ≡ false → ¬ All (IsSoundRecord low high) (records_of catalogue.now) }
{
    for i in 0..catalogue.len() {
        if !is_sound_record(low, high, catalogue.at(i)) {
            return false;
        }
    }
    true
}

/// Returns whether all changes of a history are sound.
fn are_sound_changes(low: Moment, high: Moment, history: &History) -> bool
    ensures yes { result ≡ true → All (IsSoundChange low high) (changes_of history.now.pages) }
    ensures no { result ≡ false → ¬ All (IsSoundChange low high) (changes_of history.now.pages) }
{
    for i in 0..history.len() {
        if !is_sound_change(low, high, history.at(i)) {
            return false;
        }
    }
    true
}

/// Returns whether the moment of a record is within these, its body is not too long, and its extent
/// has the size of its body.
fn is_sound_record(low: Moment, high: Moment, item: &Record) -> bool
    ensures yes { result ≡ true → IsSoundRecord low high item.now }
    ensures no { result ≡ false → ¬ IsSoundRecord low high item.now }
{
    is_within(low, high, item.moment)
        && item.length <= LONGEST_BODY
        && is_sized(item.extent, item.length)
}

/// Returns whether the moment of a change is within these, and its body, if it has one, is not too
/// long.
fn is_sound_change(low: Moment, high: Moment, change: &Change) -> bool
    ensures yes { result ≡ true → IsSoundChange low high change.now }
    ensures no { result ≡ false → ¬ IsSoundChange low high change.now }
{
    let is_short = match &change.facts {
        Some(facts) => facts.length <= LONGEST_BODY,
        None => true,
    };
    is_short && is_within(low, high, change.moment)
}

/// Returns whether a moment is after the first one and at most the second one.
fn is_within(low: Moment, high: Moment, moment: Moment) -> bool
    ensures yes { result ≡ true → IsWithin low high moment }
    ensures no { result ≡ false → ¬ IsWithin low high moment }
{
    low < moment && moment <= high
}
