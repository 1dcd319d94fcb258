//! Reading the parts of a directory from the front of bytes.

ghost use Rattle.rs_record.specs.Reading.{IsSeenAs};
ghost use Rattle.rs_directory.specs.Reading.{header_at as header_read, history_at as history_read, counts_at as counts_read, entries_at as entries_read, header_seen};

use crate::Limit;
use crate::format::ENTRY_SIZE;
use rs_record::fields::{counted_at, u16_at, u32_at, u64_at};
use rs_time::Moment;

/// A header that was read. Its base may not be lawful.
#[derive(Clone, Copy)]
pub struct HeaderFields<'a> {
    pub base: &'a [u8],
    pub limit: Limit,
    pub start: Moment,
    pub last: Moment,
    pub number: u64,
    pub at: Moment,
    pub first: u64,
    pub begin: Moment,
}

/// The numbers of pages by kind.
#[derive(Clone, Copy)]
pub struct PageCounts {
    pub catalogue: u32,
    pub changes: u32,
    pub published: u32,
}

/// Returns a header of this version, and the bytes after it.
#[tactic(auto, unfolding(crate::specs::Reading::header_at, crate::specs::Reading::limit_at, rs_record::specs::Reading::moment_in))]
pub fn header_at(version: u8, bytes: &[u8]) -> Option<(HeaderFields<'_>, &[u8])>
    ensures { IsSeenAs (λ x. (header_seen x.0, x.1.now)) result (header_read version bytes.now) }
{
    let (items, rest) = u16_at(bytes)?;
    let limit = Limit::new(items)?;
    let (base, rest) = counted_at(rest)?;
    let (ms, rest) = u64_at(rest)?;
    let start = Moment::new(ms)?;
    let (ms, rest) = u64_at(rest)?;
    let last = Moment::new(ms)?;
    let (number, rest) = u64_at(rest)?;
    let (ms, rest) = u64_at(rest)?;
    let at = Moment::new(ms)?;
    let Some(((first, begin), rest)) = history_at(version, start, rest) else {
        return None;
    };
    let header = HeaderFields {
        base,
        limit,
        start,
        last,
        number,
        at,
        first,
        begin,
    };
    Some((header, rest))
}

/// Returns the first kept part and the begin of the history, and the bytes after them. Version 1 has neither: they are
/// 0 and the start.
#[tactic(auto, unfolding(crate::specs::Reading::history_at, rs_record::specs::Reading::moment_in))]
fn history_at(version: u8, start: Moment, bytes: &[u8]) -> Option<((u64, Moment), &[u8])>
    ensures { IsSeenAs (λ x. (x.0, x.1.now)) result (history_read version start bytes.now) }
{
    if version == 1 {
        return Some(((0, start), bytes));
    }
    let (first, rest) = u64_at(bytes)?;
    let (ms, rest) = u64_at(rest)?;
    let begin = Moment::new(ms)?;
    Some(((first, begin), rest))
}

/// Returns the numbers of pages, and the bytes after them.
#[tactic(auto, unfolding(crate::specs::Reading::counts_at))]
fn counts_at(bytes: &[u8]) -> Option<(PageCounts, &[u8])>
    ensures { IsSeenAs (λ x. (x.0, x.1.now)) result (counts_read bytes.now) }
{
    let (catalogue, rest) = u32_at(bytes)?;
    let (changes, rest) = u32_at(rest)?;
    let (published, rest) = u32_at(rest)?;
    let counts = PageCounts {
        catalogue,
        changes,
        published,
    };
    Some((counts, rest))
}

/// Returns the numbers of pages, and the bytes of exactly that many entries.
#[tactic(auto, unfolding(crate::specs::Reading::entries_at))]
pub fn entries_at(bytes: &[u8]) -> Option<(PageCounts, &[u8])>
    ensures { IsSeenAs (λ x. (x.0, x.1.now)) result (entries_read bytes.now) }
{
    let (counts, entries) = counts_at(bytes)?;
    let pages = counts.catalogue as usize + counts.changes as usize + counts.published as usize;
    if entries.len() != ENTRY_SIZE * pages {
        return None;
    }
    Some((counts, entries))
}
