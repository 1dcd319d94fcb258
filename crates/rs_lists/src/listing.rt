//! The common form of the Resource List and the Change List: a list in one document, an index of
//! its parts, and a part.

ghost use Rattle.std.specs.Prelude.{◌≡◌, ◌-◌, ◌*◌, ◌<◌, ◌≤◌, OnOk, length};
ghost use Rattle.rs_record.specs.Limits.{most_items};
ghost use Rattle.rs_lists.specs.Lawful.{IsSmall};
ghost use Rattle.rs_lists.specs.Listed.{Listed, item_at, parts_in, item_lines, entries, whole_text, index_text, head_text, part_text};
ghost use Rattle.rs_lists.specs.Shown.{IsShown};
ghost use Rattle.rs_lists.specs.Sinks.{Puts};
ghost use Rattle.rs_lists.specs.Text.{line, joined};

use crate::View;
use crate::frame::{RootElement, put_closing, put_opening, put_part_opening};
use crate::sink::Sink;
use rs_io::WriteFault;

/// The differences between the Resource List and the Change List.
pub trait Listing {
    /// The texts of the list, as functions of the data that a view shows.
    ghost list: { Listed };

    /// Returns the path of its head, below the base.
    fn path() -> &'static [u8]
        ensures value { result.now ≡ list.path }
        ensures small { length list.path ≤ 18 };

    /// Returns the number of its items: at most 50,000.
    fn len<V: View>(view: &V) -> usize
        ensures value { result ≡ length (list.items (V.shown view.now)) }
        ensures few { IsShown (V.shown view.now) → result ≤ most_items };

    /// Puts the moments that bound the whole list.
    fn put_bounds<V: View, S: Sink>(view: &V, sink: &mut S) -> Result<(), WriteFault>
        ensures puts { Puts S.takes S.fails sink.old sink.new result
            (line (list.bounds (V.shown view.now))) }
        ensures small { length (line (list.bounds (V.shown view.now))) ≤ 160 };

    /// Puts the moments that bound a part, counted from 0.
    fn put_part_bounds<V: View, S: Sink>(
        view: &V,
        part: u64,
        sink: &mut S,
    ) -> Result<(), WriteFault>
        requires { part < parts_in list (V.shown view.now) }
        ensures puts { Puts S.takes S.fails sink.old sink.new result
            (line (list.part_bounds (V.shown view.now) part)) }
        ensures small { length (line (list.part_bounds (V.shown view.now) part)) ≤ 160 };

    /// Puts the line of an item, counted from 0.
    fn put_item<V: View, S: Sink>(view: &V, i: usize, sink: &mut S) -> Result<(), WriteFault>
        requires { i < length (list.items (V.shown view.now)) }
        ensures puts { Puts S.takes S.fails sink.old sink.new result
            (line (item_at list (V.shown view.now) i)) }
        ensures small { length (line (item_at list (V.shown view.now) i)) ≤ 2450 };

    /// Puts the line of a part in the index.
    fn put_entry<V: View, S: Sink>(view: &V, part: u64, sink: &mut S) -> Result<(), WriteFault>
        requires shown { IsShown (V.shown view.now) }
        requires within { part < parts_in list (V.shown view.now) }
        ensures puts { Puts S.takes S.fails sink.old sink.new result
            (line (list.entry (V.shown view.now) part)) }
        ensures small { length (line (list.entry (V.shown view.now) part)) ≤ 276 };
}

/// Returns the number of parts of a list, with at most [`View::limit`] items per part.
pub fn parts<L: Listing, V: View>(view: &V) -> u64
    ensures value { result ≡ parts_in L.list (V.shown view.now) }
    ensures few { result ≤ 25000 }
    ensures shown { IsShown (V.shown view.now) }
{
    let limit = view.limit() as u64;
    (L::len(view) as u64 + limit - 1) / limit
}

/// Puts the head of a list: the whole list if it has at most one part, else the index of its parts.
pub fn put_head<L: Listing, V: View, S: Sink>(view: &V, sink: &mut S) -> Result<(), WriteFault>
    ensures puts { Puts S.takes S.fails sink.old sink.new result
        (head_text L.list (V.shown view.now)) }
    ensures small { OnOk result (IsSmall (head_text L.list (V.shown view.now))) }
{
    if parts::<L, V>(view) <= 1 {
        put_whole::<L, V, S>(view, sink)
    } else {
        put_index::<L, V, S>(view, sink)
    }
}

/// Puts all items in one document.
fn put_whole<L: Listing, V: View, S: Sink>(view: &V, sink: &mut S) -> Result<(), WriteFault>
    requires { length (L.list.items (V.shown view.now)) ≤ 4000 }
    ensures puts { Puts S.takes S.fails sink.old sink.new result
        (whole_text L.list (V.shown view.now)) }
    ensures small { OnOk result (IsSmall (whole_text L.list (V.shown view.now))) }
{
    put_opening(RootElement::UrlSet, view.base(), sink)?;
    L::put_bounds(view, sink)?;
    put_items::<L, V, S>(view, 0, L::len(view), sink)?;
    put_closing(RootElement::UrlSet, sink)
}

/// Puts the index of the parts.
fn put_index<L: Listing, V: View, S: Sink>(view: &V, sink: &mut S) -> Result<(), WriteFault>
    requires { parts_in L.list (V.shown view.now) ≤ 25000 }
    ensures puts { Puts S.takes S.fails sink.old sink.new result
        (index_text L.list (V.shown view.now)) }
    ensures small { OnOk result (IsSmall (index_text L.list (V.shown view.now))) }
{
    put_opening(RootElement::SitemapIndex, view.base(), sink)?;
    L::put_bounds(view, sink)?;
    put_entries::<L, V, S>(view, sink)?;
    put_closing(RootElement::SitemapIndex, sink)
}

/// Puts a part, counted from 0. It is not empty.
pub fn put_part<L: Listing, V: View, S: Sink>(
    view: &V,
    part: u64,
    sink: &mut S,
) -> Result<(), WriteFault>
    requires { part < parts_in L.list (V.shown view.now) }
    ensures puts { Puts S.takes S.fails sink.old sink.new result
        (part_text L.list (V.shown view.now) part) }
    ensures small { OnOk result (IsSmall (part_text L.list (V.shown view.now) part)) }
{
    let limit = view.limit() as usize;
    let len = L::len(view);
    let from = part as usize * limit;
    let to = len.min(from + limit);
    put_part_opening(view.base(), L::path(), sink)?;
    L::put_part_bounds(view, part, sink)?;
    put_items::<L, V, S>(view, from, to, sink)?;
    put_closing(RootElement::UrlSet, sink)
}

/// Puts the items from one place up to another.
fn put_items<L: Listing, V: View, S: Sink>(
    view: &V,
    from: usize,
    to: usize,
    sink: &mut S,
) -> Result<(), WriteFault>
    requires order { from ≤ to }
    requires within { to ≤ length (L.list.items (V.shown view.now)) }
    ensures puts { Puts S.takes S.fails sink.old sink.new result
        (item_lines L.list (V.shown view.now) from to) }
    ensures small { OnOk result
        (length (item_lines L.list (V.shown view.now) from to) ≤ 2450 * (to - from)) }
{
    for i in from..to {
        L::put_item(view, i, sink)?;
    }
    Ok(())
}

/// Puts the lines of the parts in their order.
fn put_entries<L: Listing, V: View, S: Sink>(view: &V, sink: &mut S) -> Result<(), WriteFault>
    ensures puts { Puts S.takes S.fails sink.old sink.new result
        (joined (entries L.list (V.shown view.now))) }
    ensures small { OnOk result
        (length (joined (entries L.list (V.shown view.now)))
        ≤ 276 * parts_in L.list (V.shown view.now)) }
{
    for part in 0..parts::<L, V>(view) {
        L::put_entry(view, part, sink)?;
    }
    Ok(())
}
