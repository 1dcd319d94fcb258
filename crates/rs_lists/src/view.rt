//! The data of a source that its lists show.

ghost use Rattle.std.specs.Prelude.{◌≡◌, ◌<◌, ◌≤◌, length, slice_get, Some};
ghost use Rattle.rs_lists.specs.Shown.{Shown, IsShown, resource_parts_of, change_parts_of};

use crate::change_list::Changes;
use crate::listing::parts;
use crate::resource_list::Resources;
use rs_record::{Base, Change, Record};
use rs_time::Moment;

/// A source as its lists show it, wherever its records and changes are stored.
///
/// The texts of the lists are functions of the ghost member `shown` alone, which has the
/// published records and the kept changes as whole lists.
pub trait View {
    /// The data that the lists show.
    ghost shown: { Self → Shown };

    /// Returns the base of the source's URIs.
    fn base(&self) -> &Base
        ensures { result.now ≡ (shown self.now).base };

    /// Returns the greatest number of items in one document: 2 to 4,000.
    fn limit(&self) -> u16
        ensures value { result ≡ (shown self.now).limit }
        ensures bounds { IsShown (shown self.now) };

    /// Returns the moment of formatting.
    fn start(&self) -> Moment
        ensures { result ≡ (shown self.now).start };

    /// Returns the number of the latest publication, which is 0 at first.
    fn number(&self) -> u64
        ensures { result ≡ (shown self.now).number };

    /// Returns the moment of the latest publication.
    fn at(&self) -> Moment
        ensures { result ≡ (shown self.now).at };

    /// Returns the number of published records: at most 50,000.
    fn published_len(&self) -> usize
        ensures { result ≡ length (shown self.now).published };

    /// Returns the published record at a place, counted from 0, in the order of the list.
    fn published(&self, i: usize) -> &Record
        requires { i < length (shown self.now).published }
        ensures { slice_get (shown self.now).published i ≡ Some result.now };

    /// Returns the number of kept changes: at most 50,000.
    fn changes_len(&self) -> usize
        ensures { result ≡ length (shown self.now).changes };

    /// Returns the kept change at a place, counted from 0, earliest first.
    fn change(&self, i: usize) -> &Change
        requires { i < length (shown self.now).changes }
        ensures { slice_get (shown self.now).changes i ≡ Some result.now };

    /// Returns the number of the first kept part of the Change List: at most 253,402,300,799,999.
    fn first(&self) -> u64
        ensures { result ≡ (shown self.now).first };

    /// Returns the moment at which the kept changes begin: the moment of the last change before them, or of formatting.
    /// It is the `from` of the Change List and of its first part.
    fn begin(&self) -> Moment
        ensures { result ≡ (shown self.now).begin };
}

/// Returns the number of parts that the published records have, with at most [`View::limit`] records per part.
///
/// With at most one part the head document is the Resource List itself, else an index.
pub fn resource_parts<V: View>(view: &V) -> u64
    ensures { result ≡ resource_parts_of (V.shown view.now) }
{
    parts::<Resources, V>(view)
}

/// Returns the number of parts that the kept changes have, with at most [`View::limit`] changes per part.
///
/// With at most one part the head document is the Change List itself, else an index.
pub fn change_parts<V: View>(view: &V) -> u64
    ensures { result ≡ change_parts_of (V.shown view.now) }
{
    parts::<Changes, V>(view)
}
