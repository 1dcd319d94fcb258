//! A list, an index or a part that exists.

ghost use Rattle.std.specs.Prelude.{◌≡◌, ◌-◌, if◌then◌else◌, Some, None, IfSome, OnOk, OnErr, length};
ghost use Rattle.std.specs.Option.{option_map};
ghost use Rattle.rs_io.specs.Watch.{EndFailed, FailedWithin, Wrote};
ghost use Rattle.rs_lists.specs.Lawful.{IsSmall};
ghost use Rattle.rs_lists.specs.Sections.{section_text, IsWithin};
ghost use Rattle.rs_lists.specs.Sinks.{Puts};
ghost use Rattle.rs_lists.specs.Text.{list_text, is_part};

use crate::change_list::Changes;
use crate::listing::{put_head, put_part};
use crate::meter::Meter;
use crate::resource_list::Resources;
use crate::sink::Sink;
use crate::{Doc, View, change_parts, resource_parts};
use rs_io::{Watched, WriteFault};
use std::io::Write;
use std::marker::Model;

/// A document as a section of its list. A part has its place here, counted from 0.
#[derive(Clone, Copy)]
enum Section {
    ResourceHead,
    ResourcePart(u64),
    ChangeHead,
    ChangePart(u64),
}

/// A list, an index or a part that exists. Contracts see its text.
///
/// It borrows the view, and makes the text only as it writes it.
#[derive(Drop)]
pub struct ListDocument<'a, V: View> {
    view: &'a V,
    section: Section,
}

impl<'a, V: View> Model for ListDocument<'a, V> {
    ghost use Rattle.std.specs.Prelude.{ℕ, List};
    ghost use Rattle.rs_lists.specs.Sections.{section_text, IsWithin};

    ghost Value = { List ℕ };

    ghost view = { λ document. section_text (V.shown document.view.now) document.section };

    ghost invariant = { λ document. IsWithin (V.shown document.view.now) document.section };
}

impl<'a, V: View> ListDocument<'a, V> {
    /// Returns the list, the index or the part, or `None` exactly if it does not exist.
    ///
    /// The Source Description and the Capability List are no lists: it returns `None` for them.
    pub fn of(view: &'a V, doc: Doc) -> Option<ListDocument<'a, V>>
        ensures { result ≡ list_text (V.shown view.now) doc }
    {
        let section = section_of(view, doc)?;
        Some(ListDocument { view, section })
    }

    /// Returns the number of bytes of its text.
    ///
    /// It makes no text and takes no memory: one pass over the lengths of the document's items.
    pub fn len(&self) -> u64
        ensures value { result ≡ length self.now }
        ensures small { IsSmall self.now }
    {
        let mut meter = Meter::new();
        // A meter never fails.
        let _ = self.put(&mut meter);
        meter.total()
    }

    /// Writes exactly its text, with its last line feed.
    ///
    /// Takes no memory. A part costs its own items only.
    ///
    /// # Errors
    ///
    /// [`WriteFault`] only if a call of the writer failed in this call; a beginning of the text is written then, and no
    /// other byte.
    pub fn write<W: Write>(&self, out: &mut Watched<W>) -> Result<(), WriteFault>
        ensures written { OnOk result (Wrote W.contents out.old out.new self.now) }
        ensures small { OnOk result (IsSmall self.now) }
        ensures fault { OnErr result (EndFailed out.old out.new) }
        ensures within { OnErr result (FailedWithin W.contents out.old out.new self.now) }
    {
        self.put(out)
    }

    /// Puts its text.
    fn put<S: Sink>(&self, sink: &mut S) -> Result<(), WriteFault>
        ensures puts { Puts S.takes S.fails sink.old sink.new result self.now }
        ensures small { OnOk result (IsSmall self.now) }
    {
        match self.section {
            Section::ResourceHead => put_head::<Resources, V, S>(self.view, sink),
            Section::ResourcePart(place) => put_part::<Resources, V, S>(self.view, place, sink),
            Section::ChangeHead => put_head::<Changes, V, S>(self.view, sink),
            Section::ChangePart(place) => put_part::<Changes, V, S>(self.view, place, sink),
        }
    }
}

/// Returns the document as a section of its list, if it exists.
fn section_of<V: View>(view: &V, doc: Doc) -> Option<Section>
    ensures text { option_map (section_text (V.shown view.now)) result
        ≡ list_text (V.shown view.now) doc }
    ensures within { IfSome result (IsWithin (V.shown view.now)) }
{
    match doc {
        Doc::ResourceHead => Some(Section::ResourceHead),
        Doc::ResourcePart { publication, part } => {
            if publication != view.number() {
                return None;
            }
            let place = place_of(resource_parts(view), 0, part)?;
            Some(Section::ResourcePart(place))
        }
        Doc::ChangeHead => Some(Section::ChangeHead),
        Doc::ChangePart { part } => {
            let place = place_of(change_parts(view), view.first(), part)?;
            Some(Section::ChangePart(place))
        }
        Doc::Description | Doc::Capabilities => None,
    }
}

/// Returns the place of the part of this number, if there are at least two parts, numbered from `first` on, and one of
/// them has this number.
fn place_of(parts: u64, first: u64, number: u64) -> Option<u64>
    ensures { result ≡ (if is_part parts first number then Some (number - first) else None) }
{
    if parts > 1 && first <= number && number - first < parts {
        Some(number - first)
    } else {
        None
    }
}
