//! The place that the target of a request names.

ghost use Rattle.std.specs.Prelude.{◌≡◌, ◌==◌, ◌≤◌, length, IfOk};
ghost use Rattle.std.specs.List.{position};
ghost use Rattle.rs_http.specs.Targets.{path_of_target as path_in, scheme_length as length_of_scheme, after_authority as path_after, place_of as place_at, resource_place as resource_at};

use crate::fields::is_same;
use rs_caps::doc_of;
use rs_items::after;
use rs_lists::Doc;
use rs_record::Name;
use std::alloc::{AllocError, Global};
use std::marker::Model;

/// A lawful name as it is written in a head, seen as the list of its bytes.
#[derive(Debug, Drop)]
pub(crate) struct NameInHead<'a> {
    bytes: &'a [u8],
}

impl<'a> Model for NameInHead<'a> {
    ghost use Rattle.std.specs.Prelude.{ℕ, List, IsTrue};
    ghost use Rattle.rs_record.specs.Name.{is_name};

    ghost Value = { List ℕ };

    ghost view = { λ n. n.bytes.now };

    ghost invariant = { λ n. IsTrue (is_name n.bytes.now) };
}

impl<'a> NameInHead<'a> {
    /// Returns the name, with memory of its own.
    pub(crate) fn to_name(&self, alloc: Global) -> Result<Name, AllocError>
        ensures { IfOk result (λ name. name ≡ self.now) }
    {
        Name::from_lawful(alloc, self.bytes)
    }
}

/// The place that a path names.
#[derive(Debug, Drop)]
pub(crate) enum Place<'a> {
    /// The resource of this name, whether it is held or not.
    Resource(NameInHead<'a>),
    /// A resource of an unlawful name.
    Unlawful,
    /// This document, whether it exists or not.
    Document(Doc),
    /// The place at which clients ask for a publication.
    Publishing,
    /// The place at which clients ask for a group.
    Grouping,
    /// No place.
    Nowhere,
}

/// The methods that a place allows.
#[derive(Clone, Copy, Debug, PartialEq, Eq)]
pub(crate) enum Methods {
    /// `GET`, `HEAD`, `PUT` and `DELETE`.
    OfResources,
    /// `GET` and `HEAD`.
    OfDocuments,
    /// `POST`, for publications and groups.
    OfPosts,
}

/// Returns the length of the scheme at the front of a target: `http://` or `https://`, in any case.
fn scheme_length(target: &[u8]) -> usize
    ensures value { result ≡ length_of_scheme target.now }
    ensures fits { result ≤ length target.now }
{
    if target.len() >= 7 && is_same(&target[..7], b"http://") {
        return 7;
    }
    if target.len() >= 8 && is_same(&target[..8], b"https://") {
        return 8;
    }
    0
}

/// Returns the index of the first `/`.
fn first_slash(bytes: &[u8]) -> Option<usize>
    ensures { result ≡ position (λ b. b == 47) bytes.now }
{
    bytes.iter().position(|b| *b == b'/')
}

/// Returns the path after an authority, or `/` if the target has no path.
fn after_authority(rest: &[u8]) -> &[u8]
    ensures { result.now ≡ path_after rest.now }
{
    match first_slash(rest) {
        Some(i) => &rest[i..],
        None => b"/",
    }
}

/// Returns the path of a target, which may begin with a scheme and an authority.
pub(crate) fn path_of_target(target: &[u8]) -> &[u8]
    ensures { result.now ≡ path_in target.now }
{
    let length = scheme_length(target);
    if length == 0 {
        return target;
    }
    after_authority(&target[length..])
}

/// Returns the resource of this name, or `Unlawful` if the name is not lawful.
fn resource_place(name: &[u8]) -> Place<'_>
    ensures { result ≡ resource_at name.now }
{
    if !Name::is_lawful(name) {
        return Place::Unlawful;
    }
    Place::Resource(NameInHead { bytes: name })
}

/// Returns the place that a path names.
pub(crate) fn place_of(path: &[u8]) -> Place<'_>
    ensures { result ≡ place_at path.now }
{
    if let Some(name) = after(b"/resource/", path) {
        return resource_place(name);
    }
    if path == b"/publish".as_slice() {
        return Place::Publishing;
    }
    if path == b"/group".as_slice() {
        return Place::Grouping;
    }
    match doc_of(path) {
        Some(doc) => Place::Document(doc),
        None => Place::Nowhere,
    }
}
