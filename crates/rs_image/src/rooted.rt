//! A root with its lists.

ghost use Rattle.std.specs.Prelude.{◌≡◌};
ghost use Rattle.rs_image.specs.Rooted.{IsRooted, rooted};

use crate::Contents;
use rs_commit::Root;
use std::marker::Model;

/// A root of a disk of some bytes, with its lists: the root with its lists keeps all rules of an image of that disk,
/// and the lists can be those of a directory. It borrows the lists and copies no part of them.
#[derive(Drop)]
pub struct Rooted<'a> {
    size: u64,
    root: Root,
    contents: &'a Contents,
}

impl<'a> Model for Rooted<'a> {
    ghost use Rattle.rs_image.specs.Rooted.{Rooted, IsRooted, rooted};

    ghost Value = { Rooted };

    ghost view = { λ r. rooted r.size r.root r.contents.now };

    ghost invariant = { λ r. IsRooted (rooted r.size r.root r.contents.now) };
}

impl<'a> Rooted<'a> {
    /// Makes a root of a disk of `size` bytes, with its lists, as [`load`](crate::load) or a commit left them.
    pub fn new(size: u64, root: Root, contents: &'a Contents) -> Rooted<'a>
        requires { IsRooted (rooted size root contents.now) }
        ensures { result ≡ rooted size root contents.now }
    {
        Rooted {
            size,
            root,
            contents,
        }
    }

    /// Returns the size of the disk in bytes.
    pub fn size(&self) -> u64
        ensures size { result ≡ self.now.size }
        ensures sound { IsRooted self.now }
    {
        self.size
    }

    /// Returns the root.
    pub fn root(&self) -> &Root
        ensures { result.now ≡ self.now.root }
    {
        &self.root
    }

    /// Returns the lists of the root.
    pub fn contents(&self) -> &'a Contents
        ensures contents { result.now ≡ self.now.contents }
        ensures sound { IsRooted self.now }
    {
        let contents = self.contents;
        contents
    }
}
