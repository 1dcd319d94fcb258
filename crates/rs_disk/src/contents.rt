//! The content of a memory disk: the bytes that a read returns, the settled bytes, and the
//! unsettled places.
ghost use Rattle.std.specs.Prelude.{◌≡◌, ◌+◌, ◌≤◌, ◌<◌, length, take, drop, IfOk};
ghost use Rattle.rs_disk.specs.Medium.{IsMedium, over, marked, resting, partly_written, filled, image_of};

use std::alloc::{AllocError, Global};

#[derive(Drop)]
pub(crate) struct HeldBytes {
    seen: Vec<u8>,
    settled: Vec<u8>,
    unsettled: Vec<bool>,
    ghost sound: { IsMedium (length seen.items)
        (record { seen = seen.items; settled = settled.items; unsettled = unsettled.items }) },
}

impl HeldBytes {
    ghost use Rattle.rs_disk.specs.Contents.{medium_of};

    /// Returns the content with these bytes, all settled.
    pub(crate) fn resting(alloc: Global, bytes: &[u8]) -> Result<Self, AllocError>
        ensures { IfOk result (λ c. medium_of c ≡ resting bytes.now) }
    {
        Ok(HeldBytes {
            seen: bytes.to_vec(alloc)?,
            settled: bytes.to_vec(alloc)?,
            unsettled: vec![in alloc; false; bytes.len()]?,
        })
    }

    pub(crate) fn size(&self) -> usize
        ensures { result ≡ length self.now.seen.items }
    {
        self.seen.len()
    }

    /// Reads the bytes from an offset on.
    pub(crate) fn get(&self, at: usize, into: &mut [u8])
        requires { at + length into.old ≤ length self.now.seen.items }
        ensures { into.new ≡ take (length into.old) (drop at self.now.seen.items) }
    {
        into.copy_from_slice(&self.seen[at..at + into.len()]);
    }

    /// Puts the bytes at an offset, and makes `places` places from there on unsettled.
    pub(crate) fn put(&mut self, at: usize, places: usize, bytes: &[u8])
        requires range { at + places ≤ length self.old.seen.items }
        requires front { length bytes.now ≤ places }
        ensures { medium_of self.new ≡ partly_written (medium_of self.old) at places bytes.now }
    {
        write_over(&mut self.seen, at, bytes);
        mark(&mut self.unsettled, at, places);
    }

    /// Settles the bytes that a read returns.
    pub(crate) fn settle(&mut self)
        ensures { medium_of self.new ≡ resting self.old.seen.items }
    {
        self.settled.copy_from_slice(&self.seen);
        self.unsettled.fill(false);
    }

    /// Returns the image in which the unsettled places hold the choice's bytes in turn. An empty
    /// choice yields the bytes that a read returns.
    pub(crate) fn image(&self, alloc: Global, choice: &[u8]) -> Result<Vec<u8>, AllocError>
        ensures { IfOk result (λ v. v.items ≡ image_of choice.now (medium_of self.now)) }
    {
        if choice.is_empty() {
            self.seen.to_vec(alloc)
        } else {
            fill(alloc, &self.settled, &self.unsettled, choice)
        }
    }
}

/// Puts the bytes at an offset.
fn write_over(bytes: &mut [u8], at: usize, new: &[u8])
    requires { at + length new.now ≤ length bytes.old }
    ensures { bytes.new ≡ over bytes.old at new.now }
{
    bytes[at..at + new.len()].copy_from_slice(new);
}

/// Adds `n` places from an offset on to a set of places.
fn mark(places: &mut [bool], at: usize, n: usize)
    requires { at + n ≤ length places.old }
    ensures { places.new ≡ marked places.old at n }
{
    places[at..at + n].fill(true);
}

/// Returns the settled bytes, with the choice's bytes in the unsettled places.
fn fill(
    alloc: Global,
    settled: &[u8],
    unsettled: &[bool],
    choice: &[u8],
) -> Result<Vec<u8>, AllocError>
    requires same { length unsettled.now ≡ length settled.now }
    requires some { 0 < length choice.now }
    ensures { IfOk result (λ v. v.items ≡ filled choice.now 0 settled.now unsettled.now) }
{
    let mut image = Vec::new(alloc);
    let mut next = 0;
    for (i, &byte) in settled.iter().enumerate() {
        if unsettled[i] {
            image.push(choice[next % choice.len()])?;
            next += 1;
        } else {
            image.push(byte)?;
        }
    }
    Ok(image)
}
