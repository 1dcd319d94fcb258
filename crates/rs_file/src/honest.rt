//! When a file has followed the disk model so far.
ghost use Rattle.std.specs.Prelude.{◌≡◌, ◌↔◌, IsTrue};
ghost use Rattle.rs_file.specs.File.{state_of, events_of};
ghost use Rattle.rs_file.specs.Honest.{AllRight};

use crate::{FileDisk, Start};

/// A file is honest if it had the length of the bytes that its start names, and every successful
/// read returned the bytes that the disk model has at its offset. All clauses on bytes read have
/// this premise. The function has no effect.
pub fn honest_is<S: Start>(_disk: &FileDisk<S>)
    ensures { IsTrue (state_of S.Start _disk.now).honest
        ↔ AllRight S.Start.first S.Start.torn (state_of S.Start _disk.now).size
        (events_of _disk.now) }
{}
