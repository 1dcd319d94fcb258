//! Laws of the root slots, over their definitions alone.
//!
//! The functions here have no effect: their contracts are the laws, which the check proves. Proofs
//! cite the lemmas, in `proofs/Ready.antt`, `proofs/Payloads.antt` and `proofs/Closed.antt`.
ghost use Rattle.rs_commit.specs.Laws.{OpensOnce, CurrentStays, OpensStays, ReadyStays, ReadyStands, ReadyOpens, PayloadsRead, FormattedStands, ShutTellsNone, ShutStays};

/// An image opens to at most one root.
pub fn opens_once()
    ensures { OpensOnce }
{}

/// The root that an image opens to depends on blocks 0 and 1 alone: images that agree in their
/// first 1,024 bytes open to the same root.
pub fn opens_stays()
    ensures current { CurrentStays }
    ensures opens { OpensStays }
{}

/// Slots stay ready where blocks 0 and 1 keep the bytes that a read gives, and keep which of them
/// are settled.
pub fn ready_stays()
    ensures { ReadyStays }
{}

/// Where slots are ready, every image opens to their root.
pub fn entry_opens()
    ensures stands { ReadyStands }
    ensures opens { ReadyOpens }
{}

/// The bytes written for a root read as that root.
pub fn payloads_read()
    ensures { PayloadsRead }
{}

/// Slots that were just made hold their root, for any bytes after them.
pub fn formatted_opens()
    ensures { FormattedStands }
{}

/// Where both slots are closed, every image opens to no root. They stay closed where blocks 0 and 1
/// keep the bytes that a read gives, and keep which of them are settled.
pub fn shut_tells_none()
    ensures none { ShutTellsNone }
    ensures stays { ShutStays }
{}
