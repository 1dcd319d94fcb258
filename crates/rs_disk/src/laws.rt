//! Laws of the disk model, over its definitions alone.
//!
//! Every function here has an empty body: its contract is the law, which the check proves. Proofs
//! cite the lemmas for these laws, in `proofs/Images.antt`, `proofs/Choice.antt` and
//! `proofs/Steps.antt`.
ghost use Rattle.std.specs.Prelude.{◌≡◌, ℕ, true, false, List, [], ◌∷◌, replicate};
ghost use Rattle.rs_disk.specs.Medium.{image_of, resting, written};
ghost use Rattle.rs_disk.specs.Runs.{StopsAtFault};
ghost use Rattle.rs_disk.specs.Plan.{left_by_write, stops_after, fails_once};
ghost use Rattle.rs_disk.specs.Laws.{SettledImage, ImagesWithinWrite, ImagesAfterWrite, ChoicesAreImages, ImagesHaveChoices, PastImagesStay, WriteLeaves, SyncLeaves, NoCallLeaves, OneCallLeaves, RunsGoOn, ExitHas, WeakerIsLeft, OneCallRuns, OneCallWrites, OneCallReads, SyncWritesNothing, RunsJoin, WritingJoins, ReadingJoins, NothingJoins, GoingOnIsNoStop, called, zeros, three_written};

/// Where all places are settled, the bytes that a read returns are the one image.
pub fn settled_disk_has_one_image()
    ensures { SettledImage }
{}

/// A write makes its range unsettled: within the write and after it, the images are those from
/// before it with any bytes in the range.
pub fn write_unsettles_its_range()
    ensures within { ImagesWithinWrite }
    ensures after { ImagesAfterWrite }
{}

/// The image of every choice is an image, and every image of bytes is the image of a choice of
/// bytes. So a memory disk's `image` can return exactly the images that the model allows.
pub fn choices_reach_each_image()
    ensures sound { ChoicesAreImages }
    ensures complete { ImagesHaveChoices }
{}

/// A call leaves the images of earlier moments as they were.
pub fn past_images_stay()
    ensures { PastImagesStay }
{}

/// The images that a write and a sync leave at every moment from entry to exit, for every answer.
pub fn one_call_leaves()
    ensures write { WriteLeaves }
    ensures sync { SyncLeaves }
{}

/// Images of a disk of eight zero bytes after a write of 1, 2 and 3 at offset 2.
pub fn worked_images()
    ensures one { image_of (9 ∷ []) three_written ≡ 0 ∷ 0 ∷ 9 ∷ 9 ∷ 9 ∷ 0 ∷ 0 ∷ 0 ∷ [] }
    ensures two { image_of (7 ∷ 8 ∷ []) three_written ≡ 0 ∷ 0 ∷ 7 ∷ 8 ∷ 7 ∷ 0 ∷ 0 ∷ 0 ∷ [] }
    ensures longer { image_of (4 ∷ 5 ∷ 6 ∷ 7 ∷ []) three_written
        ≡ 0 ∷ 0 ∷ 4 ∷ 5 ∷ 6 ∷ 0 ∷ 0 ∷ 0 ∷ [] }
    ensures seen { image_of [] three_written ≡ 0 ∷ 0 ∷ 1 ∷ 2 ∷ 3 ∷ 0 ∷ 0 ∷ 0 ∷ [] }
    ensures synced { image_of (9 ∷ []) (resting three_written.seen)
        ≡ 0 ∷ 0 ∷ 1 ∷ 2 ∷ 3 ∷ 0 ∷ 0 ∷ 0 ∷ [] }
    ensures again { image_of (9 ∷ []) (written (resting three_written.seen) 4 (5 ∷ 6 ∷ []))
        ≡ 0 ∷ 0 ∷ 1 ∷ 2 ∷ 9 ∷ 9 ∷ 0 ∷ 0 ∷ [] }
{}

/// The same write where it fails: halfway, at its start, and refused.
pub fn worked_failures()
    ensures half_seen { image_of [] (left_by_write (fails_once 0 0) 2 (1 ∷ 2 ∷ 3 ∷ []) zeros)
        ≡ 0 ∷ 0 ∷ 1 ∷ 0 ∷ 0 ∷ 0 ∷ 0 ∷ 0 ∷ [] }
    ensures half_image { image_of (9 ∷ []) (left_by_write (fails_once 0 0) 2 (1 ∷ 2 ∷ 3 ∷ []) zeros)
        ≡ 0 ∷ 0 ∷ 9 ∷ 9 ∷ 9 ∷ 0 ∷ 0 ∷ 0 ∷ [] }
    ensures stop_seen { image_of [] (left_by_write (stops_after 0 0) 2 (1 ∷ 2 ∷ 3 ∷ []) zeros)
        ≡ replicate 8 0 }
    ensures stop_image { image_of (9 ∷ [])
        (left_by_write (stops_after 0 0) 2 (1 ∷ 2 ∷ 3 ∷ []) zeros)
        ≡ 0 ∷ 0 ∷ 9 ∷ 9 ∷ 9 ∷ 0 ∷ 0 ∷ 0 ∷ [] }
    ensures refused { image_of (9 ∷ []) (left_by_write (stops_after 0 1) 2 (1 ∷ 2 ∷ 3 ∷ []) zeros)
        ≡ replicate 8 0 }
{}

/// A claim on the images of a crash after a number of calls.
pub trait Claim {
    ghost of: { ℕ → List ℕ → Type 0 };
}

/// The conditions under which a run of calls leaves a claim: a run of no call, one call, one run
/// and then another. All images at the exit of a run that leaves the claim have the claim.
pub fn runs_leave<P: Claim>()
    ensures none { NoCallLeaves P.of }
    ensures one { OneCallLeaves P.of }
    ensures goes_on { RunsGoOn P.of }
    ensures exit { ExitHas P.of }
{}

/// A run that leaves a claim leaves every claim that follows from it.
pub fn weaker_claim_is_left<P: Claim, Q: Claim>()
    ensures { WeakerIsLeft P.of Q.of }
{}

/// One call is a run: any call, a write or a sync, a read, and a sync as a run that writes no
/// bytes.
pub fn one_call_runs<T, E>()
    ensures any { OneCallRuns T E }
    ensures writing { OneCallWrites T E }
    ensures reading { OneCallReads T E }
    ensures syncing { SyncWritesNothing E }
{}

/// The claim that an answer reports a failure of the device.
pub trait Told {
    ghost told: { Type 0 };
}

/// Two runs in turn are one run, whose answer reports the device where one of theirs does: any
/// runs, runs that write, runs that change only the counts, and runs that write no bytes.
pub fn runs_join<A: Told, B: Told, C: Told>()
    ensures any { RunsJoin A.told B.told C.told }
    ensures writing { WritingJoins A.told B.told C.told }
    ensures reading { ReadingJoins A.told B.told C.told }
    ensures nothing { NothingJoins A.told B.told C.told }
{}

/// A run that makes a call after a failed one does not stop at the fault.
pub fn fault_is_last<T, E>()
    ensures { GoingOnIsNoStop T E }
{}

/// Runs of a disk of eight zero bytes without a call so far: one that ends with a failed call stops
/// at the fault. One that goes on does not, whether the further call works or fails.
pub fn worked_stops()
    ensures stops { StopsAtFault (called 0 0 false) (called 2 1 true) }
    ensures works { ¬ StopsAtFault (called 0 0 false) (called 3 1 false) }
    ensures fails { ¬ StopsAtFault (called 0 0 false) (called 3 2 true) }
{}
