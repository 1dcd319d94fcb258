//! The plan of the further calls of a memory disk that fail, and of the way they fail.
ghost use Rattle.std.specs.Prelude.{◌≡◌, ℕ, ◌+◌};

/// The further calls that fail.
#[derive(Clone, Copy, Drop)]
pub(crate) enum FaultPlan {
    /// No further call fails.
    Sound,
    /// After this many further calls every call fails.
    StopsAfter(u64),
    /// Every call fails, and one has failed already.
    Stopped,
    /// After this many further calls one call fails.
    FailsAfter(u64),
}

/// The outcome that the plan gives to one call.
#[derive(Clone, Copy, Drop)]
pub(crate) enum Outcome {
    Works,
    /// It fails. A write puts the first half of its bytes, rounded down, and its range is unsettled.
    FailsHalfway,
    /// It fails. A write puts no byte, and its range is unsettled.
    FailsAtStart,
    /// It fails, and leaves the disk as it was.
    Refused,
}

impl FaultPlan {
    ghost use Rattle.rs_disk.specs.Plan.{planned_by};

    /// Returns the outcome of the next call, and advances the plan.
    pub(crate) fn step(&mut self) -> Outcome
        ensures next { result ≡ planned_by self.old 0 }
        ensures later { (i : ℕ) → planned_by self.new i ≡ planned_by self.old (i + 1) }
    {
        match *self {
            FaultPlan::Sound => Outcome::Works,
            FaultPlan::StopsAfter(0) => {
                *self = FaultPlan::Stopped;
                Outcome::FailsAtStart
            }
            FaultPlan::StopsAfter(k) => {
                *self = FaultPlan::StopsAfter(k - 1);
                Outcome::Works
            }
            FaultPlan::Stopped => Outcome::Refused,
            FaultPlan::FailsAfter(0) => {
                *self = FaultPlan::Sound;
                Outcome::FailsHalfway
            }
            FaultPlan::FailsAfter(k) => {
                *self = FaultPlan::FailsAfter(k - 1);
                Outcome::Works
            }
        }
    }
}
