//! The parts of the changes that a publication drops.

ghost use Rattle.std.specs.Prelude.{◌≡◌, ◌≤◌, length};
ghost use Rattle.rs_record.specs.Changes.{last_moment as last_moment_of};
ghost use Rattle.rs_model.specs.State.{most_changes};
ghost use Rattle.rs_model.specs.Step.{passed_by as passed_in, dropped_parts as dropped_parts_of, dropped_changes, is_out_of_parts as is_out_of_parts_of};

use super::State;
use rs_record::Change;
use rs_time::Moment;

impl State {
    /// Returns the number of parts that a publication drops: the full ones whose last change is not after the
    /// publication before it.
    pub(super) fn dropped_parts(&self) -> usize
        ensures value { result ≡ dropped_parts_of self.now }
        ensures few { dropped_parts_of self.now ≤ most_changes }
        ensures within { dropped_changes self.now ≤ length self.now.changes }
    {
        passed_by(self.at, &self.changes) / self.limit as usize
    }

    /// Returns whether no number is left for the first part that a publication keeps.
    pub(super) fn is_out_of_parts(&self) -> bool
        ensures { result ≡ is_out_of_parts_of self.now }
    {
        self.first + self.dropped_parts() as u64 > Moment::GREATEST
    }
}

/// Returns the number of changes, from the first on, that are not after the moment.
fn passed_by(moment: Moment, changes: &[Change]) -> usize
    ensures value { result ≡ passed_in moment changes.now }
    ensures within { passed_in moment changes.now ≤ length changes.now }
{
    let mut passed = 0;
    for change in changes {
        if change.moment.ms() > moment.ms() {
            break;
        }
        passed += 1;
    }
    passed
}

/// Returns the moment of the last change, or `before` where there is none.
pub(super) fn last_moment(before: Moment, changes: &[Change]) -> Moment
    ensures { result ≡ last_moment_of before changes.now }
{
    match changes.last() {
        Some(change) => change.moment,
        None => before,
    }
}
