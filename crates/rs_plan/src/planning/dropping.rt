//! The changes that a publication drops.

ghost use Rattle.std.specs.Prelude.{◌≡◌, ◌≤◌, ◌*◌, length, take};
ghost use Rattle.rs_record.specs.Changes.{last_moment};
ghost use Rattle.rs_changes.specs.History.{changes_of};
ghost use Rattle.rs_plan.specs.Allowed.{parts_dropped, changes_dropped};

use rs_image::Contents;
use rs_time::Moment;

/// Returns the number of parts of the changes that the next publication drops: the full parts whose
/// last change is not after the latest publication.
pub fn dropped_parts(contents: &Contents) -> u64
    ensures value { result ≡ parts_dropped contents.now }
    ensures full { changes_dropped contents.now
        ≤ length (changes_of contents.now.history.pages) }
{
    let passed = contents.history.count_up_to(contents.header.at);
    passed as u64 / u64::from(contents.header.limit.items())
}

/// Returns the moment at which the history begins without its first `parts` parts, which are full:
/// the moment of their last change, or the present begin of the history, if `parts` is 0.
pub(crate) fn begin_without(contents: &Contents, parts: u64) -> Moment
    requires { parts * contents.now.header.limit ≤ length (changes_of contents.now.history.pages) }
    ensures { result ≡ last_moment contents.now.header.begin
        (take (parts * contents.now.header.limit) (changes_of contents.now.history.pages)) }
{
    let limit = contents.header.limit.items();
    let dropped = contents.history.part(parts, limit).start;
    if dropped == 0 {
        contents.header.begin
    } else {
        contents.history.at(dropped - 1).moment
    }
}
