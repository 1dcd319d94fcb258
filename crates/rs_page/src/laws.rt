//! Laws of pages, over their definitions alone.
//!
//! The functions here have no effect: their contracts are the laws, which the check proves. Proofs cite their lemmas,
//! in `proofs/OneList.antt` and `proofs/Standing.antt`.
ghost use Rattle.rs_page.specs.Laws.{PageHoldsOnce, PagesHoldOnce, PageStays, PagesStay, StoredPagesStay, WrittenStay, WrittenStand, StandingArePages, PagesStand};

use crate::PageItem;

/// A page holds at most one list of items, and pages hold at most one list per page.
pub fn pages_hold_once<T: PageItem>()
    ensures page { PageHoldsOnce T.format }
    ensures pages { PagesHoldOnce T.format }
{
    T::formats_stand_alone();
}

/// Pages stay while their blocks keep their bytes: pages at references, the stored pages of a list
/// in memory, and those that were written for it.
pub fn pages_stay<T: PageItem>()
    ensures page { PageStays T.format }
    ensures pages { PagesStay T.format }
    ensures stored { StoredPagesStay T.format }
    ensures written { WrittenStay T.format }
{}

/// The stored pages of a list in memory are the pages that its references point to.
pub fn stored_pages_stand<T: PageItem>()
    ensures written { WrittenStand T.format }
    ensures pages { StandingArePages T.format }
    ensures back { PagesStand T.format }
{}
