//! Items that get their digests after they were made.
ghost use Rattle.std.specs.Prelude.{◌≡◌, length};
ghost use Rattle.rs_fixity.specs.declared.Digests.{Digests};
ghost use Rattle.rs_page.specs.Items.{record_filled, change_filled};

use crate::PageItem;
use rs_fixity::Digests;
use rs_record::{Change, Record};

/// An item with the digests of a body, which it may get after it was made.
pub trait Fill: PageItem {
    // The item with these digests.
    ghost filled: { Digests → Self → Self };

    /// Sets the digests of the item. Its format keeps its length. It takes no memory.
    fn fill(&mut self, digests: Digests)
        ensures filled { self.new ≡ filled digests self.old }
        ensures size { length (Self.format.bytes self.new) ≡ length (Self.format.bytes self.old) };
}

impl Fill for Record {
    ghost filled = { record_filled };

    fn fill(&mut self, digests: Digests) {
        show_lengths(self.digests);
        show_lengths(digests);
        self.digests = digests;
    }
}

impl Fill for Change {
    ghost filled = { change_filled };

    fn fill(&mut self, digests: Digests) {
        if let Some(facts) = &mut self.facts {
            show_lengths(facts.digests);
            show_lengths(digests);
            facts.digests = digests;
        }
    }
}

/// Gives a proof the lengths of digests.
fn show_lengths(_digests: Digests)
    ensures md5 { length _digests.md5 ≡ 16 }
    ensures sha256 { length _digests.sha256 ≡ 32 }
{}
