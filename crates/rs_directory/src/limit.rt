//! The item limit of a source.

ghost use Rattle.std.specs.Prelude.{◌≡◌, ◌≤◌};
ghost use Rattle.rs_directory.specs.Limit.{limit_of};

use std::marker::Model;

/// The item limit of a source: the greatest number of items in one document, 2 to 4,000.
#[derive(Clone, Copy, Debug, PartialEq, Eq)]
pub struct Limit {
    items: u16,
}

impl Model for Limit {
    ghost use Rattle.std.specs.Prelude.{ℕ};
    ghost use Rattle.rs_directory.specs.Limit.{IsLimit};

    ghost Value = { ℕ };

    ghost view = { λ limit. limit.items };

    ghost invariant = { λ limit. IsLimit limit.items };

    ghost inverse = { λ n. record { items = n } };
}

impl Limit {
    /// Returns the limit of `items` items, or `None` below 2 and above 4,000.
    pub fn new(items: u16) -> Option<Limit>
        ensures { result ≡ limit_of items }
    {
        if 2 <= items && items <= 4000 {
            Some(Limit { items })
        } else {
            None
        }
    }

    /// Returns the number of items, 2 to 4,000.
    pub fn items(self) -> u16
        ensures value { result ≡ self }
        ensures low { 2 ≤ self }
        ensures high { self ≤ 4000 }
    {
        self.items
    }
}
