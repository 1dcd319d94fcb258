//! The kinds of pages.
ghost use Rattle.std.specs.Prelude.{◌≡◌};

/// The kind of the items of a page.
#[derive(Clone, Copy, Debug, PartialEq, Eq)]
pub enum PageKind {
    /// Records of resources that are held.
    Records,
    /// Changes to resources.
    Changes,
}

impl PageKind {
    ghost use Rattle.rs_page.specs.Format.{kind_byte};

    /// Returns the byte of this kind, which a page begins with: 1 for records and 2 for changes.
    pub fn byte(self) -> u8
        ensures { result ≡ kind_byte self }
    {
        match self {
            PageKind::Records => 1,
            PageKind::Changes => 2,
        }
    }
}
