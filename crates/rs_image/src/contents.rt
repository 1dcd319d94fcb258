//! The lists of a root, in memory.

ghost use Rattle.std.specs.Prelude.{◌≡◌, ◌<◌, ◌≤◌, ◌*◌, ◌^◌, vec_len, IfOk, OnOk};
ghost use Rattle.rs_record.specs.Limits.{most_items};
ghost use Rattle.rs_directory.specs.Directory.{written_format};
ghost use Rattle.rs_image.specs.StateOfImage.{AreAllStored, AreListable, AreLists, directory_bytes_of, listing, pages_in_all};

use rs_catalogue::Catalogue;
use rs_changes::History;
use rs_directory::{Header, directory_bytes};
use rs_extent::Used;
use std::alloc::{AllocError, Global};

/// The header of the directory of a root, and the lists in its pages.
#[derive(Debug, Drop)]
pub struct Contents {
    /// The facts that the source keeps in addition to its lists.
    pub header: Header,
    /// The resources that are held, in the ascending order of their names.
    pub catalogue: Catalogue,
    /// The kept changes, the earliest first, and the number of their first part.
    pub history: History,
    /// The resources of the latest publication, in the ascending order of their names.
    pub published: Catalogue,
}

impl Contents {
    /// Returns the number of pages of all lists: at most 150,000.
    pub fn page_count(&self) -> usize
        ensures pages { result ≡ pages_in_all self.now }
        ensures most { result ≤ 3 * most_items }
        ensures lists { AreLists self.now }
    {
        let catalogue = self.catalogue.as_pages().page_count();
        let history = self.history.as_pages().page_count();
        catalogue + history + self.published.as_pages().page_count()
    }

    /// Returns the bytes of the directory of these lists, in version 2 of the disk's format. It
    /// names the stored pages, in their order.
    ///
    /// # Errors
    ///
    /// [`AllocError`] where the memory is refused.
    pub fn directory(&self, alloc: Global) -> Result<Vec<u8>, AllocError>
        ensures bytes { IfOk result (λ bytes. bytes.items ≡ listing written_format self.now) }
        ensures size { IfOk result (λ bytes. AreAllStored self.now
            → vec_len bytes ≡ directory_bytes_of self.now) }
        ensures fits { IfOk result (λ bytes. vec_len bytes < 2 ^ 32) }
        ensures listable { OnOk result (AreListable written_format self.now) }
        ensures lists { OnOk result (AreLists self.now) }
    {
        let catalogue = self.catalogue.pages(alloc)?;
        let changes = self.history.pages(alloc)?;
        let published = self.published.pages(alloc)?;
        directory_bytes(alloc, &self.header, &catalogue, &changes, &published)
    }
}

/// The lists of a root, as they were read, and the blocks of the disk that are in use.
#[derive(Debug, Drop)]
pub struct Loaded {
    /// The header and the lists of the root.
    pub contents: Contents,
    /// Exactly the blocks of the slots and those that the root reaches.
    pub used: Used,
}
