//! The blocks that the root after a command no longer reaches.

ghost use Rattle.std.specs.Prelude.{◌≡◌, [], ◌∷◌, ◌++◌, IfOk, OnOk};
ghost use Rattle.rs_page.specs.Pages.{stored_refs, extents_of};
ghost use Rattle.rs_pages.specs.Dropped.{front_pages};
ghost use Rattle.rs_plan.specs.Allowed.{changes_dropped};
ghost use Rattle.rs_plan.specs.Freed.{unpublished, entry_of_name, extent_of_page, extent_of_body, freed_page, freed_history_page, freed_by_change, freed_by_publication};

use super::dropping::dropped_parts;
use rs_extent::Extent;
use rs_image::{Contents, Rooted, unshared_pages};
use rs_page::PageRef;
use rs_record::Name;
use std::alloc::{AllocError, Global};

/// The blocks, other than the directory's, that items free.
#[derive(Drop)]
pub(crate) struct Freed {
    /// The touched pages of the catalogue that are not published.
    pub(crate) pages: Vec<Extent>,
    /// The touched pages of the history.
    pub(crate) history_pages: Vec<Extent>,
    /// The bodies that the names had.
    pub(crate) bodies: Vec<Extent>,
}

impl Freed {
    /// Returns an empty collection.
    pub(crate) fn new(alloc: Global) -> Freed
        ensures pages { result.pages.items ≡ [] }
        ensures history { result.history_pages.items ≡ [] }
        ensures bodies { result.bodies.items ≡ [] }
    {
        Freed {
            pages: Vec::new(alloc),
            history_pages: Vec::new(alloc),
            bodies: Vec::new(alloc),
        }
    }

    /// Adds the blocks that a change of this name frees. `lists` are the lists before the change.
    ///
    /// # Errors
    ///
    /// [`AllocError`] where the memory is refused.
    pub(crate) fn add(&mut self, lists: &Contents, name: &Name) -> Result<(), AllocError>
        ensures pages { OnOk result (self.new.pages.items
            ≡ self.old.pages.items ++ freed_page lists.now name.now) }
        ensures history { OnOk result (self.new.history_pages.items
            ≡ self.old.history_pages.items ++ freed_history_page lists.now name.now) }
        ensures bodies { OnOk result (self.new.bodies.items
            ≡ self.old.bodies.items ++ extent_of_body lists.now name.now) }
    {
        add_page(&mut self.pages, unpublished_page(lists, name))?;
        add_page(
            &mut self.history_pages,
            lists.history.as_pages().open_entry(),
        )?;
        add_body(&mut self.bodies, lists, name)
    }

    /// Returns all freed blocks: this directory, and the blocks in the lists here.
    ///
    /// # Errors
    ///
    /// [`AllocError`] where the memory is refused.
    pub(crate) fn with_directory(
        &self,
        alloc: Global,
        directory: Extent,
    ) -> Result<Vec<Extent>, AllocError>
        ensures { IfOk result (λ freed. freed.items ≡ directory
            ∷ self.now.pages.items ++ self.now.history_pages.items ++ self.now.bodies.items) }
    {
        let mut freed = Vec::new(alloc);
        freed.push(directory)?;
        freed.extend_from_slice(&self.pages)?;
        freed.extend_from_slice(&self.history_pages)?;
        freed.extend_from_slice(&self.bodies)?;
        Ok(freed)
    }
}

/// Returns the blocks that a change of this name frees: the directory, the page of the catalogue
/// that the name goes into, unless it is published, the page of the history that the change goes
/// into, and the body that the name has.
///
/// # Errors
///
/// [`AllocError`] where the memory is refused.
pub(crate) fn freed_by_change(
    alloc: Global,
    old: &Rooted<'_>,
    name: &Name,
) -> Result<Vec<Extent>, AllocError>
    ensures { IfOk result (λ freed. freed.items ≡ freed_by_change old.now name.now) }
{
    let contents = old.contents();
    let mut freed = Vec::new(alloc);
    freed.push(old.root().directory)?;
    add_page(&mut freed, unpublished_page(contents, name))?;
    add_page(&mut freed, contents.history.as_pages().open_entry())?;
    add_body(&mut freed, contents, name)?;
    Ok(freed)
}

/// Returns the blocks that a publication frees: the directory, the pages of the history with a
/// change that the publication drops, and the published pages that are not catalogue pages.
///
/// # Errors
///
/// [`AllocError`] where the memory is refused.
pub(crate) fn freed_by_publication(
    alloc: Global,
    old: &Rooted<'_>,
) -> Result<Vec<Extent>, AllocError>
    ensures { IfOk result (λ freed. freed.items ≡ freed_by_publication old.now) }
{
    let root = old.root();
    let dropped = dropped_pages(alloc, old.contents())?;
    let pages = unshared_pages(alloc, old.contents())?;
    let mut freed = Vec::new(alloc);
    freed.push(root.directory)?;
    add_pages(&mut freed, &dropped)?;
    add_pages(&mut freed, &pages)?;
    Ok(freed)
}

/// Returns the pages of the history with a change that a publication drops.
fn dropped_pages(alloc: Global, contents: &Contents) -> Result<Vec<PageRef>, AllocError>
    ensures { IfOk result (λ pages. pages.items ≡ stored_refs
        (front_pages (changes_dropped contents.now) contents.now.history.pages)) }
{
    let history = &contents.history;
    let limit = contents.header.limit.items();
    history.dropped_entries(alloc, dropped_parts(contents), limit)
}

/// Adds the blocks of pages.
fn add_pages(freed: &mut Vec<Extent>, pages: &[PageRef]) -> Result<(), AllocError>
    ensures { OnOk result (freed.new.items ≡ freed.old.items ++ extents_of pages.now) }
{
    for page in pages {
        freed.push(page.extent)?;
    }
    Ok(())
}

/// Returns the page of the catalogue that a name goes into, unless it is published.
fn unpublished_page(contents: &Contents, name: &Name) -> Option<PageRef>
    ensures { result ≡ unpublished (entry_of_name contents.now name.now)
        (stored_refs contents.now.published) }
{
    let page = contents.catalogue.as_pages().entry_for(name)?;
    if contents.published.as_pages().has_entry(&page) {
        None
    } else {
        Some(page)
    }
}

/// Adds the blocks of a page, if there is one.
fn add_page(freed: &mut Vec<Extent>, page: Option<PageRef>) -> Result<(), AllocError>
    ensures { OnOk result (freed.new.items ≡ freed.old.items ++ extent_of_page page) }
{
    if let Some(page) = page {
        freed.push(page.extent)?;
    }
    Ok(())
}

/// Adds the blocks of the body of a name, if it has one.
fn add_body(freed: &mut Vec<Extent>, contents: &Contents, name: &Name) -> Result<(), AllocError>
    ensures { OnOk result (freed.new.items ≡ freed.old.items
        ++ extent_of_body contents.now name.now) }
{
    if let Some(record) = contents.catalogue.get(name) {
        freed.push(record.extent)?;
    }
    Ok(())
}
