//! Laws of catalogues, over their definitions alone.
//!
//! The functions here have no effect: their contracts are the laws, which the check proves.
ghost use Rattle.rs_catalogue.specs.Laws.{CatalogueHeldOnce, CatalogueStays, StoredCatalogueIsHeld, ShownIsBound, ShownIsUnbound, ShownIsFound};

use rs_page::laws::{pages_hold_once, pages_stay, stored_pages_stand};
use rs_record::Record;

/// Pages hold at most one catalogue.
pub fn catalogue_is_held_once()
    ensures { CatalogueHeldOnce }
{
    pages_hold_once::<Record>();
}

/// The catalogue that pages hold depends on their blocks alone.
pub fn catalogue_stays()
    ensures { CatalogueStays }
{
    pages_stay::<Record>();
}

/// If all pages of a catalogue are on the disk, the references to them hold this catalogue: so
/// [`crate::Catalogue::load`] gives its records, as far as the device and the memory allow.
pub fn stored_catalogue_is_held()
    ensures { StoredCatalogueIsHeld }
{
    stored_pages_stand::<Record>();
}

/// Entries that show records are bound, unbound and found as the records are.
pub fn shown_records_are_a_map()
    ensures bound { ShownIsBound }
    ensures unbound { ShownIsUnbound }
    ensures found { ShownIsFound }
{}
