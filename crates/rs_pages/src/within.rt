//! Items in the order of their names.
ghost use Rattle.std.specs.Prelude.{◌≡◌, ◌<◌, length, remove, IfOk, IsTrue};
ghost use Rattle.rs_model.specs.Names.{IsPlaceOf, is_ordered};
ghost use Rattle.rs_pages.specs.Items.{keyed, put_in};

use crate::Named;
use rs_record::{Name, duplicate_all};
use std::alloc::{AllocError, Global};

/// Returns the place of the item of the name, or else the place where it belongs.
pub(crate) fn place_of<T: Named>(items: &[T], name: &Name) -> Result<usize, usize>
    requires { IsTrue (is_ordered (keyed T.name items.now)) }
    ensures { IsPlaceOf (keyed T.name items.now) name.now result }
{
    items.binary_search_by(|item| item.name().compare(name))
}

/// Returns copies of the items, with this one put in.
pub(crate) fn with_item<T: Named>(alloc: Global, items: &[T], item: T) -> Result<Vec<T>, AllocError>
    requires { IsTrue (is_ordered (keyed T.name items.now)) }
    ensures { IfOk result (λ v. v.items ≡ put_in T.name item items.now) }
{
    let place = place_of(items, item.name());
    let mut copied = duplicate_all(alloc, items)?;
    match place {
        Ok(i) => copied[i] = item,
        Err(i) => copied.insert(i, item)?,
    }
    Ok(copied)
}

/// Returns copies of the items, without the one at this place.
pub(crate) fn without_place<T: Named>(
    alloc: Global,
    items: &[T],
    place: usize,
) -> Result<Vec<T>, AllocError>
    requires { place < length items.now }
    ensures { IfOk result (λ v. v.items ≡ remove items.now place) }
{
    let mut copied = duplicate_all(alloc, items)?;
    let _item = copied.remove(place);
    Ok(copied)
}
