//! Maps from names to values, as vectors of pairs in the ascending order of the names' bytes.

ghost use Rattle.std.specs.Prelude.{◌≡◌, OnOk, OnErr, IsTrue};
ghost use Rattle.rs_model.specs.Names.{IsPlaceOf, is_ordered, bind as bound, unbind as unbound};

use rs_record::Name;
use std::alloc::AllocError;
use std::cmp::Ordering;

/// Returns the place of the name in a list of pairs, or else the place where it belongs, by one
/// scan.
pub fn place_of<V>(entries: &[(Name, V)], name: &Name) -> Result<usize, usize>
    ensures { IsPlaceOf entries.now name.now result }
{
    for (i, entry) in entries.iter().enumerate() {
        match name.compare(&entry.0) {
            Ordering::Less => return Err(i),
            Ordering::Equal => return Ok(i),
            Ordering::Greater => {}
        }
    }
    Err(entries.len())
}

/// Returns the same by a binary search, where the names ascend.
pub fn place_in_order<V>(entries: &[(Name, V)], name: &Name) -> Result<usize, usize>
    requires { IsTrue (is_ordered entries.now) }
    ensures { IsPlaceOf entries.now name.now result }
{
    entries.binary_search_by(|entry| entry.0.compare(name))
}

/// Binds the name, which has this place, to the value.
pub fn bind_at<V: Drop>(
    entries: &mut Vec<(Name, V)>,
    place: Result<usize, usize>,
    name: Name,
    value: V,
) -> Result<(), AllocError>
    requires { IsPlaceOf entries.old.items name place }
    ensures bound { OnOk result (entries.new.items ≡ bound name value entries.old.items) }
    ensures unchanged { OnErr result (entries.new.items ≡ entries.old.items) }
{
    match place {
        Ok(i) => entries[i] = (name, value),
        Err(i) => entries.insert(i, (name, value))?,
    }
    Ok(())
}

/// Binds the name to the value where the names ascend.
pub fn bind<V: Drop>(entries: &mut Vec<(Name, V)>, name: Name, value: V) -> Result<(), AllocError>
    requires { IsTrue (is_ordered entries.old.items) }
    ensures bound { OnOk result (entries.new.items ≡ bound name value entries.old.items) }
    ensures unchanged { OnErr result (entries.new.items ≡ entries.old.items) }
{
    let place = place_in_order(entries.as_slice(), &name);
    bind_at(entries, place, name, value)
}

/// Unbinds the name, if it is bound, where the names ascend.
pub fn unbind<V: Drop>(entries: &mut Vec<(Name, V)>, name: &Name)
    requires { IsTrue (is_ordered entries.old.items) }
    ensures { entries.new.items ≡ unbound name.now entries.old.items }
{
    if let Ok(i) = place_in_order(entries.as_slice(), name) {
        let _entry = entries.remove(i);
    }
}
