//! A page as bytes.
ghost use Rattle.std.specs.Prelude.{ℕ, ◌≡◌, ◌≤◌, ◌+◌, ◌*◌, length, vec_len, All, IfOk};
ghost use Rattle.rs_record.specs.Limits.{most_items};
ghost use Rattle.rs_page.specs.Format.{page_bytes as bytes_of, items_bytes};

use crate::PageItem;
use std::alloc::{AllocError, Global};

/// Returns the number of bytes of a page of these items: at most 5 and 410 per item.
pub(crate) fn page_size<T: PageItem>(items: &[T]) -> u32
    requires { length items.now ≤ most_items }
    ensures size { result ≡ length (bytes_of T.format items.now) }
    ensures bound { result ≤ 5 + 410 * length items.now }
{
    let mut size = 5;
    for item in items {
        size += item.size();
    }
    size as u32
}

/// Returns the bytes of a page of these items.
pub(crate) fn page_bytes<T: PageItem>(alloc: Global, items: &[T]) -> Result<Vec<u8>, AllocError>
    requires { length items.now ≤ most_items }
    ensures bytes { IfOk result (λ page. page.items ≡ bytes_of T.format items.now) }
    ensures bound { IfOk result (λ page. vec_len page ≤ 5 + 410 * length items.now) }
    ensures lawful { IfOk result (λ _. All T.format.IsLawful items.now) }
{
    let mut page = Vec::with_capacity(alloc, page_size(items) as usize)?;
    page.push(T::kind().byte())?;
    page.extend_from_slice(&(items.len() as u32).to_be_bytes())?;
    for item in items {
        item.write(&mut page)?;
    }
    Ok(page)
}
