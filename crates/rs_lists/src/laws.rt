//! Laws of the definitions that the contracts cite. A law is a function without effect: its clauses
//! hold.

ghost use Rattle.std.specs.Prelude.{◌≡◌, ℕ, ◌+◌, ◌<◌, ◌≤◌, ◌^◌, List, length, IsTrue, Some};
ghost use Rattle.std.specs.List.{list_all};
ghost use Rattle.rs_record.specs.Base.{is_base, uri};
ghost use Rattle.rs_record.specs.Lawful.{IsLawfulRecord, IsLawfulChange};
ghost use Rattle.rs_record.specs.Name.{is_name};
ghost use Rattle.rs_record.specs.declared.record.Record.{Record};
ghost use Rattle.rs_record.specs.declared.change.Change.{Change};
ghost use Rattle.rs_lists.specs.declared.doc.Doc.{Doc};
ghost use Rattle.rs_lists.specs.Escape.{escape, stands_as_it_is};
ghost use Rattle.rs_lists.specs.Lawful.{IsLawfulShown, IsSmall};
ghost use Rattle.rs_lists.specs.Laws.{PartsAreChunks};
ghost use Rattle.rs_lists.specs.Shown.{Shown};
ghost use Rattle.rs_lists.specs.Text.{line, list_text, resource_line, change_line, resource_entry, change_entry};

/// No part of a list is empty or has more items than the limit, all but the last are full, and
/// joined in their order they are the list.
pub fn parts_are_chunks<T>()
    ensures { PartsAreChunks T }
{}

/// A text without the five special characters is written unchanged.
pub fn plain_texts_stay()
    ensures { (text : List ℕ) → IsTrue (list_all stands_as_it_is text) → escape text ≡ text }
{}

/// An entry of a list has at most 2,450 bytes and an entry of an index at most 276, including the
/// line feed. The location of a resource has fewer than 2,048 characters, as Sitemap 0.9 requires.
pub fn entries_are_small()
    ensures location { (base name : List ℕ) → IsTrue (is_base base) → IsTrue (is_name name) →
        length (escape (uri base name)) < 2048 }
    ensures resource { (base : List ℕ) (r : Record) → IsTrue (is_base base) → IsLawfulRecord r →
        length (line (resource_line base r)) ≤ 2450 }
    ensures change { (base : List ℕ) (c : Change) → IsTrue (is_base base) → IsLawfulChange c →
        length (line (change_line base c)) ≤ 2450 }
    ensures resource_part { (s : Shown) (k : ℕ) → IsLawfulShown s → k < 2 ^ 64 →
        length (line (resource_entry s k)) ≤ 276 }
    ensures change_part { (s : Shown) (k : ℕ) → IsLawfulShown s → s.first + k < 2 ^ 64 →
        length (line (change_entry s k)) ≤ 276 }
{}

/// Every list, part and index has fewer than 10,485,760 bytes, as Sitemap 0.9 requires.
pub fn documents_are_small()
    ensures { (s : Shown) (doc : Doc) (text : List ℕ) → IsLawfulShown s →
        list_text s doc ≡ Some text → IsSmall text }
{}
