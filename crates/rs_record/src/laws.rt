//! Laws of the values.

ghost use Rattle.std.specs.Prelude.{◌≡◌, ◌++◌, ◌↔◌, ℕ, List, IsTrue};
ghost use Rattle.rs_record.specs.Name.{is_name};
ghost use Rattle.rs_record.specs.MediaType.{is_media_type};
ghost use Rattle.rs_record.specs.Base.{is_base};
ghost use Rattle.rs_record.specs.CleanBytes.{lacks, clean};
ghost use Rattle.rs_record.specs.Grammar.{IsNameText, IsMediaTypeText};
ghost use Rattle.rs_record.specs.Format.{record_bytes, change_bytes};
ghost use Rattle.rs_record.specs.Lawful.{IsLawfulRecord, IsLawfulChange};
ghost use Rattle.rs_record.specs.declared.record.Record.{Record};
ghost use Rattle.rs_record.specs.declared.change.Change.{Change};

/// A name is lawful exactly if it is one or more segments of RFC 3986 that are not empty and no dot segments, joined by
/// `/`, and has at most 240 bytes. A media type is lawful exactly if it has 3 to 100 bytes, all printable, begins as
/// RFC 9110 says, and does not end in a space.
pub fn grammars_are_the_standards()
    ensures names { (name : List ℕ) → IsTrue (is_name name) ↔ IsNameText name }
    ensures media_types { (kind : List ℕ) → IsTrue (is_media_type kind) ↔ IsMediaTypeText kind }
{}

/// A lawful name or base has no line feed, no `"` and no `<`, a lawful media type no line feed. So all of them fit on
/// one line, and a name or a base also into an attribute or the text of an element, where `&` and `'` are escaped.
pub fn lawful_values_are_clean()
    ensures names { (name : List ℕ) → IsTrue (is_name name) → IsTrue (clean name) }
    ensures bases { (base : List ℕ) → IsTrue (is_base base) → IsTrue (clean base) }
    ensures media_types { (kind : List ℕ) → IsTrue (is_media_type kind) → IsTrue (lacks 10 kind) }
{}

/// No format begins another of its kind: if bytes begin with the formats of two lawful records, or of two lawful
/// changes, the two are equal, and the same bytes follow. So formats in a row read in one way only.
pub fn formats_stand_alone()
    ensures records { (a b : Record) (x y : List ℕ) → IsLawfulRecord a → IsLawfulRecord b
        → record_bytes a ++ x ≡ record_bytes b ++ y → (a ≡ b) × (x ≡ y) }
    ensures changes { (a b : Change) (x y : List ℕ) → IsLawfulChange a → IsLawfulChange b
        → change_bytes a ++ x ≡ change_bytes b ++ y → (a ≡ b) × (x ≡ y) }
{}
