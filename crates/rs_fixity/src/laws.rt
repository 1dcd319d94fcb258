//! Laws of digests and their text.
//!
//! The functions here have no effect: their contracts are the laws, which the check proves.

ghost use Rattle.std.specs.Prelude.{◌≡◌, ℕ, List, ◌∷◌, ◌++◌, Some, IsTrue, Contains, codes};
ghost use Rattle.rs_fixity.specs.declared.Digests.{Digests};
ghost use Rattle.rs_fixity.specs.Digests.{digests, AreNBytes};
ghost use Rattle.rs_fixity.specs.HashText.{hash_text_of};
ghost use Rattle.rs_fixity.specs.ReadHash.{read_hash};
ghost use Rattle.rs_fixity.specs.Cut.{cut, strip, lacks};

/// The MD5 of every message is 16 bytes, and the SHA-256 is 32 bytes.
pub fn digests_are_bytes()
    ensures md5 { (m : List ℕ) → AreNBytes 16 (digests m).md5 }
    ensures sha256 { (m : List ℕ) → AreNBytes 32 (digests m).sha256 }
{}

/// The text of digests reads as these digests, and any text that reads as digests is their text. So
/// different digests have different texts.
pub fn hash_texts_read_back()
    ensures read { (d : Digests) → AreNBytes 16 d.md5 → AreNBytes 32 d.sha256 →
        read_hash (hash_text_of d) ≡ Some d }
    ensures exact { (text : List ℕ) (d : Digests) → read_hash text ≡ Some d →
        AreNBytes 16 d.md5 × AreNBytes 32 d.sha256 × (text ≡ hash_text_of d) }
{}

/// The text of digests has no line feed and no `"`, `&`, `'`, `<` or `>`, so XML attribute values need no escaping of
/// it.
pub fn hash_texts_need_no_escaping()
    ensures { (d : Digests) (mark : ℕ) → Contains (10 ∷ codes "\"&'<>") mark →
        ¬ Contains (hash_text_of d) mark }
{}

/// A joined text can be cut again: a beginning is stripped off, and a value without the mark is cut off before the
/// mark.
pub fn joined_texts_are_cut()
    ensures strip { (front rest : List ℕ) → strip front (front ++ rest) ≡ Some rest }
    ensures cut { (mark : ℕ) (value rest : List ℕ) → IsTrue (lacks mark value) →
        cut mark (value ++ mark ∷ rest) ≡ (value, mark ∷ rest) }
{}

/// A cut text can be joined again: a stripped beginning and the rest are the text, and so are a value that was cut off
/// before a mark and the rest. The value lacks the mark, and the rest is empty or begins with it.
pub fn cut_texts_join()
    ensures strip { (front text rest : List ℕ) → strip front text ≡ Some rest
        → text ≡ front ++ rest }
    ensures cut { (mark : ℕ) (text : List ℕ) → (cut mark text).0 ++ (cut mark text).1 ≡ text }
    ensures lacks { (mark : ℕ) (text : List ℕ) → IsTrue (lacks mark (cut mark text).0) }
    ensures rest { (mark c : ℕ) (text rest : List ℕ) → (cut mark text).1 ≡ c ∷ rest → c ≡ mark }
{}
