//! Laws of dates and of the text of moments.
//!
//! The functions here have no effect: their contracts are the laws, which the check proves.

ghost use Rattle.std.specs.Prelude.{◌≡◌, ◌≤◌, ℕ, List, ◌∷◌, Some, IsTrue, Contains, codes};
ghost use Rattle.std.specs.List.{list_all};
ghost use Rattle.rs_time.specs.Calendar.{date_of, IsDateOf};
ghost use Rattle.rs_time.specs.Moment.{IsMoment, moment_text, is_moment_byte};
ghost use Rattle.rs_time.specs.ReadMoment.{read_moment};

/// The date found by counting `n` days is a date of the Gregorian calendar, and lies `n` days after
/// 1 January 1970. This holds up to day 2,932,896, which is 31 December 9999.
pub fn dates_lie_on_their_days()
    ensures { (n : ℕ) → n ≤ 2932896 → IsDateOf n (date_of n) }
{}

/// The text of a moment reads as that moment, and any text that reads as a moment is its text. So different moments
/// have different texts.
pub fn moment_texts_read_back()
    ensures read { (t : ℕ) → IsMoment t → read_moment (moment_text t) ≡ Some t }
    ensures exact { (text : List ℕ) (t : ℕ) → read_moment text ≡ Some t →
        IsMoment t × (text ≡ moment_text t) }
{}

/// The text of a moment has only digits, `-`, `T`, `:`, `.` and `Z`. It has no line feed and no `"`, `&`, `'`, `<` or
/// `>`, so XML content and attribute values need no escaping of it.
pub fn moment_texts_need_no_escaping()
    ensures bytes { (t : ℕ) → IsTrue (list_all is_moment_byte (moment_text t)) }
    ensures unescaped { (t mark : ℕ) → Contains (10 ∷ codes "\"&'<>") mark →
        ¬ Contains (moment_text t) mark }
{}
