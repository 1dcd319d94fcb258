//! Laws of the reading: texts, values and paths.

ghost use Rattle.std.specs.Prelude.{◌≡◌, ℕ, ◌<◌, ◌^◌, List, Some, IsTrue};
ghost use Rattle.std.specs.List.{list_all};
ghost use Rattle.std.specs.Fmt.{decimal};
ghost use Rattle.rs_fixity.specs.Cut.{lacks};
ghost use Rattle.rs_lists.specs.Escape.{escape};
ghost use Rattle.rs_lists.specs.Text.{joined};
ghost use Rattle.rs_lists.specs.declared.doc.Doc.{Doc};
ghost use Rattle.rs_caps.specs.Cut.{unescape, lines_of, read_number};
ghost use Rattle.rs_caps.specs.Paths.{path_of, doc_of, HasCounts};
ghost use Rattle.rs_caps.specs.Readings.{Document};
ghost use Rattle.rs_caps.specs.Reads.{reads};

/// A text reads as at most one list or index.
pub fn one_reading()
    ensures { (text : List ℕ) (d e : Document) → reads text ≡ Some d → reads text ≡ Some e → d ≡ e }
{}

/// A text whose five characters `&`, `'`, `"`, `>` and `<` are written as references (XML 1.0, section 4.6) reads as
/// the text itself. No text with another use of the five reads.
pub fn escaped_reads()
    ensures read { (text : List ℕ) → unescape (escape text) ≡ Some text }
    ensures exact { (text value : List ℕ) → unescape text ≡ Some value → text ≡ escape value }
{}

/// The decimal digits of every number of 64 bits read as that number. No other text does: no leading zero, no sign and
/// no space.
pub fn numbers_read()
    ensures read { (n : ℕ) → n < 2 ^ 64 → read_number (decimal n) ≡ Some n }
    ensures exact { (text : List ℕ) (n : ℕ) → n < 2 ^ 64 → read_number text ≡ Some n
        → text ≡ decimal n }
{}

/// Lines without a line feed are the lines of the text in which a line feed ends every line. The lines that a text
/// reads as, all ended by a line feed, are the text.
pub fn lines_read()
    ensures read { (lines : List (List ℕ)) → IsTrue (list_all (lacks 10) lines)
        → lines_of (joined lines) ≡ Some lines }
    ensures exact { (text : List ℕ) (lines : List (List ℕ)) → lines_of text ≡ Some lines
        → text ≡ joined lines }
{}

/// The path of a document whose numbers have 64 bits reads as that document, whether it exists or not. A path that
/// reads as a document is the path of that document, and its numbers have 64 bits.
pub fn paths_read()
    ensures read { (doc : Doc) → HasCounts doc → doc_of (path_of doc) ≡ Some doc }
    ensures exact { (path : List ℕ) (doc : Doc) → doc_of path ≡ Some doc
        → (path ≡ path_of doc) × HasCounts doc }
{}
