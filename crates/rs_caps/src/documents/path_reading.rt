//! Reading a path: which document has it.

ghost use Rattle.std.specs.Prelude.{◌≡◌, ◌==◌, ◌^◌, ℕ, nat_lt, if◌then◌else◌, IsTrue, option_copied, option_map, IfSome};
ghost use Rattle.std.specs.List.{position, list_all};
ghost use Rattle.rs_time.specs.ReadMoment.{number_after};
ghost use Rattle.rs_lists.specs.declared.doc.Doc.{Doc};
ghost use Rattle.rs_caps.specs.Cut.{strip as what_follows, cut as cut_at, is_number as is_number_text};
ghost use Rattle.rs_record.specs.Bytes.{is_digit as is_digit_byte};
ghost use Rattle.rs_caps.specs.Paths.{path_of, HasCounts, if_path_of, read_count as count_of, last_part, resource_part as resource_part_of, change_part as change_part_of, doc_of as document_of};

use rs_lists::Doc;

/// Returns the document that has this path, or `None`. A path begins with `/` and follows the base of a source.
///
/// The path of a part reads as that part even where the part does not exist. Its numbers are decimal, without leading
/// zeros and below 2^64.
pub fn doc_of(path: &[u8]) -> Option<Doc>
    ensures value { result ≡ document_of path.now }
    ensures place { IfSome result (λ doc. path.now ≡ path_of doc) }
    ensures known { (doc : Doc) → HasCounts doc → path.now ≡ path_of doc → result ≡ Some doc }
{
    document_at(path)
}

/// Returns the document that has this path.
#[tactic(auto, unfolding(crate::specs::Paths::doc_of))]
fn document_at(path: &[u8]) -> Option<Doc>
    ensures { result ≡ document_of path.now }
{
    resource_part(path)
        .or_else(|| change_part(path))
        .or_else(|| if_at(Doc::ResourceHead, b"/resourcelist.xml", path))
        .or_else(|| if_at(Doc::ChangeHead, b"/changelist.xml", path))
        .or_else(|| if_at(Doc::Capabilities, b"/capabilitylist.xml", path))
        .or_else(|| if_at(Doc::Description, b"/.well-known/resourcesync", path))
}

/// Returns the document, where this is its path.
fn if_at(doc: Doc, place: &[u8], path: &[u8]) -> Option<Doc>
    requires { place.now ≡ path_of doc }
    ensures { result ≡ if_path_of doc path.now }
{
    if path == place { Some(doc) } else { None }
}

/// Returns the part of a Resource List at `/resourcelist/P/K.xml`.
#[tactic(auto, unfolding(crate::specs::Paths::resource_part))]
fn resource_part(path: &[u8]) -> Option<Doc>
    ensures { result ≡ resource_part_of path.now }
{
    let numbers = strip(b"/resourcelist/", path)?;
    let (digits, rest) = cut(b'/', numbers);
    let publication = read_count(digits)?;
    let part = part_number(strip(b"/", rest)?)?;
    Some(Doc::ResourcePart { publication, part })
}

/// Returns the part of a Change List at `/changelist/K.xml`.
#[tactic(auto, unfolding(crate::specs::Paths::change_part))]
fn change_part(path: &[u8]) -> Option<Doc>
    ensures { result ≡ change_part_of path.now }
{
    let part = part_number(strip(b"/changelist/", path)?)?;
    Some(Doc::ChangePart { part })
}

/// Returns the number of `K.xml`, for any document that has it.
#[tactic(auto, unfolding(crate::specs::Paths::last_part))]
fn part_number(text: &[u8]) -> Option<u64>
    ensures { (part : ℕ → Doc) → option_map part result ≡ last_part part text.now }
{
    let (digits, ending) = cut(b'.', text);
    let number = read_count(digits)?;
    let rest = strip(b".xml", ending)?;
    if rest.is_empty() { Some(number) } else { None }
}

/// Returns the text after the prefix, where the text begins with it.
pub(crate) fn strip<'a>(prefix: &[u8], text: &'a [u8]) -> Option<&'a [u8]>
    ensures { option_copied result ≡ what_follows prefix.now text.now }
{
    text.strip_prefix(prefix)
}

/// Returns the text before the first such mark, and the rest from the mark on.
fn cut(mark: u8, text: &[u8]) -> (&[u8], &[u8])
    ensures { (result.0.now, result.1.now) ≡ cut_at mark text.now }
{
    match find(mark, text) {
        Some(at) => text.split_at(at),
        None => (text, &[]),
    }
}

/// Returns the place of the first such mark.
fn find(mark: u8, text: &[u8]) -> Option<usize>
    ensures { result ≡ position (λ byte. byte == mark) text.now }
{
    text.iter().position(|byte| *byte == mark)
}

/// Returns the number of 64 bits that the text writes.
#[tactic(auto, unfolding(crate::specs::Paths::read_count, crate::specs::Cut::read_number))]
fn read_count(text: &[u8]) -> Option<u64>
    ensures { result ≡ count_of text.now }
{
    if is_number(text) {
        read_digits(text)
    } else {
        None
    }
}

/// Returns whether the text is digits, without a 0 before another digit.
fn is_number(text: &[u8]) -> bool
    ensures { result ≡ is_number_text text.now }
{
    match text {
        [] => false,
        [b'0', _, ..] => false,
        _ => are_digits(text),
    }
}

/// Returns whether every byte is a digit.
fn are_digits(text: &[u8]) -> bool
    ensures { result ≡ list_all is_digit_byte text.now }
{
    text.iter().all(|byte| byte.is_ascii_digit())
}

/// Returns the number that digits write, if it has 64 bits.
fn read_digits(digits: &[u8]) -> Option<u64>
    requires { IsTrue (list_all is_digit_byte digits.now) }
    ensures { result ≡ (if nat_lt (number_after 0 digits.now) (2 ^ 64)
        then Some (number_after 0 digits.now) else None) }
{
    let mut count = 0u64;
    for digit in digits {
        count = count
            .checked_mul(10)?
            .checked_add(u64::from(*digit - b'0'))?;
    }
    Some(count)
}
