//! The parts of a head, and its fields by name.

ghost use Rattle.std.specs.Prelude.{◌≡◌, length, All, map, codes, bytes_eq};
ghost use Rattle.std.specs.Str.{str_eq_ignore_ascii_case};
ghost use Rattle.httparse.specs.Spans.{header_bytes, IsHeaderWithin, IsWithin, span_bytes};
ghost use Rattle.rs_http.specs.Fields.{values_of, LoneIs, head_parts_at};
ghost use Rattle.rs_http.specs.Checks.{is_get as gets, is_post as posts, is_continue as says_continue, expects_word as says_word};

use httparse::spans::{HeaderSpan, RequestSpans};
use std::marker::Model;

/// The fields of one name.
#[derive(Clone, Copy, Debug)]
pub(crate) enum Lone<'a> {
    /// No field has the name.
    Absent,
    /// One field has the name, with this value.
    One(&'a [u8]),
    /// Several fields have the name.
    Many,
}

/// Returns whether two texts are the same, apart from case.
pub(crate) fn is_same(a: &[u8], b: &[u8]) -> bool
    ensures { result ≡ str_eq_ignore_ascii_case a.now b.now }
{
    a.eq_ignore_ascii_case(b)
}

/// Returns whether a field has this name.
fn is_named(head: &[u8], header: &HeaderSpan, name: &[u8]) -> bool
    requires { IsHeaderWithin (length head.now) header.now }
    ensures { result ≡ str_eq_ignore_ascii_case (span_bytes head.now header.now.name) name.now }
{
    is_same(header.name.of(head), name)
}

/// Returns the fields of a name.
fn find_lone<'a>(head: &'a [u8], headers: &[HeaderSpan], name: &[u8]) -> Lone<'a>
    requires { All (IsHeaderWithin (length head.now)) headers.now }
    ensures { LoneIs result (values_of name.now (map (header_bytes head.now) headers.now)) }
{
    let mut found = Lone::Absent;
    for header in headers {
        if is_named(head, header, name) {
            found = match found {
                Lone::Absent => Lone::One(header.value.of(head)),
                Lone::One(_) | Lone::Many => Lone::Many,
            };
        }
    }
    found
}

/// Returns whether an `Expect` says `100-continue`.
fn is_continue(head: &[u8], headers: &[HeaderSpan]) -> bool
    requires { All (IsHeaderWithin (length head.now)) headers.now }
    ensures { result
        ≡ says_continue (values_of (codes "expect") (map (header_bytes head.now) headers.now)) }
{
    let mut found = false;
    for header in headers {
        if is_named(head, header, b"expect") && is_same(header.value.of(head), b"100-continue") {
            found = true;
        }
    }
    found
}

/// The parts of a head, as they lie in its bytes.
#[derive(Drop)]
pub(crate) struct HeadParts<'a> {
    head: &'a [u8],
    spans: RequestSpans,
    headers: &'a [HeaderSpan],
}

impl<'a> Model for HeadParts<'a> {
    ghost use Rattle.std.specs.Prelude.{length, All};
    ghost use Rattle.httparse.specs.Spans.{IsHeaderWithin, IsWithin};
    ghost use Rattle.rs_http.specs.Fields.{Parts, head_parts_at};

    ghost Value = { Parts };

    ghost view = { λ h. head_parts_at h.head.now h.spans h.headers.now };

    ghost invariant = { λ h. IsWithin (length h.head.now) h.spans.method
        × IsWithin (length h.head.now) h.spans.path
        × All (IsHeaderWithin (length h.head.now)) h.headers.now };
}

impl<'a> HeadParts<'a> {
    /// Returns the parts at these spans and headers of a head.
    pub(crate) fn new(
        head: &'a [u8],
        spans: RequestSpans,
        headers: &'a [HeaderSpan],
    ) -> HeadParts<'a>
        requires method { IsWithin (length head.now) spans.method }
        requires target { IsWithin (length head.now) spans.path }
        requires headers { All (IsHeaderWithin (length head.now)) headers.now }
        ensures { result ≡ head_parts_at head.now spans headers.now }
    {
        HeadParts {
            head,
            spans,
            headers,
        }
    }

    /// Returns whether its method has this name.
    pub(crate) fn has_method(&self, name: &[u8]) -> bool
        ensures { result ≡ bytes_eq self.now.method name.now }
    {
        self.spans.method.of(self.head) == name
    }

    /// Returns whether its method is `GET` or `HEAD`.
    pub(crate) fn is_get(&self) -> bool
        ensures { result ≡ gets self.now.method }
    {
        self.has_method(b"GET") || self.has_method(b"HEAD")
    }

    /// Returns whether its method is `POST`.
    pub(crate) fn is_post(&self) -> bool
        ensures { result ≡ posts self.now.method }
    {
        self.has_method(b"POST")
    }

    /// Returns its target.
    pub(crate) fn target(&self) -> &'a [u8]
        ensures { result.now ≡ self.now.target }
    {
        self.spans.path.of(self.head)
    }

    /// Returns the minor number of its version.
    pub(crate) fn minor(&self) -> u8
        ensures { result ≡ self.now.minor }
    {
        self.spans.version
    }

    /// Returns the number of its fields.
    pub(crate) fn field_count(&self) -> usize
        ensures { result ≡ length self.now.fields }
    {
        self.headers.len()
    }

    /// Returns whether it has no field of a name, one with its value, or several.
    pub(crate) fn fields(&self, name: &[u8]) -> Lone<'a>
        ensures { LoneIs result (values_of name.now self.now.fields) }
    {
        find_lone(self.head, self.headers, name)
    }

    /// Returns whether it is of HTTP/1.1 and expects the word to go on.
    pub(crate) fn expects_word(&self) -> bool
        ensures { result ≡ says_word self.now }
    {
        self.spans.version == 1 && is_continue(self.head, self.headers)
    }
}
