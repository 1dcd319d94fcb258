//! The checks of fields that every request undergoes.

ghost use Rattle.std.specs.Prelude.{◌≡◌, ℕ, List, IfOk, IfErr, Some, None, true, false};
ghost use Rattle.rs_http.specs.Fields.{LoneIs};
ghost use Rattle.rs_http.specs.Checks.{is_bad_host as has_bad_host, is_there as has_one, is_bad_length, stated_length, stated_in, field_causes, first_fault};

use crate::fields::{HeadParts, Lone};
use crate::request::RequestFault;
use rs_record::number;

/// The most fields of a head.
const MOST_FIELDS: usize = 32;

/// The most digits of a length.
const LENGTH_DIGITS: usize = 18;

/// Returns whether there is more than one Host, or no Host in HTTP/1.1.
fn is_bad_host(minor: u8, host: Lone<'_>) -> bool
    ensures { (hosts : List (List ℕ)) → LoneIs host.entry hosts
        → result ≡ has_bad_host minor hosts }
{
    match host {
        Lone::Absent => minor == 1,
        Lone::One(_) => false,
        Lone::Many => true,
    }
}

/// Returns whether there is a field.
fn is_there(lone: Lone<'_>) -> bool
    ensures { (values : List (List ℕ)) → LoneIs lone.entry values → result ≡ has_one values }
{
    match lone {
        Lone::Absent => false,
        Lone::One(_) | Lone::Many => true,
    }
}

/// Returns the length that the fields of a head state, or `BadLength`.
fn body_length(lone: Lone<'_>) -> Result<Option<u64>, RequestFault>
    ensures ok { IfOk result (λ length. (values : List (List ℕ)) → LoneIs lone.entry values
        → (is_bad_length values ≡ false) × (length ≡ stated_length values)) }
    ensures err { IfErr result (λ fault. (fault ≡ RequestFault.BadLength)
        × ((values : List (List ℕ)) → LoneIs lone.entry values → is_bad_length values ≡ true)) }
{
    match lone {
        Lone::Absent => Ok(None),
        Lone::Many => Err(RequestFault::BadLength),
        Lone::One(text) => match number(text, LENGTH_DIGITS) {
            Some(length) => Ok(Some(length)),
            None => Err(RequestFault::BadLength),
        },
    }
}

/// Checks the fields of any request, and returns the length that they state.
///
/// # Errors
///
/// The first of [`RequestFault::ManyFields`], [`RequestFault::BadHost`], [`RequestFault::TransferEncoding`] and
/// [`RequestFault::BadLength`] that applies.
pub(crate) fn check_fields(head: &HeadParts<'_>) -> Result<Option<u64>, RequestFault>
    ensures ok { IfOk result (λ _. first_fault (field_causes head.now) ≡ None) }
    ensures stated { IfOk result (λ stated. stated ≡ stated_in head.now) }
    ensures err { IfErr result (λ fault. first_fault (field_causes head.now) ≡ Some fault) }
{
    if head.field_count() > MOST_FIELDS {
        return Err(RequestFault::ManyFields);
    }
    if is_bad_host(head.minor(), head.fields(b"host")) {
        return Err(RequestFault::BadHost);
    }
    if is_there(head.fields(b"transfer-encoding")) {
        return Err(RequestFault::TransferEncoding);
    }
    body_length(head.fields(b"content-length"))
}
