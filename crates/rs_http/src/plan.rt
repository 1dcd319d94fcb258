//! The request that a head asks for.

ghost use Rattle.std.specs.Prelude.{◌≡◌, ◌≤◌, ℕ, List, length, IfSome, IfNone, IsTrue, Some, true, false, unwrap_or};
ghost use Rattle.httparse.specs.Grammar.{HasNoRequest};
ghost use Rattle.httparse.specs.Spans.{IsRequestWithin, IsRequestOf};
ghost use Rattle.rs_record.specs.MediaType.{is_media_type};
ghost use Rattle.rs_http.specs.Fields.{LoneIs};
ghost use Rattle.rs_http.specs.Checks.{is_bad_type, stated_type, stated_in, kinds_in, expects_word as says_word, group_head_causes, group_plan as plan_of_group, causes_of, plan_at as plan_there, place_in};
ghost use Rattle.rs_http.specs.Requests.{IsPlanFor, IsPutPlan, IsPlanAt, AsksFor, Asks, refused_for};

use crate::checks::check_fields;
use crate::fields::{HeadParts, Lone};
use crate::head::HeadRead;
use crate::request::{Request, RequestFault, RequestPlan};
use crate::target::{Methods, NameInHead, Place, path_of_target, place_of};
use httparse::Status;
use httparse::spans::{EMPTY_HEADER_SPAN, HeaderSpan, RequestSpans, parse_request};
use rs_items::ItemFault;
use rs_record::{LONGEST_BODY, MediaType};
use std::alloc::Global;

/// Returns the media type that the fields state for a body, unless it is unlawful or a second one.
fn stated_kind(lone: Lone<'_>) -> Option<&[u8]>
    ensures some { IfSome result (λ kind. (kinds : List (List ℕ)) → LoneIs lone.entry kinds
        → (is_bad_type kinds ≡ false) × (kind.now ≡ stated_type kinds)) }
    ensures lawful { IfSome result (λ kind. IsTrue (is_media_type kind.now)) }
    ensures none { IfNone result
        ((kinds : List (List ℕ)) → LoneIs lone.entry kinds → is_bad_type kinds ≡ true) }
{
    match lone {
        Lone::Absent => Some(b"application/octet-stream"),
        Lone::One(text) if MediaType::is_lawful(text) => Some(text),
        Lone::One(_) | Lone::Many => None,
    }
}

/// Returns the plan of a put with the length that the fields state.
fn put_plan(
    alloc: Global,
    head: &HeadParts<'_>,
    stated: Option<u64>,
    name: NameInHead<'_>,
) -> Result<RequestPlan, RequestFault>
    ensures { IsPutPlan name.entry stated (kinds_in head.now.fields) (says_word head.now) result }
{
    let length = stated.ok_or(RequestFault::NoLength)?;
    let kind = stated_kind(head.fields(b"content-type")).ok_or(ItemFault::BadType)?;
    if length > LONGEST_BODY as u64 {
        return Err(RequestFault::TooLong);
    }
    Ok(RequestPlan::Put {
        name: name.to_name(alloc)?,
        kind: MediaType::from_lawful(alloc, kind)?,
        length,
        waits: head.expects_word() && length > 0,
    })
}

/// Returns the plan of a group, with the length that the fields state.
fn group_plan(stated: Option<u64>, expects: bool) -> Result<RequestPlan, RequestFault>
    ensures { IsPlanFor (group_head_causes stated)
        (Some (plan_of_group (unwrap_or stated 0) expects)) result }
{
    let length = stated.ok_or(RequestFault::NoLength)?;
    if length > LONGEST_BODY as u64 {
        return Err(RequestFault::TooLong);
    }
    Ok(RequestPlan::Group {
        length,
        waits: expects && length > 0,
    })
}

/// Returns the plan of a request for a resource.
fn resource_plan(
    alloc: Global,
    head: &HeadParts<'_>,
    stated: Option<u64>,
    name: NameInHead<'_>,
) -> Result<RequestPlan, RequestFault>
    requires { stated ≡ stated_in head.now }
    ensures { IsPlanAt (Place.Resource name.entry) head.now result }
{
    if head.has_method(b"PUT") {
        return put_plan(alloc, head, stated, name);
    }
    if head.has_method(b"DELETE") {
        return Ok(RequestPlan::Delete(name.to_name(alloc)?));
    }
    if head.is_get() {
        return Ok(RequestPlan::ShowBody(name.to_name(alloc)?));
    }
    Err(RequestFault::BadMethod(Methods::OfResources))
}

/// Returns the plan of a request for a place.
fn plan_at(
    alloc: Global,
    head: &HeadParts<'_>,
    stated: Option<u64>,
    place: Place<'_>,
) -> Result<RequestPlan, RequestFault>
    requires { stated ≡ stated_in head.now }
    ensures { IsPlanAt place.entry head.now result }
{
    match place {
        Place::Resource(name) => resource_plan(alloc, head, stated, name),
        Place::Unlawful => Err(RequestFault::Line(ItemFault::BadName)),
        Place::Document(doc) if head.is_get() => Ok(RequestPlan::ShowDocument(doc)),
        Place::Document(_) => Err(RequestFault::BadMethod(Methods::OfDocuments)),
        Place::Publishing if head.is_post() => Ok(RequestPlan::Publish),
        Place::Grouping if head.is_post() => group_plan(stated, head.expects_word()),
        Place::Publishing | Place::Grouping => Err(RequestFault::BadMethod(Methods::OfPosts)),
        Place::Nowhere => Err(RequestFault::NoSuchDocument),
    }
}

/// Returns the plan of a head with these parts.
fn plan_request(alloc: Global, head: &HeadParts<'_>) -> Result<RequestPlan, RequestFault>
    ensures { IsPlanFor (causes_of head.now) (plan_there (place_in head.now) head.now) result }
{
    let stated = check_fields(head)?;
    plan_at(alloc, head, stated, place_of(path_of_target(head.target())))
}

/// Room for more fields than 8,192 bytes can hold.
const ROOM: usize = 2731;

/// Parses the head at the front of some bytes. `headers` has room for all its fields.
fn parse_head(head: &[u8], headers: &mut [HeaderSpan]) -> Option<RequestSpans>
    requires short { length head.now ≤ 8192 }
    requires room { length headers.old ≡ 2731 }
    ensures within { IfSome result (IsRequestWithin head.now headers.new) }
    ensures some { IfSome result (IsRequestOf head.now headers.new) }
    ensures none { IfNone result (HasNoRequest head.now) }
{
    match parse_request(head, headers) {
        Ok(Status::Complete(spans)) => Some(spans),
        Ok(Status::Partial) => None,
        Err(_) => None,
    }
}

/// Returns a request that is refused before its head is known.
fn refused_request(fault: RequestFault) -> Request
    ensures { result ≡ refused_for fault }
{
    Request {
        is_head: false,
        plan: Err(fault),
    }
}

/// Returns the request that a head asks for, with room for its fields.
fn read_with(alloc: Global, head: &[u8], headers: &mut [HeaderSpan]) -> Request
    requires short { length head.now ≤ 8192 }
    requires room { length headers.old ≡ 2731 }
    ensures { AsksFor head.now result }
{
    let Some(spans) = parse_head(head, headers) else {
        return refused_request(RequestFault::BadHead);
    };
    let parts = HeadParts::new(head, spans, &headers[..spans.headers]);
    Request {
        is_head: parts.has_method(b"HEAD"),
        plan: plan_request(alloc, &parts),
    }
}

/// Returns the request that a head asks for.
fn read_whole(alloc: Global, head: &[u8]) -> Request
    requires { length head.now ≤ 8192 }
    ensures { AsksFor head.now result }
{
    let mut headers = [EMPTY_HEADER_SPAN; ROOM];
    read_with(alloc, head, &mut headers)
}

/// Returns the request that the bytes at the front of an input ask for, or `None` if no byte came.
pub(crate) fn read_request(alloc: Global, bytes: &[u8], read: HeadRead) -> Option<Request>
    requires { length bytes.now ≤ 8192 }
    ensures { Asks bytes.now read result }
{
    match read {
        HeadRead::Whole => Some(read_whole(alloc, bytes)),
        HeadRead::TooLong => Some(refused_request(RequestFault::HeadTooLong)),
        HeadRead::Ended => {
            if bytes.is_empty() {
                return None;
            }
            Some(refused_request(RequestFault::BadHead))
        }
    }
}
