//! The request in a line of a script.

ghost use Rattle.std.specs.Prelude.{◌≡◌, ◌⊎◌, ◌≤◌, length, IsTrue};
ghost use Rattle.rs_items.specs.Items.{item_of_line};
ghost use Rattle.rs_script.specs.Requests.{request_of, request_alone as alone, request_with as with_argument, at_request as at, show_request as show, item_request, begins_request as begins, begins_item as begins_item_of};
ghost use Rattle.rs_script.specs.Room.{TakesRoom};
ghost use Rattle.rs_script.specs.Statements.{or_refused};

use crate::refusal::Refusal;
use rs_caps::doc_of;
use rs_items::{ItemFault, after, item_of, split_field};
use rs_lists::Doc;
use rs_model::{Command, Item};
use rs_record::{Name, ValueFault, number};
use rs_time::Moment;
use std::alloc::Global;

/// The request in a line of a script.
#[derive(Debug, Drop)]
pub enum Request {
    /// `at MS`: the commands from here on come at this moment.
    At(Moment),
    /// `put NAME HEX TYPE`, `delete NAME` or `publish`.
    Run(Command),
    /// `show PATH` of a document.
    Document(Doc),
    /// `show /resource/NAME`.
    Body(Name),
    /// `status`.
    Status,
    /// `verify`.
    Verify,
}

/// Returns the request in `line` by itself. The line has at most [`LINE_LIMIT`](crate::line::LINE_LIMIT) bytes.
///
/// # Errors
///
/// - [`Refusal::BadGroup`]: the line begins a group, so it is no request by itself.
/// - [`Refusal::Line`]: the line has none of the known forms, a name, a hexadecimal text or a type is the first field
///   that is not lawful, or there is no memory for the name, the type or the bytes.
/// - [`Refusal::BadMoment`]: the field of `at` is no moment.
/// - [`Refusal::NoSuchDocument`]: no document has the path, at any time.
pub fn parse_request(alloc: Global, line: &[u8]) -> Result<Request, Refusal>
    ensures { (result ≡ request_of line.now)
        ⊎ ((result ≡ Err (Refusal.Line ItemFault.NoMemory)) × TakesRoom line.now) }
{
    let Some((word, argument)) = split_field(line) else {
        return request_alone(line);
    };
    match split_field(argument) {
        None => request_with(alloc, line, word, argument),
        Some(_) => parse_item(alloc, line),
    }
}

/// Returns the request of an item by itself.
fn parse_item(alloc: Global, line: &[u8]) -> Result<Request, Refusal>
    ensures { (result ≡ item_request (item_of_line line.now))
        ⊎ ((result ≡ Err (Refusal.Line ItemFault.NoMemory)) × IsTrue (begins_item_of line.now)) }
{
    let command = match item_in_line(alloc, line)? {
        Item::Put { name, kind, bytes } => Command::Put { name, kind, bytes },
        Item::Delete { name } => Command::Delete { name },
    };
    Ok(Request::Run(command))
}

/// Returns the item of a line. It takes memory only if the line begins as an item does.
pub fn item_in_line(alloc: Global, line: &[u8]) -> Result<Item, Refusal>
    ensures { (result ≡ or_refused (item_of_line line.now))
        ⊎ ((result ≡ Err (Refusal.Line ItemFault.NoMemory)) × IsTrue (begins_item_of line.now)) }
{
    if !begins_item(line) {
        return Err(Refusal::Line(ItemFault::BadLine));
    }
    Ok(item_of(alloc, line)?)
}

/// Returns whether `bytes` begin as an item does.
fn begins_item(bytes: &[u8]) -> bool
    ensures { result ≡ begins_item_of bytes.now }
{
    bytes.starts_with(b"put ") || bytes.starts_with(b"delete ")
}

/// Returns whether `bytes` begin as a line with fields after its first word. Any other line that is longer than
/// `publish` is no request.
pub fn begins_request(bytes: &[u8]) -> bool
    ensures { result ≡ begins bytes.now }
{
    bytes.starts_with(b"at ")
        || bytes.starts_with(b"put ")
        || bytes.starts_with(b"delete ")
        || bytes.starts_with(b"show ")
        || bytes.starts_with(b"group ")
}

/// Returns the request in a line of one field.
fn request_alone(word: &[u8]) -> Result<Request, Refusal>
    ensures { result ≡ alone word.now }
{
    if word == b"publish".as_slice() {
        Ok(Request::Run(Command::Publish))
    } else if word == b"status".as_slice() {
        Ok(Request::Status)
    } else if word == b"verify".as_slice() {
        Ok(Request::Verify)
    } else {
        Err(Refusal::Line(ItemFault::BadLine))
    }
}

/// Returns the request in a line of two fields.
fn request_with(
    alloc: Global,
    line: &[u8],
    word: &[u8],
    argument: &[u8],
) -> Result<Request, Refusal>
    ensures { (result ≡ with_argument line.now word.now argument.now)
        ⊎ ((result ≡ Err (Refusal.Line ItemFault.NoMemory))
        × ((9 ≤ length argument.now) ⊎ IsTrue (begins_item_of line.now))) }
{
    if word == b"at".as_slice() {
        return at_request(argument);
    }
    if word == b"show".as_slice() {
        return show_request(alloc, argument);
    }
    if word == b"group".as_slice() {
        return Err(Refusal::BadGroup);
    }
    parse_item(alloc, line)
}

/// Returns the request of an `at` with this field.
fn at_request(ms: &[u8]) -> Result<Request, Refusal>
    ensures { result ≡ at ms.now }
{
    match number(ms, 15) {
        Some(ms) => match Moment::new(ms) {
            Some(moment) => Ok(Request::At(moment)),
            None => Err(Refusal::BadMoment),
        },
        None => Err(Refusal::BadMoment),
    }
}

/// Returns the request of a `show` with this path.
fn show_request(alloc: Global, path: &[u8]) -> Result<Request, Refusal>
    ensures { (result ≡ show path.now)
        ⊎ ((result ≡ Err (Refusal.Line ItemFault.NoMemory)) × (9 ≤ length path.now)) }
{
    let Some(name) = after(b"/resource/", path) else {
        return match doc_of(path) {
            Some(doc) => Ok(Request::Document(doc)),
            None => Err(Refusal::NoSuchDocument),
        };
    };
    match Name::new(alloc, name) {
        Ok(name) => Ok(Request::Body(name)),
        Err(ValueFault::Malformed) => Err(Refusal::Line(ItemFault::BadName)),
        Err(ValueFault::NoMemory) => Err(Refusal::Line(ItemFault::NoMemory)),
    }
}
