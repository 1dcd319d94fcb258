//! The plan of a request, or the reason why it is refused before the source sees it.

ghost use Rattle.std.specs.Prelude.{◌≡◌};

use crate::target::Methods;
use rs_items::ItemFault;
use rs_lists::Doc;
use rs_record::{MediaType, Name};
use std::alloc::AllocError;

/// The fault of a request that is refused before the source sees it. The first cause in this order counts. Causes in
/// the lines of a group come after all causes in its head, and there the first line with a cause counts.
#[derive(Clone, Copy, Debug, PartialEq, Eq)]
pub(crate) enum RequestFault {
    /// The head has not ended in 8,192 bytes.
    HeadTooLong,
    /// The input ended within the head, or the head does not parse.
    BadHead,
    /// The head has more than 32 fields.
    ManyFields,
    /// There is more than one Host, or no Host in HTTP/1.1.
    BadHost,
    /// There is a Transfer-Encoding.
    TransferEncoding,
    /// There is more than one Content-Length, or it is not 1 to 18 digits.
    BadLength,
    /// No document has the path, at any time.
    NoSuchDocument,
    /// The method is not allowed there. These are.
    BadMethod(Methods),
    /// A PUT or a group states no length.
    NoLength,
    /// A PUT or a group of more than 16,777,216 bytes.
    TooLong,
    /// A name, a type or a line of a group is not lawful, or there is no memory for it. A second type is not lawful.
    Line(ItemFault),
}

/// The plan of a request.
#[derive(Debug, Drop)]
pub(crate) enum RequestPlan {
    /// The body of a resource.
    ShowBody(Name),
    /// A document.
    ShowDocument(Doc),
    /// A put: its name, its type, the length of its body in bytes, and whether the client waits for the word to go on
    /// before it sends the body.
    Put {
        name: Name,
        kind: MediaType,
        length: u64,
        waits: bool,
    },
    /// A delete.
    Delete(Name),
    /// A publish.
    Publish,
    /// A group: the length of its body in bytes, which has its lines, and whether the client waits as in a put.
    Group {
        length: u64,
        waits: bool,
    },
}

impl From<ItemFault> for RequestFault {
    ghost use Rattle.rs_http.specs.declared.request.RequestFault.TheVariants.{Line};

    ghost from_gives = { λ fault made. made ≡ Line fault };

    fn from(fault: ItemFault) -> RequestFault {
        RequestFault::Line(fault)
    }
}

impl From<AllocError> for RequestFault {
    ghost use Rattle.rs_http.specs.declared.request.RequestFault.TheVariants.{Line};
    ghost use Rattle.rs_items.specs.declared.item.ItemFault.TheVariants.{NoMemory};

    ghost from_gives = { λ _ made. made ≡ Line NoMemory };

    fn from(_: AllocError) -> RequestFault {
        RequestFault::Line(ItemFault::NoMemory)
    }
}

/// A request.
#[derive(Debug, Drop)]
pub(crate) struct Request {
    /// Whether its method is known to be HEAD. Its response then has no body.
    pub(crate) is_head: bool,
    /// Its plan, or the reason why it is refused.
    pub(crate) plan: Result<RequestPlan, RequestFault>,
}
