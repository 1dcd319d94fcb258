//! The statuses of responses.

ghost use Rattle.std.specs.Prelude.{◌≡◌};
ghost use Rattle.rs_http.specs.Statuses.{code_of, phrase_of};

/// The status of a response (RFC 9110, section 15; 507 is of RFC 4918, section 11.5).
#[derive(Clone, Copy, Debug, PartialEq, Eq)]
pub enum StatusCode {
    /// 200: the response has the requested value.
    Ok,
    /// 201: a put made the resource.
    Created,
    /// 204: a put or a delete was done.
    NoContent,
    /// 400: the request is malformed.
    BadRequest,
    /// 404: no resource or document is at the path.
    NotFound,
    /// 405: the place does not allow the method.
    MethodNotAllowed,
    /// 411: the body has no stated length.
    LengthRequired,
    /// 413: the body is too long.
    ContentTooLarge,
    /// 431: the head is too long, or has too many fields.
    RequestHeaderFieldsTooLarge,
    /// 500: the source cannot do it.
    InternalServerError,
    /// 501: the body has a coding.
    NotImplemented,
    /// 503: the source is closed, or there is no memory.
    ServiceUnavailable,
    /// 507: there is no room.
    InsufficientStorage,
}

impl StatusCode {
    /// Returns its number, of three digits.
    pub fn code(self) -> u16
        ensures { result ≡ code_of self }
    {
        match self {
            StatusCode::Ok => 200,
            StatusCode::Created => 201,
            StatusCode::NoContent => 204,
            StatusCode::BadRequest => 400,
            StatusCode::NotFound => 404,
            StatusCode::MethodNotAllowed => 405,
            StatusCode::LengthRequired => 411,
            StatusCode::ContentTooLarge => 413,
            StatusCode::RequestHeaderFieldsTooLarge => 431,
            StatusCode::InternalServerError => 500,
            StatusCode::NotImplemented => 501,
            StatusCode::ServiceUnavailable => 503,
            StatusCode::InsufficientStorage => 507,
        }
    }

    /// Returns its reason phrase.
    pub(crate) fn phrase(self) -> &'static str
        ensures { result.now ≡ phrase_of self }
    {
        match self {
            StatusCode::Ok => "OK",
            StatusCode::Created => "Created",
            StatusCode::NoContent => "No Content",
            StatusCode::BadRequest => "Bad Request",
            StatusCode::NotFound => "Not Found",
            StatusCode::MethodNotAllowed => "Method Not Allowed",
            StatusCode::LengthRequired => "Length Required",
            StatusCode::ContentTooLarge => "Content Too Large",
            StatusCode::RequestHeaderFieldsTooLarge => "Request Header Fields Too Large",
            StatusCode::InternalServerError => "Internal Server Error",
            StatusCode::NotImplemented => "Not Implemented",
            StatusCode::ServiceUnavailable => "Service Unavailable",
            StatusCode::InsufficientStorage => "Insufficient Storage",
        }
    }
}
