//! The body of a request, in memory.

ghost use Rattle.std.specs.Prelude.{◌≡◌, ◌≤◌, ◌+◌, ℕ, List, length, IfOk, IfErr, OnOk, IsErrOf};
ghost use Rattle.std.specs.Io.KnownBytes.{Consumes};
ghost use Rattle.rs_io.specs.Watch.{watched, calls, TellsEnd, Took};
ghost use Rattle.rs_store.specs.Received.{ReadsFor};
ghost use Rattle.rs_http.specs.Groups.{IsUnread};

use rs_io::Watched;
use rs_store::{Refusal, read_into};
use std::alloc::Global;
use std::io::Read;

/// Reads the next `body_length` bytes of a reader into memory.
///
/// # Errors
///
/// - [`Refusal::ReadFault`] if a read failed,
/// - [`Refusal::ShortBody`] if the input ended within them,
/// - [`Refusal::NoMemory`] if there is no memory for them. No byte is read then.
pub(crate) fn read_body<R: Read>(
    alloc: Global,
    reader: &mut Watched<R>,
    body_length: u64,
) -> Result<Vec<u8>, Refusal>
    ensures ok { IfOk result (λ body. (length body.items ≡ body_length)
        × Took R.remaining reader.old reader.new body.items) }
    ensures unread { IfErr result (λ refusal. (came : List ℕ)
        × Consumes (R.remaining (watched reader.old)) (R.remaining (watched reader.new)) came
        × IsUnread body_length (R.remaining (watched reader.new)) came refusal
        × ReadsFor 1 reader.old reader.new came) }
    ensures reads { OnOk result (calls reader.new ≤ calls reader.old + body_length) }
    ensures failed { TellsEnd (IsErrOf result Refusal.ReadFault) reader.old reader.new }
{
    let mut body = vec![in alloc; 0u8; body_length as usize]?;
    read_into(reader, &mut body)?;
    Ok(body)
}
