//! The head of a request.

ghost use Rattle.std.specs.Prelude.{◌≡◌, ℕ, List, ◌<◌, ◌≤◌, ◌+◌, length, take, IfOk, OnErr, IfNone, option_to_list};
ghost use Rattle.std.specs.Io.KnownBytes.{Consumes, Keeps, IsAtEnd};
ghost use Rattle.rs_io.specs.Watch.{watched, calls, failures, EndFailed, Took};
ghost use Rattle.rs_store.specs.Received.{ReadsFor};
ghost use Rattle.rs_http.specs.Head.{ends_head, HasNoEnd, HeadIs, head_reads};

use rs_io::{ReadFault, Watched};
use std::io::Read;

/// The longest head, in bytes.
pub(crate) const HEAD_LIMIT: usize = 8192;

/// The result of reading a head.
#[derive(Clone, Copy, Debug, PartialEq, Eq)]
pub(crate) enum HeadRead {
    /// The head came whole.
    Whole,
    /// The head did not end within the limit.
    TooLong,
    /// The input ended within the head.
    Ended,
}

/// Returns whether the bytes end as a head does.
#[tactic(auto, unfolding(crate::specs::Head::ends_head))]
fn is_end(bytes: &[u8]) -> bool
    ensures { result ≡ ends_head bytes.now (length bytes.now) }
{
    let n = bytes.len();
    n >= 2
        && bytes[n - 1] == b'\n'
        && (bytes[n - 2] == b'\n' || (n >= 3 && bytes[n - 2] == b'\r' && bytes[n - 3] == b'\n'))
}

/// Returns the next byte of the input, or `None` at its end.
///
/// # Errors
///
/// [`ReadFault`] if the read failed.
pub(crate) fn read_byte<R: Read>(reader: &mut Watched<R>) -> Result<Option<u8>, ReadFault>
    ensures ok { IfOk result (λ byte.
        Took R.remaining reader.old reader.new (option_to_list byte)) }
    ensures end { IfOk result (λ byte. IfNone byte (IsAtEnd (R.remaining (watched reader.new)))) }
    ensures err { OnErr result
        (Keeps (R.remaining (watched reader.old)) (R.remaining (watched reader.new))) }
    ensures failed { OnErr result (EndFailed reader.old reader.new) }
    ensures called { calls reader.new ≤ calls reader.old + 1 }
    ensures once { (failures reader.new).all ≤ (failures reader.old).all + 1 }
{
    let mut byte = [0u8; 1];
    let count = reader.read(&mut byte)?;
    if count == 0 {
        return Ok(None);
    }
    Ok(Some(byte[0]))
}

/// Reads the head of a request and no byte after it, and returns the number of bytes read.
///
/// # Errors
///
/// [`ReadFault`] if a read failed, within the head and before its limit.
pub(crate) fn read_head<R: Read>(
    reader: &mut Watched<R>,
    buf: &mut [u8],
) -> Result<(HeadRead, usize), ReadFault>
    requires { length buf.old ≡ 8192 }
    ensures ok { IfOk result (λ r. (r.1 ≤ 8192)
        × Took R.remaining reader.old reader.new (take r.1 buf.new)
        × HeadIs (take r.1 buf.new) r.0) }
    ensures end { IfOk result (λ r. r.0 ≡ HeadRead.Ended
        → IsAtEnd (R.remaining (watched reader.new))) }
    ensures err { OnErr result ((bytes : List ℕ)
        × Consumes (R.remaining (watched reader.old)) (R.remaining (watched reader.new)) bytes
        × HasNoEnd bytes × (length bytes < 8192)
        × ReadsFor 1 reader.old reader.new bytes) }
    ensures reads { IfOk result (λ r.
        ReadsFor (head_reads r.0) reader.old reader.new (take r.1 buf.new)) }
    ensures failed { OnErr result (EndFailed reader.old reader.new) }
{
    for came in 0..buf.len() {
        let Some(byte) = read_byte(reader)? else {
            return Ok((HeadRead::Ended, came));
        };
        buf[came] = byte;
        if is_end(&buf[..came + 1]) {
            return Ok((HeadRead::Whole, came + 1));
        }
    }
    Ok((HeadRead::TooLong, buf.len()))
}
