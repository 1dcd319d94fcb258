//! The five characters that XML writes as references.

ghost use Rattle.std.specs.Prelude.{◌≡◌, ◌∷◌, [], ◌-◌, ◌^◌, min, length, MatchOption, OnOk, OnErr};
ghost use Rattle.rs_io.specs.Watch.{EndFailed, FailedWithin, Wrote};
ghost use Rattle.rs_lists.specs.Escape.{escape, escaped};

use rs_io::{Watched, WriteFault};
use std::io::Write;

/// Writes `bytes` with `&`, `'`, `"`, `>` and `<` as the references `&amp;`, `&apos;`, `&quot;`,
/// `&gt;` and `&lt;` (XML 1.0, section 4.6; Sitemap 0.9). All other bytes stay unchanged.
///
/// # Errors
///
/// [`WriteFault`] where a write fails. A beginning of the escaped bytes is written then, and no other
/// byte.
pub fn write_escaped<W: Write>(bytes: &[u8], out: &mut Watched<W>) -> Result<(), WriteFault>
    ensures written { OnOk result (Wrote W.contents out.old out.new (escape bytes.now)) }
    ensures fault { OnErr result (EndFailed out.old out.new) }
    ensures within { OnErr result (FailedWithin W.contents out.old out.new (escape bytes.now)) }
{
    let mut start = 0;
    for (i, byte) in bytes.iter().enumerate() {
        if let Some(reference) = reference_of(*byte) {
            out.put(&bytes[start..i])?;
            out.put(reference)?;
            start = i + 1;
        }
    }
    out.put(&bytes[start..])
}

/// Returns the number of bytes that [`write_escaped`] writes, or `u64::MAX` if it writes more.
pub fn escaped_length(bytes: &[u8]) -> u64
    ensures { result ≡ min (length (escape bytes.now)) (2 ^ 64 - 1) }
{
    let mut total = 0u64;
    for byte in bytes {
        let length = match reference_of(*byte) {
            Some(reference) => reference.len() as u64,
            None => 1,
        };
        total = total.saturating_add(length);
    }
    total
}

/// Returns the reference for a byte, or `None` if the byte stays unchanged.
fn reference_of(byte: u8) -> Option<&'static [u8]>
    ensures { MatchOption result (escaped byte ≡ byte ∷ [])
        (λ reference. escaped byte ≡ reference.now) }
{
    match byte {
        b'&' => Some(b"&amp;".as_slice()),
        b'\'' => Some(b"&apos;".as_slice()),
        b'"' => Some(b"&quot;".as_slice()),
        b'>' => Some(b"&gt;".as_slice()),
        b'<' => Some(b"&lt;".as_slice()),
        _ => None,
    }
}
