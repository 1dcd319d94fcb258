//! Common pieces of the expected texts, spelled by hand from docs/DOCUMENTS.md. Their base is `http://127.0.0.1:8080`,
//! and their digests are those of no bytes in RFC 1321 (A.5) and of "" in FIPS 180-4.

use std::alloc::{AllocError, Global};

/// The first lines of a list.
pub const LIST_FRONT: &[u8] = b"<?xml version=\"1.0\" encoding=\"UTF-8\"?>
<urlset xmlns=\"http://www.sitemaps.org/schemas/sitemap/0.9\" xmlns:rs=\"http://www.openarchives.org/rs/terms/\">
<rs:ln rel=\"up\" href=\"http://127.0.0.1:8080/capabilitylist.xml\"/>
";

/// The line that follows them in a part of the Change List.
pub const INDEX_LINK: &[u8] =
    b"<rs:ln rel=\"index\" href=\"http://127.0.0.1:8080/changelist.xml\"/>\n";

/// The last line of a list.
pub const LIST_END: &[u8] = b"</urlset>\n";

/// The first lines of an index.
pub const INDEX_FRONT: &[u8] = b"<?xml version=\"1.0\" encoding=\"UTF-8\"?>
<sitemapindex xmlns=\"http://www.sitemaps.org/schemas/sitemap/0.9\" xmlns:rs=\"http://www.openarchives.org/rs/terms/\">
<rs:ln rel=\"up\" href=\"http://127.0.0.1:8080/capabilitylist.xml\"/>
";

/// The last line of an index.
pub const INDEX_END: &[u8] = b"</sitemapindex>\n";

/// The end of the entry of a resource without bytes.
pub const NO_BYTES: &[u8] =
    b" hash=\"md5:d41d8cd98f00b204e9800998ecf8427e sha-256:e3b0c44298fc1c149afbf4c8996fb92427ae41e4649b934ca495991b7852b855\" length=\"0\" type=\"text/plain\"/></url>\n";

/// Returns the text of these pieces.
pub fn joined(alloc: Global, pieces: &[&[u8]]) -> Result<Vec<u8>, AllocError> {
    let mut text = Vec::new(alloc);
    for piece in pieces {
        text.extend_from_slice(piece)?;
    }
    Ok(text)
}
