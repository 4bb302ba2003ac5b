//! Names of files as URI references (RFC 3986, section 2).

ghost use Rattle.std.specs.Prelude.{◌≡◌, ◌++◌, IfOk, OnOk, string_bytes};
ghost use Rattle.sarif.specs.Uris.{encoded, is_plain, uri_of};

use std::alloc::{AllocError, Global};
use texts::push_pair;

/// Whether a byte stands for itself in a path: it is unreserved, or parts folders.
fn is_plain(byte: u8) -> bool
    ensures { result ≡ is_plain byte }
{
    matches!(byte, b'0'..=b'9' | b'A'..=b'Z' | b'a'..=b'z' | b'-' | b'.' | b'/' | b'_' | b'~')
}

/// Adds a byte, which is encoded unless it stands for itself.
fn push_byte(text: &mut String, byte: u8) -> Result<(), AllocError>
    ensures { OnOk result (string_bytes text.new ≡ string_bytes text.old ++ encoded byte) }
{
    if is_plain(byte) {
        return text.push(char::from(byte));
    }
    text.push('%')?;
    push_pair(text, byte)
}

/// Adds some bytes, which are encoded unless they stand for themselves.
fn push_bytes(text: &mut String, bytes: &[u8]) -> Result<(), AllocError>
    ensures { OnOk result
        (string_bytes text.new ≡ string_bytes text.old ++ uri_of bytes.now) }
{
    for byte in bytes {
        push_byte(text, *byte)?;
    }
    Ok(())
}

/// The reference to a file with a name.
pub(crate) fn uri_of(alloc: Global, name: &str) -> Result<String, AllocError>
    ensures { IfOk result (λ uri. string_bytes uri ≡ uri_of name.now) }
{
    let mut uri = String::new(alloc);
    push_bytes(&mut uri, name.as_bytes())?;
    Ok(uri)
}
