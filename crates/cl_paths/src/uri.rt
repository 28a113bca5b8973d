ghost use Rattle.std.specs.Prelude.{◌≡◌, ◌≤◌, length, IfOk, option_map, string_bytes};
ghost use Rattle.std.specs.List.{before_first};
ghost use Rattle.cl_paths.specs.Uris.{host, host_len, after_host, after_scheme, is_local, ends_path, path_of_text, path_of_written, path_in, uri_of};

use crate::normal::normalise;
use cl_base::{Mem, Path};
use percent_encoding::{AsciiSet, NON_ALPHANUMERIC, ascii_set, percent_decode, percent_encode};
use std::alloc::Global;
use std::str;

/// The bytes that a URI's path has as escapes: all but letters, digits, `-`, `.`, `_`, `~` and `/`.
const ESCAPED: AsciiSet = ascii_set!(
    NON_ALPHANUMERIC
        .remove(b'-')
        .remove(b'.')
        .remove(b'_')
        .remove(b'~')
        .remove(b'/')
);

/// The path that a `file` URI names (RFC 8089): the normal form of its decoded path. The scheme `file:`, in any case,
/// may be followed by `//` and a host, which is empty or `localhost` in any case. The path goes up to the first `?` or
/// `#`. A `%` without two hexadecimal digits stays. `None` comes exactly where the text doesn't begin so, the path doesn't
/// begin with `/`, or the decoded path isn't UTF-8 or holds a zero byte.
#[tactic(auto, unfolding(crate::specs::Uris::path_in))]
pub fn path_of_uri(alloc: Global, uri: &str) -> Mem<Option<Path>>
    ensures { IfOk result (λ path. path ≡ path_in uri.now) }
{
    let Some(rest) = after_scheme(uri.as_bytes()) else {
        return Ok(None);
    };
    let (host, rest) = split_host(rest);
    if !is_local(host) {
        return Ok(None);
    }
    let path = path_of_written(alloc, before_query(rest))?;
    Ok(path)
}

/// The URI of a path: `file://` and the path, with every byte escaped but letters, digits, `-`, `.`, `_`, `~` and `/`.
/// It is a `file` URL of the path where that begins with `/`.
pub fn uri_of_path(alloc: Global, path: &Path) -> Mem<String>
    ensures { IfOk result (λ uri. string_bytes uri ≡ uri_of path.now) }
{
    let mut uri = String::from_str(alloc, "file://")?;
    percent_encode(path.text().as_bytes(), ESCAPED).append_to(&mut uri)?;
    Ok(uri)
}

/// What follows the scheme of a `file` URI.
fn after_scheme(uri: &[u8]) -> Option<&[u8]>
    ensures { option_map (λ rest. rest.now) result ≡ after_scheme uri.now }
{
    if uri.len() < 5 {
        return None;
    }
    let (scheme, rest) = uri.split_at(5);
    if scheme.eq_ignore_ascii_case(b"file:") {
        Some(rest)
    } else {
        None
    }
}

/// The host, and what follows it.
fn split_host(rest: &[u8]) -> (&[u8], &[u8])
    ensures host { result.0.now ≡ host rest.now }
    ensures after { result.1.now ≡ after_host rest.now }
{
    if !rest.starts_with(b"//".as_slice()) {
        return (b"".as_slice(), rest);
    }
    let (_, rest) = rest.split_at(2);
    rest.split_at(len_to_slash(rest))
}

/// How many bytes stand before the first slash: all, where there is none.
fn len_to_slash(rest: &[u8]) -> usize
    ensures value { result ≡ host_len rest.now }
    ensures within { result ≤ length rest.now }
{
    match rest.iter().position(|byte| *byte == b'/') {
        Some(len) => len,
        None => rest.len(),
    }
}

/// Whether a host is this machine.
fn is_local(host: &[u8]) -> bool
    ensures { result ≡ is_local host.now }
{
    host.is_empty() || host.eq_ignore_ascii_case(b"localhost")
}

/// What stands before a query or a fragment.
fn before_query(rest: &[u8]) -> &[u8]
    ensures { result.now ≡ before_first ends_path rest.now }
{
    match rest.iter().position(|byte| *byte == b'?' || *byte == b'#') {
        Some(len) => &rest[..len],
        None => rest,
    }
}

/// The path that is written with escapes.
fn path_of_written(alloc: Global, written: &[u8]) -> Mem<Option<Path>>
    ensures { IfOk result (λ path. path ≡ path_of_written written.now) }
{
    if written.first() != Some(&b'/') {
        return Ok(None);
    }
    let mut text = Vec::new(alloc);
    percent_decode(written).append_to(&mut text)?;
    match str::from_utf8(text.as_slice()) {
        Ok(text) => {
            let path = path_of_text(alloc, text)?;
            Ok(path)
        }
        Err(_) => Ok(None),
    }
}

/// The path that a text means.
fn path_of_text(alloc: Global, text: &str) -> Mem<Option<Path>>
    ensures { IfOk result (λ path. path ≡ path_of_text text.now) }
{
    if text.as_bytes().contains(&0) {
        return Ok(None);
    }
    let path = normalise(alloc, text)?;
    Ok(Some(path))
}
