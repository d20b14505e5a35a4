//! File names as paths of URI references.
ghost use Rattle.std.specs.Prelude.{◌≡◌, ◌++◌, IsTrue, OnOk, option_map, string_bytes};
ghost use Rattle.uv_report.specs.Formats.Uri as spec;

use percent_encoding::{AsciiSet, NON_ALPHANUMERIC, ascii_set, utf8_percent_encode};
use std::alloc::AllocError;

// What a path can't hold unescaped: everything except `/` and the unreserved characters (RFC 3986, section 2.3).
const ESCAPED: AsciiSet = ascii_set!(
    NON_ALPHANUMERIC
        .remove(b'/')
        .remove(b'-')
        .remove(b'.')
        .remove(b'_')
        .remove(b'~')
);

/// Pushes a name as the path of a URI reference. One that begins with `//` would name a host, so its second `/` is
/// escaped.
#[tactic(auto, unfolding(crate::specs::Formats::Uri::uri_path))]
pub(crate) fn push_uri_path(text: &mut String, name: &str) -> Result<(), AllocError>
    ensures { OnOk result (string_bytes text.new ≡ string_bytes text.old ++ spec.uri_path name.now) }
{
    match after_slashes(name) {
        Some(rest) => {
            text.push_str("/%2F")?;
            push_uri_part(text, rest)
        }
        None => push_uri_part(text, name),
    }
}

// What follows the `//` that a name begins with.
fn after_slashes(name: &str) -> Option<&str>
    ensures { option_map (λ rest. rest.now) result ≡ spec.after_slashes name.now }
{
    after_slash(after_slash(name)?)
}

// What follows the `/` that a name begins with.
fn after_slash(name: &str) -> Option<&str>
    ensures { option_map (λ rest. rest.now) result ≡ spec.after_slash name.now }
{
    name.strip_prefix('/')
}

// Pushes a part of a name.
fn push_uri_part(text: &mut String, name: &str) -> Result<(), AllocError>
    ensures { OnOk result (string_bytes text.new ≡ string_bytes text.old ++ spec.uri_part name.now) }
{
    if all_stay(name.as_bytes()) {
        text.push_str(name)
    } else {
        push_escaped_part(text, name)
    }
}

// Whether each byte of a name stays as it is, as in most names.
fn all_stay(bytes: &[u8]) -> bool
    ensures { IsTrue result → spec.uri_part bytes.now ≡ bytes.now }
{
    bytes.iter().all(|&byte| stays(byte))
}

// Whether a byte stays as it is in the path of a URI reference.
fn stays(byte: u8) -> bool
    ensures { result ≡ spec.stays byte }
{
    byte.is_ascii_alphanumeric()
        || byte == b'-'
        || byte == b'.'
        || byte == b'_'
        || byte == b'~'
        || byte == b'/'
}

// Pushes a part of a name byte by byte.
fn push_escaped_part(text: &mut String, name: &str) -> Result<(), AllocError>
    ensures { OnOk result (string_bytes text.new ≡ string_bytes text.old ++ spec.uri_part name.now) }
{
    utf8_percent_encode(name, ESCAPED).append_to(text)
}
