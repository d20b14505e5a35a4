//! The end of a line, and which part of it is its text.
ghost use Rattle.std.specs.Prelude.{◌≡◌, ◌+◌, ◌<◌, [], ◌∷◌, IfSome, None, drop, length, take};
ghost use Rattle.std.specs.Str.Lines.{strip_carriage_return};
ghost use Rattle.uv_lines.specs.Lines as spec;
ghost use Rattle.uv_lines.specs.Lines.{line_feed, split};
ghost use Rattle.uv_lines.specs.Progress.{ended};

use memchr::memchr;

/// How many bytes come before the next LF, if there is one.
pub fn line_end(rest: &[u8]) -> Option<usize>
    ensures some { IfSome result (λ at. (at < length rest.now) × (split (take at rest.now) ≡ ([], take at rest.now))
        × (drop at rest.now ≡ line_feed ∷ drop (at + 1) rest.now)) }
    ensures none { result ≡ None → split rest.now ≡ ([], rest.now) }
{
    memchr(b'\n', rest)
}

/// The text of what comes before an LF, or at the end of a list without one. An LF takes the CR before it with it.
pub fn line_text(line: &[u8], is_closed: bool) -> &[u8]
    ensures { result.now ≡ ended is_closed line.now }
{
    if is_closed {
        without_return(line)
    } else {
        line
    }
}

/// A line without the one CR at its end, if it has one.
pub(crate) fn without_return(line: &[u8]) -> &[u8]
    ensures { result.now ≡ strip_carriage_return line.now }
{
    match line.split_last() {
        Some((b'\r', prefix)) => prefix,
        _ => line,
    }
}

/// The text of a list's first line without a byte order mark before it, if it has one.
pub fn without_mark(line: &[u8]) -> &[u8]
    ensures { result.now ≡ spec.without_mark line.now }
{
    match line.strip_prefix(b"\xef\xbb\xbf") {
        Some(rest) => rest,
        None => line,
    }
}
