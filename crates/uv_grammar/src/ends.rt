//! The ends of a text's parts in its bytes, and the slices between these ends.
ghost use Rattle.std.specs.Prelude.{◌≡◌, ◌≢◌, ◌<◌, ◌-◌};
ghost use Rattle.std.specs.Str.{IsCharBoundary};
ghost use Rattle.uv_grammar.specs.Ends.{MayBePart, ends_of, extent, part_between, scheme_before, whole_extent};
ghost use Rattle.uv_grammar.specs.Slices.{chars_of_option};

use crate::cut::Cut;

/// The ends of a text's parts in its bytes, each with its delimiters. An absent part ends where the one before it does,
/// and a fragment ends with the text.
#[derive(Clone, Copy)]
pub(crate) struct Ends {
    /// After the scheme and its `:`.
    pub(crate) scheme: usize,
    /// After `//` and the host.
    pub(crate) host: usize,
    /// After `:` and the port.
    pub(crate) port: usize,
    /// After the path.
    pub(crate) path: usize,
    /// After `?` and the query.
    pub(crate) query: usize,
}

/// The ends of the parts of a cut text that has so many bytes.
#[inline(always)]
pub(crate) fn ends_of(whole: usize, cut: &Cut<'_>) -> Ends
    requires { whole ≡ whole_extent cut.now }
    ensures { result ≡ ends_of cut.now }
{
    let scheme = extent(1, cut.scheme);
    let host = scheme + extent(2, cut.host_text);
    let port = host + extent(1, cut.port_text);
    let path = port + extent(0, Some(cut.path_text));
    let query = path + extent(1, cut.query);
    Ends {
        scheme,
        host,
        port,
        path,
        query,
    }
}

// How many bytes a part takes with a delimiter of so many.
#[tactic(auto, using(crate::proofs::EndLemmas::encoded_length))]
#[inline(always)]
fn extent(mark: usize, part: Option<&str>) -> usize
    requires { mark < 3 }
    ensures { result ≡ extent mark (chars_of_option part.entry) }
{
    match part {
        Some(part) => mark + part.len(),
        None => 0,
    }
}

/// The scheme that ends here with its `:`, or none of an end at the text's start.
#[inline(always)]
pub(crate) fn scheme_before<'t>(text: &'t str, end: usize) -> Option<&'t str>
    requires { end ≢ 0 → IsCharBoundary text.now (end - 1) }
    ensures { chars_of_option result ≡ scheme_before text.now end }
{
    if end == 0 {
        None
    } else {
        Some(&text[..end - 1])
    }
}

/// The text between two ends after a delimiter of so many bytes, or none between equal ones.
#[inline(always)]
pub(crate) fn part_between<'t>(
    text: &'t str,
    mark: usize,
    from: usize,
    to: usize,
) -> Option<&'t str>
    requires { MayBePart text.now mark from to }
    ensures { chars_of_option result ≡ part_between text.now mark from to }
{
    if from == to {
        None
    } else {
        Some(&text[from + mark..to])
    }
}
