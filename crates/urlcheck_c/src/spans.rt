//! The parts of a text as places in its bytes.
ghost use Rattle.std.specs.Prelude.{◌≡◌, ◌+◌, ◌<◌, ◌^◌, Option};
ghost use Rattle.std.specs.Str.{chars};
ghost use Rattle.uv_grammar.specs.Slices.{chars_of_option};
ghost use Rattle.uv_model.specs.declared.profile.Profile.{Profile};
ghost use Rattle.uv_model.specs.Records.Url.{Url};
ghost use Rattle.uv_model.specs.Valid.{Valid};
ghost use Rattle.urlcheck_c.specs.Span.{AreSpans, extent, no_spans, span_of, spans_of, whole_extent};

use uv_grammar::Parts;

/// A part of a text, in bytes. If it is absent, all fields are zero.
#[repr(C)]
#[derive(Clone, Copy)]
pub struct Span {
    /// Where it begins.
    pub start: usize,
    /// How long it is.
    pub length: usize,
    /// 1 if the text has it, otherwise 0. C reads the first byte as its `bool`. The field also fills the padding that C
    /// has after it, which would otherwise be written separately, in pieces.
    pub present: u64,
}

/// The parts of a text, each without its delimiters.
#[repr(C)]
#[derive(Clone, Copy)]
pub struct Spans {
    /// The scheme, without its `:`.
    pub scheme: Span,
    /// The host's text, without the `//` before it.
    pub host: Span,
    /// The port's text, without its `:`.
    pub port: Span,
    /// The path, with its `/` at the start; always there in a valid text.
    pub path: Span,
    /// The query, without its `?`.
    pub query: Span,
    /// The fragment, without its `#`.
    pub fragment: Span,
}

impl Spans {
    /// The spans of a text without parts.
    #[inline(always)]
    pub(crate) fn none() -> Spans
        ensures { result ≡ no_spans }
    {
        let none = Span {
            start: 0,
            length: 0,
            present: 0,
        };
        Spans {
            scheme: none,
            host: none,
            port: none,
            path: none,
            query: none,
            fragment: none,
        }
    }
}

/// The places of the parts of a valid text.
#[inline(always)]
pub(crate) fn placed(text: &str, parts: &Parts<'_>) -> Spans
    requires { (profile : Profile) × (base : Option Url) × Valid profile base (chars text.now) parts.now }
    ensures { AreSpans text.now parts.now result }
{
    laid(text.len(), parts)
}

// The places of parts that come one after another, with their delimiters.
#[inline(always)]
fn laid(whole: usize, parts: &Parts<'_>) -> Spans
    requires { whole ≡ whole_extent parts.now }
    ensures { result ≡ spans_of parts.now }
{
    let host_at = taken(1, parts.scheme());
    let port_at = host_at + taken(2, parts.host_text());
    let path_at = port_at + taken(1, parts.port_text());
    let query_at = path_at + taken(0, Some(parts.path_text()));
    let fragment_at = query_at + taken(1, parts.query());
    Spans {
        scheme: one_place(0, 0, parts.scheme()),
        host: one_place(host_at, 2, parts.host_text()),
        port: one_place(port_at, 1, parts.port_text()),
        path: one_place(path_at, 0, Some(parts.path_text())),
        query: one_place(query_at, 1, parts.query()),
        fragment: one_place(fragment_at, 1, parts.fragment()),
    }
}

// How many bytes a part takes with its delimiter.
#[tactic(auto, using(crate::proofs::SeenLemmas::encoded_length))]
#[inline(always)]
fn taken(mark: usize, part: Option<&str>) -> usize
    requires { mark < 3 }
    ensures { result ≡ extent mark (chars_of_option part.entry) }
{
    match part {
        Some(part) => mark + part.len(),
        None => 0,
    }
}

// The place of a part after its delimiter.
#[tactic(auto, using(crate::proofs::SeenLemmas::encoded_length))]
#[inline(always)]
fn one_place(at: usize, mark: usize, part: Option<&str>) -> Span
    requires mark { mark < 3 }
    requires fits { at + extent mark (chars_of_option part) < 2 ^ 64 }
    ensures { result ≡ span_of at mark (chars_of_option part.entry) }
{
    match part {
        Some(part) => Span {
            start: at + mark,
            length: part.len(),
            present: 1,
        },
        None => Span {
            start: 0,
            length: 0,
            present: 0,
        },
    }
}
