//! Where the parts of a record are in its text.
ghost use Rattle.std.specs.Prelude.{◌≡◌, ◌+◌, ◌-◌, ◌<◌, ◌≤◌, ℕ, Option, length};
ghost use Rattle.uv_model.specs.Records.Serialize.{serial};
ghost use Rattle.uv_model.specs.Records.Url.{Url};
ghost use Rattle.uv_resolve.specs.Layout.{layout_of};
ghost use Rattle.urlcheck_c.specs.declared.spans.Span.{Span};
ghost use Rattle.urlcheck_c.specs.RecordPlaces.{host_number, placed_span, reach, record_spans};

use crate::spans::{Span, Spans};
use uv_resolve::{HostKind, UrlLayout};

/// The places of the parts of a record in its text, which has this layout and this many bytes.
pub(crate) fn record_spans(layout: &UrlLayout, whole: usize) -> Spans
    requires { (url : Url) × (layout.now ≡ layout_of url) × (whole ≡ length (serial url)) }
    ensures { (url : Url) → layout.now ≡ layout_of url → whole ≡ length (serial url) → result ≡ record_spans url }
{
    let scheme = span_between(0, layout.scheme_end);
    let host = marked_span(layout.scheme_end + 1, 2, layout.host_end);
    let port = marked_span(layout.host_end, 1, layout.port_end);
    let path = span_between(layout.path_start, layout.path_end);
    let query = marked_span(layout.path_end, 1, layout.query_end);
    let fragment = marked_span(layout.query_end, 1, whole);
    Spans {
        scheme,
        host,
        port,
        path,
        query,
        fragment,
    }
}

// The span of a text between two places.
fn span_between(start: usize, end: usize) -> Span
    requires { start ≤ end }
    ensures { result ≡ record { start = start; length = end - start; present = 1 } }
{
    Span {
        start,
        length: end - start,
        present: 1,
    }
}

// The span of a part whose delimiter of this many bytes begins here; or of an absent part, which ends here.
fn marked_span(at: usize, mark: usize, end: usize) -> Span
    requires mark { 0 < mark }
    requires end { (count : Option ℕ) × (end ≡ at + reach mark count) }
    ensures { (count : Option ℕ) → end ≡ at + reach mark count → result ≡ placed_span at mark count }
{
    if at == end {
        return Span {
            start: 0,
            length: 0,
            present: 0,
        };
    }
    span_between(at + mark, end)
}

/// The number of a host's kind: 1 a domain, 2 an IPv4 address, 3 an IPv6 address, 4 an opaque host, 5 the empty one,
/// and 0 if there is none.
pub(crate) fn host_number(host: Option<HostKind>) -> u32
    ensures { result ≡ host_number host }
{
    match host {
        Some(HostKind::Domain) => 1,
        Some(HostKind::V4) => 2,
        Some(HostKind::V6) => 3,
        Some(HostKind::Opaque) => 4,
        Some(HostKind::Empty) => 5,
        None => 0,
    }
}
