//! The record that a valid text denotes: its text, and where the parts are in that.
ghost use Rattle.std.specs.Prelude.{◌≡◌};
ghost use Rattle.uv_model.specs.Records.Url.{Url};
ghost use Rattle.uv_resolve.specs.Layout.{IsLaid};
ghost use Rattle.urlcheck_c.specs.PlacedRecord.{IsPlaced, IsPlacedAnswer, IsPlacedChecked, no_record};
ghost use Rattle.urlcheck_c.specs.Request.{given};

pub(crate) mod record_places;
pub(crate) mod resolved_batches;

use crate::buffers::write_prefix;
use crate::finding::{CallOutcome, Finding};
use crate::records::record_places::{host_number, record_spans};
use crate::request::{Request, given_bytes, prepared};
use crate::spans::Spans;
use std::alloc::Global;
use uv_resolve::{LaidUrl, ResolveFault, resolve_laid};

/// What a text is, and where each part is in the text of its record.
#[repr(C)]
#[derive(Clone, Copy)]
pub struct PlacedRecord {
    /// The verdict.
    pub found: Finding,
    /// The length in bytes of the record's text, 0 if there is none.
    pub length: usize,
    /// The parts of the record's text.
    pub parts: Spans,
    /// The kind of the host: 1 a domain, 2 an IPv4 address, 3 an IPv6 address, 4 an opaque host, 5 the empty one, and 0
    /// if there is none.
    pub host: u32,
    /// 1 if the path is opaque, otherwise 0.
    pub opaque_path: u32,
}

/// Writes the text of the record that the bytes denote (URL Standard, sections 4.4 and 4.5) to the start of `out`, if
/// it fits, and says where its parts are. Otherwise, and if the bytes denote none, `out` stays as it is. If `has_base`
/// is true, they are read against the bytes of a base, which is checked by itself under the same profile.
#[unsafe(no_mangle)]
pub extern "C" fn urlcheck_resolve(
    alloc: Global,
    text: &[u8],
    profile: u32,
    base: &[u8],
    has_base: bool,
    out: &mut [u8],
) -> PlacedRecord
    ensures { IsPlacedAnswer profile (given has_base base.now) text.now out.old out.new result }
{
    match prepared(alloc, text, profile, given_bytes(base, has_base)) {
        Ok(request) => request_placed(alloc, &request, out),
        Err(found) => PlacedRecord::none(found),
    }
}

// The record of a text that is checked.
fn request_placed(alloc: Global, request: &Request<'_>, out: &mut [u8]) -> PlacedRecord
    ensures { IsPlacedChecked request.now.profile request.now.base request.now.text.now out.old out.new result }
{
    let text = request.text;
    match resolve_laid(alloc, text, request.base.as_ref(), request.profile) {
        Ok(laid) => placed(&laid, out),
        Err(ResolveFault::Refused(refusal)) => {
            PlacedRecord::none(Finding::refused(CallOutcome::Refused, text, refusal))
        }
        Err(ResolveFault::Memory(_)) => PlacedRecord::none(Finding::plain(CallOutcome::Memory)),
    }
}

// The record's text, written if it fits, and where its parts are.
fn placed(laid: &LaidUrl, out: &mut [u8]) -> PlacedRecord
    requires { (url : Url) × IsLaid url laid.now }
    ensures { (url : Url) → IsLaid url laid.now → IsPlaced url out.old out.new result }
{
    let text = laid.text.as_bytes();
    PlacedRecord {
        found: Finding::plain(CallOutcome::Valid),
        length: write_prefix(text, out),
        parts: record_spans(&laid.layout, text.len()),
        host: host_number(laid.layout.host),
        opaque_path: u32::from(laid.layout.has_opaque_path),
    }
}

impl PlacedRecord {
    // The answer without a record, since this was found.
    fn none(found: Finding) -> PlacedRecord
        ensures { result ≡ no_record found }
    {
        PlacedRecord {
            found,
            length: 0,
            parts: Spans::none(),
            host: 0,
            opaque_path: 0,
        }
    }
}
