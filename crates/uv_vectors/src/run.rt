//! The run over the bytes of a file of vectors.
ghost use Rattle.std.specs.Prelude.{◌≡◌, ◌≤◌, ◌+◌, ◌-◌, ◌^◌, ◌<◌, IfOk, IfSome, OnErr, OnOk, Option, false, is_none};
ghost use Rattle.std.specs.Prelude.{length, position};
ghost use Rattle.serde_json.specs.View.{items_view, view};
ghost use Rattle.uv_vectors.specs.Case.{is_malformed, list_of};
ghost use Rattle.uv_vectors.specs.Run.{EndsBytes, EndsValue, WritesVectors, WritesVectorsPrefix, is_checked, most_bytes};

use crate::case::VectorCase;
use crate::case_fault::fault_at;
use crate::ends::CasesEnd;
use crate::fault::VectorFault;
use crate::json_fault::JsonFault;
use crate::report::report_on;
use serde_json::Value;
use std::alloc::{AllocError, Global};
use uv_io::{DeviceFault, Sink, write_whole};

/// The most bytes that a vector file may have.
pub const MOST_BYTES: usize = 16_777_216;

// How a run over a vector file ends, and the report, if cases are checked.
#[derive(Drop)]
enum Ending {
    Unchecked(CasesEnd),
    Report(CasesEnd, String),
}

/// Runs the cases of a vector file, each under the profile that it names or the standard one, and writes the report:
/// `fail N` for each case that fails, in order and numbered from 1, and `vectors L pass P fail F`. The answer also says
/// why the bytes aren't JSON text, or why a value isn't a case. That a file is too large is found without memory.
///
/// A case passes if its base, if it has one, is valid by itself, and if its input against that has the record's text,
/// or the refusal, that the case expects. No case is checked before all of them have been read. A fault of memory
/// leaves the output as it was; a fault of a write leaves a beginning of the report.
pub fn run_cases<S: Sink>(alloc: Global, bytes: &[u8], out: &mut S) -> Result<CasesEnd, VectorFault>
    requires { S.failed out.old < 2 ^ 64 - 1 }
    ensures written { IfOk result (λ end.
        WritesVectors bytes.now end (S.contents out.old) (S.contents out.new)) }
    ensures unchecked { IfOk result (λ end. is_checked end ≡ false → out.new ≡ out.old) }
    ensures quiet { OnOk result (S.failed out.new ≡ S.failed out.old) }
    ensures memory { result ≡ Err VectorFault.Memory → out.new ≡ out.old }
    ensures large { result ≡ Err VectorFault.Memory → length bytes.now ≤ most_bytes }
    ensures prefix { result ≡ Err VectorFault.Write →
        WritesVectorsPrefix bytes.now (S.contents out.old) (S.contents out.new) }
    ensures failed { result ≡ Err VectorFault.Write → S.failed out.new ≡ S.failed out.old + 1 }
{
    match ending_of_bytes(alloc, bytes)? {
        Ending::Unchecked(end) => Ok(end),
        Ending::Report(end, text) => match write_whole(out, text.as_bytes()) {
            Ok(()) => Ok(end),
            Err(DeviceFault) => Err(VectorFault::Write),
        },
    }
}

// How a run over the bytes ends.
fn ending_of_bytes(alloc: Global, bytes: &[u8]) -> Result<Ending, AllocError>
    ensures ends { IfOk result (EndsBytes bytes.now) }
    ensures large { OnErr result (length bytes.now ≤ most_bytes) }
{
    if bytes.len() > MOST_BYTES {
        return Ok(Ending::Unchecked(CasesEnd::TooLarge));
    }
    match Value::from_slice(alloc, bytes) {
        Ok(value) => ending_of_value(alloc, &value),
        Err(error) if error.is_memory() => Err(AllocError),
        Err(error) => {
            let fault = JsonFault::of(bytes, &error);
            Ok(Ending::Unchecked(CasesEnd::NotJson(fault)))
        }
    }
}

// How a run over a JSON value ends.
fn ending_of_value(alloc: Global, value: &Value) -> Result<Ending, AllocError>
    ensures { IfOk result (EndsValue (view value.now)) }
{
    let Some(values) = value.as_array() else {
        return Ok(Ending::Unchecked(CasesEnd::NotArray));
    };
    if let Some(at) = first_malformed(values.as_slice()) {
        let fault = fault_at(alloc, values.as_slice(), at)?;
        return Ok(Ending::Unchecked(CasesEnd::Malformed(at + 1, fault)));
    }
    let (end, text) = report_on(alloc, values.as_slice())?;
    Ok(Ending::Report(end, text))
}

// The place of the first value that isn't a case.
fn first_malformed(values: &[Value]) -> Option<usize>
    ensures place { result ≡ position is_malformed (list_of (items_view values.now)) }
    ensures within { IfSome result (λ at. at < length values.now) }
{
    malformed_at(values)
}

// The place of the first value that isn't a case, in the words of the values themselves.
fn malformed_at(values: &[Value]) -> Option<usize>
    ensures place { result ≡ position (λ value. is_malformed (view value)) values.now }
    ensures within { IfSome result (λ at. at < length values.now) }
{
    values
        .iter()
        .position(|value| VectorCase::of(value).is_none())
}
