//! The run over the bytes of a vector file, whose end says nothing of why.
ghost use Rattle.std.specs.Prelude.{◌≡◌, ◌≤◌, ◌+◌, ◌-◌, ◌^◌, ◌<◌, IfOk, OnOk, length};
ghost use Rattle.uv_vectors.specs.Ends.{IsEndOf};
ghost use Rattle.uv_vectors.specs.Run.{WritesVectors, WritesVectorsPrefix, most_bytes};

use std::alloc::Global;
use uv_cli::CliFault;
use uv_io::Sink;
use uv_vectors::{VectorEnd, run_cases};

/// Runs the cases of a vector file and writes the report, as `uv_vectors::run_cases` does, without its reasons. A fault
/// of memory leaves the output as it was; a fault of a write leaves a beginning of the report.
pub fn run_vectors<S: Sink>(alloc: Global, bytes: &[u8], out: &mut S) -> Result<VectorEnd, CliFault>
    requires { S.failed out.old < 2 ^ 64 - 1 }
    ensures written { IfOk result (λ end.
        IsEndOf end (λ told. WritesVectors bytes.now told (S.contents out.old) (S.contents out.new))) }
    ensures quiet { OnOk result (S.failed out.new ≡ S.failed out.old) }
    ensures memory { result ≡ Err CliFault.Memory → out.new ≡ out.old }
    ensures large { result ≡ Err CliFault.Memory → length bytes.now ≤ most_bytes }
    ensures prefix { result ≡ Err CliFault.Write →
        WritesVectorsPrefix bytes.now (S.contents out.old) (S.contents out.new) }
    ensures failed { result ≡ Err CliFault.Write → S.failed out.new ≡ S.failed out.old + 1 }
{
    match run_cases(alloc, bytes, out) {
        Ok(end) => Ok(end.without_reason()),
        Err(fault) => Err(CliFault::from(fault)),
    }
}
