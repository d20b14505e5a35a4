//! Why a run over the lines of a list stopped.
ghost use Rattle.std.specs.Prelude.{◌≡◌};
ghost use Rattle.uv_lines.specs.Fault as spec;

use thiserror::Error;

/// Why a run over a list stopped, and what it had written by then. How far the reader was read is left open.
#[derive(Clone, Copy, Debug, PartialEq, Eq, Error)]
pub enum StopFault {
    /// An allocation failed. The output for whole lines was written.
    #[error("memory")]
    Memory,
    /// A read failed. The output for every line whose LF was read was written.
    #[error("read")]
    Read,
    /// A write failed, or took nothing from a piece that had bytes. The beginning of the output was written, perhaps
    /// cut within the output for a line.
    #[error("write")]
    Write,
    /// One more line began after as many as the limits allow. The output for all of those was written.
    #[error("too many lines")]
    TooManyLines,
    /// 2^64 - 1 reads gave bytes, and none the end. The output for whole lines was written.
    #[error("endless")]
    Endless,
}

/// Why a run over a list stopped, if what takes its lines, or reports on them, has faults of its own.
#[derive(Clone, Copy, Debug, PartialEq, Eq)]
pub enum LineFault<F> {
    /// A fault of what takes the lines, or reports on them. The report on all lines before was written, and perhaps
    /// whole parts of the report on the next one.
    Own(F),
    /// Any other fault.
    Stop(StopFault),
}

/// Why the output for a line isn't whole.
#[derive(Clone, Copy, Debug, PartialEq, Eq)]
pub enum ReportFault<F> {
    /// What reports on the line, or takes it, can't go on.
    Reporter(F),
    /// A write failed.
    Write,
}

impl<F> ReportFault<F> {
    /// The fault of a run over lines, by the fault of the report on one of them.
    pub(crate) fn of_run(self) -> LineFault<F>
        ensures { result ≡ spec.fault_of_run self }
    {
        match self {
            ReportFault::Reporter(fault) => LineFault::Own(fault),
            ReportFault::Write => LineFault::Stop(StopFault::Write),
        }
    }
}

/// Whether a write failed.
pub(crate) fn is_write<F>(fault: &LineFault<F>) -> bool
    ensures { result ≡ spec.is_write fault.now }
{
    matches!(fault, LineFault::Stop(StopFault::Write))
}

/// The fault of a run over lines, by the fault of its list.
pub(crate) fn fault_of_list<F>(fault: LineFault<LineFault<F>>) -> LineFault<F>
    ensures { result ≡ spec.fault_of_list fault }
{
    match fault {
        LineFault::Own(fault) => fault,
        LineFault::Stop(fault) => LineFault::Stop(fault),
    }
}
