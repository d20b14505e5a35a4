//! Runs of jobs over inputs and outputs that play lists of answers.

use scripted_streams::{ScriptSink, ScriptSource};
use std::fs::Files;
use std::process::Abort;
use std::test::Fail;
use uv_arguments::Job;
use uv_cli::{error_line, run_job, status};
use uv_io::DeviceFault;

/// How a run of a job is to end: its status, the lines that end standard error, and what it writes.
#[derive(Clone, Copy)]
pub(crate) struct Wanted<'w> {
    pub status: u8,
    pub said: &'w str,
    pub written: &'w str,
}

/// Checks that a run of a job over an input of these reads and an output of these writes ends as wanted.
pub(crate) fn ends(
    rt: &(impl Abort + Files + Eprint + AllocGlobal),
    job: &Job,
    reads: &[Result<&[u8], DeviceFault>],
    writes: &[Result<usize, DeviceFault>],
    wanted: Wanted<'_>,
) -> Result<(), Fail> {
    let Some(mut input) = ScriptSource::new(reads) else {
        panic!(rt; "an empty piece");
    };
    let mut out = ScriptSink::new(rt.alloc(), 1000, writes)?;
    let end = run_job(rt, job, &[], &mut input, &mut out).end;
    assert!(rt; status(end) == wanted.status);
    assert!(rt; error_line(rt.alloc(), end)?.as_str() == wanted.said);
    assert!(rt; out.bytes() == wanted.written.as_bytes());
    Ok(())
}
