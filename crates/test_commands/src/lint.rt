//! Lints of files over reads and writes that fail. tests/runs/jobs.cases.sh and tests/runs/lint.cases.sh have lints
//! of many files.

use crate::jobs::{Wanted, ends};
use std::alloc::Global;
use std::test::Fail;
use uv_arguments::{Colours, Job, LintJob};
use uv_io::DeviceFault;
use uv_model::{Extent, Profile};

// What is wrong with the second line, as compilers write it.
const WRONG: &str = "-:2:1: error: there is no scheme and no base [no-scheme]\n";

// A lint of the standard input, and of another file if there is one, without options.
fn job(alloc: Global, other: Option<&str>) -> Result<Job, Fail> {
    let mut files = Vec::new(alloc);
    files.push("-".to_string(alloc)?)?;
    if let Some(name) = other {
        files.push(name.to_string(alloc)?)?;
    }
    Ok(Job::Lint(LintJob {
        files,
        base: None,
        extent: Extent::First,
        profile: Profile::Standard,
        format: None,
        columns: None,
        located: false,
        colours: Colours::Auto,
        stdin_name: None,
        quiet: false,
    }))
}

// A failed read of the input is reported, and so are the lines that were read before it.
#[test]
fn goes_on_after_a_failed_read(rt: HostRuntime) -> Result<(), Fail> {
    let wanted = Wanted {
        status: 2,
        said: "urlcheck: 2 lines, 1 refused, 1 file not read\n",
        written: WRONG,
    };
    let list: &[u8] = b"urn:a\nx\nurn";
    let reads = [Ok(list), Err(DeviceFault)];
    ends(&rt, &job(rt.alloc(), None)?, &reads, &[Ok(1000)], wanted)
}

// A write that fails stops the lint: the counts and the failed write are reported, and no further file is opened.
#[test]
fn stops_at_a_failed_write(rt: HostRuntime) -> Result<(), Fail> {
    let wanted = Wanted {
        status: 3,
        said: "urlcheck: 2 lines, 1 refused\nwrite\n",
        written: "-:2:1",
    };
    let list: &[u8] = b"urn:a\nx\n";
    let writes = [Ok(5), Err(DeviceFault)];
    let job = job(rt.alloc(), Some("no/such/file"))?;
    ends(&rt, &job, &[Ok(list)], &writes, wanted)
}
