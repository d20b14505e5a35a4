//! Filters of lines over reads and writes that fail. tests/runs/jobs.cases.sh and tests/runs/mend.cases.sh have
//! filters of many lists.

use crate::jobs::{Wanted, ends};
use std::test::Fail;
use uv_arguments::{FilterJob, Job};
use uv_io::DeviceFault;
use uv_model::Profile;

// A filter without options.
fn every() -> Job {
    Job::Filter(FilterJob {
        base: None,
        profile: Profile::Standard,
        only: None,
        all: false,
        quiet: false,
    })
}

#[test]
fn writes_the_lines(rt: HostRuntime) -> Result<(), Fail> {
    let wanted = Wanted {
        status: 1,
        said: "urlcheck: 2 lines, 1 mended (1 same, 0 escaped, 0 changed), 1 refused\n",
        written: "http://h/a%20b\r\nhttp://h:x/",
    };
    let list: &[u8] = b"http://h/a b\r\nhttp://h:x/";
    ends(&rt, &every(), &[Ok(list)], &[Ok(1000), Ok(1000)], wanted)
}

// A failed read stops the filter: the counts are reported, and what failed.
#[test]
fn stops_at_a_failed_read(rt: HostRuntime) -> Result<(), Fail> {
    let wanted = Wanted {
        status: 3,
        said: "urlcheck: 1 line, 0 mended (0 same, 0 escaped, 0 changed), 0 refused\nread\n",
        written: "http://h/\n",
    };
    let list: &[u8] = b"http://h/\nhttp://h/ a";
    let reads = [Ok(list), Err(DeviceFault)];
    ends(&rt, &every(), &reads, &[Ok(1000)], wanted)
}

// A failed write stops the filter too: the counts are reported, and what failed.
#[test]
fn stops_at_a_failed_write(rt: HostRuntime) -> Result<(), Fail> {
    let wanted = Wanted {
        status: 3,
        said: "urlcheck: 1 line, 0 mended (0 same, 0 escaped, 0 changed), 0 refused\nwrite\n",
        written: "http:",
    };
    let list: &[u8] = b"http://h/\nhttp://h/ a";
    let reads = [Ok(list), Err(DeviceFault)];
    ends(&rt, &every(), &reads, &[Ok(5), Err(DeviceFault)], wanted)
}
