//! Explanations of rules: one rule, a name that no rule has, and each failed write. tests/runs/explain.cases.sh has all
//! rules.

use scripted_streams::ScriptSink;
use std::alloc::Global;
use std::test::Fail;
use uv_arguments::Told;
use uv_cli::{CliFault, ExplainEnd, run_explain};
use uv_io::{DeviceFault, Sink, ToWriter};

const HOST_MISSING: &str = "host-missing: a host is missing here

After //, ftp, http, https, ws and wss have a host, file a host or a path, and a
port follows a host.

Browsers refuse the link, or take the first segment of its path as the host.

Wrong, at place 8:

    https:///example.com/a

Write instead:

    https://example.com/a

URL Standard, 3.4, 4.3
https://url.spec.whatwg.org/#valid-host-string
";

// The one name of a rule.
fn only(alloc: Global, name: &str) -> Result<Vec<String>, Fail> {
    let mut names = Vec::new(alloc);
    names.push(name.to_string(alloc)?)?;
    Ok(names)
}

#[test]
fn explains_a_rule(rt: HostRuntime) -> Result<(), Fail> {
    let mut out = ToWriter::new(Vec::new(rt.alloc()));
    let names = only(rt.alloc(), "host-missing")?;
    let end = run_explain(rt.alloc(), names.as_slice(), Told::Explanation, &mut out)?;
    assert!(rt; end == ExplainEnd::Explained);
    assert!(rt; out.into_writer().as_slice() == HOST_MISSING.as_bytes());
    Ok(())
}

// After the name of a rule comes a name that no rule has: nothing is written.
#[test]
fn knows_no_other_names(rt: HostRuntime) -> Result<(), Fail> {
    let mut out = ToWriter::new(Vec::new(rt.alloc()));
    let mut names = only(rt.alloc(), "host-missing")?;
    names.push("15".to_string(rt.alloc())?)?;
    let end = run_explain(rt.alloc(), names.as_slice(), Told::Address, &mut out)?;
    assert!(rt; end == ExplainEnd::Unknown);
    assert!(rt; out.into_writer().is_empty());
    Ok(())
}

// Whether the write after these short ones fails, so that a beginning is written.
fn fails_after(alloc: Global, writes: &[Result<usize, DeviceFault>]) -> Result<bool, Fail> {
    let mut out = ScriptSink::new(alloc, HOST_MISSING.len(), writes)?;
    let names = only(alloc, "host-missing")?;
    let answer = run_explain(alloc, names.as_slice(), Told::Explanation, &mut out);
    Ok(
        answer == Err(CliFault::Write)
            && out.failures() == 1
            && out.bytes().len() == 7 * writes.len()
            && HOST_MISSING.as_bytes().starts_with(out.bytes()),
    )
}

// With this many short writes before it, each write fails in turn.
#[test]
fn reports_each_failed_write(rt: HostRuntime) -> Result<(), Fail> {
    let mut writes: Vec<Result<usize, DeviceFault>> = Vec::new(rt.alloc());
    for _ in 0..HOST_MISSING.len() / 7 {
        assert!(rt; fails_after(rt.alloc(), writes.as_slice())?);
        writes.push(Ok(7))?;
    }
    Ok(())
}
