//! Checks over sinks that play a list of answers. Each write fails in turn, after short ones: in each profile, and with
//! the first violation or all of them.

use scripted_streams::ScriptSink;
use std::alloc::Global;
use std::process::Abort;
use std::test::Fail;
use uv_cli::{CheckEnd, CliFault, run_check, run_faults};
use uv_io::{DeviceFault, Sink};
use uv_model::{Extent, Profile, Refusal, Rule};

// A text, its base, how it is checked, how many of its violations are wanted, and what is written.
#[derive(Clone, Copy)]
struct Row<'r> {
    text: &'r str,
    base: Option<&'r str>,
    profile: Profile,
    extent: Extent,
    output: &'r str,
}

const LONG_TEXT: &str = "https://EXAMPLE.com:443/a/../b?x='y'#\u{E9}";

const LONG_OUTPUT: &str =
    "valid\nscheme https\nhost domain example.com\nsegment b\nquery x=%27y%27\nfragment %C3%A9\n";

const ROWS: [Row<'static>; 15] = [
    Row {
        text: LONG_TEXT,
        base: None,
        profile: Profile::Standard,
        extent: Extent::First,
        output: LONG_OUTPUT,
    },
    Row {
        text: LONG_TEXT,
        base: None,
        profile: Profile::Wide,
        extent: Extent::First,
        output: LONG_OUTPUT,
    },
    Row {
        text: "/D:?q",
        base: Some("file:///C:/d/f"),
        profile: Profile::Standard,
        extent: Extent::First,
        output: "valid\nscheme file\nhost empty\nsegment D:\nquery q\n",
    },
    Row {
        text: "/D:?q",
        base: Some("file:///C:/d/f"),
        profile: Profile::Wide,
        extent: Extent::First,
        output: "valid\nscheme file\nhost empty\nsegment D:\nquery q\n",
    },
    Row {
        text: "http://x_y//a",
        base: None,
        profile: Profile::Standard,
        extent: Extent::First,
        output: "refused 7 host-domain\n",
    },
    Row {
        text: "http://x_y//a",
        base: None,
        profile: Profile::Wide,
        extent: Extent::First,
        output: "valid\nscheme http\nhost domain x_y\nsegment \nsegment a\n",
    },
    Row {
        text: "http://%31//a",
        base: None,
        profile: Profile::Parser,
        extent: Extent::First,
        output: "valid\nscheme http\nhost ipv4 0.0.0.1\nsegment \nsegment a\n",
    },
    Row {
        text: LONG_TEXT,
        base: None,
        profile: Profile::Standard,
        extent: Extent::All,
        output: LONG_OUTPUT,
    },
    Row {
        text: "/D:?q",
        base: Some("file:///C:/d/f"),
        profile: Profile::Wide,
        extent: Extent::All,
        output: "valid\nscheme file\nhost empty\nsegment D:\nquery q\n",
    },
    Row {
        text: "http://x_y//a b",
        base: None,
        profile: Profile::Standard,
        extent: Extent::All,
        output: "refused 7 host-domain\nrefused 11 first-segment-empty\nrefused 13 code-point\n",
    },
    Row {
        text: "http://x_y//a b",
        base: None,
        profile: Profile::Wide,
        extent: Extent::All,
        output: "refused 13 code-point\n",
    },
    Row {
        text: "a b?%4",
        base: Some("http://h/"),
        profile: Profile::Standard,
        extent: Extent::All,
        output: "refused 1 code-point\nrefused 4 percent\n",
    },
    Row {
        text: "a b?%4",
        base: Some("http://x_y//"),
        profile: Profile::Wide,
        extent: Extent::All,
        output: "refused 1 code-point\nrefused 4 percent\n",
    },
    Row {
        text: "http://%31//a b",
        base: None,
        profile: Profile::Parser,
        extent: Extent::All,
        output: "refused 13 code-point\n",
    },
    Row {
        text: "a b?%4",
        base: Some("file://%68/C:/x"),
        profile: Profile::Parser,
        extent: Extent::All,
        output: "refused 1 code-point\nrefused 4 percent\n",
    },
];

// More writes than a check of the rows makes.
const MOST_WRITES: usize = 200;

// Whether the writes suffice for the whole output. If they don't, the write after them fails, and only the beginning of
// the output is written.
fn writes_all(
    rt: &(impl Abort + AllocGlobal),
    row: &Row<'_>,
    writes: &[Result<usize, DeviceFault>],
) -> Result<bool, Fail> {
    let mut out = ScriptSink::new(rt.alloc(), row.output.len(), writes)?;
    let (alloc, text, base, profile) = (rt.alloc(), row.text, row.base, row.profile);
    let answer = match row.extent {
        Extent::First => run_check(alloc, text, base, profile, &mut out),
        Extent::All => run_faults(alloc, text, base, profile, &mut out),
    };
    if answer.is_ok() {
        assert!(rt; out.bytes() == row.output.as_bytes());
        return Ok(true);
    }
    assert!(rt; matches!(answer, Err(CliFault::Write)) && out.failures() == 1);
    assert!(rt; row.output.as_bytes().starts_with(out.bytes()));
    assert!(rt; writes.len() <= out.bytes().len());
    Ok(false)
}

// With this many short writes before it, each write fails in turn, until none does.
fn fails_each_write(
    rt: &(impl Abort + AllocGlobal),
    row: &Row<'_>,
    length: usize,
) -> Result<(), Fail> {
    let mut writes = Vec::new(rt.alloc());
    for _ in 0..MOST_WRITES {
        if writes_all(rt, row, &writes)? {
            return Ok(());
        }
        writes.push(Ok(length))?;
    }
    panic!(rt; "no check was whole");
}

// In each row, each write after short ones of this length fails in turn.
fn reports_each(rt: &(impl Abort + AllocGlobal), length: usize) -> Result<(), Fail> {
    for row in &ROWS {
        fails_each_write(rt, row, length)?;
    }
    Ok(())
}

#[test]
fn reports_each_failed_write(rt: HostRuntime) -> Result<(), Fail> {
    for length in 1..8 {
        reports_each(&rt, length)?;
    }
    Ok(())
}

// How a check of a text with a space ends over these writes, and whether it has written this.
fn has_written(
    alloc: Global,
    writes: &[Result<usize, DeviceFault>],
    prefix: &str,
) -> Result<bool, Fail> {
    let mut out = ScriptSink::new(alloc, 100, writes)?;
    let answer = run_check(alloc, "http://h/a b", None, Profile::Wide, &mut out);
    Ok(matches!(answer, Err(CliFault::Write)) && out.bytes() == prefix.as_bytes())
}

// One sink takes nothing, and the write of another fails within the output.
#[test]
fn reports_what_a_sink_takes(rt: HostRuntime) -> Result<(), Fail> {
    assert!(rt; has_written(rt.alloc(), &[Ok(0)], "")?);
    assert!(rt; has_written(rt.alloc(), &[Ok(7), Err(DeviceFault), Ok(9)], "refused")?);
    Ok(())
}

// Nothing is written for a refused base: a sink that would fail isn't called.
#[test]
fn asks_no_sink_for_a_refused_base(rt: HostRuntime) -> Result<(), Fail> {
    let mut out = ScriptSink::new(rt.alloc(), 0, &[])?;
    let base = Some("http://");
    let answer = run_check(rt.alloc(), "x", base, Profile::Standard, &mut out);
    let refusal = Refusal {
        place: 7,
        rule: Rule::HostMissing,
    };
    assert!(rt; answer == Ok(CheckEnd::BaseRefused(refusal)));
    assert!(rt; out.failures() == 0);
    Ok(())
}
