//! What the commands over one text answer: `check`, with the first violation or with all, and `mend`.
//! tests/runs/check.cases.sh and tests/runs/mend.cases.sh have many more texts.

use crate::answered::is_answer;
use std::test::Fail;
use uv_cli::{CheckEnd, run_check, run_faults, run_mend};
use uv_io::ToWriter;
use uv_model::Profile;

#[test]
fn checks_a_text(rt: HostRuntime) -> Result<(), Fail> {
    let mut out = ToWriter::new(Vec::new(rt.alloc()));
    let (text, base) = ("../x", Some("http://h/a/b?q"));
    let end = run_check(rt.alloc(), text, base, Profile::Standard, &mut out)?;
    let written = out.into_writer();
    let lines = "valid\nscheme http\nhost domain h\nsegment x\n";
    assert!(rt; is_answer(end, written.as_slice(), CheckEnd::Valid, lines));
    Ok(())
}

#[test]
fn writes_every_fault(rt: HostRuntime) -> Result<(), Fail> {
    let mut out = ToWriter::new(Vec::new(rt.alloc()));
    let text = "http://u@h/a b?%4";
    let end = run_faults(rt.alloc(), text, None, Profile::Wide, &mut out)?;
    let written = out.into_writer();
    let lines = "refused 7 host-domain\nrefused 12 code-point\nrefused 15 percent\n";
    assert!(rt; is_answer(end, written.as_slice(), CheckEnd::Refused, lines));
    Ok(())
}

#[test]
fn mends_a_text(rt: HostRuntime) -> Result<(), Fail> {
    let mut out = ToWriter::new(Vec::new(rt.alloc()));
    let text = "http://a_b//c d";
    let end = run_mend(rt.alloc(), text, None, Profile::Wide, &mut out)?;
    let written = out.into_writer();
    let lines = "mended same\nhttp://a_b//c%20d\n";
    assert!(rt; is_answer(end, written.as_slice(), CheckEnd::Valid, lines));
    Ok(())
}
