//! The report on the cases of a vector file.
ghost use Rattle.std.specs.Prelude.{◌≡◌, ◌≤◌, ◌++◌, IfOk, OnOk, length, string_bytes};
ghost use Rattle.serde_json.specs.View.{items_view};
ghost use Rattle.uv_vectors.specs.Case.{list_of};
ghost use Rattle.uv_vectors.specs.Report.{HasFailures, IsReportOn, case_line, end_by, fail_line, fails, vector_counts};

use crate::case::passes;
use crate::ends::CasesEnd;
use serde_json::Value;
use std::alloc::{AllocError, Global};

/// The report on values, and how the run that writes it ends. An error means that memory ran out.
pub(crate) fn report_on(alloc: Global, values: &[Value]) -> Result<(CasesEnd, String), AllocError>
    ensures { IfOk result (λ r. IsReportOn (list_of (items_view values.now)) r.0 (string_bytes r.1)) }
{
    let (failed, mut text) = failures(alloc, values)?;
    let counts = counts_line(alloc, values.len(), values.len() - failed, failed)?;
    text.push_str(counts.as_str())?;
    Ok((end_after(failed), text))
}

// How a run ends after this many cases failed.
fn end_after(failed: usize) -> CasesEnd
    ensures { result ≡ end_by failed }
{
    match failed {
        0 => CasesEnd::AllPass,
        _ => CasesEnd::SomeFail,
    }
}

// How many values fail, and a line for each of them.
fn failures(alloc: Global, values: &[Value]) -> Result<(usize, String), AllocError>
    ensures lines { IfOk result (λ r. HasFailures (list_of (items_view values.now)) r.0 (string_bytes r.1)) }
    ensures most { IfOk result (λ r. r.0 ≤ length values.now) }
{
    let mut text = String::new(alloc);
    let mut failed = 0;
    for (at, value) in values.iter().enumerate() {
        let passed = passes(alloc, value)?;
        push_case(alloc, &mut text, at + 1, passed)?;
        failed += fails(passed);
    }
    Ok((failed, text))
}

// Appends the line of a case, if it has one.
fn push_case(
    alloc: Global,
    text: &mut String,
    number: usize,
    passed: bool,
) -> Result<(), AllocError>
    ensures { OnOk result (string_bytes text.new ≡ string_bytes text.old ++ case_line number passed) }
{
    if passed {
        return Ok(());
    }
    text.push_str(fail_text(alloc, number)?.as_str())
}

// What a case adds to the count of failed ones.
fn fails(passed: bool) -> usize
    ensures count { result ≡ fails passed }
    ensures most { result ≤ 1 }
{
    if passed { 0 } else { 1 }
}

// The line of a case that fails.
#[tactic(auto, unfolding(crate::specs::Report::fail_line))]
fn fail_text(alloc: Global, number: usize) -> Result<String, AllocError>
    ensures { IfOk result (λ text. string_bytes text ≡ fail_line number) }
{
    format!(in alloc; "fail {number}\n")
}

// The last line of the report: how many cases there are, pass and fail.
#[tactic(auto, unfolding(crate::specs::Report::vector_counts))]
fn counts_line(alloc: Global, cases: usize, pass: usize, fail: usize) -> Result<String, AllocError>
    ensures { IfOk result (λ text. string_bytes text ≡ vector_counts cases pass fail) }
{
    format!(in alloc; "vectors {cases} pass {pass} fail {fail}\n")
}
