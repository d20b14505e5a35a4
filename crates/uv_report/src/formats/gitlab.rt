//! Diagnostics as a report of GitLab on code quality, which is written issue by issue.
ghost use Rattle.json.specs.Tree.{json_tokens};
ghost use Rattle.std.specs.Prelude.{◌≡◌, ◌++◌, OnOk, string_bytes};
ghost use Rattle.uv_report.specs.Diagnostic.{diagnostic_view};
ghost use Rattle.uv_report.specs.Formats.Gitlab as spec;

use crate::diagnostic::Diagnostic;
use crate::formats::fingerprint::file_fingerprint;
use crate::json_text::{JsonText, Piece};
use std::alloc::{AllocError, Global};

/// Pushes an issue.
#[tactic(auto, unfolding(crate::specs::Formats::Gitlab::gitlab_text))]
pub(crate) fn push_gitlab(
    alloc: Global,
    text: &mut String,
    found: &Diagnostic<'_>,
) -> Result<(), AllocError>
    ensures { OnOk result (string_bytes text.new
        ≡ string_bytes text.old ++ spec.gitlab_text (diagnostic_view found.now)) }
{
    let mut json = JsonText::new(alloc)?;
    write_issue(alloc, &mut json, found)?;
    json.push_to(text)?;
    text.push_str("\n")?;
    Ok(())
}

// Writes the issue of a diagnostic.
fn write_issue(alloc: Global, json: &mut JsonText, found: &Diagnostic<'_>) -> Result<(), AllocError>
    ensures { OnOk result (json.new ≡ json.old ++ json_tokens (spec.issue_value (diagnostic_view found.now))) }
{
    let fingerprint = file_fingerprint(alloc, found)?;
    json.write(&[
        Piece::Begin,
        Piece::Text("check_name", found.rule),
        Piece::Text("description", found.message),
    ])?;
    json.text("fingerprint", fingerprint.as_str())?;
    json.write(&[
        Piece::Object("location"),
        Piece::Object("lines"),
        Piece::Number("begin", found.region.line),
        Piece::End,
        Piece::Text("path", found.file),
        Piece::End,
        Piece::Text("severity", "major"),
        Piece::End,
    ])?;
    Ok(())
}
