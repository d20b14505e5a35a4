//! Diagnostics as workflow commands of GitHub.
ghost use Rattle.std.specs.Prelude.{◌≡◌, ◌++◌, OnOk, string_bytes};
ghost use Rattle.uv_report.specs.Diagnostic.{diagnostic_view};
ghost use Rattle.uv_report.specs.Formats.Github.{github_text};

use crate::diagnostic::Diagnostic;
use std::alloc::{AllocError, Global};
use uv_shown::{Escapes, escaped};

/// Pushes the command `error` with its properties and its message, and a line feed.
#[tactic(auto, unfolding(crate::specs::Formats::Github::github_text))]
pub(crate) fn push_github(
    alloc: Global,
    text: &mut String,
    found: &Diagnostic<'_>,
) -> Result<(), AllocError>
    ensures { OnOk result (string_bytes text.new ≡ string_bytes text.old ++ github_text (diagnostic_view found.now)) }
{
    let line = found.region.line;
    let column = found.region.column;
    let file = escaped(alloc, found.file, Escapes::Property)?;
    let rule = escaped(alloc, found.rule, Escapes::Property)?;
    let message = escaped(alloc, found.message, Escapes::Message)?;
    let command = format!(in alloc;
        "::error file={file},line={line},col={column},title={rule}::{message}\n"
    )?;
    text.push_str(command.as_str())?;
    Ok(())
}
