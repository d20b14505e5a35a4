//! Diagnostics as a document of Checkstyle, in XML.
ghost use Rattle.std.specs.Prelude.{◌≡◌, ◌++◌, OnOk, string_bytes};
ghost use Rattle.uv_report.specs.Diagnostic.{diagnostic_view};
ghost use Rattle.uv_report.specs.Formats.Checkstyle.{checkstyle_text, file_begin};

use crate::diagnostic::Diagnostic;
use std::alloc::{AllocError, Global};
use uv_shown::{Escapes, escaped, push_escaped};

/// What the document begins with.
pub(crate) const CHECKSTYLE_BEGIN: &str =
    "<?xml version=\"1.0\" encoding=\"UTF-8\"?>\n<checkstyle version=\"4.3\">\n";

/// Pushes the start tag of a file.
#[tactic(auto, unfolding(crate::specs::Formats::Checkstyle::file_begin))]
pub(crate) fn push_checkstyle_file(text: &mut String, file: &str) -> Result<(), AllocError>
    ensures { OnOk result (string_bytes text.new ≡ string_bytes text.old ++ file_begin file.now) }
{
    text.push_str("<file name=\"")?;
    push_escaped(text, file, Escapes::Attribute)?;
    text.push_str("\">\n")?;
    Ok(())
}

/// Pushes the element of a diagnostic, and a line feed.
#[tactic(auto, unfolding(crate::specs::Formats::Checkstyle::checkstyle_text))]
pub(crate) fn push_checkstyle(
    alloc: Global,
    text: &mut String,
    found: &Diagnostic<'_>,
) -> Result<(), AllocError>
    ensures { OnOk result (string_bytes text.new ≡ string_bytes text.old ++ checkstyle_text (diagnostic_view found.now)) }
{
    let line = found.region.line;
    let column = found.region.column;
    let message = escaped(alloc, found.message, Escapes::Attribute)?;
    let rule = escaped(alloc, found.rule, Escapes::Attribute)?;
    let element = format!(in alloc;
        "<error line=\"{line}\" column=\"{column}\" severity=\"error\" message=\"{message}\" \
        source=\"urlcheck.{rule}\"/>\n"
    )?;
    text.push_str(element.as_str())?;
    Ok(())
}
