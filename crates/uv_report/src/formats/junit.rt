//! Diagnostics as a document of JUnit, in XML.
ghost use Rattle.std.specs.Prelude.{◌≡◌, ◌++◌, OnOk, string_bytes};
ghost use Rattle.uv_report.specs.Diagnostic.{diagnostic_view};
ghost use Rattle.uv_report.specs.Formats.Junit as spec;

use crate::completion::Completion;
use crate::diagnostic::Diagnostic;
use std::alloc::{AllocError, Global};
use uv_shown::{Escapes, escaped, push_escaped};

/// What the document begins with.
pub(crate) const JUNIT_BEGIN: &str =
    "<?xml version=\"1.0\" encoding=\"UTF-8\"?>\n<testsuites name=\"urlcheck\">\n";

/// What the document ends with: a test that fails if not every file was read to its end.
pub(crate) fn junit_end(completion: Completion) -> &'static str
    ensures { result.now ≡ spec.junit_end completion }
{
    match completion {
        Completion::Whole => {
            "<testsuite name=\"urlcheck\">\n<testcase classname=\"urlcheck\" name=\"run\"/>\n\
            </testsuite>\n</testsuites>\n"
        }
        Completion::Unread => {
            "<testsuite name=\"urlcheck\">\n<testcase classname=\"urlcheck\" name=\"run\">\
            <error message=\"a file can't be read, which standard error names\"/></testcase>\n\
            </testsuite>\n</testsuites>\n"
        }
        Completion::Stopped => {
            "<testsuite name=\"urlcheck\">\n<testcase classname=\"urlcheck\" name=\"run\">\
            <error message=\"the run stopped, and standard error says why\"/></testcase>\n\
            </testsuite>\n</testsuites>\n"
        }
    }
}

/// Pushes the start tag of a file's suite, and a test that passes.
#[tactic(auto, unfolding(crate::specs::Formats::Junit::suite_begin))]
pub(crate) fn push_junit_file(text: &mut String, file: &str) -> Result<(), AllocError>
    ensures { OnOk result (string_bytes text.new ≡ string_bytes text.old ++ spec.suite_begin file.now) }
{
    text.push_str("<testsuite name=\"")?;
    push_escaped(text, file, Escapes::Attribute)?;
    text.push_str("\">\n<testcase classname=\"")?;
    push_escaped(text, file, Escapes::Attribute)?;
    text.push_str("\" name=\"file\"/>\n")?;
    Ok(())
}

/// Pushes the failed test of a diagnostic, and a line feed.
#[tactic(auto, unfolding(crate::specs::Formats::Junit::junit_text))]
pub(crate) fn push_junit(
    alloc: Global,
    text: &mut String,
    found: &Diagnostic<'_>,
) -> Result<(), AllocError>
    ensures { OnOk result (string_bytes text.new ≡ string_bytes text.old ++ spec.junit_text (diagnostic_view found.now)) }
{
    push_case(alloc, text, found)?;
    push_failure(alloc, text, found)?;
    Ok(())
}

// Pushes the start tag of the test.
#[tactic(auto, unfolding(crate::specs::Formats::Junit::case_begin))]
fn push_case(alloc: Global, text: &mut String, found: &Diagnostic<'_>) -> Result<(), AllocError>
    ensures { OnOk result (string_bytes text.new ≡ string_bytes text.old ++ spec.case_begin (diagnostic_view found.now)) }
{
    let line = found.region.line;
    let column = found.region.column;
    let rule = escaped(alloc, found.rule, Escapes::Attribute)?;
    text.push_str("<testcase classname=\"")?;
    push_escaped(text, found.file, Escapes::Attribute)?;
    let name = format!(in alloc; "\" name=\"{line}:{column} {rule}\">")?;
    text.push_str(name.as_str())?;
    Ok(())
}

// Pushes the failure, and the test's end tag.
#[tactic(auto, unfolding(crate::specs::Formats::Junit::failure))]
fn push_failure(alloc: Global, text: &mut String, found: &Diagnostic<'_>) -> Result<(), AllocError>
    ensures { OnOk result (string_bytes text.new ≡ string_bytes text.old ++ spec.failure (diagnostic_view found.now)) }
{
    let rule = escaped(alloc, found.rule, Escapes::Attribute)?;
    let message = escaped(alloc, found.message, Escapes::Attribute)?;
    let carried = found.carried(alloc)?;
    let carried = escaped(alloc, carried.as_str(), Escapes::Attribute)?;
    let failure = format!(in alloc;
        "<failure type=\"{rule}\" message=\"{message}\">{carried}</failure></testcase>\n"
    )?;
    text.push_str(failure.as_str())?;
    Ok(())
}
