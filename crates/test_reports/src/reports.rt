//! Reports on diagnostics of the tests.

use std::alloc::{AllocError, Global};
use uv_report::{
    Columns, Completion, Diagnostic, Format, Look, begin_of, end_of, file_begin_of, file_end_of,
    push,
};
use uv_rules::shown_rules;

/// A report on one diagnostic.
pub(crate) fn report(
    alloc: Global,
    format: Format,
    diagnostic: &Diagnostic<'_>,
) -> Result<String, AllocError> {
    let mut text = String::new(alloc);
    let rules = shown_rules();
    text.push_str(begin_of(alloc, format, Columns::CodePoints, rules.as_slice())?.as_str())?;
    text.push_str(file_begin_of(alloc, format, diagnostic.file)?.as_str())?;
    push(alloc, &mut text, format, Look::Plain, diagnostic)?;
    text.push_str(file_end_of(format))?;
    text.push_str(end_of(format, Completion::Whole))?;
    Ok(text)
}
