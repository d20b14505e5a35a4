//! What comes before and after the diagnostics of a report, and what its formats can do.
ghost use Rattle.std.specs.Prelude.{◌≡◌};
ghost use Rattle.urlcheck_c.specs.Report.{IsBeginAnswer, IsBeginGiven, IsEndAnswer, IsFileBeginAnswer};
ghost use Rattle.urlcheck_c.specs.Report.{IsFileBeginGiven, IsFileEndAnswer};
ghost use Rattle.urlcheck_c.specs.Report.{shows_mended, takes_columns_of, takes_unit};
ghost use Rattle.urlcheck_c.specs.ReportNumbers as spec;

pub(crate) mod diagnostics;
pub(crate) mod fault_lists;
pub(crate) mod messages;
pub(crate) mod report_numbers;

use crate::finding::CallOutcome;
use crate::reports::report_numbers::{completion_of, format_of, unit_of};
use crate::request::text_of;
use crate::written::{Written, text_given};
use std::alloc::{AllocError, Global};
use uv_report::{Columns, Format, begin_of, end_of, file_begin_of, file_end_of};
use uv_rules::shown_rules;

/// Writes what a report begins with, in the format with this number and with columns in the unit with this number.
#[unsafe(no_mangle)]
pub extern "C" fn urlcheck_report_begin(
    alloc: Global,
    format: u32,
    unit: u32,
    out: &mut [u8],
) -> Written
    ensures { IsBeginAnswer format unit out.old out.new result }
{
    let Some(format) = format_of(format) else {
        return Written::refused(CallOutcome::NoFormat);
    };
    let Some(columns) = unit_of(unit) else {
        return Written::refused(CallOutcome::NoUnit);
    };
    if !format.takes_columns(columns) {
        return Written::refused(CallOutcome::NoUnit);
    }
    begin_given(alloc, format, columns, out)
}

// Writes what a report begins with, for which only SARIF takes memory.
fn begin_given(alloc: Global, format: Format, columns: Columns, out: &mut [u8]) -> Written
    ensures { IsBeginGiven format columns out.old out.new result }
{
    let rules = shown_rules();
    match begin_of(alloc, format, columns, rules.as_slice()) {
        Ok(text) => text_given(text.as_str(), out),
        Err(AllocError) => Written::refused(CallOutcome::Memory),
    }
}

/// Writes what comes before the diagnostics of a file.
#[unsafe(no_mangle)]
pub extern "C" fn urlcheck_report_file_begin(
    alloc: Global,
    format: u32,
    file: &[u8],
    out: &mut [u8],
) -> Written
    ensures { IsFileBeginAnswer format file.now out.old out.new result }
{
    let Some(format) = format_of(format) else {
        return Written::refused(CallOutcome::NoFormat);
    };
    match text_of(file, CallOutcome::FileNoUtf8) {
        Ok(file) => file_begin_given(alloc, format, file, out),
        Err(found) => Written::none(found),
    }
}

// Writes what comes before the diagnostics of a file, for which only formats that write the file's name take memory.
fn file_begin_given(alloc: Global, format: Format, file: &str, out: &mut [u8]) -> Written
    ensures { IsFileBeginGiven format file.now out.old out.new result }
{
    match file_begin_of(alloc, format, file) {
        Ok(begin) => text_given(begin.as_str(), out),
        Err(AllocError) => Written::refused(CallOutcome::Memory),
    }
}

/// Writes what comes after the diagnostics of a file. It takes no memory.
#[unsafe(no_mangle)]
pub extern "C" fn urlcheck_report_file_end(format: u32, out: &mut [u8]) -> Written
    ensures { IsFileEndAnswer format out.old out.new result }
{
    match format_of(format) {
        Some(format) => text_given(file_end_of(format), out),
        None => Written::refused(CallOutcome::NoFormat),
    }
}

/// Writes what a report ends with, by the number that says how the run over its files has ended. It takes no memory.
#[unsafe(no_mangle)]
pub extern "C" fn urlcheck_report_end(format: u32, completion: u32, out: &mut [u8]) -> Written
    ensures { IsEndAnswer format completion out.old out.new result }
{
    let Some(format) = format_of(format) else {
        return Written::refused(CallOutcome::NoFormat);
    };
    let Some(completion) = completion_of(completion) else {
        return Written::refused(CallOutcome::NoCompletion);
    };
    text_given(end_of(format, completion), out)
}

/// Whether diagnostics of the format with this number say what to write in place of a text.
#[unsafe(no_mangle)]
pub extern "C" fn urlcheck_shows_mended(format: u32) -> bool
    ensures { result ≡ shows_mended format }
{
    match format_of(format) {
        Some(format) => format.shows_mended(),
        None => false,
    }
}

/// Whether the format with this number takes columns in the unit with this number.
#[unsafe(no_mangle)]
pub extern "C" fn urlcheck_takes_unit(format: u32, unit: u32) -> bool
    ensures { result ≡ takes_unit format unit }
{
    match format_of(format) {
        Some(format) => takes(format, unit),
        None => false,
    }
}

// Whether a format takes columns in the unit with this number.
fn takes(format: Format, unit: u32) -> bool
    ensures { result ≡ takes_columns_of (spec.unit_of unit) format }
{
    match unit_of(unit) {
        Some(columns) => format.takes_columns(columns),
        None => false,
    }
}
