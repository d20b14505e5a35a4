//! A diagnostic on a text in a file. The caller gives each text that it has.
ghost use Rattle.std.specs.Cow.{cow_str_bytes};
ghost use Rattle.std.specs.Prelude.{◌≡◌, ◌==◌, ◌↔◌, ◌++◌, IfOk, IsTrue, codes, string_bytes};
ghost use Rattle.uv_report.specs.Diagnostic.{diagnostic_view};
ghost use Rattle.urlcheck_c.specs.Diagnostic.{IsDiagnosticAnswer, IsDiagnosticRead, IsFixRead, IsFixRegionRead};
ghost use Rattle.urlcheck_c.specs.Diagnostic.{IsInOrder, IsRegion, IsTextFound, texts_view};
ghost use Rattle.urlcheck_c.specs.Diagnostic as spec;

use crate::columns::is_in_range;
use crate::finding::{CallOutcome, Finding};
use crate::reports::report_numbers::{format_of, kind_of, look_of};
use crate::request::text_of;
use crate::written::{Written, given};
use std::alloc::{AllocError, Global};
use std::borrow::CowStr;
use uv_report::{Diagnostic, Fix, Format, Look, Region, push, separator};
use uv_rules::{LineViolation, rule_index};
use uv_sentences::{KnownText, is_named};
use uv_shown::SeenText;
use uv_text::count_code_points;

/// The numbers of a diagnostic.
#[repr(C)]
#[derive(Clone, Copy)]
pub struct ReportedNumbers {
    /// Where what is wrong is.
    pub region: Region,
    /// Where the text is that a mended one is to replace; all zeros if it may not be written there.
    pub fix_region: Region,
    /// The place at which the text is wrong, in code points from 0.
    pub place: usize,
    /// How many diagnostics before it in the file have the same rule, place and text.
    pub repeat: u64,
    /// The number of the kind of the text to write in its place, or 0 if there is none.
    pub kind: u32,
    /// Whether that is offered: not 0 for yes.
    pub offered: u32,
    /// The place of the code point that the message names, in code points from 0; one before `place` stands for that.
    pub named: usize,
}

/// The texts of a diagnostic, as bytes.
#[derive(Clone, Copy)]
pub(crate) struct ReportedTexts<'t> {
    file: &'t [u8],
    rule: &'t [u8],
    uri: &'t [u8],
    message: &'t [u8],
    within: &'t [u8],
    text: &'t [u8],
    fix: &'t [u8],
}

/// Writes a diagnostic on a text in the file with this name, in the format with this number: the name of a rule, the
/// address of its page, which may be empty, what is wrong, and where in the file that is, which may be empty too. The
/// formats that people read have colours if that is asked for.
#[unsafe(no_mangle)]
pub extern "C" fn urlcheck_diagnostic(
    alloc: Global,
    format: u32,
    is_coloured: u32,
    is_first: u32,
    numbers: &ReportedNumbers,
    file: &[u8],
    rule: &[u8],
    uri: &[u8],
    message: &[u8],
    within: &[u8],
    text: &[u8],
    fix: &[u8],
    out: &mut [u8],
) -> Written
    ensures { IsDiagnosticAnswer format is_coloured is_first numbers.now (record {
      file = file.now;
      rule = rule.now;
      uri = uri.now;
      message = message.now;
      within = within.now;
      text = text.now;
      fix = fix.now;
    }) out.old out.new result }
{
    let Some(format) = format_of(format) else {
        return Written::refused(CallOutcome::NoFormat);
    };
    let texts = ReportedTexts {
        file,
        rule,
        uri,
        message,
        within,
        text,
        fix,
    };
    let look = look_of(is_coloured);
    written(alloc, format, look, is_first != 0, numbers, texts, out)
}

// Writes the diagnostic that the numbers and the texts describe, or says why they describe none.
fn written(
    alloc: Global,
    format: Format,
    look: Look,
    is_first: bool,
    numbers: &ReportedNumbers,
    texts: ReportedTexts<'_>,
    out: &mut [u8],
) -> Written
    ensures { spec.IsReportedAnswer format look is_first numbers.now (texts_view texts.entry) out.old out.new result }
{
    let text = match text_found(texts.text, named_place(numbers)) {
        Ok(text) => text,
        Err(found) => return Written::none(found),
    };
    let seen = SeenText::new(text);
    match diagnostic_read(numbers, texts, &seen) {
        Ok((diagnostic, within)) => given(
            &said(alloc, format, look, is_first, &diagnostic, within),
            out,
        ),
        Err(found) => Written::none(found),
    }
}

// The text of a diagnostic, whose message is followed by what else says where in the file it is.
fn said(
    alloc: Global,
    format: Format,
    look: Look,
    is_first: bool,
    diagnostic: &Diagnostic<'_>,
    within: &str,
) -> Result<String, AllocError>
    ensures { IfOk result (λ text. string_bytes text
        ≡ spec.said_text format look is_first (diagnostic_view diagnostic.now) within.now) }
{
    let message = told(alloc, diagnostic.message, within)?;
    let whole = Diagnostic {
        message: message.as_str(),
        ..*diagnostic
    };
    // Room for most diagnostics: a text that grows piece by piece would often be moved.
    let mut text = String::with_capacity(alloc, 1_000)?;
    text.push_str(separator(format, is_first))?;
    push(alloc, &mut text, format, look, &whole)?;
    Ok(text)
}

// A message, and after it what else says where in the file that is.
fn told<'t>(alloc: Global, message: &'t str, within: &str) -> Result<CowStr<'t>, AllocError>
    ensures { IfOk result (λ text. cow_str_bytes text ≡ spec.told message.entry.now within.now) }
{
    if within.is_empty() {
        return Ok(CowStr::Borrowed(message));
    }
    Ok(CowStr::Owned(told_within(alloc, message, within)?))
}

// The same if something says so.
fn told_within(alloc: Global, message: &str, within: &str) -> Result<String, AllocError>
    ensures { IfOk result (λ text. string_bytes text ≡ message.now ++ (codes ", in " ++ within.now)) }
{
    format!(in alloc; "{message}, in {within}")
}

// The place of the code point that the message names.
fn named_place(numbers: &ReportedNumbers) -> usize
    ensures { result ≡ spec.named_place numbers.now }
{
    numbers.place.max(numbers.named)
}

// The text that has a place, or why there isn't one.
fn text_found<'t>(bytes: &'t [u8], place: usize) -> Result<&'t str, Finding>
    ensures { IsTextFound bytes.now place result }
{
    let text = text_of(bytes, CallOutcome::NoUtf8)?;
    if place > count_code_points(text) {
        return Err(Finding::plain(CallOutcome::NoPlace));
    }
    Ok(text)
}

// The diagnostic on this text, with what else says where in the file it is; or why the other arguments describe none.
fn diagnostic_read<'t>(
    numbers: &ReportedNumbers,
    texts: ReportedTexts<'t>,
    text: &'t SeenText<'t>,
) -> Result<(Diagnostic<'t>, &'t str), Finding>
    ensures { IsDiagnosticRead numbers.now (texts_view texts.entry) text.now result }
{
    let file = text_of(texts.file, CallOutcome::FileNoUtf8)?;
    let rule = text_of(texts.rule, CallOutcome::ReportedNoUtf8)?;
    let uri = text_of(texts.uri, CallOutcome::ReportedNoUtf8)?;
    let message = text_of(texts.message, CallOutcome::ReportedNoUtf8)?;
    let within = text_of(texts.within, CallOutcome::ReportedNoUtf8)?;
    if !is_region(numbers.region) {
        return Err(Finding::plain(CallOutcome::NoColumn));
    }
    let fix = fix_read(numbers, texts.fix, text)?;
    let diagnostic = Diagnostic {
        file,
        region: numbers.region,
        rule,
        index: rule_index(rule),
        uri,
        message,
        text,
        is_shown: is_shown(rule, text.as_str()),
        place: numbers.place,
        named: named_place(numbers),
        repeat: numbers.repeat,
        fix,
    };
    Ok((diagnostic, within))
}

// Whether a text is shown that violates the rule with this name: it isn't empty, or the rule isn't one of lines.
fn is_shown(rule: &str, text: &str) -> bool
    ensures { result ≡ spec.is_shown rule.now text.now }
{
    !text.is_empty() || LineViolation::of_name(rule).is_none()
}

// What to write in place of this text, if the numbers say so; or why they are wrong.
fn fix_read<'t>(
    numbers: &ReportedNumbers,
    fix: &'t [u8],
    refused: &SeenText<'_>,
) -> Result<Option<Fix<'t>>, Finding>
    ensures { IsFixRead numbers.now fix.now result }
{
    if numbers.kind == 0 {
        return Ok(None);
    }
    let Some(kind) = kind_of(numbers.kind) else {
        return Err(Finding::plain(CallOutcome::NoKind));
    };
    let text = text_of(fix, CallOutcome::MendedNoUtf8)?;
    let region = fix_region_read(numbers.fix_region)?;
    Ok(Some(Fix {
        region,
        text,
        kind,
        is_offered: numbers.offered != 0,
        is_named: is_named(&KnownText::new(refused.as_str())),
    }))
}

// The region where a fix may be written, if there is one, or why the numbers aren't a region.
fn fix_region_read(region: Region) -> Result<Option<Region>, Finding>
    ensures { IsFixRegionRead region result }
{
    if is_nowhere(region) {
        return Ok(None);
    }
    if is_region(region) {
        Ok(Some(region))
    } else {
        Err(Finding::plain(CallOutcome::NoColumn))
    }
}

// Whether a region is of zeros.
fn is_nowhere(region: Region) -> bool
    ensures { result ≡ spec.is_nowhere region }
{
    region.line == 0 && region.column == 0 && region.end_line == 0 && region.end_column == 0
}

// Whether the lines and the columns of a region are in range, and it ends no earlier than it begins.
fn is_region(region: Region) -> bool
    ensures { IsTrue result ↔ IsRegion region }
{
    is_in_range(region.line)
        && is_in_range(region.column)
        && is_in_range(region.end_line)
        && is_in_range(region.end_column)
        && is_in_order(region)
}

// Whether a region ends no earlier than it begins.
fn is_in_order(region: Region) -> bool
    ensures { IsTrue result ↔ IsInOrder region }
{
    region.line < region.end_line
        || (region.line == region.end_line && region.column <= region.end_column)
}
