//! The diagnostics on a line.
ghost use Rattle.std.specs.Cow.{cow_str_bytes};
ghost use Rattle.std.specs.Prelude.{◌≡◌, ℕ, ◌+◌, ◌-◌, ◌^◌, ◌<◌, List, [], ◌++◌, IfErr, IfOk, OnErr, OnOk, option_copied};
ghost use Rattle.std.specs.Prelude.{option_map, string_bytes};
ghost use Rattle.uv_lines.specs.Fault.{failed_within};
ghost use Rattle.uv_lines.specs.Waiting.{LeavesParts, Passes};
ghost use Rattle.uv_report.specs.Diagnostic.{diagnostic_view, fix_view};
ghost use Rattle.uv_sentences.specs.Sentences.Message.{IsMessage, PlacedText, message_view};
ghost use Rattle.uv_lint.specs.LocatedViews.{link_view};
ghost use Rattle.uv_lint.specs.Findings.{AreMessages, IsUtf8WhereRefused, bytes_by, is_refused, shown};
ghost use Rattle.uv_lint.specs.Report.{diagnostic_in, is_shown, region_in, reported_by};
ghost use Rattle.uv_lint.specs.Reporting.{IsNoneOr};
ghost use Rattle.uv_lint.specs.ReportedView.{AreFirstSaid, place_view, reported_view, said_text, text_said};

use crate::located::LocatedLink;
use crate::mended_line::{MendedLine, fix_in_place};
use crate::setting::{LineForm, LintSetting};
use std::alloc::{AllocError, Global};
use std::borrow::CowStr;
use std::str::{from_utf8, from_utf8_unchecked};
use uv_grammar::wider_profile;
use uv_io::{DeviceFault, Sink};
use uv_lines::{ReportFault, end_part};
use uv_model::Profile;
use uv_report::{
    ColumnCounter, Diagnostic, Fix, Region, file_begin_of, file_end_of, push, separator,
};
use uv_rules::LineViolation;
use uv_sentences::{Checked, KnownText, PlacedMessage, Wording, is_by_choice, message};
use uv_shown::SeenText;

/// A line, or the link of one, with the place where it is.
#[derive(Clone, Copy)]
pub(crate) struct Place<'l> {
    /// The name of the file.
    pub(crate) file: &'l str,
    /// The number of the line, from 1.
    pub(crate) line: u64,
    /// The column of the text's beginning, from 1.
    pub(crate) start: u64,
    /// The bytes of the text; none stand for a line that is too long.
    pub(crate) bytes: Option<&'l [u8]>,
}

impl<'l> Place<'l> {
    /// The place in a file of the line with this number, or of its link if the line says where that is.
    pub(crate) fn of(
        file: &'l str,
        number: u64,
        line: Option<&'l [u8]>,
        link: Option<LocatedLink<'l>>,
    ) -> Place<'l>
        ensures place { place_view result
            ≡ reported_by file.entry.now number (option_copied line.entry) (option_map link_view link.entry) }
        ensures bytes { option_copied result.bytes
            ≡ bytes_by (option_map link_view link.entry) (option_copied line.entry) }
    {
        match link {
            Some(link) => Place {
                file: link.file,
                line: u64::from(link.line),
                start: u64::from(link.column),
                bytes: Some(link.link),
            },
            None => Place {
                file,
                line: number,
                start: 1,
                bytes: line,
            },
        }
    }
}

/// A text as diagnostics tell it: the file's name, the number of the line and the column where it begins, both from 1,
/// and what is shown of it.
#[derive(Clone, Copy)]
pub(crate) struct ReportedLine<'l> {
    pub(crate) file: &'l str,
    pub(crate) line: u64,
    pub(crate) start: u64,
    pub(crate) text: &'l str,
}

impl<'l> ReportedLine<'l> {
    /// From one column of its line to another.
    pub(crate) fn region(&self, column: u64, end: u64) -> Region
        ensures { result ≡ region_in (reported_view self.now) column end }
    {
        Region {
            line: self.line,
            column,
            end_line: self.line,
            end_column: end,
        }
    }

    /// Says a diagnostic for each violation of the text, of which this is known; the first of them says what to write. It is
    /// given whether that is the first one of the report. A part ends after each diagnostic; room for one is given.
    pub(crate) fn push<W: Sink>(
        &self,
        alloc: Global,
        reported: &mut String,
        setting: LintSetting<'_>,
        is_first: bool,
        mended: &'l Option<MendedLine>,
        known: KnownText<'l>,
        violations: &[LineViolation],
        text: &mut Vec<u8>,
        writer: &mut W,
    ) -> Result<(), ReportFault<AllocError>>
        requires writes { W.failed writer.old < 2 ^ 64 - 1 }
        requires known { known ≡ self.now.text.now }
        ensures text { OnOk result ((messages : List PlacedText) × AreMessages violations.now messages
            × Passes (text.old.items ++ text_said self.now setting.entry is_first mended.entry.now violations.now
            messages) (W.contents writer.old) (W.contents writer.new) text.new.items) }
        ensures quiet { OnOk result (W.failed writer.new ≡ W.failed writer.old) }
        ensures fault { IfErr result (λ e. LeavesParts (AreFirstSaid self.now setting.entry is_first mended.entry.now
            violations.now) e text.old.items (W.contents writer.old) text.new.items (W.contents writer.new)) }
        ensures failed { IfErr result (λ e. W.failed writer.new ≡ W.failed writer.old + failed_within e) }
    {
        let mut counter = ColumnCounter::new(setting.columns, self.start, self.text);
        let mut known = known;
        let mut is_first = is_first;
        let mut fix = fix_in_place(mended, setting.columns, self);
        for violation in violations {
            let column = counter.column(violation.place());
            let end = counter.column_ahead(violation.end());
            known.go_to(violation.place());
            let Ok(message) = message_of(alloc, setting, &known, *violation) else {
                return Err(ReportFault::Reporter(AllocError));
            };
            let said = Said {
                region: self.region(column, end),
                violation: *violation,
                message: &message,
                fix,
            };
            if let Err(fault) = say_violation(
                alloc,
                reported,
                setting,
                self,
                known.seen(),
                said,
                is_first,
                text,
                writer,
            ) {
                return Err(fault);
            }
            is_first = false;
            fix = None;
        }
        Ok(())
    }
}

// The report on a violation of a line: in which region it is, in which sentence, and with what to write.
#[derive(Clone, Copy)]
struct Said<'x> {
    region: Region,
    violation: LineViolation,
    message: &'x PlacedMessage,
    fix: Option<Fix<'x>>,
}

// The diagnostic that says this of the text of a line, which is seen so.
fn diagnostic_on<'x>(
    line: &ReportedLine<'x>,
    seen: &'x SeenText<'x>,
    said: Said<'x>,
) -> Diagnostic<'x>
    requires { seen.now ≡ line.now.text.now }
    ensures { diagnostic_view result ≡ diagnostic_in (reported_view line.now) said.entry.region
        (option_map fix_view said.entry.fix) said.entry.violation (message_view said.entry.message.now) }
{
    let violation = said.violation;
    Diagnostic {
        file: line.file,
        region: said.region,
        rule: violation.name(),
        index: Some(violation.index()),
        uri: violation.address(),
        message: said.message.text.as_str(),
        text: seen,
        is_shown: is_shown(violation, line.text),
        place: violation.place(),
        named: said.message.place,
        repeat: 0,
        fix: said.fix,
    }
}

// Whether a text with such a violation is shown: it is refused, or some of a line that isn't checked is carried.
fn is_shown(violation: LineViolation, text: &str) -> bool
    ensures { result ≡ is_shown violation text.now }
{
    match violation {
        LineViolation::Refused(_) => true,
        LineViolation::NotUtf8(_) | LineViolation::TooLong | LineViolation::NotLocated(_) => {
            !text.is_empty()
        }
    }
}

// What is reported of a violation of a text, of which this is known, on one line.
fn message_of(
    alloc: Global,
    setting: LintSetting<'_>,
    known: &KnownText<'_>,
    violation: LineViolation,
) -> Result<PlacedMessage, AllocError>
    ensures { IfOk result (λ message. IsMessage (message_view message).text) }
{
    let checked = Checked {
        profile: setting.profile,
        accepted_by: accepted_by(alloc, setting, known.as_str(), violation)?,
        wording: Wording::Options,
    };
    message(alloc, checked, known, violation)
}

// The next wider profile that accepts a text, where the message on a violation of it may name one.
fn accepted_by(
    alloc: Global,
    setting: LintSetting<'_>,
    text: &str,
    violation: LineViolation,
) -> Result<Option<Profile>, AllocError> {
    if is_by_choice(violation) {
        wider_profile(alloc, text, setting.base, setting.profile)
    } else {
        Ok(None)
    }
}

/// A text of which this was found, with what is known of it before its messages.
pub(crate) fn known_text<'l>(text: &'l str, violations: &[LineViolation]) -> KnownText<'l>
    ensures { result ≡ text.entry.now }
{
    match violations {
        [LineViolation::Refused(_)] => KnownText::of_refused(text),
        [] | [_] => KnownText::new(text),
        _ => KnownText::of_several(text),
    }
}

// Says a diagnostic on the text of a line, which is seen so.
fn say_violation<W: Sink>(
    alloc: Global,
    reported: &mut String,
    setting: LintSetting<'_>,
    line: &ReportedLine<'_>,
    seen: &SeenText<'_>,
    said: Said<'_>,
    is_first: bool,
    text: &mut Vec<u8>,
    writer: &mut W,
) -> Result<(), ReportFault<AllocError>>
    requires writes { W.failed writer.old < 2 ^ 64 - 1 }
    requires seen { seen.now ≡ line.now.text.now }
    ensures text { OnOk result (Passes (text.old.items ++ said_text setting.entry is_first
        (diagnostic_in (reported_view line.now) said.entry.region (option_map fix_view said.entry.fix)
        said.entry.violation (message_view said.entry.message.now)))
        (W.contents writer.old) (W.contents writer.new) text.new.items) }
    ensures quiet { OnOk result (W.failed writer.new ≡ W.failed writer.old) }
    ensures fault { IfErr result (λ e. LeavesParts (IsNoneOr (said_text setting.entry is_first
        (diagnostic_in (reported_view line.now) said.entry.region (option_map fix_view said.entry.fix)
        said.entry.violation (message_view said.entry.message.now)))) e
        text.old.items (W.contents writer.old) text.new.items (W.contents writer.new)) }
    ensures failed { IfErr result (λ e. W.failed writer.new ≡ W.failed writer.old + failed_within e) }
{
    let found = diagnostic_on(line, seen, said);
    say_framed(alloc, reported, setting, &found, is_first, text, writer)
}

// Says a diagnostic, and ends a part after it.
fn say_framed<W: Sink>(
    alloc: Global,
    reported: &mut String,
    setting: LintSetting<'_>,
    diagnostic: &Diagnostic<'_>,
    is_first: bool,
    text: &mut Vec<u8>,
    writer: &mut W,
) -> Result<(), ReportFault<AllocError>>
    requires { W.failed writer.old < 2 ^ 64 - 1 }
    ensures text { OnOk result (Passes (text.old.items ++ said_text setting.entry is_first
        (diagnostic_view diagnostic.now)) (W.contents writer.old) (W.contents writer.new) text.new.items) }
    ensures quiet { OnOk result (W.failed writer.new ≡ W.failed writer.old) }
    ensures fault { IfErr result (λ e. LeavesParts (IsNoneOr (said_text setting.entry is_first
        (diagnostic_view diagnostic.now))) e text.old.items (W.contents writer.old) text.new.items
        (W.contents writer.new)) }
    ensures failed { IfErr result (λ e. W.failed writer.new ≡ W.failed writer.old + failed_within e) }
{
    if let Err(AllocError) = append_framed(alloc, reported, setting, diagnostic, is_first, text) {
        return Err(ReportFault::Reporter(AllocError));
    }
    match end_part(text, writer) {
        Ok(()) => Ok(()),
        Err(DeviceFault) => Err(ReportFault::Write),
    }
}

// Appends a diagnostic whole, or nothing.
fn append_framed(
    alloc: Global,
    reported: &mut String,
    setting: LintSetting<'_>,
    diagnostic: &Diagnostic<'_>,
    is_first: bool,
    text: &mut Vec<u8>,
) -> Result<(), AllocError>
    ensures text { OnOk result (text.new.items ≡ text.old.items ++ said_text setting.entry
        is_first (diagnostic_view diagnostic.now)) }
    ensures none { OnErr result (text.new.items ≡ text.old.items) }
{
    put_framed(alloc, reported, setting, diagnostic, is_first)?;
    text.extend_from_slice(reported.as_bytes())
}

// Puts a diagnostic in place of what a text has. If lines say where their links are, what is round the diagnostics of
// its file is round it.
fn put_framed(
    alloc: Global,
    reported: &mut String,
    setting: LintSetting<'_>,
    diagnostic: &Diagnostic<'_>,
    is_first: bool,
) -> Result<(), AllocError>
    ensures { OnOk result (string_bytes reported.new ≡ said_text setting.entry is_first
        (diagnostic_view diagnostic.now)) }
{
    let format = setting.format;
    let look = setting.look;
    reported.clear();
    reported.push_str(separator(format, is_first))?;
    match setting.form {
        LineForm::Plain => push(alloc, reported, format, look, diagnostic),
        LineForm::Located => {
            let begin = file_begin_of(alloc, format, diagnostic.file)?;
            reported.push_str(begin.as_str())?;
            push(alloc, reported, format, look, diagnostic)?;
            reported.push_str(file_end_of(format))
        }
    }
}

/// The text of a line of which this was found that is shown, as a slice of the line where that is UTF-8: U+FFFD is
/// for what isn't, and of a line that is too long nothing is shown. A line of which a rule is violated was seen to be
/// UTF-8, and isn't looked at again.
pub(crate) fn shown_text<'l>(
    alloc: Global,
    violations: &[LineViolation],
    line: Option<&'l [u8]>,
) -> Result<CowStr<'l>, AllocError>
    requires { IsUtf8WhereRefused violations.now (option_copied line) }
    ensures { IfOk result (λ text. cow_str_bytes text ≡ shown (option_copied line.entry)) }
{
    let Some(line) = line else {
        return Ok(CowStr::Borrowed(""));
    };
    if is_refused(violations) {
        return Ok(CowStr::Borrowed(unsafe { from_utf8_unchecked(line) }));
    }
    match from_utf8(line) {
        Ok(text) => Ok(CowStr::Borrowed(text)),
        Err(_) => Ok(CowStr::Owned(String::from_utf8_lossy(alloc, line)?)),
    }
}

// Whether a rule of valid URL strings is violated.
fn is_refused(violations: &[LineViolation]) -> bool
    ensures { result ≡ is_refused violations.now }
{
    matches!(violations, [LineViolation::Refused(_), ..])
}
