//! The reporter on a file's lines.
ghost use Rattle.std.specs.Prelude.{◌≡◌, ◌+◌, ◌-◌, ◌^◌, ◌<◌, [], IfErr, OnErr, OnOk, if◌then◌else◌, option_copied};
ghost use Rattle.std.specs.Prelude.{option_map};
ghost use Rattle.uv_lines.specs.Fault.{failed_within};
ghost use Rattle.uv_lines.specs.Line.{bytes_of};
ghost use Rattle.uv_lines.specs.Waiting.{LeavesParts};
ghost use Rattle.uv_lint.specs.Findings.{IsRefusedFirst};
ghost use Rattle.uv_lint.specs.LineViolations.{AreViolations, file_setting};
ghost use Rattle.uv_lint.specs.Report.{checked_of, none_counted};
ghost use Rattle.uv_lint.specs.Report as spec;
ghost use Rattle.uv_lint.specs.ReportedView.{shown_at};
ghost use Rattle.uv_lint.specs.Reporting.{HasBegun, HasBegunLine, HasReported, HasReportedLine, with_line};

use crate::counts::LintCounts;
use crate::located::link_of;
use crate::mended_line::mended_line;
use crate::reported_line::{Place, ReportedLine, known_text, shown_text};
use crate::setting::{LineForm, LintSetting};
use std::alloc::{AllocError, Global};
use std::marker::Model;
use uv_io::Sink;
use uv_lines::{Line, ReportFault, Reporter, without_mark};
use uv_model::{Extent, Profile, Record};
use uv_rules::LineViolation;

/// The reporter on a file's lines: how they are checked, whether the report has no diagnostic yet, and the counts of
/// the lines before.
#[derive(Drop)]
pub(crate) struct LintReporter<'a> {
    file: &'a str,
    setting: LintSetting<'a>,
    is_first: bool,
    // All lines, also the empty ones: they are numbered too.
    lines: u64,
    counts: LintCounts,
    // A diagnostic, whose memory is kept for the next one.
    reported: String,
}

impl<'a> Model for LintReporter<'a> {
    ghost use Rattle.std.specs.Prelude.{◌≤◌};
    ghost use Rattle.uv_lint.specs.LineViolations.{file_setting};
    ghost use Rattle.uv_lint.specs.Reporting.{Linting};

    ghost Value = { Linting };

    ghost view = { λ r. record {
      setting = file_setting r.file.now r.setting;
      is_first = r.is_first;
      lines = r.lines;
      counts = r.counts;
    } };

    ghost invariant = { λ r. (r.counts.refused ≤ r.lines) × (r.counts.lines ≤ r.lines) };
}

impl<'a> LintReporter<'a> {
    /// What reports on a file before its first line. It is given whether no diagnostic of the report was written yet.
    pub(crate) fn new(
        alloc: Global,
        file: &'a str,
        is_first: bool,
        setting: LintSetting<'a>,
    ) -> LintReporter<'a>
        ensures { result ≡ record {
          setting = file_setting file.now setting.entry;
          is_first = is_first;
          lines = 0;
          counts = none_counted;
        } }
    {
        LintReporter {
            file,
            setting,
            is_first,
            lines: 0,
            counts: LintCounts {
                lines: 0,
                refused: 0,
            },
            reported: String::new(alloc),
        }
    }

    /// The counts of the lines on which it has reported.
    pub(crate) fn counts(&self) -> LintCounts
        ensures { result ≡ self.now.counts }
    {
        self.counts
    }

    /// The base of relative links.
    pub(crate) fn base(&self) -> Option<&'a Record>
        ensures { option_copied result ≡ self.now.setting.base }
    {
        self.setting.base
    }

    /// By which profile a line is valid.
    pub(crate) fn profile(&self) -> Profile
        ensures { result ≡ self.now.setting.profile }
    {
        self.setting.profile
    }

    /// How many of the violations of a refused line are reported.
    pub(crate) fn extent(&self) -> Extent
        ensures { result ≡ self.now.setting.extent }
    {
        self.setting.extent
    }

    /// What a line is.
    pub(crate) fn form(&self) -> LineForm
        ensures { result ≡ self.now.setting.form }
    {
        self.setting.form
    }

    /// Says the diagnostics on the next line, of which this was found, and counts it.
    pub(crate) fn report_line<W: Sink>(
        &mut self,
        alloc: Global,
        line: Option<&[u8]>,
        violations: &[LineViolation],
        text: &mut Vec<u8>,
        writer: &mut W,
    ) -> Result<(), ReportFault<AllocError>>
        requires few { self.old.lines < 2 ^ 64 - 1 }
        requires writes { W.failed writer.old < 2 ^ 64 - 1 }
        requires found { AreViolations self.old.setting (option_copied line) violations.now }
        ensures text { OnOk result (HasReportedLine self.old (option_copied line.entry) text.old.items
            (W.contents writer.old) self.new text.new.items (W.contents writer.new)) }
        ensures same { OnErr result (self.new ≡ self.old) }
        ensures quiet { OnOk result (W.failed writer.new ≡ W.failed writer.old) }
        ensures fault { IfErr result (λ e. LeavesParts (HasBegunLine self.old (option_copied line.entry)) e
            text.old.items (W.contents writer.old) text.new.items (W.contents writer.new)) }
        ensures failed { IfErr result (λ e. W.failed writer.new ≡ W.failed writer.old + failed_within e) }
    {
        let link = link_of(self.setting.form, line);
        let place = Place::of(self.file, self.lines + 1, line, link);
        let Ok(shown) = shown_text(alloc, violations, place.bytes) else {
            return Err(ReportFault::Reporter(AllocError));
        };
        match self.report_text(alloc, place, shown.as_str(), violations, text, writer) {
            Ok(()) => {
                self.count(line, violations);
                Ok(())
            }
            Err(fault) => Err(fault),
        }
    }

    // Says the diagnostics on what is shown of a text that is there, with what to write in its place.
    fn report_text<'x, W: Sink>(
        &mut self,
        alloc: Global,
        place: Place<'x>,
        shown: &'x str,
        violations: &[LineViolation],
        text: &mut Vec<u8>,
        writer: &mut W,
    ) -> Result<(), ReportFault<AllocError>>
        requires writes { W.failed writer.old < 2 ^ 64 - 1 }
        requires refused { IsRefusedFirst self.old.setting.profile self.old.setting.base violations.now shown.now }
        ensures text { OnOk result (HasReported self.old (shown_at place.entry shown.entry.now) violations.now
            text.old.items (W.contents writer.old) (W.contents writer.new) text.new.items) }
        ensures same { self.new ≡ self.old }
        ensures quiet { OnOk result (W.failed writer.new ≡ W.failed writer.old) }
        ensures fault { IfErr result (λ e. LeavesParts (HasBegun self.old (shown_at place.entry shown.entry.now)
            violations.now) e text.old.items (W.contents writer.old) text.new.items (W.contents writer.new)) }
        ensures failed { IfErr result (λ e. W.failed writer.new ≡ W.failed writer.old + failed_within e) }
    {
        let known = known_text(shown, violations);
        let Ok(mended) = mended_line(alloc, self.setting, violations, &known) else {
            return Err(ReportFault::Reporter(AllocError));
        };
        let reported_line = ReportedLine {
            file: place.file,
            line: place.line,
            start: place.start,
            text: shown,
        };
        reported_line.push(
            alloc,
            &mut self.reported,
            self.setting,
            self.is_first,
            &mended,
            known,
            violations,
            text,
            writer,
        )
    }

    /// Counts a line of which this was found.
    #[inline(always)]
    pub(crate) fn count(&mut self, line: Option<&[u8]>, violations: &[LineViolation])
        requires { self.old.lines < 2 ^ 64 - 1 }
        ensures { self.new ≡ with_line self.old (option_copied line.entry) violations.now }
    {
        self.lines += 1;
        if is_checked(line) {
            self.counts.lines += 1;
        }
        if !violations.is_empty() {
            self.counts.refused += 1;
            self.is_first = false;
        }
    }
}

impl<'a> Reporter for LintReporter<'a> {
    ghost use Rattle.uv_lint.specs.Reporting.{Begins, Says};

    type Fault = AllocError;

    ghost lines = { λ r. r.lines };

    ghost reports = { Says };

    ghost begins = { Begins };

    // It is inlined, as each line would else be copied once more.
    #[inline(always)]
    fn report<W: Sink>(
        &mut self,
        alloc: Global,
        line: Option<Line<'_>>,
        text: &mut Vec<u8>,
        writer: &mut W,
    ) -> Result<(), ReportFault<AllocError>> {
        let line = checked_line(self.lines, line);
        match self.plain_text(line) {
            Some(plain) => {
                self.report_checked(alloc, Some(plain.as_bytes()), plain, text, writer)
            }
            None => self.report_other(alloc, line, text, writer),
        }
    }

    fn line_count(&self) -> u64 {
        self.lines
    }

    ghost last = { λ _. [] };

    fn last(&self, alloc: Global) -> Result<String, AllocError> {
        Ok(String::new(alloc))
    }
}

/// Whether a line is checked: an empty one isn't.
pub(crate) fn is_checked(line: Option<&[u8]>) -> bool
    ensures { checked_of (option_copied line.entry) ≡ (if result then 1 else 0) }
{
    match line {
        Some(line) => !line.is_empty(),
        None => true,
    }
}

// A line as it is checked after so many others: a byte order mark at the file's start isn't a part of the first one.
#[inline(always)]
fn checked_line(before: u64, line: Option<Line<'_>>) -> Option<Line<'_>>
    ensures { option_map bytes_of result ≡ spec.checked_line before (option_map bytes_of line.entry) }
{
    match line {
        Some(line) if before == 0 => Some(Line::Bytes(without_mark(line.as_bytes()))),
        _ => line,
    }
}

/// The bytes of a line that isn't too long.
pub(crate) fn line_bytes(line: Option<Line<'_>>) -> Option<&[u8]>
    ensures { option_copied result ≡ option_map bytes_of line.entry }
{
    match line {
        Some(line) => Some(line.as_bytes()),
        None => None,
    }
}
