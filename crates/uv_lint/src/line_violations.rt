//! Checks a line, and reports on what is wrong with it.
ghost use Rattle.std.specs.Prelude.{◌≡◌, ◌+◌, ◌-◌, ◌^◌, ◌<◌, [], ◌∷◌, IfErr, IfOk, IfSome, IsUtf8, OnErr, OnOk};
ghost use Rattle.std.specs.Prelude.{Some, length, map, option_copied, option_map, take};
ghost use Rattle.std.specs.Str.{chars};
ghost use Rattle.std.specs.Str.Lossy.{utf8_valid_len};
ghost use Rattle.uv_grammar.specs.Verdict.{IsRefused};
ghost use Rattle.uv_lines.specs.Fault.{failed_within};
ghost use Rattle.uv_lines.specs.Line.{bytes_of};
ghost use Rattle.uv_lines.specs.Waiting.{LeavesParts};
ghost use Rattle.uv_lint.specs.LineViolations.{AreStrayViolations, AreTextViolations, AreViolations, IsCheckedBy};
ghost use Rattle.uv_lint.specs.LineViolations.{foreign_place};
ghost use Rattle.uv_lint.specs.Report.{checked_of};
ghost use Rattle.uv_lint.specs.Reporting.{HasBegunLine, HasReportedLine};
ghost use Rattle.uv_model.specs.declared.extent.Extent.TheVariants.{All};
ghost use Rattle.uv_rules.specs.declared.line_violation.LineViolation.TheVariants.{NotUtf8, Refused};

use crate::code_points::count;
use crate::located::located;
use crate::located_fault::located_fault;
use crate::reporter::{LintReporter, is_checked, line_bytes};
use crate::setting::LineForm;
use std::alloc::{AllocError, Global};
use std::str::from_utf8;
use uv_grammar::{Verdict, check, faults};
use uv_io::Sink;
use uv_lines::{Line, ReportFault};
use uv_model::{Extent, Refusal};
use uv_rules::LineViolation;

impl<'a> LintReporter<'a> {
    /// The text of a line that is a text alone and is known to be one, as most lines are. None also stands for an empty
    /// line.
    #[inline(always)]
    pub(crate) fn plain_text<'l>(&self, line: Option<Line<'l>>) -> Option<&'l str>
        ensures whole { IfSome result (λ plain. option_map bytes_of line.entry ≡ Some plain.now) }
        ensures checked { IfSome result (λ plain. IsCheckedBy self.now.setting (Some plain.now) plain.now) }
    {
        match line {
            Some(Line::Text(plain)) if self.form() == LineForm::Plain && !plain.is_empty() => {
                Some(plain)
            }
            _ => None,
        }
    }

    /// Reports on the next line, which is checked by this text, and counts it. No memory is asked for a valid text but
    /// where a domain's form is made. It is inlined, so that the checker's answer, which is large, stays where it was
    /// written, and a valid text needs no further call.
    #[inline(always)]
    pub(crate) fn report_checked<W: Sink>(
        &mut self,
        alloc: Global,
        line: Option<&[u8]>,
        checked: &str,
        text: &mut Vec<u8>,
        writer: &mut W,
    ) -> Result<(), ReportFault<AllocError>>
        requires few { self.old.lines < 2 ^ 64 - 1 }
        requires writes { W.failed writer.old < 2 ^ 64 - 1 }
        requires checked { IsCheckedBy self.old.setting (option_copied line) checked.now }
        ensures text { OnOk result (HasReportedLine self.old (option_copied line.entry) text.old.items
            (W.contents writer.old) self.new text.new.items (W.contents writer.new)) }
        ensures same { OnErr result (self.new ≡ self.old) }
        ensures quiet { OnOk result (W.failed writer.new ≡ W.failed writer.old) }
        ensures fault { IfErr result (λ e. LeavesParts (HasBegunLine self.old (option_copied line.entry)) e
            text.old.items (W.contents writer.old) text.new.items (W.contents writer.new)) }
        ensures failed { IfErr result (λ e. W.failed writer.new ≡ W.failed writer.old + failed_within e) }
    {
        match check(alloc, checked, self.base(), self.profile()) {
            Ok(Verdict::Yes(_)) => {
                self.count(line, &[]);
                Ok(())
            }
            Ok(Verdict::No(refusal)) => {
                self.report_refused(alloc, line, checked, refusal, text, writer)
            }
            Err(AllocError) => Err(ReportFault::Reporter(AllocError)),
        }
    }

    /// Reports on the next line, whatever it is, and counts it. It is never inlined, so that a plain text takes no room
    /// for what others need.
    #[inline(never)]
    pub(crate) fn report_other<W: Sink>(
        &mut self,
        alloc: Global,
        line: Option<Line<'_>>,
        text: &mut Vec<u8>,
        writer: &mut W,
    ) -> Result<(), ReportFault<AllocError>>
        requires few { self.old.lines < 2 ^ 64 - 1 }
        requires writes { W.failed writer.old < 2 ^ 64 - 1 }
        ensures text { OnOk result (HasReportedLine self.old (option_map bytes_of line.entry) text.old.items
            (W.contents writer.old) self.new text.new.items (W.contents writer.new)) }
        ensures same { OnErr result (self.new ≡ self.old) }
        ensures quiet { OnOk result (W.failed writer.new ≡ W.failed writer.old) }
        ensures fault { IfErr result (λ e. LeavesParts (HasBegunLine self.old (option_map bytes_of line.entry)) e
            text.old.items (W.contents writer.old) text.new.items (W.contents writer.new)) }
        ensures failed { IfErr result (λ e. W.failed writer.new ≡ W.failed writer.old + failed_within e) }
    {
        let bytes = line_bytes(line);
        if !is_checked(bytes) {
            self.count(bytes, &[]);
            return Ok(());
        }
        match self.checked_text(line) {
            Ok(checked) => self.report_checked(alloc, bytes, checked, text, writer),
            Err(violation) => self.report_line(alloc, bytes, &[violation], text, writer),
        }
    }

    // Reports on the next line, whose text is refused so, and counts it. Memory is only taken for more than one
    // violation. It is never inlined, so that a valid text takes no room for it.
    #[inline(never)]
    fn report_refused<W: Sink>(
        &mut self,
        alloc: Global,
        line: Option<&[u8]>,
        checked: &str,
        refusal: Refusal,
        text: &mut Vec<u8>,
        writer: &mut W,
    ) -> Result<(), ReportFault<AllocError>>
        requires few { self.old.lines < 2 ^ 64 - 1 }
        requires writes { W.failed writer.old < 2 ^ 64 - 1 }
        requires checked { IsCheckedBy self.old.setting (option_copied line) checked.now }
        requires refused { IsRefused self.old.setting.profile self.old.setting.base (chars checked.now) refusal }
        ensures text { OnOk result (HasReportedLine self.old (option_copied line.entry) text.old.items
            (W.contents writer.old) self.new text.new.items (W.contents writer.new)) }
        ensures same { OnErr result (self.new ≡ self.old) }
        ensures quiet { OnOk result (W.failed writer.new ≡ W.failed writer.old) }
        ensures fault { IfErr result (λ e. LeavesParts (HasBegunLine self.old (option_copied line.entry)) e
            text.old.items (W.contents writer.old) text.new.items (W.contents writer.new)) }
        ensures failed { IfErr result (λ e. W.failed writer.new ≡ W.failed writer.old + failed_within e) }
    {
        match self.extent() {
            Extent::First => {
                let violations = [LineViolation::Refused(refusal)];
                self.report_line(alloc, line, &violations, text, writer)
            }
            Extent::All => {
                let Ok(violations) = self.all_violations(alloc, checked, refusal) else {
                    return Err(ReportFault::Reporter(AllocError));
                };
                self.report_line(alloc, line, violations.as_slice(), text, writer)
            }
        }
    }

    // All violations of a text that is refused so, in their order.
    fn all_violations(
        &self,
        alloc: Global,
        checked: &str,
        refusal: Refusal,
    ) -> Result<Vec<LineViolation>, AllocError>
        requires all { self.now.setting.extent ≡ All }
        requires refused { IsRefused self.now.setting.profile self.now.setting.base (chars checked.now) refusal }
        ensures { IfOk result (λ violations.
            AreTextViolations self.now.setting (chars checked.now) violations.items) }
    {
        let refusals = faults(alloc, checked, self.base(), self.profile())?;
        each_refused(alloc, refusals.as_slice())
    }

    // The text by which a line that isn't empty is checked, its link's where lines say where that is, or why it has
    // none.
    fn checked_text<'l>(&self, line: Option<Line<'l>>) -> Result<&'l str, LineViolation>
        requires some { checked_of (option_map bytes_of line) ≡ 1 }
        ensures text { IfOk result (λ checked. IsCheckedBy self.now.setting (option_map bytes_of line.entry)
            checked.now) }
        ensures none { IfErr result (λ violation. AreViolations self.now.setting (option_map bytes_of line.entry)
            (violation ∷ [])) }
    {
        let Some(line) = line else {
            return Err(LineViolation::TooLong);
        };
        match self.form() {
            LineForm::Plain => text_of(line),
            LineForm::Located => match located(line.as_bytes()) {
                Some(link) => text_of(Line::Bytes(link.link)),
                None => Err(stray_violation(line.as_bytes())),
            },
        }
    }
}

// The violation of each refusal, in their order.
fn each_refused(alloc: Global, refusals: &[Refusal]) -> Result<Vec<LineViolation>, AllocError>
    ensures { IfOk result (λ violations. violations.items ≡ map Refused refusals.now) }
{
    let mut violations = Vec::new(alloc);
    for refusal in refusals {
        violations.push(LineViolation::Refused(*refusal))?;
    }
    Ok(violations)
}

// The text of a line or of a link, or that it isn't UTF-8.
fn text_of<'l>(line: Line<'l>) -> Result<&'l str, LineViolation>
    ensures text { IfOk result (λ text. (text.now ≡ bytes_of line.entry) × IsUtf8 (bytes_of line.entry)) }
    ensures none { IfErr result (λ violation. ¬ (IsUtf8 (bytes_of line.entry))
        × (violation ≡ NotUtf8 (foreign_place (bytes_of line.entry)))) }
{
    match line.text() {
        Ok(text) => Ok(text),
        Err(fault) => Err(not_utf8(line.as_bytes(), fault.valid_up_to())),
    }
}

// The violation of a line that has to say where its link is, but doesn't.
fn stray_violation(line: &[u8]) -> LineViolation
    ensures { AreStrayViolations line.now (result ∷ []) }
{
    match from_utf8(line) {
        Ok(_) => LineViolation::NotLocated(located_fault(line)),
        Err(fault) => not_utf8(line, fault.valid_up_to()),
    }
}

// That bytes of which so many are the longest beginning in UTF-8 aren't UTF-8.
fn not_utf8(bytes: &[u8], valid: usize) -> LineViolation
    requires longest { valid ≡ utf8_valid_len bytes.now }
    requires utf8 { IsUtf8 (take valid bytes.now) }
    ensures { result ≡ NotUtf8 (foreign_place bytes.now) }
{
    LineViolation::NotUtf8(points_of(&bytes[..valid]))
}

// How many code points bytes have that are UTF-8.
fn points_of(bytes: &[u8]) -> usize
    requires { IsUtf8 bytes.now }
    ensures { result ≡ length (chars bytes.now) }
{
    match from_utf8(bytes) {
        Ok(text) => count(text),
        Err(_) => 0,
    }
}
