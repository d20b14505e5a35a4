//! The report on the lines of a list.
ghost use Rattle.std.specs.Prelude.{◌≡◌, ℕ, ◌+◌, ◌-◌, ◌^◌, ◌<◌, ◌++◌, List, OnOk, IfErr, IfOk, OnErr, option_map};
ghost use Rattle.std.specs.Prelude.{string_bytes};
ghost use Rattle.uv_lines.specs.Line.{bytes_of};
ghost use Rattle.uv_links.specs.Report.{counted};
ghost use Rattle.uv_links.specs.Reporting.{IsSaidOf, Says, none_counted};
ghost use Rattle.uv_links.specs.Said.{said_of};

use crate::counts::{Counts, count_text};
use crate::line_checker::LineChecker;
use crate::said::{Said, push_line};
use std::alloc::{AllocError, Global};
use std::marker::Model;
use uv_compare::RoomFault;
use uv_io::Sink;
use uv_lines::{Line, ReportFault, Reporter};

/// The state of a report on a list of links: the checker of its lines, and the counts of the lines before. The text of
/// a line's record is written over the text of the line before, so that no line takes memory for it.
#[derive(Drop)]
pub(crate) struct LinkReporter<'b> {
    checker: LineChecker<'b>,
    written: String,
    counts: Counts,
}

impl<'b> Model for LinkReporter<'b> {
    ghost use Rattle.std.specs.Prelude.{◌≡◌, ◌+◌};
    ghost use Rattle.uv_links.specs.Reporting.{Reporting};

    ghost Value = { Reporting };

    ghost view = { λ r. record { setting = r.checker; counts = r.counts } };

    ghost invariant = { λ r. r.counts.ok + r.counts.bad + r.counts.differs ≡ r.counts.lines };
}

impl<'b> LinkReporter<'b> {
    /// The state before the first line.
    pub(crate) fn new(alloc: Global, checker: LineChecker<'b>) -> LinkReporter<'b>
        ensures { result ≡ record { setting = checker.entry; counts = none_counted } }
    {
        let counts = Counts {
            lines: 0,
            ok: 0,
            bad: 0,
            differs: 0,
        };
        LinkReporter {
            checker,
            written: String::new(alloc),
            counts,
        }
    }

    /// The counts of the lines on which it has reported.
    pub(crate) fn counts(&self) -> Counts
        ensures { result ≡ self.now.counts }
    {
        self.counts
    }

    // Appends the report's line on the next line of the list, and counts it.
    fn say(
        &mut self,
        alloc: Global,
        line: Option<Line<'_>>,
        text: &mut Vec<u8>,
    ) -> Result<(), RoomFault>
        requires { self.old.counts.lines < 2 ^ 64 - 1 }
        ensures said { OnOk result ((said : List ℕ) × Says self.old (option_map bytes_of line.entry) said self.new
            × (text.new.items ≡ text.old.items ++ said)) }
        ensures none { OnErr result ((self.new ≡ self.old) × (text.new.items ≡ text.old.items)) }
    {
        let said = check_line(alloc, &self.checker, line, &mut self.written)?;
        let number = self.counts.lines + 1;
        match push_line(text, number, said, self.written.as_str()) {
            Ok(()) => {
                self.counts = with_line(self.counts, said);
                Ok(())
            }
            Err(AllocError) => Err(RoomFault::Memory),
        }
    }
}

impl<'b> Reporter for LinkReporter<'b> {
    ghost use Rattle.uv_links.specs.Report.{count_line};
    ghost use Rattle.uv_links.specs.Reporting.{Says};

    type Fault = RoomFault;

    ghost lines = { λ r. r.counts.lines };

    ghost reports = { Says };

    ghost begins = { λ before line parts. ⊥ };

    // A line of the report has at most 20 digits and a few words, so no part ends within it.
    fn report<W: Sink>(
        &mut self,
        alloc: Global,
        line: Option<Line<'_>>,
        text: &mut Vec<u8>,
        _writer: &mut W,
    ) -> Result<(), ReportFault<RoomFault>> {
        match self.say(alloc, line, text) {
            Ok(()) => Ok(()),
            Err(fault) => Err(ReportFault::Reporter(fault)),
        }
    }

    fn line_count(&self) -> u64 {
        self.counts.lines
    }

    ghost last = { λ r. count_line r.counts };

    fn last(&self, alloc: Global) -> Result<String, RoomFault>
        ensures text { IfOk result (λ text. string_bytes text ≡ count_line self.now.counts) }
        ensures memory { IfErr result (λ fault. fault ≡ RoomFault.Memory) }
    {
        Ok(count_text(alloc, self.counts)?)
    }
}

// What is said about a line, where `None` stands for one that is too long.
fn check_line(
    alloc: Global,
    checker: &LineChecker<'_>,
    line: Option<Line<'_>>,
    written: &mut String,
) -> Result<Said, RoomFault>
    ensures { IfOk result (λ said.
        IsSaidOf checker.now (option_map bytes_of line.entry) (said_of said (string_bytes written.new))) }
{
    match line {
        Some(line) => checker.check(alloc, line, written),
        None => Ok(Said::TooLong),
    }
}

// The counts with one more line.
fn with_line(counts: Counts, said: Said) -> Counts
    requires few { counts.lines < 2 ^ 64 - 1 }
    requires whole { counts.ok + counts.bad + counts.differs ≡ counts.lines }
    ensures { (text : List ℕ) → result ≡ counted counts (said_of said text) }
{
    let mut counts = counts;
    counts.lines += 1;
    match said {
        Said::Same => counts.ok += 1,
        Said::Refused(_) | Said::NotUtf8 | Said::TooLong => counts.bad += 1,
        Said::Differs => counts.differs += 1,
    }
    counts
}
