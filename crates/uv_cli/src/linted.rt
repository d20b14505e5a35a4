//! How a lint of files has ended.
ghost use Rattle.std.specs.Prelude.{◌≡◌, IfOk, string_bytes};
ghost use Rattle.uv_cli.specs.Linted as spec;
ghost use Rattle.uv_cli.specs.Linted.{completion_of, counts_text, is_writable, lines_text, lint_status, linted_text, unread_text};

use crate::fault::stopped_line;
use std::alloc::{AllocError, Global};
use uv_lines::StopFault;
use uv_lint::LintCounts;
use uv_report::Completion;

/// How a lint of files has ended: what was counted, and what went wrong.
#[derive(Clone, Copy, PartialEq, Eq)]
pub struct Linted {
    /// How many lines of all files were checked, and in how many something was found. Each is at most 2^64 - 1.
    pub counts: LintCounts,
    /// How many files couldn't be opened, or couldn't be read to their end, at most 2^64 - 1.
    pub unread: u64,
    /// Whether the standard input is among these.
    pub is_input_unread: bool,
    /// Whether a line was refused in a file that has the name of a document.
    pub is_document_refused: bool,
    /// What stopped the lint, if something did. A failed read doesn't.
    pub stopped: Option<StopFault>,
    /// Whether no counts are wanted.
    pub is_quiet: bool,
}

impl Linted {
    /// How a lint stands before its first file.
    pub(crate) fn new(is_quiet: bool) -> Linted
        ensures { result ≡ spec.no_file is_quiet }
    {
        Linted {
            counts: LintCounts {
                lines: 0,
                refused: 0,
            },
            unread: 0,
            is_input_unread: false,
            is_document_refused: false,
            stopped: None,
            is_quiet,
        }
    }

    /// How the lint stands after a file with these counts: the standard input or another one, with the name of a
    /// document or of something else.
    pub(crate) fn with_file(
        self,
        is_input: bool,
        is_document: bool,
        counts: LintCounts,
        answer: Result<(), StopFault>,
    ) -> Linted
        ensures { result ≡ spec.with_file self is_input is_document counts answer }
    {
        let counted = self.with_counts(is_document, counts);
        match answer {
            Ok(()) => counted,
            Err(StopFault::Read) => counted.with_unread(is_input),
            Err(fault) => counted.with_fault(fault),
        }
    }

    // The counts of the lint after a file with these counts, with the name of a document or of something else.
    fn with_counts(self, is_document: bool, counts: LintCounts) -> Linted
        ensures { result ≡ spec.with_counts self is_document counts }
    {
        let is_refused = is_document && counts.refused != 0;
        Linted {
            counts: LintCounts {
                lines: self.counts.lines.saturating_add(counts.lines),
                refused: self.counts.refused.saturating_add(counts.refused),
            },
            unread: self.unread,
            is_input_unread: self.is_input_unread,
            is_document_refused: is_refused || self.is_document_refused,
            stopped: self.stopped,
            is_quiet: self.is_quiet,
        }
    }

    // How the lint stands after a file that can't be opened, or can't be read to its end: the standard input or another
    // one.
    fn with_unread(self, is_input: bool) -> Linted
        ensures { result ≡ spec.with_unread self is_input }
    {
        Linted {
            counts: self.counts,
            unread: self.unread.saturating_add(1),
            is_input_unread: is_input || self.is_input_unread,
            is_document_refused: self.is_document_refused,
            stopped: self.stopped,
            is_quiet: self.is_quiet,
        }
    }

    /// How the lint stands if this stopped it.
    pub(crate) fn with_fault(self, fault: StopFault) -> Linted
        ensures { result ≡ spec.with_fault self fault }
    {
        Linted {
            counts: self.counts,
            unread: self.unread,
            is_input_unread: self.is_input_unread,
            is_document_refused: self.is_document_refused,
            stopped: Some(fault),
            is_quiet: self.is_quiet,
        }
    }

    /// Whether something stopped it.
    pub(crate) fn is_stopped(self) -> bool
        ensures { result ≡ spec.is_stopped self }
    {
        self.stopped.is_some()
    }

    /// Whether no write has failed.
    pub(crate) fn is_writable(self) -> bool
        ensures { result ≡ is_writable self.stopped }
    {
        !matches!(self.stopped, Some(StopFault::Write))
    }

    /// Whether nothing was found so far, so that the next diagnostic is the first one.
    pub(crate) fn is_clean(self) -> bool
        ensures { result ≡ spec.is_clean self }
    {
        self.counts.refused == 0
    }

    /// How the run over the files has ended.
    pub(crate) fn completion(self) -> Completion
        ensures { result ≡ completion_of self }
    {
        if self.is_stopped() {
            Completion::Stopped
        } else if self.unread != 0 {
            Completion::Unread
        } else {
            Completion::Whole
        }
    }

    /// The exit status: 3 if something stopped the lint; otherwise 2 if a file wasn't read; otherwise 1 if something
    /// was found; otherwise 0.
    pub(crate) fn status(self) -> u8
        ensures { result ≡ lint_status self }
    {
        if self.is_stopped() {
            3
        } else if self.unread != 0 {
            2
        } else if self.is_clean() {
            0
        } else {
            1
        }
    }

    /// The message on standard error at the end: the counts, if they are wanted, and what stopped the lint.
    pub(crate) fn error_lines(self, alloc: Global) -> Result<String, AllocError>
        ensures { IfOk result (λ lines. string_bytes lines ≡ linted_text self) }
    {
        let mut lines = String::new(alloc);
        if !self.is_quiet {
            lines.push_str(counts_line(alloc, self.counts, self.unread)?.as_str())?;
        }
        lines.push_str(stopped_line(self.stopped))?;
        Ok(lines)
    }
}

// The line of counts, which says of how many files not all is counted.
fn counts_line(alloc: Global, counts: LintCounts, unread: u64) -> Result<String, AllocError>
    ensures { IfOk result (λ line. string_bytes line ≡ counts_text counts unread) }
{
    let mut line = lines_text(alloc, counts)?;
    if unread != 0 {
        line.push_str(unread_text(alloc, unread)?.as_str())?;
    }
    line.push_str("\n")?;
    Ok(line)
}

// How many lines were checked, and in how many something was found.
#[tactic(auto, unfolding(crate::specs::Linted::lines_text))]
fn lines_text(alloc: Global, counts: LintCounts) -> Result<String, AllocError>
    ensures { IfOk result (λ text. string_bytes text ≡ lines_text counts) }
{
    let lines = counts.lines;
    let refused = counts.refused;
    let noun = if lines == 1 { "line" } else { "lines" };
    format!(in alloc; "urlcheck: {lines} {noun}, {refused} refused")
}

// How many files weren't read.
#[tactic(auto, unfolding(crate::specs::Linted::unread_text))]
fn unread_text(alloc: Global, unread: u64) -> Result<String, AllocError>
    ensures { IfOk result (λ text. string_bytes text ≡ unread_text unread) }
{
    let noun = if unread == 1 { "file" } else { "files" };
    format!(in alloc; ", {unread} {noun} not read")
}
