//! How a filter of lines has ended.
ghost use Rattle.std.specs.Prelude.{◌≡◌, ◌==◌, IfOk, string_bytes};
ghost use Rattle.uv_cli.specs.Filtered as spec;
ghost use Rattle.uv_cli.specs.Filtered.{counts_text, filter_status, filtered_text, lines_text, mended_count};
ghost use Rattle.uv_cli.specs.Filtered.{mended_text, refused_count, refused_text};

use crate::fault::stopped_line;
use std::alloc::{AllocError, Global};
use uv_filter::FilterCounts;
use uv_lines::StopFault;

/// How a filter of lines has ended: what was counted, and what went wrong.
#[derive(Clone, Copy, PartialEq, Eq)]
pub struct Filtered {
    /// What has become of the lines.
    pub counts: FilterCounts,
    /// What stopped the filter, if something did.
    pub stopped: Option<StopFault>,
    /// Whether no counts are wanted.
    pub is_quiet: bool,
    /// Whether a file stays as it was because it can't be read or written.
    pub is_file_left: bool,
}

impl Filtered {
    /// How a filter has ended, by its counts and its answer.
    pub(crate) fn new(
        counts: FilterCounts,
        answer: Result<(), StopFault>,
        is_quiet: bool,
    ) -> Filtered
        ensures { result ≡ spec.filtered_by counts answer is_quiet }
    {
        Filtered {
            counts,
            stopped: answer.err(),
            is_quiet,
            is_file_left: false,
        }
    }

    /// How the filter stands after one more file, with these counts.
    pub(crate) fn with_counts(self, counts: FilterCounts) -> Filtered
        ensures { result ≡ spec.with_counts self counts }
    {
        Filtered {
            counts: self.counts.with(counts),
            stopped: self.stopped,
            is_quiet: self.is_quiet,
            is_file_left: self.is_file_left,
        }
    }

    /// How the filter stands after one more file, which stays as it was because something failed.
    pub(crate) fn with_file_left(self) -> Filtered
        ensures { result ≡ spec.with_file_left self }
    {
        Filtered {
            counts: self.counts,
            stopped: self.stopped,
            is_quiet: self.is_quiet,
            is_file_left: true,
        }
    }

    /// How the filter stands if this stopped it.
    pub(crate) fn with_fault(self, fault: StopFault) -> Filtered
        ensures { result ≡ spec.with_fault self fault }
    {
        Filtered {
            counts: self.counts,
            stopped: Some(fault),
            is_quiet: self.is_quiet,
            is_file_left: self.is_file_left,
        }
    }

    /// Whether no line stays refused.
    pub(crate) fn is_clean(self) -> bool
        ensures { result ≡ (refused_count self.counts == 0) }
    {
        refused(self.counts) == 0
    }

    /// The exit status: 3 if something stopped the filter; otherwise 2 if a file stays as it was because it can't be
    /// read or written; otherwise 1 if a line stays refused; otherwise 0.
    pub(crate) fn status(self) -> u8
        ensures { result ≡ filter_status self }
    {
        if self.stopped.is_some() {
            3
        } else if self.is_file_left {
            2
        } else if refused(self.counts) == 0 {
            0
        } else {
            1
        }
    }

    /// The message on standard error at the end: the counts, if they are wanted, and what stopped the filter.
    pub(crate) fn error_lines(self, alloc: Global) -> Result<String, AllocError>
        ensures { IfOk result (λ lines. string_bytes lines ≡ filtered_text self) }
    {
        let mut lines = String::new(alloc);
        if !self.is_quiet {
            lines.push_str(counts_line(alloc, self.counts)?.as_str())?;
        }
        lines.push_str(stopped_line(self.stopped))?;
        Ok(lines)
    }
}

// How many lines were mended.
fn mended(counts: FilterCounts) -> u64
    ensures { result ≡ mended_count counts }
{
    counts
        .same
        .saturating_add(counts.escaped)
        .saturating_add(counts.changed)
}

// How many lines stay as they were and aren't valid.
fn refused(counts: FilterCounts) -> u64
    ensures { result ≡ refused_count counts }
{
    counts
        .refused
        .saturating_add(counts.not_utf8)
        .saturating_add(counts.too_long)
}

// The line of counts.
fn counts_line(alloc: Global, counts: FilterCounts) -> Result<String, AllocError>
    ensures { IfOk result (λ line. string_bytes line ≡ counts_text counts) }
{
    let mut line = lines_part(alloc, counts.lines)?;
    line.push_str(mended_part(alloc, counts)?.as_str())?;
    line.push_str(refused_part(alloc, refused(counts))?.as_str())?;
    Ok(line)
}

// The first part of the line of counts: how many lines there were.
#[tactic(auto, unfolding(crate::specs::Filtered::lines_text))]
fn lines_part(alloc: Global, count: u64) -> Result<String, AllocError>
    ensures { IfOk result (λ part. string_bytes part ≡ lines_text count) }
{
    let noun = if count == 1 { "line" } else { "lines" };
    format!(in alloc; "urlcheck: {count} {noun}")
}

// The second part of the line of counts: how many lines were mended, by kind.
#[tactic(auto, unfolding(crate::specs::Filtered::mended_text))]
fn mended_part(alloc: Global, counts: FilterCounts) -> Result<String, AllocError>
    ensures { IfOk result (λ part. string_bytes part ≡ mended_text counts) }
{
    let all = mended(counts);
    let same = counts.same;
    let escaped = counts.escaped;
    let changed = counts.changed;
    format!(in alloc; ", {all} mended ({same} same, {escaped} escaped, {changed} changed)")
}

// The last part of the line of counts: how many lines stay refused.
#[tactic(auto, unfolding(crate::specs::Filtered::refused_text))]
fn refused_part(alloc: Global, count: u64) -> Result<String, AllocError>
    ensures { IfOk result (λ part. string_bytes part ≡ refused_text count) }
{
    format!(in alloc; ", {count} refused\n")
}
