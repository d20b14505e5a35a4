//! How the program ends: with which exit status, and what it says about that on standard error.
ghost use Rattle.std.specs.Prelude.{◌≡◌, IfOk, option_copied, string_bytes};
ghost use Rattle.uv_cli.specs.Ends as spec;
ghost use Rattle.uv_cli.specs.Ends.{base_refused_text, error_text, fixed_text, fixed_vectors_text, malformed_text};
ghost use Rattle.uv_cli.specs.Ends.{listed_text, numbered_text, status_of};

use crate::check::CheckEnd;
use crate::explain::ExplainEnd;
use crate::fault::{CliFault, stop_line};
use crate::filtered::Filtered;
use crate::linted::Linted;
use crate::vector_file::FileFault;
use std::alloc::{AllocError, Global};
use uv_arguments::Reason;
use uv_lines::StopFault;
use uv_links::{Counts, LinkFault};
use uv_model::Refusal;
use uv_vectors::{CasesEnd, VectorEnd, VectorFault};

/// How a run of the program ends.
#[derive(Clone, Copy, PartialEq, Eq)]
pub enum End {
    /// The text is valid, or every line of the list is ok.
    Valid,
    /// The text is refused, or a line of the list isn't ok.
    Refused,
    /// Help, the version or an explanation was asked for, and shown.
    Shown,
    /// The arguments are refused.
    Words,
    /// An argument that should name a rule names none.
    UnknownRule,
    /// An argument that should name a format names none.
    UnknownFormat,
    /// An argument that should name what columns count names nothing.
    UnknownColumns,
    /// The format has no word for what columns are to count.
    ColumnsRefused,
    /// An argument that should name a profile names none.
    UnknownProfile,
    /// An argument that should name a kind of mended texts names none.
    UnknownKind,
    /// The base's text by itself is refused, for this reason.
    BaseRefused(Refusal),
    /// An allocation failed, or a write or a flush failed.
    Fault(CliFault),
    /// The lint of files has ended like this.
    Linted(Linted),
    /// The filter of lines has ended like this.
    Filtered(Filtered),
    /// The run over a list stopped.
    Stopped(LinkFault),
    /// The run over a vector file ended like this.
    Vectors(VectorEnd),
    /// The vector file can't be opened or read.
    Unread,
}

/// The end of what a check gave.
pub(crate) fn end_of_check(gave: Result<CheckEnd, CliFault>) -> End
    ensures { result ≡ spec.end_of_check gave }
{
    match gave {
        Ok(CheckEnd::Valid) => End::Valid,
        Ok(CheckEnd::Refused) => End::Refused,
        Ok(CheckEnd::BaseRefused(refusal)) => End::BaseRefused(refusal),
        Err(fault) => End::Fault(fault),
    }
}

/// The end of what a list gave: valid if every line is ok.
pub(crate) fn end_of_list(gave: Result<Counts, LinkFault>) -> End
    ensures { result ≡ spec.end_of_list gave }
{
    match gave {
        Ok(counts) => {
            if counts.ok == counts.lines {
                End::Valid
            } else {
                End::Refused
            }
        }
        Err(fault) => End::Stopped(fault),
    }
}

/// The end of what a run over a vector file gave.
pub(crate) fn end_of_vectors(gave: &Result<CasesEnd, VectorFault>) -> End
    ensures { result ≡ spec.end_of_vectors gave.now }
{
    match gave {
        Ok(end) => End::Vectors(end.without_reason()),
        Err(fault) => End::Fault(CliFault::from(*fault)),
    }
}

/// The end of what an explanation gave.
pub(crate) fn end_of_explanation(gave: Result<ExplainEnd, CliFault>) -> End
    ensures { result ≡ spec.end_of_explanation gave }
{
    match gave {
        Ok(ExplainEnd::Explained) => End::Shown,
        Ok(ExplainEnd::Unknown) => End::UnknownRule,
        Err(reason) => End::Fault(reason),
    }
}

/// The end if a vector file isn't read.
pub(crate) fn end_without_file(fault: FileFault) -> End
    ensures { result ≡ spec.end_without_file fault }
{
    match fault {
        FileFault::Memory => End::Fault(CliFault::Memory),
        FileFault::Unread(_) => End::Unread,
    }
}

/// The end if the arguments give no job for this reason.
pub(crate) fn end_without_job(reason: Reason) -> End
    ensures { result ≡ spec.end_without_job reason }
{
    match reason {
        Reason::Memory => End::Fault(CliFault::Memory),
        Reason::Shown => End::Shown,
        _ => End::Words,
    }
}

/// The end once all is written and flushed, or once that failed: then what was printed isn't whole.
pub(crate) fn end_after_output(end: End, is_out: bool) -> End
    ensures { result ≡ spec.end_after_output end is_out }
{
    match end {
        End::Valid | End::Refused | End::Shown if !is_out => End::Fault(CliFault::Write),
        End::Linted(linted) if !is_out => End::Linted(linted.with_fault(StopFault::Write)),
        End::Filtered(filtered) if !is_out => {
            End::Filtered(filtered.with_fault(StopFault::Write))
        }
        End::Vectors(VectorEnd::AllPass | VectorEnd::SomeFail) if !is_out => {
            End::Fault(CliFault::Write)
        }
        end => end,
    }
}

/// The exit status: 0 if the text is valid, every line ok, every case passed, or help or an explanation shown; 1 if one
/// is refused, differs or fails; 2 if the arguments, a rule's name, the base or the vector file are refused or the base
/// differs; 3 for any other fault.
pub fn status(end: End) -> u8
    ensures { result ≡ status_of end }
{
    match end {
        End::Valid | End::Shown | End::Vectors(VectorEnd::AllPass) => 0,
        End::Refused | End::Vectors(VectorEnd::SomeFail) => 1,
        End::Linted(linted) => linted.status(),
        End::Filtered(filtered) => filtered.status(),
        End::Words | End::UnknownRule | End::UnknownFormat | End::UnknownProfile => 2,
        End::UnknownColumns | End::ColumnsRefused | End::UnknownKind => 2,
        End::BaseRefused(_) | End::Vectors(_) => 2,
        End::Stopped(LinkFault::BaseDiffers) => 2,
        End::Fault(_) | End::Stopped(_) | End::Unread => 3,
    }
}

/// The message on standard error at the end: the last line, which tells a script why there is a status above 1, or
/// nothing; for a lint and a filter also the counts.
pub fn error_line(alloc: Global, end: End) -> Result<String, AllocError>
    ensures { IfOk result (λ text. string_bytes text ≡ error_text end) }
{
    match fixed_line(end) {
        Some(line) => line.to_string(alloc),
        None => numbered_line(alloc, end),
    }
}

/// The last line on standard error if it is only words, or nothing: it takes no memory.
pub(crate) fn fixed_line(end: End) -> Option<&'static str>
    ensures { option_copied result ≡ fixed_text end }
{
    match end {
        End::Valid | End::Refused | End::Shown => Some(""),
        End::Words | End::UnknownRule | End::UnknownFormat | End::UnknownProfile => Some("words\n"),
        End::UnknownColumns | End::ColumnsRefused | End::UnknownKind => Some("words\n"),
        End::Linted(_) | End::Filtered(_) | End::BaseRefused(_) => None,
        End::Fault(CliFault::Memory) => Some("memory\n"),
        End::Fault(CliFault::Write) => Some("write\n"),
        End::Stopped(fault) => Some(listed_line(fault)),
        End::Vectors(end) => fixed_vectors_line(end),
        End::Unread => Some("read\n"),
    }
}

// The line on a vector file that isn't run, if it is only words.
fn fixed_vectors_line(end: VectorEnd) -> Option<&'static str>
    ensures { option_copied result ≡ fixed_vectors_text end }
{
    match end {
        VectorEnd::AllPass | VectorEnd::SomeFail => Some(""),
        VectorEnd::NotJson => Some("vectors not json\n"),
        VectorEnd::NotArray => Some("vectors not an array\n"),
        VectorEnd::TooLarge => Some("vectors too large\n"),
        VectorEnd::Malformed(_) => None,
    }
}

/// The last line if it has numbers, with the counts of a lint or a filter before it.
pub(crate) fn numbered_line(alloc: Global, end: End) -> Result<String, AllocError>
    ensures { IfOk result (λ text. string_bytes text ≡ numbered_text end) }
{
    match end {
        End::Linted(linted) => linted.error_lines(alloc),
        End::Filtered(filtered) => filtered.error_lines(alloc),
        End::BaseRefused(refusal) => base_refused_line(alloc, refusal),
        End::Vectors(VectorEnd::Malformed(number)) => malformed_line(alloc, number),
        _ => Ok(String::new(alloc)),
    }
}

// The last line for a vector file in which the value with this number isn't a case.
#[tactic(auto, unfolding(crate::specs::Ends::malformed_text))]
fn malformed_line(alloc: Global, number: usize) -> Result<String, AllocError>
    ensures { IfOk result (λ text. string_bytes text ≡ malformed_text number) }
{
    format!(in alloc; "vector {number} malformed\n")
}

// The last line for a base that is refused.
#[tactic(auto, unfolding(crate::specs::Ends::base_refused_text))]
fn base_refused_line(alloc: Global, refusal: Refusal) -> Result<String, AllocError>
    ensures { IfOk result (λ text. string_bytes text ≡ base_refused_text refusal) }
{
    let place = refusal.place;
    let name = refusal.rule.name();
    format!(in alloc; "base refused {place} {name}\n")
}

// The last line for a run over a list that stopped.
fn listed_line(fault: LinkFault) -> &'static str
    ensures { result.now ≡ listed_text fault }
{
    match fault {
        LinkFault::Stop(fault) => stop_line(fault),
        LinkFault::Overflow => "overflow\n",
        LinkFault::BaseDiffers => "base differs\n",
    }
}
