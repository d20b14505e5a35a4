//! The next line of a buffer that isn't valid.
ghost use Rattle.std.specs.Prelude.{◌≡◌, ◌≤◌, ◌<◌, length};
ghost use Rattle.urlcheck_c.specs.NextLine.{IsFirstLine, IsFound, IsNextAnswer, no_line};

use crate::checks::found_of;
use crate::finding::{CallOutcome, Finding};
use crate::request::profile_of;
use std::alloc::Global;
use uv_lines::{line_end, line_text};

/// A line that isn't valid, in bytes of its buffer.
#[repr(C)]
#[derive(Clone, Copy)]
pub struct Line {
    /// What was found of its text; the verdict is 0 if no more lines are refused.
    pub found: Finding,
    /// Where it begins.
    pub start: usize,
    /// The length of its text, without what ends it.
    pub length: usize,
    /// Where the line after it begins.
    pub next: usize,
    /// How many valid lines come before it.
    pub passed: usize,
}

/// The first line of a buffer, from this byte on, that isn't valid by itself under the profile with this number. A line
/// ends with LF, and one CR before that isn't a part of it; what follows the last LF is a line if it isn't empty.
#[unsafe(no_mangle)]
pub extern "C" fn urlcheck_next_refused(
    alloc: Global,
    lines: &[u8],
    from: usize,
    profile: u32,
) -> Line
    ensures { IsNextAnswer profile lines.now from result }
{
    if profile_of(profile).is_none() {
        return Line::none(CallOutcome::NoProfile);
    }
    if from > lines.len() {
        return Line::none(CallOutcome::NoPlace);
    }
    next_refused(alloc, lines, from, profile)
}

// The first line of a buffer, from this byte on, that isn't valid by itself under the profile with this number.
fn next_refused(alloc: Global, lines: &[u8], from: usize, profile: u32) -> Line
    requires { from ≤ length lines.now }
    ensures { IsFound profile lines.now from result }
{
    let mut start = from;
    let mut passed = 0;
    while start < lines.len() {
        let line = first_line(&lines[start..]);
        let found = found_of(alloc, line.text, profile, None);
        if found.verdict != 0 {
            return Line {
                found,
                start,
                length: line.text.len(),
                next: start + line.extent,
                passed,
            };
        }
        start += line.extent;
        passed += 1;
    }
    Line {
        found: Finding::plain(CallOutcome::Valid),
        start,
        length: 0,
        next: start,
        passed,
    }
}

// The first line of bytes, and how many bytes it takes with its end.
#[derive(Clone, Copy)]
struct FirstLine<'l> {
    text: &'l [u8],
    extent: usize,
}

// The first line of bytes.
#[inline(always)]
fn first_line(rest: &[u8]) -> FirstLine<'_>
    requires { 0 < length rest.now }
    ensures { IsFirstLine rest.now result }
{
    match line_end(rest) {
        Some(end) => FirstLine {
            text: line_text(&rest[..end], true),
            extent: end + 1,
        },
        None => FirstLine {
            text: rest,
            extent: rest.len(),
        },
    }
}

impl Line {
    // The answer if no line was looked for.
    fn none(outcome: CallOutcome) -> Line
        ensures { result ≡ no_line outcome }
    {
        Line {
            found: Finding::plain(outcome),
            start: 0,
            length: 0,
            next: 0,
            passed: 0,
        }
    }
}
