//! Finds what the report says about a line.
ghost use Rattle.std.specs.Prelude.{◌≡◌, ◌≤◌, ◌↔◌, IfOk, IfErr, IsTrue, None, Some, length, option_copied};
ghost use Rattle.std.specs.Prelude.{string_bytes};
ghost use Rattle.std.specs.Str.{chars};
ghost use Rattle.uv_grammar.specs.Verdict.{IsVerdict};
ghost use Rattle.uv_lines.specs.Line.{bytes_of};
ghost use Rattle.uv_links.specs.Fault.{IsBaseFault};
ghost use Rattle.uv_links.specs.Report.{IsSaid};
ghost use Rattle.uv_links.specs.Said.{said_of};
ghost use Rattle.uv_resolve.specs.Resolve.{DenotesText};
ghost use Rattle.uv_compare.specs.Second.{AgreesOnBase, second_base, second_text};

use crate::fault::{LinkFault, fault_of_room};
use crate::said::Said;
use std::alloc::{AllocError, Global};
use std::marker::Model;
use url::Url;
use uv_compare::{RoomFault, read_as, reads_as};
use uv_grammar::{Verdict, check, check_alone};
use uv_lines::Line;
use uv_model::{Profile, Record};
use uv_resolve::write_serialized;

/// What lines are checked with: the profile, the base, the base as the second parser reads it, and how many bytes a
/// line may have.
#[derive(Drop)]
pub(crate) struct LineChecker<'b> {
    profile: Profile,
    base: Option<&'b Record>,
    second: Option<Url>,
    line_bytes: usize,
}

impl<'b> Model for LineChecker<'b> {
    ghost use Rattle.std.specs.Prelude.{◌≡◌, ◌≤◌, option_copied};
    ghost use Rattle.uv_links.specs.Report.{ListSetting};
    ghost use Rattle.uv_compare.specs.Second.{second_base};

    ghost Value = { ListSetting };

    ghost view = { λ j. record { profile = j.profile; base = option_copied j.base; line_bytes = j.line_bytes } };

    ghost invariant = { λ j. (j.second ≡ second_base (option_copied j.base)) × (j.line_bytes ≤ 65536) };
}

impl<'b> LineChecker<'b> {
    /// The checker of lines against a base, whose text is compared with the second parser first.
    pub(crate) fn new(
        alloc: Global,
        base: Option<&'b Record>,
        line_bytes: usize,
        profile: Profile,
    ) -> Result<LineChecker<'b>, LinkFault>
        requires { line_bytes ≤ 65536 }
        ensures setting { IfOk result (λ j.
            j ≡ record { profile = profile; base = option_copied base.entry; line_bytes = line_bytes }) }
        ensures agrees { IfOk result (λ _. AgreesOnBase (option_copied base.entry)) }
        ensures fault { IfErr result (IsBaseFault (option_copied base.entry)) }
    {
        let second = match base {
            Some(record) => Some(agreed(alloc, record)?),
            None => None,
        };
        Ok(LineChecker {
            profile,
            base,
            second,
            line_bytes,
        })
    }

    /// How many bytes a line may have.
    pub(crate) fn line_bytes(&self) -> usize
        ensures value { result ≡ self.now.line_bytes }
        ensures most { result ≤ 65536 }
    {
        self.line_bytes
    }

    /// What is said about a line. If it is accepted, the text of its record is written over what the string holds.
    pub(crate) fn check(
        &self,
        alloc: Global,
        line: Line<'_>,
        written: &mut String,
    ) -> Result<Said, RoomFault>
        ensures { IfOk result (λ said.
            IsSaid self.now (bytes_of line.entry) (said_of said (string_bytes written.new))) }
    {
        if line.as_bytes().len() > self.line_bytes {
            return Ok(Said::TooLong);
        }
        match line.text() {
            Ok(text) => self.check_text(alloc, text, written),
            Err(_) => Ok(Said::NotUtf8),
        }
    }

    // What is said about a line that isn't too long and is UTF-8.
    fn check_text(&self, alloc: Global, text: &str, written: &mut String) -> Result<Said, RoomFault>
        requires { length text.now ≤ self.now.line_bytes }
        ensures { IfOk result (λ said. IsSaid self.now text.now (said_of said (string_bytes written.new))) }
    {
        match self.base {
            None => self.check_text_alone(alloc, text, written),
            Some(base) => self.check_text_against(alloc, text, base, written),
        }
    }

    // What is said, without a base, about a line that isn't too long and is UTF-8. Nothing else calls `check_alone`, so
    // the compiler inlines it here.
    fn check_text_alone(
        &self,
        alloc: Global,
        text: &str,
        written: &mut String,
    ) -> Result<Said, RoomFault>
        requires short { length text.now ≤ self.now.line_bytes }
        requires alone { self.now.base ≡ None }
        ensures { IfOk result (λ said. IsSaid self.now text.now (said_of said (string_bytes written.new))) }
    {
        self.check_answer(
            alloc,
            text,
            &check_alone(alloc, text, self.profile),
            written,
        )
    }

    // What is said, against a base, about a line that isn't too long and is UTF-8.
    fn check_text_against(
        &self,
        alloc: Global,
        text: &str,
        base: &Record,
        written: &mut String,
    ) -> Result<Said, RoomFault>
        requires short { length text.now ≤ self.now.line_bytes }
        requires base { self.now.base ≡ Some base.now }
        ensures { IfOk result (λ said. IsSaid self.now text.now (said_of said (string_bytes written.new))) }
    {
        self.check_answer(
            alloc,
            text,
            &check(alloc, text, Some(base), self.profile),
            written,
        )
    }

    // What is said about a text with this answer of the checker. The answer is large, and stays where it was written.
    fn check_answer(
        &self,
        alloc: Global,
        text: &str,
        answer: &Result<Verdict<'_>, AllocError>,
        written: &mut String,
    ) -> Result<Said, RoomFault>
        requires short { length text.now ≤ self.now.line_bytes }
        requires answer { IfOk answer.now (IsVerdict self.now.profile self.now.base (chars text.now)) }
        ensures { IfOk result (λ said. IsSaid self.now text.now (said_of said (string_bytes written.new))) }
    {
        match answer {
            Ok(Verdict::Yes(parts)) => {
                write_serialized(alloc, written, parts, self.base)?;
                self.compare(alloc, text, written.as_str())
            }
            Ok(Verdict::No(refusal)) => Ok(Said::Refused(*refusal)),
            Err(AllocError) => Err(RoomFault::Memory),
        }
    }

    // What is said about a text that denotes a URL with this text.
    fn compare(&self, alloc: Global, text: &str, written: &str) -> Result<Said, RoomFault>
        requires short { length text.now ≤ self.now.line_bytes }
        requires denotes { DenotesText self.now.profile self.now.base text.now written.now }
        ensures { IfOk result (λ said. IsSaid self.now text.now (said_of said written.now)) }
    {
        if self.agrees(alloc, text, written)? {
            Ok(Said::Same)
        } else {
            Ok(Said::Differs)
        }
    }

    // Whether the second parser reads a text as a URL with this text.
    fn agrees(&self, alloc: Global, text: &str, written: &str) -> Result<bool, RoomFault>
        ensures { IfOk result (λ same.
            IsTrue same ↔ (second_text self.now.base text.now ≡ Some written.now)) }
    {
        reads_as(alloc, self.second.as_ref(), text, written)
    }
}

// The base as the second parser reads its text, if it reads it as the same text.
fn agreed(alloc: Global, base: &Record) -> Result<Url, LinkFault>
    ensures base { IfOk result (λ url. second_base (Some base.now) ≡ Some url) }
    ensures agrees { IfOk result (λ _. AgreesOnBase (Some base.now)) }
    ensures fault { IfErr result (IsBaseFault (Some base.now)) }
{
    let written = base.text(alloc)?;
    match read_as(alloc, None, written.as_str(), written.as_str()) {
        Ok(Some(url)) => Ok(url),
        Ok(None) => Err(LinkFault::BaseDiffers),
        Err(fault) => Err(fault_of_room(fault)),
    }
}
