//! The lines of the report on a list of links, each as a text of its own.
ghost use Rattle.std.specs.Prelude.{◌≡◌, ◌++◌, IfOk, OnOk, string_bytes};
ghost use Rattle.uv_calls.specs.ListLines.{said_of};
ghost use Rattle.uv_links.specs.Report.{Refused, Same, report_line, said_text};

use itoa::Buffer;
use std::alloc::{AllocError, Global};
use uv_model::Refusal;

/// The answer about a line of a list.
#[derive(Clone, Copy)]
pub enum Outcome<'a> {
    /// It is accepted, and the second parser reads it as the same text, which is the text of its record.
    Good(&'a str),
    /// It is refused.
    Bad(Refusal),
    /// It isn't UTF-8.
    NotUtf8,
    /// It has more bytes than a line may have.
    TooLong,
    /// It is accepted, and the second parser reads it as another text, or refuses it.
    Differs,
}

/// A line of the report, with its LF. The number is the line's in its list, from 1. An error means that memory ran out.
#[tactic(auto, unfolding(uv_links::specs::Report::report_line))]
pub fn line_text(alloc: Global, number: u64, outcome: &Outcome<'_>) -> Result<String, AllocError>
    ensures { IfOk result (λ text. string_bytes text ≡ report_line number (said_of outcome.now)) }
{
    let mut buffer = Buffer::new();
    let mut text = String::from_str(alloc, buffer.format(number))?;
    push_outcome(&mut text, *outcome)?;
    Ok(text)
}

// What is after the number, with the LF.
fn push_outcome(out: &mut String, outcome: Outcome<'_>) -> Result<(), AllocError>
    ensures { OnOk result (string_bytes out.new ≡ string_bytes out.old ++ said_text (said_of outcome.entry)) }
{
    match outcome {
        Outcome::Good(text) => push_good(out, text),
        Outcome::Bad(refusal) => push_bad(out, refusal),
        Outcome::NotUtf8 => out.push_str(" bad 0 not-utf8\n"),
        Outcome::TooLong => out.push_str(" bad 0 line-too-long\n"),
        Outcome::Differs => out.push_str(" differs\n"),
    }
}

// What follows the number of a line that is ok: the text of its record.
fn push_good(out: &mut String, text: &str) -> Result<(), AllocError>
    ensures { OnOk result (string_bytes out.new ≡ string_bytes out.old ++ said_text (Same text.now)) }
{
    out.push_str(" ok ")?;
    out.push_str(text)?;
    out.push_str("\n")
}

// What follows the number of a refused line: the place and the rule.
fn push_bad(out: &mut String, refusal: Refusal) -> Result<(), AllocError>
    ensures { OnOk result (string_bytes out.new ≡ string_bytes out.old ++ said_text (Refused refusal)) }
{
    let mut buffer = Buffer::new();
    out.push_str(" bad ")?;
    out.push_str(buffer.format(refusal.place))?;
    out.push_str(" ")?;
    out.push_str(refusal.rule.name())?;
    out.push_str("\n")
}
