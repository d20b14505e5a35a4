//! What is said about a line, and the line of the report that says it.
ghost use Rattle.std.specs.Prelude.{◌≡◌, ◌++◌, OnErr, OnOk};
ghost use Rattle.std.specs.Io.{StartsWith};
ghost use Rattle.uv_links.specs.Report.{Refused, Same, report_line, said_text};
ghost use Rattle.uv_links.specs.Said.{said_of};

use itoa::Buffer;
use std::alloc::AllocError;
use uv_model::Refusal;

/// The answer about a line.
#[derive(Clone, Copy)]
pub(crate) enum Said {
    /// It is accepted, and the second parser reads it as the same text, which is the text of its record.
    Same,
    /// It is refused.
    Refused(Refusal),
    /// It isn't UTF-8.
    NotUtf8,
    /// It has more bytes than a line may have.
    TooLong,
    /// It is accepted, and the second parser reads it as another text, or refuses it.
    Differs,
}

/// Appends one line of the report, with its LF. The number is the line's in its list, from 1, and the text is its
/// record's, if it has one. An error means that memory ran out, and nothing was appended.
pub(crate) fn push_line(
    out: &mut Vec<u8>,
    number: u64,
    said: Said,
    written: &str,
) -> Result<(), AllocError>
    ensures ok { OnOk result (out.new.items ≡ out.old.items ++ report_line number (said_of said written.now)) }
    ensures err { OnErr result (out.new.items ≡ out.old.items) }
{
    let start = out.len();
    match push_numbered(out, number, said, written) {
        Ok(()) => Ok(()),
        Err(AllocError) => {
            out.truncate(start);
            Err(AllocError)
        }
    }
}

// Appends one line. After an error `out` still begins with what it held.
#[tactic(auto, unfolding(crate::specs::Report::report_line))]
fn push_numbered(
    out: &mut Vec<u8>,
    number: u64,
    said: Said,
    written: &str,
) -> Result<(), AllocError>
    ensures ok { OnOk result (out.new.items ≡ out.old.items ++ report_line number (said_of said written.now)) }
    ensures err { OnErr result (StartsWith out.new.items out.old.items) }
{
    let mut buffer = Buffer::new();
    push(out, buffer.format(number))?;
    push_said(out, said, written)
}

// What is after the number, with the LF.
fn push_said(out: &mut Vec<u8>, said: Said, written: &str) -> Result<(), AllocError>
    ensures ok { OnOk result (out.new.items ≡ out.old.items ++ said_text (said_of said written.now)) }
    ensures err { OnErr result (StartsWith out.new.items out.old.items) }
{
    match said {
        Said::Same => push_same(out, written),
        Said::Refused(refusal) => push_refusal(out, refusal),
        Said::NotUtf8 => push(out, " bad 0 not-utf8\n"),
        Said::TooLong => push(out, " bad 0 line-too-long\n"),
        Said::Differs => push(out, " differs\n"),
    }
}

// What follows the number of a line that is ok: the text of its record.
fn push_same(out: &mut Vec<u8>, text: &str) -> Result<(), AllocError>
    ensures ok { OnOk result (out.new.items ≡ out.old.items ++ said_text (Same text.now)) }
    ensures err { OnErr result (StartsWith out.new.items out.old.items) }
{
    push(out, " ok ")?;
    push(out, text)?;
    push(out, "\n")
}

// What follows the number of a refused line: the place and the rule.
fn push_refusal(out: &mut Vec<u8>, refusal: Refusal) -> Result<(), AllocError>
    ensures ok { OnOk result (out.new.items ≡ out.old.items ++ said_text (Refused refusal)) }
    ensures err { OnErr result (StartsWith out.new.items out.old.items) }
{
    let mut buffer = Buffer::new();
    push(out, " bad ")?;
    push(out, buffer.format(refusal.place))?;
    push(out, " ")?;
    push(out, refusal.rule.name())?;
    push(out, "\n")
}

// The bytes of a text.
fn push(out: &mut Vec<u8>, text: &str) -> Result<(), AllocError>
    ensures ok { OnOk result (out.new.items ≡ out.old.items ++ text.now) }
    ensures err { OnErr result (out.new.items ≡ out.old.items) }
{
    out.extend_from_slice(text.as_bytes())
}
