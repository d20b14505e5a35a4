//! What to write in place of the text of a line.
ghost use Rattle.std.specs.Prelude.{◌≡◌, IfOk, option_copied, option_map};
ghost use Rattle.uv_lint.specs.Findings as spec;
ghost use Rattle.uv_lint.specs.Findings.{IsMended, IsMendedOf, IsRefusedFirst};
ghost use Rattle.uv_lint.specs.Report.{end_column, fix_on};
ghost use Rattle.uv_lint.specs.ReportedView.{mended_line_view, reported_view};
ghost use Rattle.uv_report.specs.Diagnostic.{fix_view};

use crate::code_points::count;
use crate::reported_line::ReportedLine;
use crate::setting::LintSetting;
use std::alloc::{AllocError, Global};
use uv_mend::{MendKind, Mending, mend_refused};
use uv_model::Refusal;
use uv_report::{ColumnCounter, Columns, Fix};
use uv_rules::LineViolation;
use uv_sentences::{KnownText, is_named, is_offered};

/// A valid text, how it is to the refused one, whether it is offered in its place, and whether the message says what to
/// write instead.
#[derive(Drop)]
pub(crate) struct MendedLine {
    pub(crate) text: String,
    pub(crate) kind: MendKind,
    pub(crate) is_offered: bool,
    pub(crate) is_named: bool,
}

impl MendedLine {
    // The mended text of an answer about a text of which this is known, if it has one.
    fn of(mending: Mending, refused: &KnownText<'_>) -> Option<MendedLine>
        ensures { IsMendedOf mending (option_map mended_line_view result) }
    {
        match mending {
            Mending::Mended { text, kind } => Some(MendedLine {
                is_offered: is_offered(refused, text.as_str()),
                is_named: is_named(refused),
                text,
                kind,
            }),
            Mending::Valid | Mending::Refused(_) => None,
        }
    }
}

/// What to write in place of a text of which this was found, and this is known. It is asked for of a refused text
/// alone, and where the format says it.
pub(crate) fn mended_line(
    alloc: Global,
    setting: LintSetting<'_>,
    violations: &[LineViolation],
    known: &KnownText<'_>,
) -> Result<Option<MendedLine>, AllocError>
    requires { IsRefusedFirst setting.profile (option_copied setting.base) violations.now known.now }
    ensures { IfOk result (λ mended. IsMended setting.entry.format setting.entry.profile
        (option_copied setting.entry.base) violations.now known.now (option_map mended_line_view mended)) }
{
    match first_refusal(violations) {
        Some(refusal) if setting.format.shows_mended() => {
            let text = known.as_str();
            let mending = mend_refused(alloc, text, setting.base, setting.profile, refusal)?;
            Ok(MendedLine::of(mending, known))
        }
        _ => Ok(None),
    }
}

// The refusal that is found first, where a rule of valid URL strings is violated.
fn first_refusal(violations: &[LineViolation]) -> Option<Refusal>
    ensures { result ≡ spec.first_refusal violations.now }
{
    match violations {
        [LineViolation::Refused(refusal), ..] => Some(*refusal),
        _ => None,
    }
}

/// What a diagnostic carries of what to write in place of a text.
pub(crate) fn fix_in_place<'l>(
    mended: &'l Option<MendedLine>,
    columns: Columns,
    line: &ReportedLine<'_>,
) -> Option<Fix<'l>>
    ensures { option_map fix_view result
        ≡ fix_on columns (reported_view line.now) (option_map mended_line_view mended.now) }
{
    match mended {
        Some(mended) => Some(Fix {
            region: Some(line.region(line.start, end_column(columns, line.start, line.text))),
            text: mended.text.as_str(),
            kind: mended.kind,
            is_offered: mended.is_offered,
            is_named: mended.is_named,
        }),
        None => None,
    }
}

// The column after a text that begins in this one. If columns count code points, it isn't walked by them.
fn end_column(columns: Columns, start: u64, text: &str) -> u64
    ensures { result ≡ end_column columns start text.now }
{
    match columns {
        Columns::CodePoints => start.saturating_add(count(text) as u64),
        Columns::Bytes | Columns::Utf16 | Columns::Screen => {
            ColumnCounter::new(columns, start, text).column(count(text))
        }
    }
}
