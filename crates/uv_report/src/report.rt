//! Reports in any format. A report has a beginning, then for each file a beginning, diagnostics and an end, and then an
//! end.
ghost use Rattle.std.specs.Cow.{cow_str_bytes};
ghost use Rattle.std.specs.Prelude.{◌≡◌, ◌⊎◌, ◌++◌, IfErr, IfOk, OnOk, map, string_bytes};
ghost use Rattle.uv_report.specs.Diagnostic.{diagnostic_view};
ghost use Rattle.uv_report.specs.Report.{begin_text, diagnostic_text, end_text, file_begin_text, file_end_text};
ghost use Rattle.uv_report.specs.Report.{separator};
ghost use Rattle.uv_report.specs.declared.format.Format.TheVariants.{Checkstyle, Junit, Sarif};
ghost use Rattle.uv_shown.specs.Rule.{rule_view};

use crate::completion::Completion;
use crate::diagnostic::Diagnostic;
use crate::format::Format;
use crate::formats::caret::push_caret;
use crate::formats::checkstyle::{CHECKSTYLE_BEGIN, push_checkstyle, push_checkstyle_file};
use crate::formats::github::push_github;
use crate::formats::gitlab::push_gitlab;
use crate::formats::gnu::push_gnu;
use crate::formats::json_lines::push_json;
use crate::formats::junit::{JUNIT_BEGIN, junit_end, push_junit, push_junit_file};
use crate::formats::rdjson::{RDJSON_BEGIN, push_rdjson};
use crate::formats::sarif::{push_sarif, push_sarif_begin, sarif_end};
use crate::look::Look;
use crate::places::column::Columns;
use std::alloc::{AllocError, Global};
use std::borrow::CowStr;
use uv_shown::ShownRule;

/// What a report begins with. In SARIF that says what columns count, if SARIF has a word for it, and lists these rules;
/// only there it takes memory.
pub fn begin_of(
    alloc: Global,
    format: Format,
    columns: Columns,
    rules: &[ShownRule<'_>],
) -> Result<CowStr<'static>, AllocError>
    ensures text { IfOk result (λ begin. cow_str_bytes begin ≡ begin_text format columns (map rule_view rules.now)) }
    ensures memory { IfErr result (λ fault. format ≡ Sarif) }
{
    match format {
        Format::Sarif => {
            let mut begin = String::new(alloc);
            push_sarif_begin(alloc, &mut begin, columns, rules)?;
            Ok(CowStr::Owned(begin))
        }
        Format::Checkstyle => Ok(CowStr::Borrowed(CHECKSTYLE_BEGIN)),
        Format::Junit => Ok(CowStr::Borrowed(JUNIT_BEGIN)),
        Format::Gitlab => Ok(CowStr::Borrowed("[\n")),
        Format::Rdjson => Ok(CowStr::Borrowed(RDJSON_BEGIN)),
        Format::Gnu | Format::Caret | Format::Json | Format::Github => Ok(CowStr::Borrowed("")),
    }
}

/// What comes before the diagnostics of a file: a start tag in the formats of Checkstyle and JUnit, for JUnit with a test
/// that passes, and nothing in the others. Only in these two it takes memory.
pub fn file_begin_of(alloc: Global, format: Format, file: &str) -> Result<String, AllocError>
    ensures text { IfOk result (λ begin. string_bytes begin ≡ file_begin_text format file.now) }
    ensures memory { IfErr result (λ fault. (format ≡ Checkstyle) ⊎ (format ≡ Junit)) }
{
    let mut begin = String::new(alloc);
    match format {
        Format::Checkstyle => push_checkstyle_file(&mut begin, file)?,
        Format::Junit => push_junit_file(&mut begin, file)?,
        Format::Gnu
        | Format::Caret
        | Format::Json
        | Format::Github
        | Format::Sarif
        | Format::Gitlab
        | Format::Rdjson => {}
    }
    Ok(begin)
}

/// What comes before a diagnostic: in SARIF and in the formats of GitLab and reviewdog a comma, except before the first
/// one of the report.
pub fn separator(format: Format, is_first: bool) -> &'static str
    ensures { result.now ≡ separator format is_first }
{
    match (format, is_first) {
        (Format::Sarif | Format::Gitlab | Format::Rdjson, false) => ",",
        _ => "",
    }
}

/// Pushes a diagnostic, which in the formats of compilers may have colours. If an allocation fails, what the text holds
/// is open, and it has to be cleared. Several diagnostics on one text take no more time than the text and what is
/// written, if they come in the order of their places, and the text is led to each place before.
pub fn push(
    alloc: Global,
    text: &mut String,
    format: Format,
    look: Look,
    found: &Diagnostic<'_>,
) -> Result<(), AllocError>
    ensures { OnOk result (string_bytes text.new
        ≡ string_bytes text.old ++ diagnostic_text format look (diagnostic_view found.now)) }
{
    match format {
        Format::Gnu => push_gnu(alloc, text, look, found),
        Format::Caret => push_caret(alloc, text, look, found),
        Format::Json => push_json(alloc, text, found),
        Format::Github => push_github(alloc, text, found),
        Format::Sarif => push_sarif(alloc, text, found),
        Format::Checkstyle => push_checkstyle(alloc, text, found),
        Format::Junit => push_junit(alloc, text, found),
        Format::Gitlab => push_gitlab(alloc, text, found),
        Format::Rdjson => push_rdjson(alloc, text, found),
    }
}

/// What comes after the diagnostics of a file: an end tag in the formats of Checkstyle and JUnit, and nothing in the
/// others. It takes no memory.
pub fn file_end_of(format: Format) -> &'static str
    ensures { result.now ≡ file_end_text format }
{
    match format {
        Format::Checkstyle => "</file>\n",
        Format::Junit => "</testsuite>\n",
        Format::Gnu
        | Format::Caret
        | Format::Json
        | Format::Github
        | Format::Sarif
        | Format::Gitlab
        | Format::Rdjson => "",
    }
}

/// What a report ends with, depending on how the run over its files has ended. It takes no memory, so that a report
/// that has begun can always be ended.
pub fn end_of(format: Format, completion: Completion) -> &'static str
    ensures { result.now ≡ end_text format completion }
{
    match format {
        Format::Sarif => sarif_end(completion),
        Format::Checkstyle => "</checkstyle>\n",
        Format::Junit => junit_end(completion),
        Format::Gitlab => "]\n",
        Format::Rdjson => "]}\n",
        Format::Gnu | Format::Caret | Format::Json | Format::Github => "",
    }
}
