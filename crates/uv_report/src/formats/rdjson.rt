//! Diagnostics as a document of reviewdog, which is written diagnostic by diagnostic.
ghost use Rattle.json.specs.Token.{key};
ghost use Rattle.json.specs.Tree.{json_tokens, members_tokens};
ghost use Rattle.std.specs.Prelude.{◌≡◌, ◌∷◌, ◌++◌, OnOk, codes, string_bytes};
ghost use Rattle.uv_report.specs.Diagnostic.{diagnostic_view, edit_of, edit_view};
ghost use Rattle.uv_report.specs.Formats.Rdjson as spec;

use crate::diagnostic::{Diagnostic, Fix, Region};
use crate::json_text::{JsonText, Piece};
use std::alloc::{AllocError, Global};

/// What the document begins with.
pub(crate) const RDJSON_BEGIN: &str =
    "{\"source\":{\"name\":\"urlcheck\"},\"severity\":\"ERROR\",\"diagnostics\":[\n";

/// Pushes a diagnostic as an object.
#[tactic(auto, unfolding(crate::specs::Formats::Rdjson::rdjson_text))]
pub(crate) fn push_rdjson(
    alloc: Global,
    text: &mut String,
    found: &Diagnostic<'_>,
) -> Result<(), AllocError>
    ensures { OnOk result (string_bytes text.new
        ≡ string_bytes text.old ++ spec.rdjson_text (diagnostic_view found.now)) }
{
    let mut json = JsonText::new(alloc)?;
    write_diagnostic(&mut json, found)?;
    json.push_to(text)?;
    text.push_str("\n")?;
    Ok(())
}

// Writes the object of a diagnostic.
fn write_diagnostic(json: &mut JsonText, found: &Diagnostic<'_>) -> Result<(), AllocError>
    ensures { OnOk result (json.new ≡ json.old ++ json_tokens (spec.rdjson_value (diagnostic_view found.now))) }
{
    json.write(&[Piece::Begin])?;
    write_code(json, found.uri, found.rule)?;
    write_members(json, found)?;
    Ok(())
}

// Writes the member of the rule, and of its address if it has one.
#[tactic(auto, unfolding(crate::specs::Formats::Rdjson::code_value))]
fn write_code<'t>(json: &mut JsonText, uri: &'t str, rule: &'t str) -> Result<(), AllocError>
    ensures { OnOk result (json.new
        ≡ json.old ++ key (codes "code") ∷ json_tokens (spec.code_value uri.now rule.now)) }
{
    if uri.is_empty() {
        json.write(&[Piece::ObjectOf("code", "value", rule)])
    } else {
        json.write(&[
            Piece::Object("code"),
            Piece::Text("url", uri),
            Piece::Text("value", rule),
            Piece::End,
        ])
    }
}

// Writes the members that follow the rule's, and ends the object.
#[tactic(auto, unfolding(crate::specs::Formats::Rdjson::told_members))]
fn write_members(json: &mut JsonText, found: &Diagnostic<'_>) -> Result<(), AllocError>
    ensures { OnOk result (json.new ≡ json.old ++ members_tokens (spec.told_members (diagnostic_view found.now))) }
{
    json.write(&[Piece::Object("location"), Piece::Text("path", found.file)])?;
    write_range(json, found.region)?;
    json.write(&[
        Piece::End,
        Piece::Text("message", found.message),
        Piece::Text("severity", "ERROR"),
    ])?;
    write_suggestions(json, found)?;
    Ok(())
}

// Writes the member of the mended text, if that is offered, and ends the object.
fn write_suggestions(json: &mut JsonText, found: &Diagnostic<'_>) -> Result<(), AllocError>
    ensures { OnOk result (json.new ≡ json.old ++ members_tokens (spec.suggestions_member
        (edit_of (diagnostic_view found.now).fix))) }
{
    match found.edit() {
        Some((region, fix)) => write_suggestion(json, region, fix),
        None => json.write(&[Piece::End]),
    }
}

// Writes the member of a mended text that replaces all of the text, which is in this region, and ends the object.
fn write_suggestion(json: &mut JsonText, region: Region, fix: Fix<'_>) -> Result<(), AllocError>
    ensures { OnOk result (json.new
        ≡ json.old ++ members_tokens (spec.suggestions_member (Some (edit_view (region, fix.entry))))) }
{
    json.write(&[Piece::Array("suggestions"), Piece::Begin])?;
    write_range(json, region)?;
    json.write(&[
        Piece::Text("text", fix.text),
        Piece::End,
        Piece::EndArray,
        Piece::End,
    ])?;
    Ok(())
}

// Writes the member of a region.
fn write_range(json: &mut JsonText, region: Region) -> Result<(), AllocError>
    ensures { OnOk result (json.new ≡ json.old ++ key (codes "range") ∷ json_tokens (spec.range_value region)) }
{
    json.write(&[
        Piece::Object("range"),
        Piece::Object("end"),
        Piece::Number("column", region.end_column),
        Piece::Number("line", region.end_line),
        Piece::End,
        Piece::Object("start"),
        Piece::Number("column", region.column),
        Piece::Number("line", region.line),
        Piece::End,
        Piece::End,
    ])
}
