//! Diagnostics as JSON objects, one per line.
ghost use Rattle.json.specs.Tree.{json_tokens};
ghost use Rattle.std.specs.Prelude.{◌≡◌, ◌++◌, OnOk, string_bytes};
ghost use Rattle.uv_report.specs.Diagnostic.{carried_text, diagnostic_view, fix_view};
ghost use Rattle.uv_report.specs.Formats.Json as spec;

use crate::diagnostic::{Diagnostic, Fix};
use crate::json_text::{JsonText, Piece};
use std::alloc::{AllocError, Global};

/// Pushes the object of a diagnostic, and a line feed.
#[tactic(auto, unfolding(crate::specs::Formats::Json::json_line))]
pub(crate) fn push_json(
    alloc: Global,
    text: &mut String,
    found: &Diagnostic<'_>,
) -> Result<(), AllocError>
    ensures { OnOk result (string_bytes text.new ≡ string_bytes text.old ++ spec.json_line (diagnostic_view found.now)) }
{
    let carried = found.carried(alloc)?;
    let mut json = JsonText::new(alloc)?;
    write_object(&mut json, found, carried.as_str())?;
    json.push_to(text)?;
    text.push_str("\n")?;
    Ok(())
}

// Writes the object of a diagnostic.
fn write_object<'t>(
    json: &mut JsonText,
    found: &Diagnostic<'t>,
    carried: &'t str,
) -> Result<(), AllocError>
    requires { carried.now ≡ carried_text (diagnostic_view found.now) }
    ensures { OnOk result (json.new ≡ json.old ++ json_tokens (spec.json_value (diagnostic_view found.now))) }
{
    match found.fix {
        Some(fix) => write_mended(json, found, carried, fix),
        None => write_plain(json, found, carried),
    }
}

// Writes the object of a diagnostic without a mended text.
fn write_plain<'t>(
    json: &mut JsonText,
    found: &Diagnostic<'t>,
    carried: &'t str,
) -> Result<(), AllocError>
    requires { carried.now ≡ carried_text (diagnostic_view found.now) }
    ensures { OnOk result (json.new ≡ json.old ++ json_tokens (spec.plain_value (diagnostic_view found.now))) }
{
    json.write(&[
        Piece::Begin,
        Piece::Number("column", found.region.column),
        Piece::Boolean("cut", found.is_cut()),
        Piece::Text("file", found.file),
        Piece::Number("line", found.region.line),
        Piece::Text("message", found.message),
        Piece::Text("rule", found.rule),
        Piece::Text("text", carried),
        Piece::End,
    ])
}

// Writes the object of a diagnostic with a mended text.
fn write_mended<'t>(
    json: &mut JsonText,
    found: &Diagnostic<'t>,
    carried: &'t str,
    fix: Fix<'t>,
) -> Result<(), AllocError>
    requires { carried.now ≡ carried_text (diagnostic_view found.now) }
    ensures { OnOk result (json.new
        ≡ json.old ++ json_tokens (spec.mended_value (diagnostic_view found.now) (fix_view fix.entry))) }
{
    json.write(&[
        Piece::Begin,
        Piece::Number("column", found.region.column),
        Piece::Boolean("cut", found.is_cut()),
        Piece::Text("file", found.file),
        Piece::Text("kind", fix.kind.name()),
        Piece::Number("line", found.region.line),
        Piece::Text("mended", fix.text),
        Piece::Text("message", found.message),
        Piece::Boolean("offered", fix.is_offered),
        Piece::Text("rule", found.rule),
        Piece::Text("text", carried),
        Piece::End,
    ])?;
    Ok(())
}
