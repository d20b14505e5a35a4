//! Diagnostics as a document of SARIF 2.1.0, which is written result by result.
ghost use Rattle.json.specs.Json.{object};
ghost use Rattle.json.specs.Token.{key};
ghost use Rattle.json.specs.Tree.{json_tokens, members_tokens};
ghost use Rattle.std.specs.Prelude.{◌≡◌, ◌∷◌, ◌++◌, IfOk, OnOk, codes, flat_map, map, string_bytes};
ghost use Rattle.uv_report.specs.Diagnostic.{carried_text, diagnostic_view, edit_view};
ghost use Rattle.uv_report.specs.Formats.Uri as uris;
ghost use Rattle.uv_report.specs.Formats.Sarif as spec;
ghost use Rattle.uv_report.specs.Json.{single};
ghost use Rattle.uv_shown.specs.Rule.{rule_view};

use crate::completion::Completion;
use crate::diagnostic::{Diagnostic, Fix, Region};
use crate::formats::fingerprint::text_fingerprint;
use crate::formats::uri::push_uri_path;
use crate::json_text::{JsonText, Piece};
use crate::places::column::Columns;
use std::alloc::{AllocError, Global};
use uv_model::MendKind;
use uv_shown::ShownRule;

// What a fix does, by how the mended text is to the refused one.
const SAME_FIX: &str = "write the same URL as a valid URL string";

const ESCAPED_FIX: &str = "percent-encode what is not allowed in a URL string";

const CHANGED_FIX: &str = "write a valid URL string, which may be another URL";

/// Pushes the document up to its results: the version, what columns count, the tool and these rules.
#[tactic(auto, unfolding(crate::specs::Formats::Sarif::sarif_begin))]
pub(crate) fn push_sarif_begin(
    alloc: Global,
    text: &mut String,
    columns: Columns,
    rules: &[ShownRule<'_>],
) -> Result<(), AllocError>
    ensures { OnOk result (string_bytes text.new
        ≡ string_bytes text.old ++ spec.sarif_begin columns (map rule_view rules.now)) }
{
    text.push_str(
        "{\"$schema\":\"https://json.schemastore.org/sarif-2.1.0.json\",\"version\":\"2.1.0\",",
    )?;
    text.push_str("\"runs\":[{")?;
    text.push_str(column_kind(columns))?;
    text.push_str("\"tool\":{\"driver\":{\"name\":\"urlcheck\",\"version\":\"0.5.0\",\"rules\":[")?;
    push_rules(alloc, text, rules)?;
    text.push_str("]}},\"results\":[\n")?;
    Ok(())
}

// What columns count, if SARIF has a word for it.
fn column_kind(columns: Columns) -> &'static str
    ensures { result.now ≡ spec.column_kind columns }
{
    match columns {
        Columns::CodePoints => "\"columnKind\":\"unicodeCodePoints\",",
        Columns::Utf16 => "\"columnKind\":\"utf16CodeUnits\",",
        Columns::Bytes | Columns::Screen => "",
    }
}

/// What the document ends with after its results: the run's invocation, which says whether every file was read to its
/// end (SARIF 2.1.0, 3.20).
pub(crate) fn sarif_end(completion: Completion) -> &'static str
    ensures { result.now ≡ spec.sarif_end completion }
{
    match completion {
        Completion::Whole => "],\"invocations\":[{\"executionSuccessful\":true}]}]}\n",
        Completion::Unread => {
            "],\"invocations\":[{\"executionSuccessful\":false,\"toolExecutionNotifications\":\
            [{\"level\":\"error\",\"message\":{\"text\":\"a file can't be read, which standard error names\"}}]}]}]}\n"
        }
        Completion::Stopped => {
            "],\"invocations\":[{\"executionSuccessful\":false,\"toolExecutionNotifications\":\
            [{\"level\":\"error\",\"message\":{\"text\":\"the run stopped, and standard error says why\"}}]}]}]}\n"
        }
    }
}

// Pushes the rules, with commas between them.
fn push_rules(alloc: Global, text: &mut String, rules: &[ShownRule<'_>]) -> Result<(), AllocError>
    ensures { OnOk result (string_bytes text.new
        ≡ string_bytes text.old ++ spec.all_rules (map rule_view rules.now)) }
{
    let Some((first, rest)) = rules.split_first() else {
        return Ok(());
    };
    push_rule(alloc, text, *first)?;
    push_next_rules(alloc, text, rest)
}

// Pushes each of the rules after a comma.
fn push_next_rules(
    alloc: Global,
    text: &mut String,
    rules: &[ShownRule<'_>],
) -> Result<(), AllocError>
    ensures { OnOk result (string_bytes text.new
        ≡ string_bytes text.old ++ flat_map (λ rule. spec.next_rule (rule_view rule)) rules.now) }
{
    for rule in rules {
        push_next_rule(alloc, text, *rule)?;
    }
    Ok(())
}

// Pushes a comma, and a rule.
#[tactic(auto, unfolding(crate::specs::Formats::Sarif::next_rule))]
fn push_next_rule(alloc: Global, text: &mut String, rule: ShownRule<'_>) -> Result<(), AllocError>
    ensures { OnOk result (string_bytes text.new
        ≡ string_bytes text.old ++ spec.next_rule (rule_view rule.entry)) }
{
    text.push_str(",")?;
    push_rule(alloc, text, rule)?;
    Ok(())
}

// Pushes what the document says of a rule.
#[tactic(auto, unfolding(crate::specs::Formats::Sarif::rule_text))]
fn push_rule(alloc: Global, text: &mut String, rule: ShownRule<'_>) -> Result<(), AllocError>
    ensures { OnOk result (string_bytes text.new
        ≡ string_bytes text.old ++ spec.rule_text (rule_view rule.entry)) }
{
    let mut json = JsonText::new(alloc)?;
    write_rule(&mut json, rule)?;
    json.push_to(text)?;
    Ok(())
}

// Writes a rule: what it requires, the address of its page if it has one, its name, and what is wrong where it is
// violated.
#[tactic(auto, unfolding(crate::specs::Formats::Sarif::rule_value))]
fn write_rule(json: &mut JsonText, rule: ShownRule<'_>) -> Result<(), AllocError>
    ensures { OnOk result (json.new ≡ json.old ++ json_tokens (spec.rule_value (rule_view rule.entry))) }
{
    if rule.uri.is_empty() {
        write_bare_rule(json, rule)
    } else {
        write_paged_rule(json, rule)
    }
}

// Writes a rule that has no page.
fn write_bare_rule(json: &mut JsonText, rule: ShownRule<'_>) -> Result<(), AllocError>
    ensures { OnOk result (json.new ≡ json.old ++ json_tokens (spec.bare_rule (rule_view rule.entry))) }
{
    json.write(&[
        Piece::Begin,
        Piece::ObjectOf("fullDescription", "text", rule.help),
        Piece::ObjectOf("help", "text", rule.help),
        Piece::Text("id", rule.name),
        Piece::ObjectOf("shortDescription", "text", rule.sentence),
        Piece::End,
    ])?;
    Ok(())
}

// Writes a rule that has one.
fn write_paged_rule(json: &mut JsonText, rule: ShownRule<'_>) -> Result<(), AllocError>
    ensures { OnOk result (json.new ≡ json.old ++ json_tokens (spec.paged_rule (rule_view rule.entry))) }
{
    json.write(&[
        Piece::Begin,
        Piece::ObjectOf("fullDescription", "text", rule.help),
        Piece::ObjectOf("help", "text", rule.help),
        Piece::Text("helpUri", rule.uri),
        Piece::Text("id", rule.name),
        Piece::ObjectOf("shortDescription", "text", rule.sentence),
        Piece::End,
    ])?;
    Ok(())
}

/// Pushes a result.
#[tactic(auto, unfolding(crate::specs::Formats::Sarif::sarif_text))]
pub(crate) fn push_sarif(
    alloc: Global,
    text: &mut String,
    found: &Diagnostic<'_>,
) -> Result<(), AllocError>
    ensures { OnOk result (string_bytes text.new
        ≡ string_bytes text.old ++ spec.sarif_text (diagnostic_view found.now)) }
{
    let mut json = JsonText::new(alloc)?;
    write_result(alloc, &mut json, found)?;
    json.push_to(text)?;
    text.push_str("\n")?;
    Ok(())
}

// Writes the result of a diagnostic.
fn write_result(
    alloc: Global,
    json: &mut JsonText,
    found: &Diagnostic<'_>,
) -> Result<(), AllocError>
    ensures { OnOk result (json.new ≡ json.old ++ json_tokens (spec.result_value (diagnostic_view found.now))) }
{
    let uri = uri_of(alloc, found.file)?;
    match found.edit() {
        Some((region, fix)) => write_fixed(alloc, json, found, uri.as_str(), region, fix),
        None => write_plain(alloc, json, found, uri.as_str()),
    }
}

// The path of a file's name.
fn uri_of(alloc: Global, file: &str) -> Result<String, AllocError>
    ensures { IfOk result (λ uri. string_bytes uri ≡ uris.uri_path file.now) }
{
    let mut uri = String::new(alloc);
    push_uri_path(&mut uri, file)?;
    Ok(uri)
}

// Writes the result of a diagnostic without a fix.
fn write_plain(
    alloc: Global,
    json: &mut JsonText,
    found: &Diagnostic<'_>,
    uri: &str,
) -> Result<(), AllocError>
    requires { uri.now ≡ uris.uri_path found.now.file.now }
    ensures { OnOk result (json.new
        ≡ json.old ++ json_tokens (object (spec.result_members (diagnostic_view found.now)))) }
{
    json.write(&[Piece::Begin])?;
    write_members(alloc, json, found, uri)?;
    Ok(())
}

// Writes the result of a diagnostic with this fix of what is in this region.
fn write_fixed(
    alloc: Global,
    json: &mut JsonText,
    found: &Diagnostic<'_>,
    uri: &str,
    region: Region,
    fix: Fix<'_>,
) -> Result<(), AllocError>
    requires { uri.now ≡ uris.uri_path found.now.file.now }
    ensures { OnOk result (json.new ≡ json.old ++ json_tokens (object (spec.members_with (diagnostic_view found.now)
        (Some (edit_view (region, fix.entry)))))) }
{
    json.write(&[Piece::Begin])?;
    write_fix(json, uri, region, fix)?;
    write_members(alloc, json, found, uri)?;
    Ok(())
}

// Writes the members that every result has, and ends it.
fn write_members(
    alloc: Global,
    json: &mut JsonText,
    found: &Diagnostic<'_>,
    uri: &str,
) -> Result<(), AllocError>
    requires { uri.now ≡ uris.uri_path found.now.file.now }
    ensures { OnOk result (json.new
        ≡ json.old ++ members_tokens (spec.result_members (diagnostic_view found.now))) }
{
    let fingerprint = text_fingerprint(alloc, found)?;
    let carried = found.carried(alloc)?;
    json.text("level", "error")?;
    write_location(json, found.region, uri)?;
    json.object_of("message", "text", found.message)?;
    json.object_of(
        "partialFingerprints",
        "urlcheckText/v1",
        fingerprint.as_str(),
    )?;
    write_violation(json, found, carried.as_str())?;
    Ok(())
}

// Writes the member of where a diagnostic is.
fn write_location(json: &mut JsonText, region: Region, uri: &str) -> Result<(), AllocError>
    ensures { OnOk result (json.new ≡ json.old
        ++ key (codes "locations") ∷ json_tokens (single (spec.location_value uri.now region))) }
{
    json.write(&[
        Piece::Array("locations"),
        Piece::Begin,
        Piece::Object("physicalLocation"),
        Piece::ObjectOf("artifactLocation", "uri", uri),
    ])?;
    write_region(json, "region", region)?;
    json.write(&[Piece::End, Piece::End, Piece::EndArray])?;
    Ok(())
}

// Writes the members of the carried text, and of the violated rule, and ends the result.
#[tactic(auto, unfolding(crate::specs::Formats::Sarif::violation_members))]
fn write_violation(
    json: &mut JsonText,
    found: &Diagnostic<'_>,
    carried: &str,
) -> Result<(), AllocError>
    requires { carried.now ≡ carried_text (diagnostic_view found.now) }
    ensures { OnOk result (json.new
        ≡ json.old ++ members_tokens (spec.violation_members (diagnostic_view found.now))) }
{
    json.write(&[
        Piece::Object("properties"),
        Piece::Boolean("cut", found.is_cut()),
        Piece::Text("text", carried),
        Piece::End,
    ])?;
    json.text("ruleId", found.rule)?;
    write_index(json, found.index)?;
    Ok(())
}

// Writes the member with the index of a rule among the rules of the document, if it is one of them, and ends the
// result.
fn write_index(json: &mut JsonText, index: Option<u64>) -> Result<(), AllocError>
    ensures { OnOk result (json.new ≡ json.old ++ members_tokens (spec.index_members index)) }
{
    match index {
        Some(index) => json.write(&[Piece::Number("ruleIndex", index), Piece::End]),
        None => json.write(&[Piece::End]),
    }
}

// Writes the member of a region.
fn write_region(json: &mut JsonText, name: &str, region: Region) -> Result<(), AllocError>
    ensures { OnOk result (json.new ≡ json.old ++ key name.now ∷ json_tokens (spec.region_value region)) }
{
    if region.end_line == region.line {
        json.write(&[
            Piece::Object(name),
            Piece::Number("endColumn", region.end_column),
            Piece::Number("startColumn", region.column),
            Piece::Number("startLine", region.line),
            Piece::End,
        ])
    } else {
        json.write(&[
            Piece::Object(name),
            Piece::Number("endColumn", region.end_column),
            Piece::Number("endLine", region.end_line),
            Piece::Number("startColumn", region.column),
            Piece::Number("startLine", region.line),
            Piece::End,
        ])
    }
}

// Writes the member with the fix, which puts a mended text in place of this region.
fn write_fix<'t>(
    json: &mut JsonText,
    uri: &'t str,
    region: Region,
    fix: Fix<'t>,
) -> Result<(), AllocError>
    ensures { OnOk result (json.new ≡ json.old ++ key (codes "fixes")
        ∷ json_tokens (single (spec.fix_value uri.now (edit_view (region, fix.entry))))) }
{
    json.write(&[
        Piece::Array("fixes"),
        Piece::Begin,
        Piece::Array("artifactChanges"),
        Piece::Begin,
        Piece::ObjectOf("artifactLocation", "uri", uri),
        Piece::Array("replacements"),
        Piece::Begin,
    ])?;
    write_region(json, "deletedRegion", region)?;
    json.write(&[
        Piece::ObjectOf("insertedContent", "text", fix.text),
        Piece::End,
        Piece::EndArray,
        Piece::End,
        Piece::EndArray,
        Piece::ObjectOf("description", "text", fix_sentence(fix.kind)),
        Piece::End,
        Piece::EndArray,
    ])?;
    Ok(())
}

// What a fix does, depending on how the mended text relates to the refused one.
fn fix_sentence(kind: MendKind) -> &'static str
    ensures { result.now ≡ spec.fix_sentence kind }
{
    match kind {
        MendKind::Same => SAME_FIX,
        MendKind::Escaped => ESCAPED_FIX,
        MendKind::Changed => CHANGED_FIX,
    }
}
