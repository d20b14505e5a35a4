//! What tells one diagnostic from another, in any run: what is wrong with which text, and if wanted in which file.
ghost use Rattle.std.specs.Prelude.{◌≡◌, IfOk, string_bytes};
ghost use Rattle.json.specs.Json.{string};
ghost use Rattle.uv_report.specs.Diagnostic.{diagnostic_view};
ghost use Rattle.uv_report.specs.Formats.Fingerprint as spec;
ghost use Rattle.uv_report.specs.Json.{json_text};

use crate::diagnostic::Diagnostic;
use crate::json_text::JsonText;
use sha2::{Digest, Sha256};
use std::alloc::{AllocError, Global};

/// The fingerprint of what is wrong with a text, made of the rule, the place, and what a report carries of the text. It
/// is the same wherever the text is.
#[tactic(auto, unfolding(crate::specs::Formats::Fingerprint::text_fingerprint))]
pub(crate) fn text_fingerprint(alloc: Global, found: &Diagnostic<'_>) -> Result<String, AllocError>
    ensures { IfOk result (λ digits. string_bytes digits ≡ spec.text_fingerprint (diagnostic_view found.now)) }
{
    let key = text_key(alloc, found)?;
    digest(alloc, key.as_bytes())
}

/// The fingerprint of what is wrong with a text in a file, wherever in the file that is: made of the same, the file,
/// and how many equal ones come before it.
pub(crate) fn file_fingerprint(alloc: Global, found: &Diagnostic<'_>) -> Result<String, AllocError>
    ensures { IfOk result (λ digits. string_bytes digits ≡ spec.file_fingerprint (diagnostic_view found.now)) }
{
    let key = file_key(alloc, found)?;
    digest(alloc, key.as_bytes())
}

// The digest of bytes, in hexadecimal digits.
fn digest(alloc: Global, bytes: &[u8]) -> Result<String, AllocError>
    ensures { IfOk result (λ digits. string_bytes digits ≡ spec.digest bytes.now) }
{
    hex::encode(alloc, Sha256::digest(bytes))
}

// What goes into a fingerprint from a violation and its text.
#[tactic(auto, unfolding(crate::specs::Formats::Fingerprint::text_key))]
fn text_key(alloc: Global, found: &Diagnostic<'_>) -> Result<String, AllocError>
    ensures { IfOk result (λ key. string_bytes key ≡ spec.text_key (diagnostic_view found.now)) }
{
    let rule = found.rule;
    let place = found.place;
    let carried = found.carried(alloc)?;
    let carried = carried.as_str();
    format!(in alloc; "{rule}\n{place}\n{carried}")
}

// What goes into the fingerprint of a diagnostic in its file.
#[tactic(auto, unfolding(crate::specs::Formats::Fingerprint::file_key))]
fn file_key(alloc: Global, found: &Diagnostic<'_>) -> Result<String, AllocError>
    ensures { IfOk result (λ key. string_bytes key ≡ spec.file_key (diagnostic_view found.now)) }
{
    let repeat = found.repeat;
    let file = quoted(alloc, found.file)?;
    let rest = text_key(alloc, found)?;
    format!(in alloc; "{file}\n{repeat}\n{rest}")
}

// A text as a string of JSON.
fn quoted(alloc: Global, value: &str) -> Result<String, AllocError>
    ensures { IfOk result (λ text. string_bytes text ≡ json_text (string value.now)) }
{
    let mut text = String::new(alloc);
    let mut json = JsonText::new(alloc)?;
    json.string(value)?;
    json.push_to(&mut text)?;
    Ok(text)
}
