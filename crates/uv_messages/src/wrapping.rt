//! Paragraphs in lines of at most 80 columns.
ghost use Rattle.std.specs.Prelude.{◌≡◌, IfOk, codes, string_bytes};
ghost use Rattle.uv_messages.specs.Explanations.{on_one_line};

use std::alloc::{AllocError, Global};

// How many columns a line has at most, if no word is longer.
const COLUMNS: usize = 80;

/// A text of ASCII, with a line feed in place of each space at which a line has to end.
pub(crate) fn wrapped(alloc: Global, text: &str) -> Result<String, AllocError>
    ensures { IfOk result (λ lines. on_one_line (string_bytes lines) ≡ on_one_line text.now) }
{
    let mut lines = String::new(alloc);
    let mut room = COLUMNS;
    let mut rest = text;
    while let Some((word, after)) = rest.split_once(' ') {
        room = room.saturating_sub(word.len()).saturating_sub(1);
        let is_full = room < first_word(after).len();
        if is_full {
            room = COLUMNS;
        }
        lines.push_str(word)?;
        lines.push_str(separator(is_full))?;
        rest = after;
    }
    lines.push_str(rest)?;
    Ok(lines)
}

// What is between two words.
fn separator(is_full: bool) -> &'static str
    ensures { on_one_line result.now ≡ codes " " }
{
    if is_full { "\n" } else { " " }
}

// The first word of a text.
fn first_word(text: &str) -> &str {
    match text.split_once(' ') {
        Some((word, _)) => word,
        None => text,
    }
}
