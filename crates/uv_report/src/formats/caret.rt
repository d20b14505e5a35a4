//! Diagnostics with the line that they are about, a caret below the place, and what to write in place of the line.
ghost use Rattle.std.specs.Prelude.{◌≡◌, ◌++◌, OnOk, option_map, replicate, string_bytes, take};
ghost use Rattle.std.specs.Str.{chars};
ghost use Rattle.uv_shown.specs.declared.escaping.escapes.Escapes.TheVariants.{Copied, Shown};
ghost use Rattle.uv_shown.specs.Escaping.Escapes.{escaped};
ghost use Rattle.uv_report.specs.Diagnostic.{diagnostic_view, fix_view};
ghost use Rattle.uv_shown.specs.Places.Window.{window};
ghost use Rattle.uv_report.specs.Formats.Caret.{below, caret_lines, caret_text, help_rest, help_text, help_word};
ghost use Rattle.uv_report.specs.Formats.Caret.{help_words, named_as};
ghost use Rattle.uv_report.specs.Formats.Caret.{padding, shown_lines, window_lines};
ghost use Rattle.uv_report.specs.Look.{cyan, painted};

use crate::diagnostic::{Diagnostic, Fix};
use crate::formats::gnu::push_gnu;
use crate::look::Look;
use crate::places::column::shown_width;
use std::alloc::{AllocError, Global};
use uv_model::MendKind;
use uv_shown::{SeenText, cut_out, is_printable_text, push_copied, push_shown as push_shown_text};

// What is after `help:`, before a mended text that is offered, and after `note:`, before one that isn't, by how it is
// to the refused one.
const HELP: &str = " write ";

const SAME_NOTE: &str = " the same URL, written validly, is ";

const ESCAPED_NOTE: &str = " the same text, percent-encoded, is ";

const CHANGED_NOTE: &str = " a valid URL string that is near it is ";

// Spaces, as one text.
const SPACES: &str =
    "                                                                                                ";

/// Pushes the line of `gnu`; if the text is shown, what is shown of the line and the line with the caret; and if there
/// is a mended text, `help: write TEXT`, or a note that names one that isn't offered, unless the message says what to
/// write.
#[tactic(auto, unfolding(crate::specs::Formats::Caret::caret_text))]
pub(crate) fn push_caret(
    alloc: Global,
    text: &mut String,
    look: Look,
    found: &Diagnostic<'_>,
) -> Result<(), AllocError>
    ensures { OnOk result (string_bytes text.new
        ≡ string_bytes text.old ++ caret_text look (diagnostic_view found.now)) }
{
    push_gnu(alloc, text, look, found)?;
    push_shown(alloc, text, look, found)?;
    push_help(alloc, text, look, found.place, found.fix)?;
    Ok(())
}

// Pushes what is shown of a line, and a caret below what the message names, if the line is shown.
fn push_shown(
    alloc: Global,
    text: &mut String,
    look: Look,
    found: &Diagnostic<'_>,
) -> Result<(), AllocError>
    ensures { OnOk result (string_bytes text.new
        ≡ string_bytes text.old ++ shown_lines look (diagnostic_view found.now)) }
{
    if found.is_shown {
        push_window(alloc, text, look, found.text, found.named)
    } else {
        Ok(())
    }
}

// Pushes what is shown of a line, and a caret below one of its places. A line that is shown whole isn't copied.
#[tactic(auto, unfolding(crate::specs::Formats::Caret::window_lines, uv_shown::specs::Places::Window::window))]
fn push_window(
    alloc: Global,
    text: &mut String,
    look: Look,
    line: &SeenText<'_>,
    place: usize,
) -> Result<(), AllocError>
    ensures { OnOk result (string_bytes text.new ≡ string_bytes text.old ++ window_lines look line.now place) }
{
    if line.is_longer_than_window() {
        let shown = cut_out(alloc, line, place.saturating_sub(99))?;
        push_lines(text, look, shown.as_str(), place.min(100))
    } else {
        push_lines(text, look, line.as_str(), place)
    }
}

// Pushes what to write in place of a line, whose report is about this place. A text that isn't offered would mislead
// if the message says what to write.
fn push_help(
    alloc: Global,
    text: &mut String,
    look: Look,
    place: usize,
    fix: Option<Fix<'_>>,
) -> Result<(), AllocError>
    ensures { OnOk result (string_bytes text.new
        ≡ string_bytes text.old ++ help_text look place (option_map fix_view fix.entry)) }
{
    match fix {
        Some(fix) if fix.is_offered || !fix.is_named => {
            text.push_str(help_word(look, fix.is_offered))?;
            let words = help_words(fix.is_offered, fix.kind);
            push_help_line(alloc, text, words, place, fix.text)
        }
        _ => Ok(()),
    }
}

// The word that a line on a mended text begins with.
fn help_word(look: Look, offered: bool) -> &'static str
    ensures { result.now ≡ painted look cyan (help_word offered) }
{
    match (look, offered) {
        (Look::Plain, true) => "help:",
        (Look::Plain, false) => "note:",
        (Look::Coloured, true) => "\x1b[36mhelp:\x1b[0m",
        (Look::Coloured, false) => "\x1b[36mnote:\x1b[0m",
    }
}

// The words before a mended text, which depend on whether it is offered.
fn help_words(offered: bool, kind: MendKind) -> &'static str
    ensures { result.now ≡ help_words offered kind }
{
    if offered { HELP } else { named_as(kind) }
}

// What a mended text that isn't offered is called.
fn named_as(kind: MendKind) -> &'static str
    ensures { result.now ≡ named_as kind }
{
    match kind {
        MendKind::Same => SAME_NOTE,
        MendKind::Escaped => ESCAPED_NOTE,
        MendKind::Changed => CHANGED_NOTE,
    }
}

// Pushes these words, and what is shown of a mended text around a place.
#[tactic(auto, unfolding(crate::specs::Formats::Caret::help_rest))]
fn push_help_line(
    alloc: Global,
    text: &mut String,
    words: &str,
    place: usize,
    mended: &str,
) -> Result<(), AllocError>
    ensures { OnOk result (string_bytes text.new ≡ string_bytes text.old ++ help_rest words.now place mended.now) }
{
    text.push_str(words)?;
    push_part(alloc, text, &SeenText::new(mended), place)?;
    text.push_str("\n")?;
    Ok(())
}

// Pushes what is shown of a valid URL string around a place, as it may be copied.
#[tactic(auto, unfolding(uv_shown::specs::Places::Window::window))]
fn push_part(
    alloc: Global,
    text: &mut String,
    source: &SeenText<'_>,
    place: usize,
) -> Result<(), AllocError>
    ensures { OnOk result (string_bytes text.new ≡ string_bytes text.old ++ escaped Copied (window source.now place)) }
{
    if source.is_longer_than_window() {
        let shown = cut_out(alloc, source, place.saturating_sub(99))?;
        push_copied(text, shown.as_str())
    } else {
        push_copied(text, source.as_str())
    }
}

// Pushes a line, and a caret below one of its places.
fn push_lines(text: &mut String, look: Look, line: &str, place: usize) -> Result<(), AllocError>
    ensures { OnOk result (string_bytes text.new ≡ string_bytes text.old ++ caret_lines look line.now place) }
{
    match look {
        Look::Plain => push_marked(text, line, "\n", place, "^\n"),
        Look::Coloured => push_marked(text, line, "\n\x1b[1;31m", place, "^\x1b[0m\n"),
    }
}

// Pushes a line, and what comes below its code points before a place, with these texts round that.
fn push_marked(
    text: &mut String,
    line: &str,
    before: &str,
    place: usize,
    after: &str,
) -> Result<(), AllocError>
    ensures { OnOk result (string_bytes text.new ≡ string_bytes text.old ++ (escaped Shown line.now
        ++ (before.now ++ (padding (take place (chars line.now)) ++ after.now)))) }
{
    push_shown_text(text, line)?;
    text.push_str(before)?;
    push_padding(text, line, place)?;
    text.push_str(after)?;
    Ok(())
}

// Pushes what comes below the code points of a line before a place: as many spaces, if they are printable ASCII.
fn push_padding(text: &mut String, line: &str, place: usize) -> Result<(), AllocError>
    ensures { OnOk result (string_bytes text.new ≡ string_bytes text.old ++ padding (take place (chars line.now))) }
{
    match line.split_at_checked(place) {
        Some((front, _)) if is_printable_text(front.as_bytes()) => push_spaces(text, place),
        _ => push_each_below(text, line, place),
    }
}

// Pushes what comes below the code points of a line before a place, code point by code point.
fn push_each_below(text: &mut String, line: &str, place: usize) -> Result<(), AllocError>
    ensures { OnOk result (string_bytes text.new ≡ string_bytes text.old ++ padding (take place (chars line.now))) }
{
    for c in line.chars().take(place) {
        push_below(text, c)?;
    }
    Ok(())
}

// Pushes what comes below a code point.
fn push_below(text: &mut String, c: char) -> Result<(), AllocError>
    ensures { OnOk result (string_bytes text.new ≡ string_bytes text.old ++ below c) }
{
    if c == '\t' {
        text.push_str("\t")
    } else {
        push_spaces(text, shown_width(c))
    }
}

// Pushes this many spaces, in most cases as one text.
fn push_spaces(text: &mut String, count: usize) -> Result<(), AllocError>
    ensures { OnOk result (string_bytes text.new ≡ string_bytes text.old ++ replicate count 32) }
{
    match SPACES.split_at_checked(count) {
        Some((spaces, _)) => text.push_str(spaces),
        None => push_each_space(text, count),
    }
}

// Pushes this many spaces, one by one.
fn push_each_space(text: &mut String, count: usize) -> Result<(), AllocError>
    ensures { OnOk result (string_bytes text.new ≡ string_bytes text.old ++ replicate count 32) }
{
    for _column in 0..count {
        text.push(' ')?;
    }
    Ok(())
}
