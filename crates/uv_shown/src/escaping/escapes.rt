//! Texts in which some code points may not be as they are.
ghost use Rattle.std.specs.Prelude.{◌≡◌, ◌++◌, IfOk, OnOk, flat_map, string_bytes, encode_utf8, unwrap_or};
ghost use Rattle.std.specs.Option.{option_copied};
ghost use Rattle.percent_encoding.specs.Percent as percent;
ghost use Rattle.uv_shown.specs.declared.escaping.escapes.Escapes.TheVariants.{Copied};
ghost use Rattle.uv_shown.specs.Escaping.Escapes as spec;
ghost use Rattle.uv_shown.specs.Escaping.Escapes.{escape, escaped, shown_text};

use crate::escaping::printable::is_printable_text;
use percent_encoding::percent_encode_byte;
use std::alloc::{AllocError, Global};

/// Which code points may not appear as they are, and what replaces them.
#[derive(Clone, Copy)]
pub enum Escapes {
    /// On a terminal: controls except the tab, and code points that turn the direction of a text or end a line.
    Shown,
    /// In a URL that is copied from a terminal: what a URL may have of this is percent-encoded, so that it is the same
    /// URL.
    Copied,
    /// In the message of a workflow command.
    Message,
    /// In a property of a workflow command.
    Property,
    /// In an attribute of XML 1.0, between `"`.
    Attribute,
}

/// Pushes a text as a terminal may show it: U+FFFD stands for each control except the tab, and for code points that end
/// a line or turn the direction of a text. If an allocation fails, a prefix of it was pushed.
pub fn push_shown(text: &mut String, source: &str) -> Result<(), AllocError>
    ensures { OnOk result (string_bytes text.new ≡ string_bytes text.old ++ shown_text source.now) }
{
    if is_printable_text(source.as_bytes()) {
        text.push_str(source)
    } else {
        push_escaped(text, source, Escapes::Shown)
    }
}

/// Pushes a valid URL string as a terminal may show it, such that what is copied from there is the same URL: code
/// points that end a line or turn the direction of a text are percent-encoded. If an allocation fails, a prefix of it
/// was pushed.
pub fn push_copied(text: &mut String, source: &str) -> Result<(), AllocError>
    ensures { OnOk result (string_bytes text.new ≡ string_bytes text.old ++ escaped Copied source.now) }
{
    if is_printable_text(source.as_bytes()) {
        text.push_str(source)
    } else {
        push_escaped(text, source, Escapes::Copied)
    }
}

/// Pushes a text with its escapes. If an allocation fails, a prefix of it was pushed.
#[tactic(auto, unfolding(crate::specs::Escaping::Escapes::escaped))]
pub fn push_escaped(text: &mut String, source: &str, escapes: Escapes) -> Result<(), AllocError>
    ensures { OnOk result (string_bytes text.new ≡ string_bytes text.old ++ escaped escapes source.now) }
{
    for c in source.chars() {
        push_escape(text, c, escapes)?;
    }
    Ok(())
}

/// A text with its escapes.
pub fn escaped(alloc: Global, source: &str, escapes: Escapes) -> Result<String, AllocError>
    ensures { IfOk result (λ text. string_bytes text ≡ escaped escapes source.now) }
{
    let mut text = String::new(alloc);
    push_escaped(&mut text, source, escapes)?;
    Ok(text)
}

// Pushes a code point, or what replaces it.
fn push_escape(text: &mut String, c: char, escapes: Escapes) -> Result<(), AllocError>
    ensures { OnOk result (string_bytes text.new ≡ string_bytes text.old ++ escape escapes c) }
{
    match escapes {
        Escapes::Shown => push_or(text, c, shown(c)),
        Escapes::Copied => push_copied_point(text, c),
        Escapes::Message => push_or(text, c, in_message(c)),
        Escapes::Property => push_or(text, c, in_property(c)),
        Escapes::Attribute => push_or(text, c, in_attribute(c)),
    }
}

// Pushes a code point of a URL that is copied from a terminal, or what replaces it.
fn push_copied_point(text: &mut String, c: char) -> Result<(), AllocError>
    ensures { OnOk result (string_bytes text.new ≡ string_bytes text.old ++ spec.copied c) }
{
    if turns_text(c) {
        push_percent_encoded(text, c)
    } else {
        push_or(text, c, shown(c))
    }
}

// Pushes what replaces a code point, if anything does, and otherwise the code point.
fn push_or(text: &mut String, c: char, stand_in: Option<&'static str>) -> Result<(), AllocError>
    ensures { OnOk result (string_bytes text.new
        ≡ string_bytes text.old ++ unwrap_or (option_copied stand_in.entry) (encode_utf8 c)) }
{
    match stand_in {
        Some(stand_in) => text.push_str(stand_in),
        None => text.push(c),
    }
}

// Pushes the escapes of a code point's UTF-8.
#[tactic(auto, unfolding(crate::specs::Escaping::Escapes::percent_encoded))]
fn push_percent_encoded(text: &mut String, c: char) -> Result<(), AllocError>
    ensures { OnOk result (string_bytes text.new ≡ string_bytes text.old ++ spec.percent_encoded c) }
{
    let mut buffer = [0u8; 4];
    push_bytes(text, c.encode_utf8(&mut buffer).as_bytes())
}

// Pushes the escape of each byte.
fn push_bytes(text: &mut String, bytes: &[u8]) -> Result<(), AllocError>
    ensures { OnOk result (string_bytes text.new ≡ string_bytes text.old ++ flat_map percent.percent_encode_byte bytes.now) }
{
    for &byte in bytes {
        text.push_str(percent_encode_byte(byte))?;
    }
    Ok(())
}

// What replaces a code point on a terminal.
fn shown(c: char) -> Option<&'static str>
    ensures { unwrap_or (option_copied result) (encode_utf8 c) ≡ spec.shown c }
{
    if is_hidden(c) { Some("\u{FFFD}") } else { None }
}

/// Whether a code point isn't shown as it is: a control except the tab, a line end, or one that turns a text's
/// direction.
pub fn is_hidden(c: char) -> bool
    ensures { result ≡ spec.is_hidden c }
{
    is_control(c) || turns_text(c)
}

// Whether a code point is a control other than the tab.
#[tactic(auto, using(std::proofs::lemmas::Bool::Decides::nat_tests))]
fn is_control(c: char) -> bool
    ensures { result ≡ spec.is_control c }
{
    match c {
        '\0'..='\u{8}' | '\u{A}'..='\u{1F}' | '\u{7F}'..='\u{9F}' => true,
        _ => false,
    }
}

// Whether a code point turns the direction of a text or ends a line of it.
#[tactic(auto, using(std::proofs::lemmas::Bool::Decides::nat_tests))]
fn turns_text(c: char) -> bool
    ensures { result ≡ spec.turns_text c }
{
    match c {
        '\u{61C}' | '\u{200E}' | '\u{200F}' => true,
        '\u{2028}'..='\u{202E}' | '\u{2066}'..='\u{2069}' => true,
        _ => false,
    }
}

// What replaces a code point in the message of a workflow command, which ends with the line.
#[tactic(auto, using(std::proofs::lemmas::Bool::Decides::nat_tests), unfolding(percent_encoding::specs::Percent::percent_encode_byte))]
fn in_message(c: char) -> Option<&'static str>
    ensures { unwrap_or (option_copied result) (encode_utf8 c) ≡ spec.in_message c }
{
    match c {
        '%' => Some("%25"),
        '\r' => Some("%0D"),
        '\n' => Some("%0A"),
        _ => None,
    }
}

// What replaces a code point in a property of a workflow command, which `:` and `,` end too.
#[tactic(auto, using(std::proofs::lemmas::Bool::Decides::nat_tests), unfolding(percent_encoding::specs::Percent::percent_encode_byte))]
fn in_property(c: char) -> Option<&'static str>
    ensures { unwrap_or (option_copied result) (encode_utf8 c) ≡ spec.in_property c }
{
    match c {
        ':' => Some("%3A"),
        ',' => Some("%2C"),
        _ => in_message(c),
    }
}

// What replaces a code point in an attribute of XML, where some controls can't be at all.
#[tactic(auto, using(std::proofs::lemmas::Bool::Decides::nat_tests))]
fn in_attribute(c: char) -> Option<&'static str>
    ensures { unwrap_or (option_copied result) (encode_utf8 c) ≡ spec.in_attribute c }
{
    match c {
        '&' => Some("&amp;"),
        '<' => Some("&lt;"),
        '>' => Some("&gt;"),
        '"' => Some("&quot;"),
        '\t' => Some("&#9;"),
        '\n' => Some("&#10;"),
        '\r' => Some("&#13;"),
        '\0'..='\u{1F}' | '\u{FFFE}' | '\u{FFFF}' => Some("\u{FFFD}"),
        _ => None,
    }
}
