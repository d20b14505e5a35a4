//! The sentence on a text without a scheme and without a base: what comes before the scheme, or what is likely
//! missing.

use crate::known_text::KnownText;
use crate::sentences::authority::{before_end, before_query};
use crate::sentences::code_point::{is_unseen, point_name};
use crate::sentences::intention::is_link_scheme;
use crate::sentences::ipv6::is_ipv6;
use crate::sentences::pieces::{after, before, has_piece};
use crate::sentences::wording::Wording;
use std::alloc::{AllocError, Global};
use uv_model::{Rule, first_code_point};

// Endings of file names that domains hardly ever have.
const FILE_ENDINGS: [&str; 24] = [
    "md", "html", "htm", "xhtml", "css", "js", "mjs", "ts", "json", "xml", "yml", "yaml", "toml",
    "csv", "txt", "rst", "pdf", "svg", "png", "jpg", "jpeg", "gif", "webp", "php",
];

/// The sentence on a text without a scheme: what comes before it, or that there is none.
pub(crate) fn start_sentence(alloc: Global, line: &KnownText<'_>) -> Result<String, AllocError> {
    if line.as_str().is_empty() {
        return String::from_str(alloc, "the text is empty");
    }
    match stray_in(line) {
        Some(Stray::Point(c)) => {
            let name = point_name(alloc, c)?;
            let name = name.as_str();
            format!(in alloc; "{name} is before the scheme")
        }
        Some(Stray::Pair(name)) => format!(in alloc; "the link is in {name}"),
        None => String::from_str(alloc, Rule::NoScheme.sentence()),
    }
}

/// What follows the sentence on a text without a scheme: what is likely missing.
pub(crate) fn start_note(
    alloc: Global,
    wording: Wording,
    line: &KnownText<'_>,
) -> Result<String, AllocError> {
    match stray_in(line) {
        Some(Stray::Point(_)) => return String::from_str(alloc, "; leave it out"),
        Some(Stray::Pair(_)) => return String::from_str(alloc, "; leave both of them out"),
        None => {}
    }
    match missing_in(line.as_str()) {
        Some(missing) => missing_note(alloc, wording, line.as_str(), missing),
        None => Ok(String::new(alloc)),
    }
}

// The sentence on what is likely missing in a text.
fn missing_note(
    alloc: Global,
    wording: Wording,
    text: &str,
    missing: Missing,
) -> Result<String, AllocError> {
    let said = match missing {
        Missing::Colon => return colon_note(alloc, text),
        Missing::Mark(c) => return mark_note(alloc, c),
        Missing::Scheme(c) => return scheme_note(alloc, c),
        Missing::Https => return base_note(alloc, wording, "write https: before it"),
        Missing::HttpsOfHost => return base_note(alloc, wording, "write https:// before a host"),
        Missing::Base => return base_note(alloc, wording, ""),
        Missing::LateColon => "; write :// in place of //:",
        Missing::HttpOfHost => "; write http:// before it",
        Missing::Link => "; this looks like Markdown: check the link in it",
        Missing::Markup => "; this looks like HTML: check the link in it",
        Missing::Mailto => "; write mailto: before an address",
        Missing::PathOfSsh => "; this looks like a path of ssh",
    };
    String::from_str(alloc, said)
}

// The sentence on a scheme that `//` follows at once.
fn colon_note(alloc: Global, text: &str) -> Result<String, AllocError> {
    let scheme = before(text, '/');
    format!(in alloc; "; a colon is missing after {scheme}")
}

// The sentence on a code point between a scheme and `//`.
fn mark_note(alloc: Global, c: char) -> Result<String, AllocError> {
    let name = point_name(alloc, c)?;
    let name = name.as_str();
    format!(in alloc; "; {name} is in place of a colon")
}

// The sentence on a code point that is in a scheme, though none may have it.
fn scheme_note(alloc: Global, c: char) -> Result<String, AllocError> {
    let name = point_name(alloc, c)?;
    let name = name.as_str();
    format!(in alloc; "; {name} is not allowed in a scheme")
}

// The sentence on a text that isn't a link by itself: what to write before it, if that is known, or to give a base.
// Who can't give one reads nothing of it.
fn base_note(alloc: Global, wording: Wording, advice: &str) -> Result<String, AllocError> {
    let base = wording.base();
    match (advice.is_empty(), wording == Wording::Silent) {
        (true, true) => String::from_str(alloc, "; write the whole address"),
        (true, false) => format!(in alloc; "; give the address of its page{base}"),
        (false, true) => format!(in alloc; "; {advice}"),
        (false, false) => format!(in alloc; "; {advice}, or give the address of its page{base}"),
    }
}

// What comes before the scheme of a text.
#[derive(Clone, Copy)]
enum Stray {
    // A code point that can't be seen, or that opens a quotation.
    Point(char),
    // What opens a quotation that ends with the text, by the name of both marks.
    Pair(&'static str),
}

// What comes before the scheme: the first code point, if it can't be seen, or opens a quotation of a link.
fn stray_in(line: &KnownText<'_>) -> Option<Stray> {
    let c = line.point_at(0)?;
    if is_unseen(c) {
        return Some(Stray::Point(c));
    }
    if !opens_quotation(c) || !has_scheme(line.rest_at(1)) {
        return None;
    }
    if ends_quotation(line.rest_at(1), c) {
        Some(Stray::Pair(pair_name(c)))
    } else {
        Some(Stray::Point(c))
    }
}

// Whether a text ends with what closes a quotation that a code point opens. Low marks are closed by one of two.
fn ends_quotation(text: &str, c: char) -> bool {
    text.ends_with(closing_of(c)) || (c == '\u{201E}' && text.ends_with('\u{201D}'))
}

// What closes a quotation that a code point opens.
fn closing_of(c: char) -> char {
    match c {
        '(' => ')',
        '<' => '>',
        '[' => ']',
        '\u{AB}' => '\u{BB}',
        '\u{BB}' => '\u{AB}',
        '\u{2018}' => '\u{2019}',
        '\u{201A}' => '\u{2018}',
        '\u{201C}' => '\u{201D}',
        '\u{201E}' => '\u{201C}',
        _ => c,
    }
}

// What the two marks of such a quotation are called.
fn pair_name(c: char) -> &'static str {
    match c {
        '(' => "parentheses",
        '<' => "angle brackets",
        '[' => "square brackets",
        '`' => "backticks",
        '*' => "asterisks",
        '_' => "underscores",
        _ => "quotation marks",
    }
}

// Whether people put links after a code point: a quotation mark, an apostrophe, a bracket, or a mark of Markdown.
fn opens_quotation(c: char) -> bool {
    match c {
        '"' | '\'' | '(' | '<' | '[' | '`' | '*' | '_' | '\u{AB}' | '\u{BB}' => true,
        '\u{2018}' | '\u{201A}' | '\u{201C}' | '\u{201E}' => true,
        _ => false,
    }
}

// Whether a text begins with a scheme and its `:`.
fn has_scheme(text: &str) -> bool {
    let scheme = before(text, ':');
    scheme.len() < text.len()
        && scheme.starts_with(|c: char| c.is_ascii_alphabetic())
        && scheme.bytes().all(|b| is_scheme_byte(b))
}

fn is_scheme_byte(b: u8) -> bool {
    b.is_ascii_alphanumeric() || b == b'+' || b == b'-' || b == b'.'
}

// What is likely missing in a text.
#[derive(Clone, Copy)]
enum Missing {
    Colon,
    LateColon,
    // This code point is written in place of the colon.
    Mark(char),
    // This code point is in what is before `://`.
    Scheme(char),
    Https,
    HttpsOfHost,
    HttpOfHost,
    Base,
    Link,
    // This is an attribute of HTML.
    Markup,
    Mailto,
    PathOfSsh,
}

// What is likely missing in a text without a scheme, or before it.
fn missing_in(text: &str) -> Option<Missing> {
    if let Some(missing) = missing_after_scheme(text) {
        return Some(missing);
    }
    if text.starts_with("//") {
        return Some(Missing::Https);
    }
    if is_markdown(text) {
        return Some(Missing::Link);
    }
    if is_attribute(text) {
        return Some(Missing::Markup);
    }
    match foreign_in_scheme(text) {
        Some(c) => Some(Missing::Scheme(c)),
        None => missing_before(text, before_end(text)),
    }
}

// What is likely missing before a text that has no scheme.
fn missing_before(text: &str, head: &str) -> Option<Missing> {
    if is_user(before(head, '@')) && is_like_host(before(after(head, '@'), ':')) {
        return if has_piece(head, ":") {
            Some(Missing::PathOfSsh)
        } else {
            Some(Missing::Mailto)
        };
    }
    if is_like_host(head) && !is_like_file(before_query(text)) {
        return Some(Missing::HttpsOfHost);
    }
    if is_local_host(head) {
        return Some(Missing::HttpOfHost);
    }
    if is_like_host(head)
        || text.starts_with(|c: char| begins_reference(c))
        || has_file_ending(before_query(text))
    {
        return Some(Missing::Base);
    }
    None
}

// What is likely wrong between the scheme of a link and the `//` after it.
fn missing_after_scheme(text: &str) -> Option<Missing> {
    let length = text.bytes().take_while(|b| b.is_ascii_alphabetic()).count();
    let (scheme, rest) = text.split_at_checked(length)?;
    if !is_link_scheme(scheme) {
        return None;
    }
    if rest.starts_with("//:") {
        return Some(Missing::LateColon);
    }
    if rest.starts_with("//") {
        return Some(Missing::Colon);
    }
    let (c, rest) = first_code_point(rest)?;
    if rest.starts_with("//") {
        Some(Missing::Mark(c))
    } else {
        None
    }
}

// Whether a text begins as a link, a picture or a strong text of Markdown.
fn is_markdown(text: &str) -> bool {
    (has_piece(text, "](") && (text.starts_with('[') || text.starts_with("![")))
        || text.starts_with("**")
}

// Whether a text is an attribute of HTML: a name in lower case, `=` and a quotation mark.
fn is_attribute(text: &str) -> bool {
    let name = before(text, '=');
    let value = after(text, '=');
    !name.is_empty()
        && name.bytes().all(|b| b.is_ascii_lowercase() || b == b'-')
        && (value.starts_with('"') || value.starts_with('\''))
}

// The first code point that no scheme may have, if a letter begins the text and `://` comes after it. If it is
// `/`, `?` or `#`, the text isn't one with a scheme.
fn foreign_in_scheme(text: &str) -> Option<char> {
    let scheme = before(text, ':');
    let foreign = scheme.chars().find(|c| !is_scheme_point(*c))?;
    let is_scheme = scheme.starts_with(|c: char| c.is_ascii_alphabetic())
        && after(text, ':').starts_with("//")
        && !matches!(foreign, '/' | '?' | '#');
    if is_scheme { Some(foreign) } else { None }
}

// Whether a scheme may have a code point.
fn is_scheme_point(c: char) -> bool {
    c.is_ascii_alphanumeric() || c == '+' || c == '-' || c == '.'
}

// Whether a host, with a port or without, is likely one of this computer: `localhost`, four numbers or an IPv6 address.
fn is_local_host(head: &str) -> bool {
    let host = before(head, ':');
    let port = after(head, ':');
    (host == "localhost" || (is_like_host(host) && !port.is_empty()) || is_in_brackets(head))
        && (head.starts_with('[') || port.bytes().all(|b| b.is_ascii_digit()))
}

// Whether a host begins with an IPv6 address in brackets.
fn is_in_brackets(head: &str) -> bool {
    head.starts_with('[') && is_ipv6(before(after(head, '['), ']'))
}

// Whether texts that are read against a base begin with a code point.
fn begins_reference(c: char) -> bool {
    c == '.' || c == '/' || c == '#' || c == '?'
}

// Whether a text looks like the name of a user: letters, digits and marks of names.
fn is_user(name: &str) -> bool {
    !name.is_empty() && name.bytes().all(|b| is_scheme_byte(b) || b == b'_')
}

// Whether a text looks like a domain: letters, digits, `-` and `.`, with a letter or a digit first.
fn is_like_host(host: &str) -> bool {
    host.starts_with(|c: char| c.is_ascii_alphanumeric())
        && has_piece(host, ".")
        && host
            .bytes()
            .all(|b| b.is_ascii_alphanumeric() || b == b'-' || b == b'.')
}

// Whether a text that looks like a domain is more likely the name of a file, or of a version: by what comes after its
// last `.`.
fn is_like_file(name: &str) -> bool {
    let ending = name.rsplit('.').next().unwrap_or("");
    !name.starts_with("www.")
        && !has_piece(name, "/")
        && (has_file_ending(name)
            || (ending.starts_with(|c: char| c.is_ascii_digit()) && name.split('.').count() != 4))
}

// Whether the name of a file ends as few domains do.
fn has_file_ending(name: &str) -> bool {
    let ending = name.rsplit('.').next().unwrap_or("");
    FILE_ENDINGS.iter().any(|known| *known == ending)
}
