//! Whether a text is a template, from which a program writes another text. Only this file has the signs of one;
//! docs/FORMATS.md lists them, and a run compares that list with what the program answers.

use crate::sentences::authority::authority_of;
use crate::sentences::marks::Marks;
use crate::sentences::pieces::{after, before, has_piece};
use uv_model::is_name;

/// Whether a text with these marks is a template: it has a sign of one. In code only those signs count that code
/// doesn't have.
pub(crate) fn is_template(text: &str, marks: Marks) -> bool {
    has_sure_sign(text, marks)
        || (has_other_sign(text, marks) && !is_code(before(text, ':')))
        || has_named_authority(authority_of(text))
}

// Whether a scheme is one whose URLs are code.
fn is_code(scheme: &str) -> bool {
    is_name(scheme, "data") || is_name(scheme, "javascript")
}

// Whether a text has a sign that code doesn't have.
fn has_sure_sign(text: &str, marks: Marks) -> bool {
    (marks.has(b'{') && has_sure_brace(text))
        || (marks.has(b'<') && has_sure_tag(text))
        || (marks.has(b'[') && has_both(text, "[%", "%]"))
        || (marks.has(b'|') && has_both(text, "*|", "|*"))
}

// Whether a text has the braces of Jinja, Liquid, Go or Mustache, or of shells and JavaScript.
fn has_sure_brace(text: &str) -> bool {
    has_both(text, "{{", "}}") || has_both(text, "{%", "%}") || has_both(text, "${", "}")
}

// Whether a text has a tag of PHP, ERB, JSP or of what servers include.
fn has_sure_tag(text: &str) -> bool {
    has_piece(text, "<?php")
        || has_piece(text, "<?=")
        || has_piece(text, "<!--#")
        || has_both(text, "<%", "%>")
}

// Whether a text has a mark and the one that closes it.
fn has_both(text: &str, mark: &str, end: &str) -> bool {
    has_piece(text, mark) && has_piece(text, end)
}

// Whether a text has a sign that code may have.
fn has_other_sign(text: &str, marks: Marks) -> bool {
    // (`{"` is JSON's)
    (marks.has(b'{') && !has_piece(text, "{\""))
        || (marks.has(b'%') && has_percent_mark(after(text, '%')))
        || (marks.has(b'$') && has_variable(after(text, '$')))
        || (marks.has(b'<') && has_tag(after(text, '<')))
        || (marks.has(b'[') && has_brackets(text))
        || (marks.has(b'|') && has_bar(text))
        || (marks.has(b'@') && has_at_mark(after(text, '@')))
}

// Whether what follows the first `%` belongs to a template.
fn has_percent_mark(after: &str) -> bool {
    after.split('%').any(|name| is_directive(name))
        || has_piece(after, "%%")
        || (after.as_bytes().contains(&b'%') && after.split('%').any(|name| is_variable(name)))
}

// Whether printf or Python replaces what comes after this `%` with a text.
fn is_directive(after: &str) -> bool {
    match after.as_bytes() {
        [b'(', ..] => true,
        [b's' | b'd', rest @ ..] => !begins_with_alphanumeric(rest),
        _ => false,
    }
}

// Whether a text is a name in capitals that isn't an escape, nor what is left of one.
fn is_variable(name: &str) -> bool {
    name.len() > 1 && begins_with_capital(name) && is_in_capitals(name) && !is_escape(name)
}

// Whether two hex digits begin a text.
fn is_escape(after: &str) -> bool {
    match after.as_bytes() {
        [high, low, ..] => high.is_ascii_hexdigit() && low.is_ascii_hexdigit(),
        _ => false,
    }
}

// Whether what follows the first `$` has the name of a variable in capitals or a command of shells, at its start or
// after another `$`.
fn has_variable(after: &str) -> bool {
    after.split('$').any(|name| begins_variable(name))
}

// Whether what comes after a `$` is the name of a variable in capitals, or a command of shells.
fn begins_variable(name: &str) -> bool {
    begins_with_capital(name) || name.starts_with('(')
}

// Whether what follows the first `<` has a tag, at its start or after another `<`.
fn has_tag(after: &str) -> bool {
    after.split('<').any(|name| is_tag(name))
}

// Whether a text is `%`, or a name and `>`, that no letter or digit follows.
fn is_tag(after: &str) -> bool {
    match after.as_bytes() {
        [b'%', ..] => true,
        [first, ..] => first.is_ascii_alphabetic() && closes(after_name(after)),
        [] => false,
    }
}

// Whether `>` begins a text, and no letter or digit follows it.
fn closes(text: &str) -> bool {
    match text.as_bytes() {
        [b'>', rest @ ..] => !begins_with_alphanumeric(rest),
        _ => false,
    }
}

// Whether a text has a name in brackets, or two brackets at once.
fn has_brackets(text: &str) -> bool {
    after(text, '[').split('[').any(|name| is_closed(name, ']')) || has_both(text, "[[", "]]")
}

// Whether a name in capitals is between the first two `|`, and no letter or digit comes after them, as after the second
// item of a list.
fn has_bar(text: &str) -> bool {
    let name = after(text, '|');
    is_closed(name, '|') && !begins_with_alphanumeric(after(name, '|').as_bytes())
}

// Whether a name in capitals is between the first two `@`, anything between two `@@`, or `@` before a call of Razor:
// this is what follows the first one.
fn has_at_mark(name: &str) -> bool {
    is_closed(name, '@')
        || (name.starts_with('@') && has_piece(after(name, '@'), "@@"))
        || name.split('@').any(|called| is_call(called))
}

// Whether a text is `(`, or names with a capital letter first and `(`.
fn is_call(after: &str) -> bool {
    let names = before(after, '(');
    names.len() < after.len()
        && names.bytes().all(|b| is_byte_of_names(b))
        && (names.is_empty() || begins_with_capital(names))
}

fn is_byte_of_names(b: u8) -> bool {
    b.is_ascii_alphanumeric() || b == b'_' || b == b'.'
}

// Whether `port` is in place of an authority's port, or a name in capitals with `_` in place of its host.
fn has_named_authority(authority: &str) -> bool {
    let (host, port) = authority.split_once(':').unwrap_or((authority, ""));
    is_name(port, "port") || (is_in_capitals(host) && host.as_bytes().contains(&b'_'))
}

// Whether a name in capitals and a mark begin a text.
fn is_closed(after: &str, mark: char) -> bool {
    match after.split_once(mark) {
        Some((name, _)) => begins_with_capital(name) && is_in_capitals(name),
        None => false,
    }
}

/// What follows a name.
pub(crate) fn after_name(text: &str) -> &str {
    let length = text.bytes().take_while(|b| is_name_byte(*b)).count();
    match text.split_at_checked(length) {
        Some((_, rest)) => rest,
        None => text,
    }
}

fn is_name_byte(b: u8) -> bool {
    b.is_ascii_alphanumeric() || b == b'_' || b == b'-'
}

fn is_in_capitals(name: &str) -> bool {
    name.bytes().all(|b| b.is_ascii_uppercase() || b.is_ascii_digit() || b == b'_')
}

fn begins_with_capital(text: &str) -> bool {
    text.starts_with(|c: char| c.is_ascii_uppercase())
}

fn begins_with_alphanumeric(text: &[u8]) -> bool {
    match text {
        [first, ..] => first.is_ascii_alphanumeric(),
        [] => false,
    }
}
