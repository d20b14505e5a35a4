//! What the author of a refused text likely meant, if that isn't what the text is mended to. It is a judgement, which
//! no clause fixes: tests/runs/sentences.cases.sh has a row for each sign.

use crate::known_text::KnownText;
use crate::sentences::authority::{authority_of, before_query};
use crate::sentences::drive::{has_barred_drive, without_slash};
use crate::sentences::marks::Marks;
use crate::sentences::pieces::{after, before, has_piece};
use crate::sentences::scheme::{has_host_as_scheme, has_misspelled_scheme};
use crate::sentences::template::{after_name, is_template};
use uv_model::{Class, class_of, is_name};

/// What the author of a refused text likely meant, by the text alone.
#[derive(Clone, Copy)]
pub(crate) enum Intention {
    /// A line of HTML, as in `<p>text</p>`.
    Markup,
    /// A template, from which a program writes another text, as in `http://h/{id}`.
    Template,
    /// A path of Windows: the text begins with a letter, `:` and `\` or `/`, or with `\\`.
    WindowsPath,
    /// A drive letter: a letter and `|` are the first segment of a `file` link, as in `file:///C|/x`.
    DriveLetter,
    /// Only one URL: one scheme comes after another, as in `http://http://h/`.
    TwoSchemes,
    /// A host and its port without a scheme, as in `localhost:8080/a b`.
    HostAsScheme,
    /// The scheme `http` or `https`, which is misspelled, as in `htp://h/a b`.
    Misspelled,
    /// A link after something else and a space, as in `https://a/ https://b/`.
    LaterLink,
    /// A link with text after it, as in `https://a/ and more`.
    LaterText,
    /// A code point as JavaScript's `escape` writes it: the text has `%u` and a hex digit.
    OldEscape,
    /// An escape of two hex digits, of which one is there, as in `http://h/Caf%C3%A`.
    CutEscape,
}

// All of them, in the order in which they are looked for: first a text that isn't a link at all, then what the scheme
// shows, then what comes after it.
const INTENTIONS: [Intention; 11] = [
    Intention::Markup,
    Intention::Template,
    Intention::WindowsPath,
    Intention::DriveLetter,
    Intention::TwoSchemes,
    Intention::HostAsScheme,
    Intention::Misspelled,
    Intention::LaterLink,
    Intention::LaterText,
    Intention::OldEscape,
    Intention::CutEscape,
];

impl Intention {
    // Whether a text shows it that has these marks, and its first `:` between these two texts.
    fn is_shown_by(self, text: &str, marks: Marks, scheme: &str, rest: &str) -> bool {
        match self {
            Intention::Markup => is_markup(text),
            Intention::Template => is_template(text, marks),
            Intention::WindowsPath => is_windows_path(text.as_bytes()),
            Intention::DriveLetter => marks.has(b'|') && has_barred_drive(text),
            Intention::TwoSchemes => has_two_schemes(scheme, rest),
            Intention::HostAsScheme => has_host_as_scheme(scheme, rest),
            Intention::Misspelled => has_misspelled_scheme(scheme, rest),
            Intention::LaterLink => marks.has(b' ') && has_later_link(text),
            Intention::LaterText => marks.has(b' ') && has_later_text(text),
            Intention::OldEscape => marks.has(b'%') && has_old_escape(after(text, '%')),
            Intention::CutEscape => marks.has(b'%') && has_cut_escape(after(text, '%')),
        }
    }

    /// The note on it, after what is wrong; `None` if the rule says more.
    pub(crate) fn note(self) -> Option<&'static str> {
        match self {
            Intention::Markup => Some("; this looks like HTML: check the links in it"),
            Intention::Template => Some("; this looks like a template: check what it makes"),
            Intention::WindowsPath => {
                Some("; this looks like a path of Windows, whose URL begins with file:///")
            }
            Intention::DriveLetter => Some("; a drive letter is written with :"),
            Intention::TwoSchemes => Some("; this has two schemes: write one of them"),
            Intention::HostAsScheme => {
                Some("; what is before : is read as a scheme: write http:// before a host")
            }
            Intention::Misspelled => Some("; perhaps http or https is meant"),
            Intention::LaterLink => Some("; a link begins after a space: write it by itself"),
            Intention::LaterText => {
                Some("; this looks like text after a link: write the link by itself")
            }
            Intention::OldEscape => Some("; %u isn't an escape of URLs: write those of UTF-8"),
            Intention::CutEscape => None,
        }
    }
}

/// What a text by itself shows.
pub(crate) fn shown_intention(text: &str) -> Option<Intention> {
    let marks = Marks::of(text);
    let (scheme, rest) = text.split_once(':').unwrap_or((text, ""));
    INTENTIONS
        .iter()
        .find(|intention| intention.is_shown_by(text, marks, scheme, rest))
        .copied()
}

/// Whether a mended text is offered in place of a refused one: nothing suggests that something else was meant.
pub fn is_offered(text: &KnownText<'_>, mended: &str) -> bool {
    text.shown_intention().is_none() && !is_another(text.as_str(), mended)
}

/// Whether the message on a refused text says what to write in its place: one of two schemes, or the link after a
/// space. A mended text, which has all of it, would only mislead.
pub fn is_named(text: &KnownText<'_>) -> bool {
    matches!(
        text.shown_intention(),
        Some(Intention::TwoSchemes | Intention::LaterLink)
    )
}

// Whether a mended text means something else than what it was made of: it has another path, which keeps the `//` or the
// drive letter that it begins with by a segment `.`; another address; or a path or a topic that the rules of its scheme
// don't accept.
fn is_another(text: &str, mended: &str) -> bool {
    let scheme = before(mended, ':');
    has_other_address(text, mended)
        || (is_ruled(scheme) && !has_piece(text, before_query(mended)))
        || (is_name(scheme, "magnet") && has_other_topic(text, mended))
        || (has_piece(mended, "/./") && !has_piece(text, "/./"))
}

// Whether a text begins with `<`, and has a space after the name there, or `</` anywhere.
fn is_markup(text: &str) -> bool {
    match text.strip_prefix('<') {
        Some(rest) => after_name(rest).starts_with(' ') || has_piece(text, "</"),
        None => false,
    }
}

// Whether a text begins with a drive letter, `:` and `\` or `/`, or with the `\\` before the name of a server.
fn is_windows_path(text: &[u8]) -> bool {
    match text {
        [b'\\', b'\\', _, ..] => true,
        [letter, b':', b'\\' | b'/', ..] => letter.is_ascii_alphabetic(),
        _ => false,
    }
}

// Whether what comes before the first `:` of a text is a scheme that `//` follows in links, and a link begins after it
// and up to two slashes.
fn has_two_schemes(scheme: &str, rest: &str) -> bool {
    begins_link(without_slash(without_slash(rest))) && is_link_scheme(scheme)
}

// Whether a text begins with such a scheme and then `://`, or only `//`.
fn begins_link(text: &str) -> bool {
    match text.split_once('/') {
        Some((front, rest)) => {
            rest.starts_with('/') && is_link_scheme(front.strip_suffix(':').unwrap_or(front))
        }
        None => false,
    }
}

// Whether a space that isn't the first code point is before the beginning of a link.
fn has_later_link(text: &str) -> bool {
    !text.starts_with(' ')
        && (has_piece(text, " http://") || has_piece(text, " https://") || has_piece(text, " www."))
}

// Whether a link that may well be whole comes before the first space, and at least two words after it. A `/` among
// them, or a `.` before their end, is more likely one of the link.
fn has_later_text(text: &str) -> bool {
    let words = after(text, ' ');
    let words = words.strip_suffix('.').unwrap_or(words);
    is_likely_whole(before(text, ' '))
        && words.split(' ').filter(|word| !word.is_empty()).count() > 1
        && !has_piece(words, "/")
        && !has_piece(words, ".")
}

// Whether a text is a link without a query and a fragment that ends with a slash, the name of a host or of a page.
fn is_likely_whole(text: &str) -> bool {
    let host = after(after(text, '/'), '/');
    is_link_scheme(before(text, ':'))
        && before_query(text).len() == text.len()
        && (text.ends_with('/')
            || (has_piece(host, ".") && !has_piece(host, "/"))
            || PAGE_ENDINGS.iter().any(|ending| text.ends_with(*ending)))
}

// Whether what follows the first `%` has the rest of an old escape, at its start or after another `%`.
fn has_old_escape(after: &str) -> bool {
    after.split('%').any(|rest| is_old_escape(rest))
}

// Whether what follows the first `%` has the rest of a cut escape, at its start or after another `%`.
fn has_cut_escape(after: &str) -> bool {
    after.split('%').any(|rest| is_cut_escape(rest))
}

// Whether `u` and a hex digit follow a `%`.
fn is_old_escape(rest: &str) -> bool {
    match rest.as_bytes() {
        [b'u', digit, ..] => digit.is_ascii_hexdigit(),
        _ => false,
    }
}

// Whether only a hex digit is between a `%` and the next one.
fn is_cut_escape(rest: &str) -> bool {
    match rest.as_bytes() {
        [digit] => digit.is_ascii_hexdigit(),
        _ => false,
    }
}

// Whether the mended text's host is an IPv4 address that isn't in the text: a number was read as octal or as hex, or
// one number as several.
fn has_other_address(text: &str, mended: &str) -> bool {
    let host = before(authority_of(mended), ':');
    host.starts_with(|c: char| c.is_ascii_digit())
        && host.bytes().all(|b| b.is_ascii_digit() || b == b'.')
        && !has_piece(text, host)
}

// Whether the mended text is a link to a topic that isn't in the text.
fn has_other_topic(text: &str, mended: &str) -> bool {
    match mended.split_once("xt=") {
        Some((_, rest)) => !has_piece(text, before(rest, '&')),
        None => false,
    }
}

// With what the names of pages end.
const PAGE_ENDINGS: [&str; 4] = [".html", ".htm", ".pdf", ".php"];

// The schemes with rules of their own for paths.
const RULED: [&str; 10] = [
    "mailto",
    "tel",
    "sms",
    "sip",
    "sips",
    "xmpp",
    "geo",
    "about",
    "view-source",
    "urn",
];

fn is_ruled(scheme: &str) -> bool {
    RULED.iter().any(|name| scheme.eq_ignore_ascii_case(name))
}

/// Whether a text is a scheme that `//` follows in links.
pub(crate) fn is_link_scheme(text: &str) -> bool {
    match class_of(text) {
        Class::SpecialNotFile | Class::File => true,
        Class::Other => false,
    }
}
