//! What a scheme says of the text that it begins.

use crate::sentences::authority::{before_end, before_query};
use crate::sentences::intention::is_link_scheme;
use crate::sentences::ipv6::has_bare_ipv6;
use crate::sentences::pieces::{before, has_piece};
use uv_model::is_name;

/// What a text shows before its query and fragment, which is the same at each of its places.
#[derive(Clone, Copy)]
pub(crate) struct Start {
    /// Whether its scheme is one that `//` follows in links.
    pub(crate) is_link: bool,
    /// What its scheme requires of what follows it, or nothing.
    pub(crate) note: &'static str,
    /// How many bytes come before the query and the fragment.
    pub(crate) path_end: usize,
    /// Whether the authority, if it has one, is an IPv6 address.
    pub(crate) has_bare_ipv6: bool,
}

/// What a text shows before its query and fragment.
pub(crate) fn start_of(text: &str) -> Start {
    Start {
        is_link: is_link(text),
        note: scheme_note(text),
        path_end: before_query(text).len(),
        has_bare_ipv6: has_bare_ipv6(text),
    }
}

/// Whether a text's scheme is one that `//` follows in links.
pub(crate) fn is_link(text: &str) -> bool {
    is_link_scheme(before(text, ':'))
}

/// What a text's scheme requires of what follows it, if it has a rule of its own, or nothing.
pub(crate) fn scheme_note(text: &str) -> &'static str {
    let scheme = before(text, ':');
    if is_name(scheme, "mailto") {
        return "; write addresses as in mailto:a@example.com";
    }
    if is_name(scheme, "tel") || is_name(scheme, "sms") {
        return "; write a number without spaces, as in tel:+1-555-0100";
    }
    if is_name(scheme, "sip") || is_name(scheme, "sips") || is_name(scheme, "xmpp") {
        return "; write an address as in sip:a@example.com";
    }
    if is_name(scheme, "geo") {
        return "; write coordinates as in geo:48.2,16.3";
    }
    if is_name(scheme, "about") {
        return "; write a page as in about:blank";
    }
    if is_name(scheme, "view-source") {
        return "; mend the link after view-source:";
    }
    ""
}

/// Whether what comes before and after the first `:` of a text is a host and the digits of a port.
pub(crate) fn has_host_as_scheme(host: &str, rest: &str) -> bool {
    (is_name(host, "localhost") || is_dotted_name(host)) && is_number(before_end(rest))
}

// Whether a text is of digits, at least one.
fn is_number(text: &str) -> bool {
    !text.is_empty() && text.bytes().all(|b| b.is_ascii_digit())
}

// Whether a text is a name with a full stop, as most hosts and hardly any scheme have one, with a letter first.
fn is_dotted_name(host: &str) -> bool {
    host.starts_with(|c: char| c.is_ascii_alphabetic())
        && has_piece(host, ".")
        && host
            .bytes()
            .all(|b| b.is_ascii_alphanumeric() || b == b'-' || b == b'.')
}

/// Whether `//` comes after the first `:` of a text, and before it a scheme that is neither `http` nor `https`, and has
/// only their letters, `t` and `p` among them.
pub(crate) fn has_misspelled_scheme(scheme: &str, rest: &str) -> bool {
    rest.starts_with("//")
        && !is_link_scheme(scheme)
        && has_piece(scheme, "t")
        && has_piece(scheme, "p")
        && scheme
            .bytes()
            .all(|b| matches!(b, b'h' | b't' | b'p' | b's'))
}
