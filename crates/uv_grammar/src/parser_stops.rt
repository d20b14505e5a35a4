//! Hosts of special and file URLs at which the URL parser stops before its host parser reads them (URL Standard,
//! section 4.4): under the parser's profile they are refused. Under the other profiles no such text is a host anyway.
ghost use Rattle.std.specs.List.{list_any};
ghost use Rattle.std.specs.Prelude.{◌≡◌};
ghost use Rattle.std.specs.Str.{chars};
ghost use Rattle.uv_model.specs.Hosts.StoppedHost as spec;
ghost use Rattle.uv_model.specs.Path as path_spec;
ghost use Rattle.uv_model.specs.Removed.{is_tab_or_newline};

use uv_model::{Class, Profile, first_code_point};

/// Whether the parser stops at the host text. Nothing of the whole text follows the host where `last` says so.
pub(crate) fn is_stopped(text: &str, class: Class, last: bool, profile: Profile) -> bool
    ensures { result ≡ spec.is_stopped profile class last (chars text.now) }
{
    match (profile, class) {
        (Profile::Standard | Profile::Wide, _) => false,
        (Profile::Parser, Class::SpecialNotFile) => has_stop(text, class, last),
        (Profile::Parser, Class::File) => is_drive(text) || has_stop(text, class, last),
        (Profile::Parser, Class::Other) => false,
    }
}

// A Windows drive letter.
fn is_drive(text: &str) -> bool
    ensures { result ≡ path_spec.is_drive_letter (chars text.now) }
{
    let Some((letter, after)) = first_code_point(text) else {
        return false;
    };
    match first_code_point(after) {
        Some((mark, rest)) => letter.is_ascii_alphabetic()
            && ((mark == ':' || mark == '|') && first_code_point(rest).is_none()),
        None => false,
    }
}

fn has_stop(text: &str, class: Class, last: bool) -> bool
    ensures { result ≡ spec.has_stop class last (chars text.now) }
{
    holds_stopping(text, class) || (last && ends_with_control(text))
}

fn holds_stopping(text: &str, class: Class) -> bool
    ensures { result ≡ list_any (spec.is_stopping class) (chars text.now) }
{
    text.chars().any(|c| is_stopping(c, class))
}

// A code point that stops the parser within a host.
fn is_stopping(c: char, class: Class) -> bool
    ensures { result ≡ spec.is_stopping class c }
{
    match class {
        Class::SpecialNotFile => c == '@' || c == '\\' || is_tab_or_newline(c),
        Class::File | Class::Other => c == '\\' || is_tab_or_newline(c),
    }
}

fn is_tab_or_newline(c: char) -> bool
    ensures { result ≡ is_tab_or_newline c }
{
    c == '\t' || c == '\n' || c == '\r'
}

// The last code point is a C0 control or a space.
fn ends_with_control(text: &str) -> bool
    ensures { result ≡ spec.ends_with_control (chars text.now) }
{
    let mut left = text;
    let mut ends = false;
    while let Some((c, after)) = first_code_point(left) {
        ends = c <= ' ';
        left = after;
    }
    ends
}
