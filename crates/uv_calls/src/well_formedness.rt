//! Whether parts make a well-formed record, field by field (URL Standard, section 4.1).
ghost use Rattle.std.specs.Char.{is_ascii_uppercase};
ghost use Rattle.std.specs.List.{list_all};
ghost use Rattle.std.specs.Prelude.{◌≡◌, ◌↔◌, IsTrue, Option, not, option_copied};
ghost use Rattle.uv_model.specs.Scheme.{default_port, is_scheme, is_scheme_code_point, scheme_class};
ghost use Rattle.uv_model.specs.Valid.{is_default_port};
ghost use Rattle.uv_model.specs.Records.WellFormed.{IsUrlFragment, IsUrlPort, IsUrlQuery, IsUrlScheme, WellFormed};
ghost use Rattle.uv_model.specs.Records.WellFormed.{takes_port};

use crate::ascii_units::{is_ascii_units, is_without};
use crate::url_hosts::is_url_host;
use crate::url_paths::is_url_path;
use uv_model::{Class, Host, Profile, UrlPath, class_of, default_port};

/// Whether these parts make a record that is well formed under the profile. Parts that are well formed under the wide
/// one may be given to `Record::make`. A text that isn't ASCII isn't well formed. It takes no memory.
pub fn well_formed(
    scheme: &str,
    host: Option<&Host>,
    port: Option<u16>,
    path: &UrlPath,
    query: Option<&str>,
    fragment: Option<&str>,
    profile: Profile,
) -> bool
    ensures { IsTrue result ↔ WellFormed profile (record {
      scheme = scheme.now;
      host = option_copied host.entry;
      port = port;
      path = path.now;
      query = option_copied query.entry;
      fragment = option_copied fragment.entry;
    }) }
{
    if !is_url_scheme(scheme) {
        return false;
    }
    let class = class_of_url_scheme(scheme);
    if !is_url_host(class, host, profile) {
        return false;
    }
    if !is_url_port(scheme, host, port) {
        return false;
    }
    if !is_url_path(class, host, path, profile) {
        return false;
    }
    if !is_url_query(class, query) {
        return false;
    }
    is_url_fragment(fragment)
}

// A URL-scheme string in lower case, as the parser keeps it.
fn is_url_scheme(scheme: &str) -> bool
    ensures { IsTrue result ↔ IsUrlScheme scheme.now }
{
    let bytes = scheme.as_bytes();
    if !is_scheme(bytes) {
        return false;
    }
    has_no_uppercase(bytes)
}

// A URL-scheme string (URL Standard, section 4.3).
fn is_scheme(text: &[u8]) -> bool
    ensures { result ≡ is_scheme text.now }
{
    match text {
        [first, rest @ ..] => first.is_ascii_alphabetic() && has_scheme_bytes(rest),
        [] => false,
    }
}

fn has_scheme_bytes(text: &[u8]) -> bool
    ensures { result ≡ list_all is_scheme_code_point text.now }
{
    text.iter().all(|byte| byte.is_ascii_alphanumeric()
        || *byte == b'+'
        || *byte == b'-'
        || *byte == b'.')
}

fn has_no_uppercase(text: &[u8]) -> bool
    ensures { result ≡ list_all (λ c. not (is_ascii_uppercase c)) text.now }
{
    text.iter().all(|byte| !byte.is_ascii_uppercase())
}

// The class of a scheme that is known to be in lower case.
fn class_of_url_scheme(scheme: &str) -> Class
    requires { IsUrlScheme scheme.now }
    ensures { result ≡ scheme_class scheme.now }
{
    class_of(scheme)
}

// The default port of a scheme that is known to be in lower case.
fn default_port_of_url_scheme(scheme: &str) -> Option<u16>
    requires { IsUrlScheme scheme.now }
    ensures { result ≡ default_port scheme.now }
{
    default_port(scheme)
}

// Whether a URL may have the port: it isn't the scheme's default, which the parser drops.
fn is_url_port(scheme: &str, host: Option<&Host>, port: Option<u16>) -> bool
    requires { IsUrlScheme scheme.now }
    ensures { IsTrue result ↔ IsUrlPort scheme.now (option_copied host.entry) port }
{
    match port {
        None => true,
        Some(port) => {
            if !takes_port(class_of_url_scheme(scheme), host) {
                return false;
            }
            !is_default_port(scheme, port)
        }
    }
}

// A port may come only after a host that isn't empty, in a URL whose scheme isn't `file`.
fn takes_port(class: Class, host: Option<&Host>) -> bool
    ensures { result ≡ takes_port class (option_copied host.entry) }
{
    match class {
        Class::File => false,
        Class::SpecialNotFile | Class::Other => match host {
            None | Some(Host::Empty) => false,
            Some(_) => true,
        },
    }
}

// Whether a port is the scheme's default.
fn is_default_port(scheme: &str, port: u16) -> bool
    requires { IsUrlScheme scheme.now }
    ensures { result ≡ is_default_port scheme.now port }
{
    match default_port_of_url_scheme(scheme) {
        None => false,
        Some(default) => port == default,
    }
}

// ASCII URL units. A special URL has no `'` in its query, since the parser encodes it there.
fn is_url_query(class: Class, query: Option<&str>) -> bool
    ensures { IsTrue result ↔ IsUrlQuery class (option_copied query.entry) }
{
    match query {
        None => true,
        Some(query) => {
            let bytes = query.as_bytes();
            if !is_ascii_units(bytes) {
                return false;
            }
            match class {
                Class::Other => true,
                Class::SpecialNotFile | Class::File => is_without(b'\'', bytes),
            }
        }
    }
}

// ASCII URL units.
fn is_url_fragment(fragment: Option<&str>) -> bool
    ensures { IsTrue result ↔ IsUrlFragment (option_copied fragment.entry) }
{
    match fragment {
        None => true,
        Some(fragment) => is_ascii_units(fragment.as_bytes()),
    }
}
