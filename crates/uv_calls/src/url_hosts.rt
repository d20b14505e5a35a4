//! Whether a host may be in a record, by the class of the scheme (URL Standard, section 4.1).
ghost use Rattle.std.specs.List.{list_all};
ghost use Rattle.std.specs.Prelude.{◌≡◌, ◌↔◌, IsTrue, not, option_copied};
ghost use Rattle.uv_model.specs.Hosts.Address.{IsAddress};
ghost use Rattle.uv_model.specs.Hosts.Domain.{is_form_code_point};
ghost use Rattle.uv_model.specs.Hosts.OpaqueHost.{is_forbidden_host};
ghost use Rattle.uv_model.specs.Records.WellFormed.{IsFileHost, IsOtherHost, IsSpecialHost, IsUrlDomain, IsUrlHost};
ghost use Rattle.uv_model.specs.Records.WellFormed.{IsUrlOpaqueHost};

use crate::ascii_units::is_ascii_units;
use uv_model::{Class, Host, Profile, Text, ends_in_number, is_domain_mark};

/// Whether a URL of this class may have the host, or be without one.
pub fn is_url_host(class: Class, host: Option<&Host>, profile: Profile) -> bool
    ensures { IsTrue result ↔ IsUrlHost profile class (option_copied host.entry) }
{
    match class {
        Class::SpecialNotFile => is_special_host(host, profile),
        Class::File => is_file_host(host, profile),
        Class::Other => is_other_host(host),
    }
}

// The host of a special URL other than a file URL: a domain or an address.
fn is_special_host(host: Option<&Host>, profile: Profile) -> bool
    ensures { IsTrue result ↔ IsSpecialHost profile (option_copied host.entry) }
{
    match host {
        Some(Host::Domain(form)) => is_url_domain(form, profile),
        Some(Host::V4(value)) => is_ipv4_address(*value),
        Some(Host::V6(pieces)) => is_ipv6_address(*pieces),
        Some(Host::Opaque(_)) => false,
        Some(Host::Empty) => false,
        None => false,
    }
}

// The host of a file URL: it may be empty, and isn't `localhost`, which the parser makes empty.
fn is_file_host(host: Option<&Host>, profile: Profile) -> bool
    ensures { IsTrue result ↔ IsFileHost profile (option_copied host.entry) }
{
    match host {
        Some(Host::Domain(form)) => {
            if form.as_str() == "localhost" {
                return false;
            }
            is_url_domain(form, profile)
        }
        Some(Host::V4(value)) => is_ipv4_address(*value),
        Some(Host::V6(pieces)) => is_ipv6_address(*pieces),
        Some(Host::Opaque(_)) => false,
        Some(Host::Empty) => true,
        None => false,
    }
}

// The host of a URL that isn't special: opaque, empty, an IPv6 address, or none.
fn is_other_host(host: Option<&Host>) -> bool
    ensures { IsTrue result ↔ IsOtherHost (option_copied host.entry) }
{
    match host {
        Some(Host::Domain(_)) => false,
        Some(Host::V4(_)) => false,
        Some(Host::V6(pieces)) => is_ipv6_address(*pieces),
        Some(Host::Opaque(text)) => is_url_opaque_host(text),
        Some(Host::Empty) => true,
        None => true,
    }
}

// Each value of 32 bits is an IPv4 address.
fn is_ipv4_address(value: u32) -> bool
    ensures { IsTrue result ↔ IsAddress (Host.V4 value) }
{
    true
}

// Any eight pieces of 16 bits are an IPv6 address.
fn is_ipv6_address(pieces: [u16; 8]) -> bool
    ensures { IsTrue result ↔ IsAddress (Host.V6 pieces) }
{
    true
}

// A form that isn't empty, doesn't end in a number and holds only what the profile permits.
fn is_url_domain(form: &Text, profile: Profile) -> bool
    ensures { IsTrue result ↔ IsUrlDomain profile form.now }
{
    let text = form.as_str();
    if text.is_empty() {
        return false;
    }
    if ends_in_number(text) {
        return false;
    }
    has_form_bytes(text.as_bytes(), profile)
}

// ASCII URL units without a forbidden host code point, and at least one.
fn is_url_opaque_host(text: &Text) -> bool
    ensures { IsTrue result ↔ IsUrlOpaqueHost text.now }
{
    let bytes = text.as_str().as_bytes();
    if bytes.is_empty() {
        return false;
    }
    if !is_ascii_units(bytes) {
        return false;
    }
    has_permitted_bytes(bytes)
}

// Lower-case letters, digits and the marks that the profile permits in a domain.
fn has_form_bytes(text: &[u8], profile: Profile) -> bool
    ensures { result ≡ list_all (is_form_code_point profile) text.now }
{
    text.iter().all(|byte| byte.is_ascii_lowercase()
        || byte.is_ascii_digit()
        || is_domain_mark(char::from(*byte), profile))
}

// No forbidden host code point (URL Standard, section 3.2).
fn has_permitted_bytes(text: &[u8]) -> bool
    ensures { result ≡ list_all (λ c. not (is_forbidden_host c)) text.now }
{
    text.iter().all(|byte| !is_forbidden_byte(*byte))
}

#[tactic(auto, using(std::proofs::lemmas::Bool::Decides::nat_tests))]
fn is_forbidden_byte(byte: u8) -> bool
    ensures { result ≡ is_forbidden_host byte }
{
    match byte {
        0 | 9 | 10 | 13 | b' ' | b'#' | b'/' | b':' | b'<' => true,
        b'>' | b'?' | b'@' | b'[' | b'\\' | b']' | b'^' | b'|' => true,
        _ => false,
    }
}
