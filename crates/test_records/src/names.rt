//! Names: of schemes, of rules, and domains that end in a number.

use uv_model::{Class, Rule, class_of, default_port, ends_in_number};

// Whether a scheme is of this class, with this default port.
fn is_scheme(scheme: &str, class: Class, port: Option<u16>) -> bool {
    class_of(scheme) == class && default_port(scheme) == port
}

// The table of section 4.2 of the URL Standard, and schemes that it doesn't have.
#[test]
fn knows_the_special_schemes(rt: HostRuntime) {
    for (scheme, port) in [
        ("ftp", 21),
        ("http", 80),
        ("HTTPS", 443),
        ("ws", 80),
        ("wSs", 443),
    ] {
        assert!(rt; is_scheme(scheme, Class::SpecialNotFile, Some(port)));
    }
    for scheme in ["file", "FiLe"] {
        assert!(rt; is_scheme(scheme, Class::File, None));
    }
    for scheme in ["", "foo", "https2", "htt", "\u{212A}"] {
        assert!(rt; is_scheme(scheme, Class::Other, None));
    }
}

// Whether the rule with this number has this name.
fn is_name(name: &str, number: usize) -> bool {
    match Rule::of_name(name) {
        Some(rule) => usize::from(rule.number()) == number && rule.name() == name,
        None => false,
    }
}

#[test]
fn finds_each_rule_by_its_name(rt: HostRuntime) {
    let names = [
        "no-scheme",
        "opaque-base",
        "two-slashes",
        "host-missing",
        "host-domain",
        "host-number",
        "host-ipv6",
        "host-code-point",
        "port-digit",
        "port-range",
        "first-segment-empty",
        "drive-after-host",
        "code-point",
        "percent",
    ];
    for (at, name) in names.iter().enumerate() {
        assert!(rt; is_name(name, at + 1));
    }
}

#[test]
fn finds_no_rule_by_another_text(rt: HostRuntime) {
    for text in [
        "",
        "none",
        "percen",
        "percents",
        "Percent",
        "code_point",
        " percent",
    ] {
        assert!(rt; Rule::of_name(text).is_none());
    }
}

/// By hand from the ends-in-a-number checker (URL Standard, section 3.5), with `0x` in lower case as a form has it.
#[test]
fn finds_numbers(rt: HostRuntime) {
    for (text, ends) in [
        ("1.2.3", true),
        ("a.1.", true),
        ("\u{E9}.1", true),
        ("0x", true),
        ("a.0x1F", true),
        ("", false),
        (".", false),
        ("1.a", false),
        ("a.1..", false),
        ("a.0xg", false),
        ("a.0X1F", false),
        ("\u{FF11}", false),
    ] {
        assert!(rt; ends_in_number(text) == ends);
    }
}
