//! Rows of records that are well formed and of records that aren't, by the rules of section 4.1 of the URL Standard.

use crate::ascii_texts::ascii;
use crate::texts::segments;
use std::alloc::{AllocError, Global};
use uv_calls::well_formed;
use uv_model::{Host, Profile, UrlPath};

// A scheme, a port, and whether a record with them is well formed.
type Row = (&'static str, Option<u16>, bool);

// Whether each profile gives this verdict on a record with this scheme, host, port and path, and nothing else.
fn are_checked(
    scheme: &str,
    host: Option<&Host>,
    port: Option<u16>,
    path: &UrlPath,
    want: bool,
) -> bool {
    for profile in Profile::in_order() {
        if well_formed(scheme, host, port, path, None, None, profile) != want {
            return false;
        }
    }
    true
}

// Whether each row holds of a record with this host, and a path of one segment.
fn hold(alloc: Global, host: Option<&Host>, rows: &[Row]) -> Result<bool, AllocError> {
    let path = segments(alloc, "/a")?;
    for (scheme, port, want) in rows {
        if !are_checked(scheme, host, *port, &path, *want) {
            return Ok(false);
        }
    }
    Ok(true)
}

// Whether each row holds of a record with this domain, and a path of one segment.
fn hold_of_domain(alloc: Global, domain: &str, rows: &[Row]) -> Result<bool, AllocError> {
    hold(alloc, Some(&Host::Domain(ascii(alloc, domain)?)), rows)
}

// Whether each row holds of a record with this opaque host, and a path of one segment.
fn hold_of_opaque(alloc: Global, host: &str, rows: &[Row]) -> Result<bool, AllocError> {
    hold(alloc, Some(&Host::Opaque(ascii(alloc, host)?)), rows)
}

const DOMAIN: [Row; 5] = [
    ("http", None, true),
    ("file", None, true),
    ("http", Some(80), false),
    ("file", Some(80), false),
    ("foo", None, false),
];

const LOCALHOST: [Row; 2] = [("http", Some(8080), true), ("file", None, false)];

#[test]
fn checks_domains(rt: HostRuntime) -> Result<(), AllocError> {
    let alloc = rt.alloc();
    assert!(rt; hold_of_domain(alloc, "h.example", &DOMAIN)?);
    assert!(rt; hold_of_domain(alloc, "localhost", &LOCALHOST)?);
    assert!(rt; hold_of_domain(alloc, "H", &[("http", None, false)])?);
    assert!(rt; hold_of_domain(alloc, "h.1", &[("http", None, false)])?);
    Ok(())
}

#[test]
fn checks_addresses(rt: HostRuntime) -> Result<(), AllocError> {
    let rows = [("http", Some(443), true), ("foo", None, false)];
    assert!(rt; hold(rt.alloc(), Some(&Host::V4(1)), &rows)?);
    assert!(rt;
        hold(
            rt.alloc(),
            Some(&Host::V6([0; 8])),
            &[("https", None, true)]
        )?
    );
    Ok(())
}

#[test]
fn checks_opaque_hosts(rt: HostRuntime) -> Result<(), AllocError> {
    let rows = [("foo", Some(80), true), ("http", None, false)];
    assert!(rt; hold_of_opaque(rt.alloc(), "u%40H", &rows)?);
    assert!(rt; hold_of_opaque(rt.alloc(), "u@h", &[("foo", None, false)])?);
    Ok(())
}

const EMPTY: [Row; 4] = [
    ("file", None, true),
    ("foo", None, true),
    ("http", None, false),
    ("foo", Some(80), false),
];

const ABSENT: [Row; 8] = [
    ("a+-.1", None, true),
    ("http", None, false),
    ("file", None, false),
    ("foo", Some(80), false),
    ("Foo", None, false),
    ("1a", None, false),
    ("", None, false),
    ("f\u{F6}", None, false),
];

#[test]
fn checks_empty_and_absent_hosts(rt: HostRuntime) -> Result<(), AllocError> {
    assert!(rt; hold(rt.alloc(), Some(&Host::Empty), &EMPTY)?);
    assert!(rt; hold(rt.alloc(), None, &ABSENT)?);
    Ok(())
}

// Whether a profile takes a record with a domain that has a `_`, and an empty first segment, as well formed.
fn is_wide(alloc: Global, scheme: &str, profile: Profile) -> Result<bool, AllocError> {
    let path = segments(alloc, "//a")?;
    let host = Host::Domain(ascii(alloc, "a_b")?);
    Ok(well_formed(scheme, Some(&host), None, &path, None, None, profile))
}

#[test]
fn permits_underscores_in_wide_domains(rt: HostRuntime) -> Result<(), AllocError> {
    for scheme in ["http", "file"] {
        assert!(rt; !is_wide(rt.alloc(), scheme, Profile::Standard)?);
        assert!(rt; is_wide(rt.alloc(), scheme, Profile::Wide)?);
    }
    Ok(())
}

// Whether a record with this scheme, host and path, and nothing else, is well formed.
fn has_path(scheme: &str, host: Option<&Host>, path: &UrlPath) -> bool {
    well_formed(scheme, host, None, path, None, None, Profile::Standard)
}

// Whether a path of these segments may come after `foo:`.
fn takes_segments(alloc: Global, text: &str) -> Result<bool, AllocError> {
    Ok(has_path("foo", None, &segments(alloc, text)?))
}

#[test]
fn checks_paths(rt: HostRuntime) -> Result<(), AllocError> {
    for (text, want) in [
        ("//", true),
        ("/a/%2Fb", true),
        ("/a/..", false),
        ("/%2E/a", false),
        ("/a?b/a", false),
        ("/a b/a", false),
        ("/%4/a", false),
    ] {
        assert!(rt; takes_segments(rt.alloc(), text)? == want);
    }
    Ok(())
}

#[test]
fn checks_paths_without_segments(rt: HostRuntime) -> Result<(), AllocError> {
    let nothing = segments(rt.alloc(), "")?;
    assert!(rt; has_path("foo", Some(&Host::Empty), &nothing));
    assert!(rt; !has_path("foo", None, &nothing));
    assert!(rt; !has_path("file", Some(&Host::Empty), &nothing));
    Ok(())
}

// Whether an opaque path may come after the scheme.
fn takes_opaque(
    alloc: Global,
    scheme: &str,
    host: Option<&Host>,
    text: &str,
) -> Result<bool, AllocError> {
    Ok(has_path(scheme, host, &UrlPath::Opaque(ascii(alloc, text)?)))
}

#[test]
fn checks_opaque_paths(rt: HostRuntime) -> Result<(), AllocError> {
    for (scheme, text, want) in [
        ("urn", "isbn:0451450523", true),
        ("urn", "", true),
        ("urn", "a/b", true),
        ("urn", "/a", false),
        ("urn", "a?b", false),
        ("urn", "a b", false),
        ("http", "a", false),
        ("file", "a", false),
    ] {
        assert!(rt; takes_opaque(rt.alloc(), scheme, None, text)? == want);
    }
    assert!(rt; !takes_opaque(rt.alloc(), "urn", Some(&Host::Empty), "a")?);
    Ok(())
}

// Whether a record with this scheme, query and fragment, and an empty host, is well formed.
fn takes_ends(
    alloc: Global,
    scheme: &str,
    query: Option<&str>,
    fragment: Option<&str>,
) -> Result<bool, AllocError> {
    let path = segments(alloc, "/a")?;
    let empty = Some(&Host::Empty);
    Ok(well_formed(scheme, empty, None, &path, query, fragment, Profile::Wide))
}

#[test]
fn checks_queries_and_fragments(rt: HostRuntime) -> Result<(), AllocError> {
    for (scheme, query, fragment, want) in [
        ("foo", Some("a'?%20"), Some("a'?/"), true),
        ("file", Some(""), Some("'"), true),
        ("file", Some("'"), None, false),
        ("foo", Some("a#"), None, false),
        ("foo", Some("\u{E9}"), None, false),
        ("foo", None, Some("#"), false),
        ("foo", None, Some("%g0"), false),
        ("foo", None, Some("\u{E9}"), false),
    ] {
        assert!(rt; takes_ends(rt.alloc(), scheme, query, fragment)? == want);
    }
    Ok(())
}
