//! Records with every field, copied and written: the copy has each field, and the text of a record comes after what was
//! written before. The cases of `tests/vectors/` have more texts of records.

use std::alloc::{AllocError, Global};
use uv_model::{Host, PathSegments, Profile, Record, UrlPath, push_ipv4, push_ipv6, push_port};
use uv_resolve::{ResolveFault, resolve};

// Whether the texts are these two, or this one.
fn are_texts(texts: PathSegments<'_>, first: &str, second: Option<&str>) -> bool {
    let mut left = texts;
    left.next_text() == Some(first) && left.next_text() == second && left.next_text() == None
}

// Whether the path has these segments.
fn has_segments(path: &UrlPath, first: &str, second: Option<&str>) -> bool {
    match path {
        UrlPath::Segments(path) => are_texts(path.iter(), first, second),
        UrlPath::Opaque(_) => false,
    }
}

// Whether each field is as in the record of `foo://u%40h:80/a/?q#f` (URL Standard, section 4.1).
fn is_opaque_host_record(record: &Record) -> bool {
    let host = match record.host() {
        Some(Host::Opaque(text)) => text.as_str() == "u%40h",
        _ => false,
    };
    host && record.scheme() == "foo"
        && record.port() == Some(80)
        && has_segments(record.path(), "a", Some(""))
        && has_ends(record, "q", "f")
}

// Whether each field is as in the record of `https://EXAMPLE.com:443/a/../b?x='y'#é`: the scheme, the domain, the
// segment, the query and the fragment that it denotes.
fn is_domain_record(record: &Record) -> bool {
    let host = match record.host() {
        Some(Host::Domain(form)) => form.as_str() == "example.com",
        _ => false,
    };
    host && record.scheme() == "https"
        && record.port() == None
        && has_segments(record.path(), "b", None)
        && has_ends(record, "x=%27y%27", "%C3%A9")
}

// Whether the query and the fragment are these.
fn has_ends(record: &Record, query: &str, fragment: &str) -> bool {
    record.query() == Some(query) && record.fragment() == Some(fragment) && !record.is_opaque()
}

fn record_of(alloc: Global, text: &str) -> Result<Record, ResolveFault> {
    resolve(alloc, text, None, Profile::Standard)
}

#[test]
fn copies_a_record_with_an_opaque_host(rt: HostRuntime) -> Result<(), ResolveFault> {
    let record = record_of(rt.alloc(), "foo://u%40h:80/a/?q#f")?;
    let copy = record.copy(rt.alloc())?;
    assert!(rt; is_opaque_host_record(&record));
    assert!(rt; is_opaque_host_record(&copy));
    Ok(())
}

#[test]
fn copies_a_record_with_a_domain(rt: HostRuntime) -> Result<(), ResolveFault> {
    let record = record_of(rt.alloc(), "https://EXAMPLE.com:443/a/../b?x='y'#\u{E9}")?;
    let copy = record.copy(rt.alloc())?;
    assert!(rt; is_domain_record(&record));
    assert!(rt; is_domain_record(&copy));
    Ok(())
}

// Whether the text of a record is pushed after another.
fn is_pushed(alloc: Global, record: &Record, text: &str) -> Result<bool, AllocError> {
    let mut line = String::from_str(alloc, "ok ")?;
    record.push_text(&mut line)?;
    Ok(line.as_str().strip_prefix("ok ") == Some(text))
}

#[test]
fn pushes_texts_of_records(rt: HostRuntime) -> Result<(), ResolveFault> {
    for text in [
        "https://example.com:8080/b?x=%27y%27#%C3%A9",
        "http://127.0.0.1/",
        "foo://[1:0:0:2::3]:0/a//b",
        "foo:/.//a",
        "file:///C:/",
        "urn:a?q?#",
    ] {
        let record = record_of(rt.alloc(), text)?;
        assert!(rt; is_pushed(rt.alloc(), &record, text)?);
    }
    Ok(())
}

// Whether a host has this text.
fn has_text(alloc: Global, host: &Host, text: &str) -> Result<bool, AllocError> {
    Ok(host.text(alloc)?.as_str() == text)
}

#[test]
fn writes_addresses(rt: HostRuntime) -> Result<(), AllocError> {
    for (pieces, want) in [
        ([1, 2, 3, 4, 5, 6, 7, 0], "[1:2:3:4:5:6:7:0]"),
        ([0, 0, 0, 0, 0, 0xFFFF, 0x102, 0x304], "[::ffff:102:304]"),
        ([0, 0, 0, 0, 0, 0, 0, 0], "[::]"),
        ([1, 0, 0, 2, 0, 0, 0, 3], "[1:0:0:2::3]"),
        ([1, 0, 0, 2, 3, 0, 0, 4], "[1::2:3:0:0:4]"),
        ([1, 0, 0, 0, 0, 0, 0, 0], "[1::]"),
        ([0, 1, 2, 3, 4, 5, 6, 7], "[0:1:2:3:4:5:6:7]"),
        (
            [0xF, 0x10, 0xFF, 0x100, 0xFFF, 0x1000, 0xFFFF, 0xA0B],
            "[f:10:ff:100:fff:1000:ffff:a0b]",
        ),
    ] {
        assert!(rt; has_text(rt.alloc(), &Host::V6(pieces), want)?);
    }
    for (value, want) in [
        (3232235521, "192.168.0.1"),
        (0, "0.0.0.0"),
        (0xFFFF_FFFF, "255.255.255.255"),
        (0x0A64_0901, "10.100.9.1"),
    ] {
        assert!(rt; has_text(rt.alloc(), &Host::V4(value), want)?);
    }
    Ok(())
}

#[test]
fn appends_addresses_and_ports(rt: HostRuntime) -> Result<(), AllocError> {
    let mut text = String::from_str(rt.alloc(), "a")?;
    push_ipv4(&mut text, 0x7F00_0001)?;
    push_port(&mut text, Some(80))?;
    push_port(&mut text, None)?;
    push_ipv6(&mut text, &[0, 0, 0, 0, 0, 0, 0, 1])?;
    push_port(&mut text, Some(65535))?;
    assert!(rt; text.as_str() == "a127.0.0.1:80[::1]:65535");
    Ok(())
}
