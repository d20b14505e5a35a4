//! What the second parser makes of texts. Each expected URL follows from the URL Standard, section 4.4.

use std::process::Abort;
use uv_compare::{RoomFault, read_as, reading, reads_as, reads_same, serial};

// Checks that the second parser reads the text, without a base, as the URL of this text, or refuses it.
fn reads(
    rt: &(impl Abort + AllocGlobal),
    text: &str,
    wanted: Option<&str>,
) -> Result<(), RoomFault> {
    let found = reading(rt.alloc(), None, text)?;
    match &found {
        Some(url) => assert!(rt; Some(serial(url)) == wanted),
        None => assert!(rt; wanted.is_none()),
    }
    Ok(())
}

#[test]
fn reads_texts_alone(rt: HostRuntime) -> Result<(), RoomFault> {
    reads(&rt, "http://h/a/../b", Some("http://h/b"))?;
    reads(&rt, "HTTP:\\\\h", Some("http://h/"))?;
    reads(&rt, "mailto:a", Some("mailto:a"))?;
    reads(&rt, "", None)?;
    reads(&rt, "a", None)?;
    reads(&rt, "http://h:70000/", None)
}

// Checks that the second parser reads each of these as the text before it, or as another URL, or refuses one of them.
fn compares(rt: &(impl Abort + AllocGlobal), rows: &[(&str, &str, bool)]) -> Result<(), RoomFault> {
    for (text, other, wanted) in rows {
        assert!(rt; reads_same(rt.alloc(), None, text, other)? == *wanted);
    }
    Ok(())
}

#[test]
fn compares_escapes_in_each_part(rt: HostRuntime) -> Result<(), RoomFault> {
    compares(
        &rt,
        &[
            ("http://h/a b", "http://h/a%20b", true),
            ("https://a-1.b_c/\"<>", "https://a-1.b_c/%22%3C%3E", true),
            ("http://h/`^{}", "http://h/%60%5E%7B%7D", true),
            ("http://h/\x7F\u{e9}", "http://h/%7F%C3%A9", true),
            ("http://h/a|b", "http://h/a%7Cb", false),
            ("http://h/[b]", "http://h/%5Bb%5D", false),
            ("http://h/a'b", "http://h/a%27b", false),
            ("http://h/?a b", "http://h/?a%20b", true),
            ("http://h/?a'b", "http://h/?a%27b", true),
            ("http://h/?a`b", "http://h/?a%60b", false),
            ("http://h/?{", "http://h/?%7B", false),
            ("http://h/?#a b", "http://h/?#a%20b", true),
            ("http://h/#a`b", "http://h/#a%60b", true),
            ("http://h/#{", "http://h/#%7B", false),
            ("http://h/#a'b", "http://h/#a%27b", false),
            ("http://h/?a#b?`", "http://h/?a#b?%60", true),
        ],
    )
}

#[test]
fn compares_marks_and_other_bytes(rt: HostRuntime) -> Result<(), RoomFault> {
    compares(
        &rt,
        &[
            ("http://h/a?b", "http://h/a%3Fb", false),
            ("http://h/a#b", "http://h/a%23b", false),
            ("http://h/#a#b", "http://h/#a%23b", false),
            ("http://h/?a?b", "http://h/?a%3Fb", false),
            ("http://h/a/b c", "http://h/a%2Fb%20c", false),
            ("http://h/a b", "http://h/a%2Fb", false),
            ("http://h/a<b", "http://h/a%3cb", false),
            ("http://h/a b", "http://h/a%20", false),
            ("http://h/a", "http://h/a b", false),
            ("http://h/a%20b", "http://h/a b", true),
            ("http://h/%4 b", "http://h/%4%20b", true),
            ("http://h/%4|", "http://h/%4%7C", false),
            ("http://h/%4", "http://h/%254", false),
            ("http://h/a", "https://h/a", false),
            ("http://h/a b", "http://i/a%20b", false),
        ],
    )
}

#[test]
fn compares_dot_segments(rt: HostRuntime) -> Result<(), RoomFault> {
    compares(
        &rt,
        &[
            ("http://h/a|b/../c", "http://h/a%7Cb/../c", true),
            ("http://h/a|b/%2E%2e/c", "http://h/a%7Cb/%2E%2e/c", true),
            ("http://h/a|b/%2/c", "http://h/a%7Cb/%2/c", false),
            ("http://h/. /c", "http://h/.%20/c", true),
            ("http://h/.|/c", "http://h/.%7C/c", false),
            ("http://h/./a b", "http://h/a%20b", true),
            ("http://h/.", "http://h/%2e", true),
            ("http://h/a.b|c", "http://h/a.b%7Cc", false),
            ("http://h/?/../|", "http://h/?/../%7C", false),
        ],
    )
}

// What is taken off, slashes, and authorities that aren't plain names.
#[test]
fn compares_other_texts(rt: HostRuntime) -> Result<(), RoomFault> {
    compares(
        &rt,
        &[
            ("http://h/a\\b c", "http://h/a/b%20c", true),
            ("http://h/a\\..\\|", "http://h/%7C", false),
            ("http://h/a\tb c", "http://h/ab%20c", true),
            ("http://h/a\n|", "http://h/a%7C", false),
            ("http://h/a ", "http://h/a%20", false),
            ("http://h/a b ", "http://h/a%20b", true),
            (" http://h/a b", "http://h/a%20b", true),
            ("http:///h/a b", "http://h/a%20b", true),
            ("http://u@h/a b", "http://u@h/a%20b", true),
            ("http://u@h/a|b", "http://u@h/a%7Cb", false),
            ("http://h:80/a b", "http://h/a%20b", true),
            ("http://h:81/a|b", "http://h:81/a%7Cb", false),
            ("http://H/a b", "http://h/a%20b", true),
            ("http://H/a|b", "http://H/a%7Cb", false),
            ("http://h?a b", "http://h/?a%20b", true),
            ("http://h", "http://h/", true),
            ("http://1.2.3/a b", "http://1.2.3/a%20b", true),
            ("http://a.1/a b", "http://a.1/a%20b", false),
            ("http://0xa/a b", "http://0.0.0.10/a%20b", true),
            ("http://a.0x/a b", "http://a.0x/a%20b", false),
            ("http://a.b./a b", "http://a.b./a%20b", true),
            ("http://[::1]/a b", "http://[::1]/a%20b", true),
            ("http://%68/a b", "http://h/a%20b", true),
            ("ftp://h/a b", "ftp://h/a%20b", true),
        ],
    )
}

// The second parser's URL has the text that was asked for, or it has another one.
#[test]
fn compares_texts(rt: HostRuntime) -> Result<(), RoomFault> {
    let alloc = rt.alloc();
    assert!(rt; read_as(alloc, None, "http://h", "http://h/")?.is_some());
    assert!(rt; read_as(alloc, None, "http://h", "http://h")?.is_none());
    assert!(rt; read_as(alloc, None, "//h", "http://h/")?.is_none());
    let Some(base) = read_as(alloc, None, "http://h/a/b", "http://h/a/b")? else {
        panic!(rt; "the base is refused");
    };
    assert!(rt; read_as(alloc, Some(&base), "../c", "http://h/c")?.is_some());
    assert!(rt; read_as(alloc, Some(&base), "c", "http://h/c")?.is_none());
    assert!(rt; reads_as(alloc, Some(&base), "../c", "http://h/c")?);
    assert!(rt; reads_as(alloc, Some(&base), "?x#y", "http://h/a/b?x#y")?);
    assert!(rt; reads_as(alloc, None, "http://h/a?b#c", "http://h/a?b#c")?);
    assert!(rt; !reads_as(alloc, Some(&base), "c", "http://h/c")?);
    assert!(rt; !reads_as(alloc, None, "//h", "http://h/")?);
    Ok(())
}
