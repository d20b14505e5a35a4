//! Code points: the first ones of a text, URL code points and forbidden host code points, by the URL Standard's
//! sections 3.1 and 4.3.

use uv_model::{
    after_code_points, first_code_point, is_forbidden_host, is_url_code_point, starts_with_two_hex,
};

#[test]
fn takes_one_code_point(rt: HostRuntime) {
    assert!(rt; first_code_point("") == None);
    assert!(rt; first_code_point("a") == Some(('a', "")));
    assert!(rt; first_code_point("\u{10FFFD}b") == Some(('\u{10FFFD}', "b")));
}

#[test]
fn passes_code_points(rt: HostRuntime) {
    for (count, left) in [
        (0, "a\u{E9}\u{10FFFD}"),
        (1, "\u{E9}\u{10FFFD}"),
        (2, "\u{10FFFD}"),
        (3, ""),
        (4, ""),
    ] {
        assert!(rt; after_code_points("a\u{E9}\u{10FFFD}", count) == left);
    }
}

#[test]
fn sees_two_hex_digits(rt: HostRuntime) {
    for text in ["00", "aF", "3Ax"] {
        assert!(rt; starts_with_two_hex(text));
    }
    for text in ["", "0", "g0", "0g", "\u{FF10}0"] {
        assert!(rt; !starts_with_two_hex(text));
    }
}

#[test]
fn takes_the_ascii_punctuation_of_the_standard(rt: HostRuntime) {
    for c in "!$&'()*+,-./:;=?@_~azAZ09".chars() {
        assert!(rt; is_url_code_point(c));
    }
    for c in "\"#%<>[\\]^`{|} \t\n\r\u{0}\u{7F}\u{80}\u{9F}".chars() {
        assert!(rt; !is_url_code_point(c));
    }
}

#[test]
fn takes_what_is_beyond_ascii_up_to_its_borders(rt: HostRuntime) {
    for c in [
        '\u{A0}',
        '\u{D7FF}',
        '\u{E000}',
        '\u{FDCF}',
        '\u{FDF0}',
        '\u{FFFD}',
        '\u{10000}',
        '\u{10FFFD}',
    ] {
        assert!(rt; is_url_code_point(c));
    }
    for c in ['\u{FDD0}', '\u{FDEF}'] {
        assert!(rt; !is_url_code_point(c));
    }
}

#[test]
fn refuses_the_last_two_code_points_of_each_plane(rt: HostRuntime) {
    for plane in 0..17u32 {
        for (last, taken) in [(0xFFFD, true), (0xFFFE, false), (0xFFFF, false)] {
            match char::from_u32(plane * 0x10000 + last) {
                Some(c) => assert!(rt; is_url_code_point(c) == taken),
                None => panic!(rt; "no code point"),
            }
        }
    }
}

#[test]
fn refuses_the_noncharacters_of_the_first_plane(rt: HostRuntime) {
    for number in 0xFDD0..0xFDF0u32 {
        match char::from_u32(number) {
            Some(c) => assert!(rt; !is_url_code_point(c)),
            None => panic!(rt; "no code point"),
        }
    }
}

#[test]
fn names_the_forbidden_host_code_points(rt: HostRuntime) {
    for c in "\0\t\n\r #/:<>?@[\\]^|".chars() {
        assert!(rt; is_forbidden_host(c));
    }
    for c in "az09%!$&'()*+,-.;=_~\"`{}\u{7F}\u{E9}".chars() {
        assert!(rt; !is_forbidden_host(c));
    }
}
