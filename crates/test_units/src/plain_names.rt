//! Names of hosts that need no ToASCII: where they end in a text, and what they are, at every length around 32 and 64.

use crate::repeated::repeated_before;
use std::alloc::{AllocError, Global};
use std::process::Abort;
use uv_host::{PlainAnswer, name_prefix, plain_answer};
use uv_model::Profile;
use uv_text::Tail;

// The end of a text that has no such name.
const NONE: usize = usize::MAX;

// Where a name ends at the start of a text.
fn name_end(text: &str) -> usize {
    name_prefix(&Tail::of(text)).unwrap_or(NONE)
}

// Checks that in each text of the table a name ends where it says.
fn end_at(rt: &impl Abort, rows: &[(&str, usize)]) {
    for (text, end) in rows {
        assert!(rt; name_end(*text) == *end, "{text}");
    }
}

#[test]
fn ends_after_a_letter_or_a_digit(rt: HostRuntime) {
    end_at(
        &rt,
        &[
            ("example.com/", 11),
            ("a-b.c", 5),
            ("example.com./", 12),
            ("a.", 2),
            ("a..b", 2),
            ("3d.x1:80", 5),
            ("a_b", 1),
            ("", NONE),
            (".", NONE),
            (".a", NONE),
            ("a-/", NONE),
            ("a-.b", NONE),
            ("-a", NONE),
            ("Ab", NONE),
        ],
    );
}

// Checks that after letters of each length a name ends this many bytes after them, or nowhere.
fn ends_after_letters(
    rt: &(impl Abort + AllocGlobal),
    after: &str,
    more: usize,
) -> Result<(), AllocError> {
    for length in 1..70usize {
        let text = repeated_before(rt.alloc(), "a", length, after)?;
        assert!(rt;
            name_end(text.as_str()) == length.saturating_add(more),
            "{after}"
        );
    }
    Ok(())
}

#[test]
fn ends_alike_at_each_length(rt: HostRuntime) -> Result<(), AllocError> {
    ends_after_letters(&rt, "/", 0)?;
    ends_after_letters(&rt, ".com/a", 4)?;
    ends_after_letters(&rt, "-b:80", 2)?;
    ends_after_letters(&rt, "./", 1)?;
    ends_after_letters(&rt, "..b", 1)?;
    ends_after_letters(&rt, ".-b", 1)?;
    ends_after_letters(&rt, "--b", NONE)?;
    ends_after_letters(&rt, "-.b", NONE)?;
    ends_after_letters(&rt, "-", NONE)?;
    ends_after_letters(&rt, "_/", 0)?;
    ends_after_letters(&rt, "._./", 1)?;
    ends_after_letters(&rt, "-_:80", NONE)
}

// What a name of this many bytes is, in which all but the one at a place are `a`: by hand from the URL Standard,
// section 3.3, and UTS #46, section 4.1. A domain's form has lower-case letters, digits, `-` and the full stop, under
// the wide profile `_` too. A label has 1 to 63 bytes, and under the standard profile no hyphen at an edge; the last
// one may be empty.
fn answer_of(byte: u8, place: usize, length: usize, profile: Profile) -> Option<PlainAnswer> {
    let after = length.saturating_sub(place).saturating_sub(1);
    let is_wide = profile == Profile::Wide;
    let fits = match byte {
        b'a'..=b'z' => length <= 63,
        b'0'..=b'9' => {
            if length == 1 {
                return Some(PlainAnswer::Number);
            }
            length <= 63
        }
        b'.' => 1 <= place && place <= 63 && after <= 63,
        b'-' => length <= 63 && (is_wide || (place > 0 && after > 0)),
        b'_' if is_wide => length <= 63,
        _ => return None,
    };
    Some(if fits {
        PlainAnswer::Domain
    } else {
        PlainAnswer::Not
    })
}

// A name of this many `a`, except for one byte at a place.
fn name_with(alloc: Global, byte: u8, place: usize, length: usize) -> Result<String, AllocError> {
    let mut name = String::new(alloc);
    for at in 0..length {
        name.push(if at == place { char::from(byte) } else { 'a' })?;
    }
    Ok(name)
}

// Checks what is answered for this many letters with each ASCII byte at a place among them, by two profiles.
fn answers_on_each_byte(
    rt: &(impl Abort + AllocGlobal),
    length: usize,
    place: usize,
) -> Result<(), AllocError> {
    for byte in 0..128u8 {
        let name = name_with(rt.alloc(), byte, place, length)?;
        for profile in [Profile::Standard, Profile::Wide] {
            let wanted = answer_of(byte, place, length, profile);
            let found = plain_answer(name.as_str(), profile);
            assert!(rt; found == wanted, "{byte} at {place} of {length}");
        }
    }
    Ok(())
}

#[test]
fn answers_on_each_byte_at_each_place(rt: HostRuntime) -> Result<(), AllocError> {
    for length in [1, 2, 3, 30, 31, 32, 33, 34, 62, 63, 64, 65, 66usize] {
        for place in 0..length {
            answers_on_each_byte(&rt, length, place)?;
        }
    }
    Ok(())
}

// The answer about a name without ToASCII, which has to be asked about an unknown name.
fn answer_name(name: &str, profile: Profile) -> &'static str {
    match plain_answer(name, profile) {
        Some(PlainAnswer::Domain) => "domain",
        Some(PlainAnswer::Number) => "number",
        Some(PlainAnswer::Not) => "not",
        None => "unknown",
    }
}

// Checks the answer on each name of the table, without ToASCII, under the profile.
fn are_answers(rt: &impl Abort, profile: Profile, rows: &[(&str, &str)]) {
    for (name, answer) in rows {
        assert!(rt; answer_name(*name, profile) == *answer, "{name}");
    }
}

// Hyphens at an edge of a label and in its third and fourth place, and `xn--`, about which ToASCII has to be asked.
#[test]
fn reads_the_hyphens_of_labels(rt: HostRuntime) {
    are_answers(
        &rt,
        Profile::Standard,
        &[
            ("a", "domain"),
            ("a-b.c", "domain"),
            ("a--b", "domain"),
            ("ab--c", "not"),
            ("-a", "not"),
            ("a-.b", "not"),
            ("xn--a", "unknown"),
            ("a.xn--b", "unknown"),
            ("axn--b", "domain"),
            ("xn-a", "domain"),
            ("\u{E9}", "unknown"),
        ],
    );
}

// What is known about names under the standard profile: hyphens in the third and fourth place, and at an edge of a
// label (UTS #46, section 4.1), the code points of a form, and what ToASCII has to be asked for.
#[test]
fn answers_on_names_without_toascii(rt: HostRuntime) {
    are_answers(
        &rt,
        Profile::Standard,
        &[
            ("a.-b", "not"),
            ("a-.b", "not"),
            ("abc--d", "domain"),
            ("a_b", "unknown"),
            ("Ab--c", "unknown"),
            ("xn--a.ab--c", "unknown"),
        ],
    );
}

// What the wider profiles know about names without ToASCII.
#[test]
fn answers_on_more_names_without_toascii(rt: HostRuntime) {
    are_answers(
        &rt,
        Profile::Wide,
        &[
            ("ab--c", "domain"),
            ("ab--c.1", "number"),
            ("a_b", "domain"),
            ("a_b.1", "number"),
            ("a..b_", "not"),
            ("a+b", "unknown"),
            ("a.xn--bcher-kva", "unknown"),
        ],
    );
    are_answers(
        &rt,
        Profile::Parser,
        &[
            ("-", "domain"),
            ("a..b_", "domain"),
            ("a+b", "domain"),
            ("\u{E9}", "unknown"),
        ],
    );
}

// Under the wide profile without ToASCII, by hand: lower case with `_`, at each place of a label and of the whole, with
// the root's full stop, and at the end in a number.
#[test]
fn answers_on_names_with_low_lines(rt: HostRuntime) {
    are_answers(
        &rt,
        Profile::Wide,
        &[
            ("_a.b", "domain"),
            ("a_.b", "domain"),
            ("a._", "domain"),
            ("a_b.example.", "domain"),
            ("a_b-c.d-e", "domain"),
            ("a_-.b", "domain"),
            ("-_", "domain"),
            ("a_b.1", "number"),
            ("a_b.1.", "number"),
            ("a_b.0x", "number"),
            ("a_b.0x1f", "number"),
            ("a.1_", "domain"),
            ("a_b.0x_", "domain"),
            ("a_..b", "not"),
            ("._", "not"),
            ("_..", "not"),
            ("A_b.c", "unknown"),
            ("xn--a_b.c", "unknown"),
            ("a_b.xn--c", "unknown"),
        ],
    );
}
