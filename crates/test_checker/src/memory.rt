//! Verdicts while no memory is left. Each expected answer is worked out by hand from the rules of the URL Standard,
//! sections 3.4 and 4.3.

use crate::answers::is_wanted;
use crate::bases::special_base;
use crate::without_memory::take_all;
use std::alloc::{AllocError, Global};
use uv_grammar::{Verdict, check};
use uv_host::domain;
use uv_model::{Profile, Record, Rule};

// A text, whether it is checked against a base, and its refusal.
type Row = (&'static str, bool, Option<(usize, Rule)>);

// Texts whose host needs no form, each alone or against the base `http://h/`, and their refusals.
const ROWS: [Row; 19] = [
    ("urn:a", false, None),
    ("http://1.2.3.4/a/b", false, None),
    ("foo://h/", false, None),
    ("http://[::1]/", false, None),
    ("http:x", false, Some((5, Rule::TwoSlashes))),
    ("x", true, None),
    // no authority, an empty host and one in another class
    ("x", false, Some((0, Rule::NoScheme))),
    ("file:///x", false, None),
    ("http:///x", false, Some((7, Rule::HostMissing))),
    ("foo://EXAMPLE.com/", false, None),
    ("http://[::1", false, Some((7, Rule::HostIpv6))),
    // a code point that no domain holds
    ("http://a_b/", false, Some((7, Rule::HostDomain))),
    // plain names, in plain links and in others
    ("http://example.com:8080/a?b#c", false, None),
    ("http://example.com./", false, None),
    ("HTTP://example.com/\u{E9}", false, None),
    ("//example.com/", true, None),
    ("file://localhost/x", false, None),
    ("http://a..b/", false, Some((7, Rule::HostDomain))),
    ("http://1.2.3/", false, Some((7, Rule::HostNumber))),
];

// What `check` answers: none if memory ran out, and otherwise the refusal, if there is one.
fn answer(alloc: Global, text: &str, base: Option<&Record>) -> Option<Option<(usize, Rule)>> {
    match check(alloc, text, base, Profile::Standard) {
        Ok(Verdict::Yes(_)) => Some(None),
        Ok(Verdict::No(refusal)) => Some(Some((refusal.place, refusal.rule))),
        Err(_) => None,
    }
}

// Whether a row's text is answered as the row says.
fn is_answered(alloc: Global, row: &Row, base: &Record) -> bool {
    let base = if row.1 { Some(base) } else { None };
    is_wanted(answer(alloc, row.0, base), row.2)
}

// The first text that is answered otherwise than its row says.
fn first_wrong(alloc: Global, base: &Record) -> Option<&'static str> {
    for row in ROWS.iter() {
        if !is_answered(alloc, row, base) {
            return Some(row.0);
        }
    }
    None
}

// Whether a form is made of a text's host.
fn makes_form(alloc: Global, text: &str) -> bool {
    domain(alloc, text, Profile::Standard).is_ok()
}

// What is seen while there is no memory: whether a form is made, whether a text whose host needs one is answered, and
// the first row whose answer is wrong.
fn seen_without_memory(
    alloc: Global,
    base: &Record,
) -> Result<(bool, bool, Option<&'static str>), AllocError> {
    let mut held = Vec::with_capacity(alloc, 400_000)?;
    take_all(alloc, &mut held);
    let made = makes_form(alloc, "EXAMPLE.com");
    let answered = answer(alloc, "http://EXAMPLE.com/", None).is_some();
    let wrong = first_wrong(alloc, base);
    Ok((made, answered, wrong))
}

#[test]
fn takes_no_memory(rt: HostRuntime) -> Result<(), AllocError> {
    let Some(base) = special_base(rt.alloc())? else {
        panic!(rt; "no base");
    };
    let (made, answered, wrong) = seen_without_memory(rt.alloc(), &base)?;
    assert!(rt; !made, "memory was found");
    assert!(rt; !answered, "a form was made");
    assert_eq!(rt; wrong, None);
    assert_eq!(rt; answer(rt.alloc(), "http://EXAMPLE.com/", None), Some(None));
    Ok(())
}
