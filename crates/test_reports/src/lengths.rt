//! Plain links of each length near the lengths of the loads by which they are read, with other bytes at each place, as
//! the second parser reads them. Each expected answer is by the URL that the URL Standard, section 4.4, makes of them.

use std::alloc::{AllocError, Global};
use std::process::Abort;
use std::test::Fail;
use uv_compare::reads_as;

// A text that begins with this, goes on with this many lower-case letters, one of which is replaced by this, and ends
// with that.
fn with_letters(
    alloc: Global,
    begin: &str,
    count: usize,
    place: usize,
    other: &str,
    end: &str,
) -> Result<String, AllocError> {
    let mut text = String::from_str(alloc, begin)?;
    for at in 0..count {
        text.push_str(if at == place { other } else { "a" })?;
    }
    text.push_str(end)?;
    Ok(text)
}

// Checks whether a text is the text of the URL that the second parser reads in it.
fn is_own(rt: &(impl Abort + AllocGlobal), text: &String, wanted: bool) -> Result<(), Fail> {
    let found = reads_as(rt.alloc(), None, text.as_str(), text.as_str())?;
    assert!(rt; found == wanted, "{text}");
    Ok(())
}

// Checks whether a link whose name has this at a place is the text of its URL.
fn is_own_name(
    rt: &(impl Abort + AllocGlobal),
    count: usize,
    place: usize,
    other: &str,
    wanted: bool,
) -> Result<(), Fail> {
    let text = with_letters(rt.alloc(), "http://a", count, place, other, "b/a")?;
    is_own(rt, &text, wanted)
}

// Checks whether a link whose path has this at a place is the text of its URL.
fn is_own_path(
    rt: &(impl Abort + AllocGlobal),
    count: usize,
    place: usize,
    other: &str,
    wanted: bool,
) -> Result<(), Fail> {
    let text = with_letters(rt.alloc(), "https://h/", count, place, other, "")?;
    is_own(rt, &text, wanted)
}

#[test]
fn reads_names_of_each_length(rt: HostRuntime) -> Result<(), Fail> {
    for count in 15..60usize {
        is_own_name(&rt, count, count, "", true)?;
        for place in 0..count {
            is_own_name(&rt, count, place, ".", true)?;
            is_own_name(&rt, count, place, "A", false)?;
        }
        is_own_name(&rt, count, count / 2, "_", true)?;
        is_own_name(&rt, count, 14, "@", true)?;
    }
    Ok(())
}

#[test]
fn reads_paths_of_each_length(rt: HostRuntime) -> Result<(), Fail> {
    for count in 2..100usize {
        is_own_path(&rt, count, count, "", true)?;
        for place in 1..count {
            is_own_path(&rt, count, place, "/b", true)?;
            is_own_path(&rt, count, place, "/.b", true)?;
            is_own_path(&rt, count, place, "/./", false)?;
            is_own_path(&rt, count, place, "/%2E/", false)?;
            is_own_path(&rt, count, place, "\\", false)?;
            is_own_path(&rt, count, place, "{", false)?;
            is_own_path(&rt, count, place, "?'", false)?;
            is_own_path(&rt, count, place, "?{#'", true)?;
        }
    }
    Ok(())
}
