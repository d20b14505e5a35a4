//! Paths of segments in one text: what is appended comes after what was there, and only the last segment is taken away.
//! The same holds for a copy.

use crate::ascii_texts::ascii;
use std::alloc::{AllocError, Global};
use uv_model::{PathText, UrlPath, without_last_segment};

// A path of these segments, and then of these in one text.
fn path_of(alloc: Global, first: &str, others: &str) -> Result<PathText, AllocError> {
    let mut path = PathText::with_capacity(alloc, 4)?;
    path.push_path(ascii(alloc, first)?.as_str())?;
    path.push_path(ascii(alloc, others)?.as_str())?;
    Ok(path)
}

// Whether the path has these segments, which are joined by `/`.
fn has_segments(path: &PathText, joined: &str) -> bool {
    let mut left = path.iter();
    for wanted in joined.split('/') {
        if left.next_text() != Some(wanted) {
            return false;
        }
    }
    left.next_text() == None
}

#[test]
fn appends_paths(rt: HostRuntime) -> Result<(), AllocError> {
    let alloc = rt.alloc();
    assert!(rt; path_of(alloc, "/a/b", "/c")?.as_str() == "/a/b/c");
    assert!(rt; path_of(alloc, "a/b", "c/")?.as_str() == "/a/b/c/");
    assert!(rt; path_of(alloc, "", "")?.as_str() == "");
    assert!(rt; path_of(alloc, "", "//")?.as_str() == "//");
    assert!(rt; path_of(alloc, "/", "a")?.as_str() == "//a");
    Ok(())
}

#[test]
fn appends_and_removes_segments(rt: HostRuntime) -> Result<(), AllocError> {
    let mut path = PathText::new(rt.alloc());
    path.push("a")?;
    path.push("")?;
    path.push("c%2F")?;
    assert!(rt; path.as_str() == "/a//c%2F");
    path.pop();
    assert!(rt; path.as_str() == "/a/");
    path.pop();
    assert!(rt; path.as_str() == "/a");
    path.pop();
    path.pop();
    assert!(rt; path.as_str() == "");
    Ok(())
}

#[test]
fn lists_segments(rt: HostRuntime) -> Result<(), AllocError> {
    let alloc = rt.alloc();
    let path = path_of(alloc, "/a//b", "c/")?;
    assert!(rt; has_segments(&path, "a//b/c/"));
    assert!(rt; has_segments(&path.copy(alloc)?, "a//b/c/"));
    assert!(rt; PathText::new(alloc).iter().next_text() == None);
    Ok(())
}

#[test]
fn copies_paths(rt: HostRuntime) -> Result<(), AllocError> {
    let alloc = rt.alloc();
    let path = path_of(alloc, "/a", "b")?;
    assert!(rt; path.copy(alloc)?.as_str() == "/a/b");
    match UrlPath::Segments(path).copy(alloc)? {
        UrlPath::Segments(copy) => assert!(rt; copy.as_str() == "/a/b"),
        UrlPath::Opaque(_) => assert!(rt; false),
    }
    assert!(rt; without_last_segment("/a/b/") == "/a/b");
    assert!(rt; without_last_segment("/a") == "");
    assert!(rt; without_last_segment("") == "");
    Ok(())
}
