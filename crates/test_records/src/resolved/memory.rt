//! Records that take much memory, or memory in each place where one may; and that texts which need no memory take none.

use super::*;

const LONG: usize = 100_000;

// A text this many times.
fn push_often(text: &mut String, piece: &str, count: usize) -> Result<(), AllocError> {
    for _ in 0..count {
        text.push_str(piece)?;
    }
    Ok(())
}

// A prefix, and then a piece this many times.
fn repeated(alloc: Global, prefix: &str, piece: &str, count: usize) -> Result<String, AllocError> {
    let mut text = String::from_str(alloc, prefix)?;
    push_often(&mut text, piece, count)?;
    Ok(text)
}

// Whether long opaque paths, segments, queries and fragments after a prefix are encoded, each of their code points as
// six.
fn encodes_after(alloc: Global, prefix: &str) -> Result<bool, ResolveFault> {
    let text = repeated(alloc, prefix, "\u{E9}", LONG)?;
    let url = repeated(alloc, prefix, "%C3%A9", LONG)?;
    denotes(alloc, text.as_str(), None, url.as_str())
}

#[test]
fn resolves_long_texts(rt: HostRuntime) -> Result<(), ResolveFault> {
    for prefix in ["urn:", "http://h/", "http://h/?", "http://h/#", "foo://"] {
        assert!(rt; encodes_after(rt.alloc(), prefix)?);
    }
    Ok(())
}

#[test]
fn resolves_many_segments(rt: HostRuntime) -> Result<(), ResolveFault> {
    let text = repeated(rt.alloc(), "http://h", "/a", LONG)?;
    assert!(rt; denotes(rt.alloc(), text.as_str(), None, text.as_str())?);
    Ok(())
}

#[test]
fn removes_many_segments(rt: HostRuntime) -> Result<(), ResolveFault> {
    let base = repeated(rt.alloc(), "http://h", "/a", LONG)?;
    let base = record_of(rt.alloc(), base.as_str())?;
    let text = repeated(rt.alloc(), "", "../", LONG - 1)?;
    assert!(rt; denotes(rt.alloc(), text.as_str(), Some(&base), "http://h/")?);
    Ok(())
}

// Whether a text is refused at this place by this rule, even if only its URL's text is asked for.
fn is_refused(alloc: Global, text: &str, place: usize, rule: Rule) -> bool {
    let wanted = Refusal { place, rule };
    is_refusal(resolve(alloc, text, None, Profile::Standard).err(), wanted)
        && is_refusal(
            resolve_serialized(alloc, text, None, Profile::Standard).err(),
            wanted,
        )
}

// Whether a fault is this refusal.
fn is_refusal(fault: Option<ResolveFault>, wanted: Refusal) -> bool {
    matches!(fault, Some(ResolveFault::Refused(refusal)) if refusal == wanted)
}

// A long text that is refused at its end.
#[test]
fn refuses_a_long_text(rt: HostRuntime) -> Result<(), ResolveFault> {
    let text = repeated(rt.alloc(), "http://h/", "a/", LONG)?;
    let text = repeated(rt.alloc(), text.as_str(), " ", 1)?;
    assert!(rt; is_refused(rt.alloc(), text.as_str(), 200_009, Rule::CodePoint));
    Ok(())
}

// The size of a block to ask for after one that was refused.
fn smaller(size: usize) -> usize {
    if size > 4096 {
        size / 2
    } else {
        size.saturating_sub(8)
    }
}

// Takes a block, and gives the size of the next one.
fn take_block(alloc: Global, size: usize, held: &mut Vec<Vec<u8>>) -> usize {
    match Vec::with_capacity(alloc, size) {
        Ok(block) => if held.push(block).is_ok() { size } else { 0 },
        Err(_) => smaller(size),
    }
}

/// Takes all the memory that there is, down to blocks of eight bytes. An allocator keeps what was freed by its size, so
/// every small size is asked for, not only the powers of two.
fn take_all(alloc: Global, held: &mut Vec<Vec<u8>>) {
    let mut size = 1usize << 46;
    for _ in 0..400_000u32 {
        if size < 8 {
            break;
        }
        size = take_block(alloc, size, held);
    }
}

// Whether resolving a text needs memory.
fn runs_out_of_memory(alloc: Global, text: &str) -> bool {
    matches!(
        resolve(alloc, text, None, Profile::Standard),
        Err(ResolveFault::Memory(_))
    )
}

// A text whose check takes no memory is refused while there is none.
#[test]
fn refuses_without_memory(rt: HostRuntime) -> Result<(), AllocError> {
    let mut held = Vec::with_capacity(rt.alloc(), 400_000)?;
    take_all(rt.alloc(), &mut held);
    let upper = runs_out_of_memory(rt.alloc(), "http://EXAMPLE.com/");
    let slashes = is_refused(rt.alloc(), "http:x", 5, Rule::TwoSlashes);
    let underscore = is_refused(rt.alloc(), "http://a_b/", 7, Rule::HostDomain);
    drop(held);
    assert!(rt; upper, "memory was found");
    assert!(rt; slashes);
    assert!(rt; underscore);
    Ok(())
}
