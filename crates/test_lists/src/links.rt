//! Reports on lists of links: limits, and the words of faults.

mod streams;

use std::process::Abort;
use std::test::Fail;
use uv_lines::StopFault;
use uv_links::{LinkFault, LinkLimits};

#[test]
fn takes_limits_up_to_the_largest(rt: HostRuntime) {
    let standard = LinkLimits::standard();
    assert!(rt; LinkLimits::new(65_536, 1_000_000_000) == Some(standard));
    assert!(rt; LinkLimits::new(65_537, 0).is_none());
    assert!(rt; LinkLimits::new(0, 1_000_000_001).is_none());
    assert!(rt; standard.line_bytes() == 65_536 && standard.lines() == 1_000_000_000);
}

// Checks that a fault has these words.
fn is_named(rt: &(impl Abort + AllocGlobal), fault: LinkFault, want: &str) -> Result<(), Fail> {
    assert!(rt; fault.to_string(rt.alloc())?.as_str() == want);
    Ok(())
}

// The words for a fault that the program prints.
#[test]
fn names_faults(rt: HostRuntime) -> Result<(), Fail> {
    is_named(&rt, LinkFault::Stop(StopFault::Memory), "memory")?;
    is_named(&rt, LinkFault::Stop(StopFault::Read), "read")?;
    is_named(&rt, LinkFault::Stop(StopFault::Write), "write")?;
    is_named(&rt, LinkFault::Overflow, "overflow")?;
    is_named(&rt, LinkFault::BaseDiffers, "base differs")?;
    is_named(
        &rt,
        LinkFault::Stop(StopFault::TooManyLines),
        "too many lines",
    )?;
    is_named(&rt, LinkFault::Stop(StopFault::Endless), "endless")
}
