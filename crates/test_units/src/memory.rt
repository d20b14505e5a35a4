//! Domains while no memory is left.

use crate::without_memory::take_all;
use std::alloc::{AllocError, Global};
use uv_host::{DomainAnswer, domain};
use uv_model::Profile;

// What is seen while there is no memory: whether a text has a form, and whether two that have none are refused.
fn seen_without_memory(alloc: Global) -> Result<(bool, bool, bool), AllocError> {
    let mut held = Vec::with_capacity(alloc, 400_000)?;
    take_all(alloc, &mut held);
    let upper = domain(alloc, "EXAMPLE.com", Profile::Standard);
    let underscore = domain(alloc, "a_b", Profile::Standard);
    let escaped = domain(alloc, "a%62", Profile::Wide);
    Ok((
        upper.is_ok(),
        matches!(underscore, Ok(DomainAnswer::Not)),
        matches!(escaped, Ok(DomainAnswer::Not)),
    ))
}

#[test]
fn refuses_without_memory(rt: HostRuntime) -> Result<(), AllocError> {
    let (made, underscore, escaped) = seen_without_memory(rt.alloc())?;
    assert!(rt; !made, "memory was found");
    assert!(rt; underscore);
    assert!(rt; escaped);
    assert!(rt; domain(rt.alloc(), "EXAMPLE.com", Profile::Standard).is_ok());
    Ok(())
}
