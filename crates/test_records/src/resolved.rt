//! The records of given texts, alone or against a base. Each expected text, field and refusal is worked out by hand
//! from the URL Standard's sections 3.4 to 4.5 and docs/DECISIONS.md, never from a run of this code. The cases of
//! `tests/vectors/`, which the built program runs, have more of them.

use std::alloc::{AllocError, Global};
use uv_model::{Profile, Record, Refusal, Rule};
use uv_resolve::{ResolveFault, resolve, resolve_serialized};

mod memory;

// The record of a text without a base.
fn record_of(alloc: Global, text: &str) -> Result<Record, ResolveFault> {
    resolve(alloc, text, None, Profile::Standard)
}

// Whether a text denotes this URL, alone or against a base: by its record's text, and by its serialized URL.
fn denotes(
    alloc: Global,
    text: &str,
    base: Option<&Record>,
    url: &str,
) -> Result<bool, ResolveFault> {
    let record = resolve(alloc, text, base, Profile::Standard)?;
    let written = resolve_serialized(alloc, text, base, Profile::Standard)?;
    Ok(record.text(alloc)?.as_str() == url && written.as_str() == url)
}

// Whether a fault has this text.
fn is_worded(alloc: Global, fault: &ResolveFault, words: &str) -> Result<bool, AllocError> {
    Ok(fault.to_string(alloc)?.as_str() == words)
}

// The words of faults.
#[test]
fn names_faults(rt: HostRuntime) -> Result<(), AllocError> {
    let refused = ResolveFault::Refused(Refusal {
        place: 7,
        rule: Rule::HostDomain,
    });
    assert!(rt; is_worded(rt.alloc(), &refused, "refused 7 host-domain")?);
    assert!(rt; is_worded(rt.alloc(), &ResolveFault::Memory(AllocError), "memory")?);
    Ok(())
}
