//! A caller of the library: what is wrong with a link, or where its path is.
#![tactic(auto)]

use std::io;
use uv_grammar::{Verdict, check};
use uv_model::Profile;

fn main(rt: HostRuntime) -> io::Result<()> {
    match check(
        rt.alloc(),
        "https://example.com/a b",
        None,
        Profile::Standard,
    )? {
        Verdict::Yes(parts) => println!(rt; "valid, with the path {}", parts.path_text()),
        Verdict::No(refusal) => println!(rt; "{} at place {}", refusal.rule.name(), refusal.place),
    }
}
