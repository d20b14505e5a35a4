//! Says whether a text is a valid URL string.
#![tactic(auto)]

use std::io::IsTerminal;
use std::process::ExitCode;
use uv_cli::program::{Terminals, run};

fn main(rt: HostRuntime) -> ExitCode {
    let terminals = Terminals {
        output: rt.stdout().is_terminal(),
        errors: rt.stderr().is_terminal(),
    };
    ExitCode::from(run(&rt, terminals))
}
