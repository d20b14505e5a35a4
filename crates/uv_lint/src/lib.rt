//! The faults of a list of links: each line of a file checked, and what is found written as diagnostics.
#![tactic(auto)]

mod code_points;
mod counts;
pub mod laws;
mod line_violations;
mod located;
mod located_fault;
mod mended_line;
mod reported_line;
mod reporter;
mod run;
mod setting;

pub use counts::LintCounts;
pub use run::{run_lint, run_within};
pub use setting::{LineForm, LintSetting};
