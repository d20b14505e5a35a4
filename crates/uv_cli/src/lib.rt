//! The commands of the program `urlcheck`, over any input and output.
#![tactic(auto)]

mod check;
mod colours;
mod ends;
mod explain;
mod fault;
mod filter;
mod filtered;
mod in_place;
mod jobs;
mod links;
mod lint;
mod linted;
mod malformed_vectors;
mod mend;
pub mod program;
mod said;
mod seen_bytes;
mod store;
mod vector_file;
mod watched_streams;

pub use check::{CheckEnd, RefusedText, run_check, run_faults};
pub use ends::{End, error_line, status};
pub use explain::{ExplainEnd, run_explain};
pub use fault::CliFault;
pub use filtered::Filtered;
pub use jobs::{Done, run_job};
pub use linted::Linted;
pub use mend::run_mend;
pub use uv_arguments::{FilterJob, Job, LintJob, WordsFault, read_words};
pub use uv_vectors::VectorEnd;
pub use watched_streams::WatchedWriter;
