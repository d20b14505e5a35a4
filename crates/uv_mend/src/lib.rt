//! What to write in place of a text that isn't a valid URL string: local edits, each by the rule that the text
//! violates.
#![tactic(auto)]

mod answer;
mod code_points;
mod edits;
mod escapes;
mod hosts;
mod kinds;
pub mod laws;
mod mender;
mod prefixes;
mod repairs;
mod second_parser;
mod slashes;
mod stripped;

pub use answer::Mending;
pub use mender::{mend, mend_refused};
pub use uv_model::MendKind;
