//! A filter of lists of links: each line mended if there is a text to write in its place, and otherwise as it was.
#![tactic(auto)]

mod closing;
mod counts;
mod fate;
mod line_filter;
mod progress;
mod run;
mod setting;
mod taking;
mod written;

pub use counts::FilterCounts;
pub use run::run_filter;
pub use setting::{FilterSetting, WrittenKinds};
