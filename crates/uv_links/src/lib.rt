//! Lists of links: each line checked, and each accepted one compared with a second parser.
#![tactic(auto)]

mod counts;
mod fault;
pub mod laws;
mod limits;
mod line_checker;
mod reporter;
mod run;
mod said;

pub use counts::Counts;
pub use fault::LinkFault;
pub use limits::LinkLimits;
pub use run::run_links;
