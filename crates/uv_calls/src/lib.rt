//! Calls of the specification that the program doesn't make: whether parts make a record, a set of bytes that is made
//! of ranges, a line of a report as a text, and a run over vectors without reasons. They are in a crate above what they
//! need, so that no build of the program proves them first.
#![tactic(auto)]

mod ascii_units;
mod byte_class;
mod list_lines;
mod url_hosts;
mod url_paths;
mod vector_runs;
mod well_formedness;

pub use byte_class::{ByteClass, unit_run};
pub use list_lines::{Outcome, line_text};
pub use vector_runs::run_vectors;
pub use well_formedness::well_formed;
