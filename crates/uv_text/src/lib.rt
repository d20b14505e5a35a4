//! URL units in texts: the first fault, sets of bytes and their runs, and percent-encoding.
#![tactic(auto)]

mod escapes;
mod faults;
mod lanes;
mod rows;
mod splits;
mod tail;
mod units;

pub use escapes::{encode, push_encoded};
pub use faults::first_fault;
pub use lanes::{Load, row_end};
pub use splits::{count_code_points, split_tail, split_units};
pub use tail::Tail;
pub use units::UnitClass;
