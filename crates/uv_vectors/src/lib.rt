//! Files of vectors: cases in JSON, each with what it should give, and the run over them.
#![tactic(auto)]

mod case;
mod case_fault;
mod ends;
mod fault;
mod json_fault;
mod report;
mod run;

pub use case_fault::CaseFault;
pub use ends::{CasesEnd, VectorEnd};
pub use fault::VectorFault;
pub use json_fault::{FilePlace, JsonFault};
pub use run::{MOST_BYTES, run_cases};
