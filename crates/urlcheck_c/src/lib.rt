//! The checker of valid URL strings (URL Standard, section 4.3) for C, and for what calls C.
//!
//! Each export takes any bytes and any number as profile, keeps nothing and may be called from any thread.
#![tactic(auto)]

mod ascii;
mod bases;
mod batches;
mod buffers;
mod checks;
mod columns;
mod finding;
pub mod laws;
mod layout;
mod lines;
mod mended;
mod names;
mod offsets;
mod places;
mod records;
mod reports;
mod request;
mod spans;
mod texts;
mod validity;
mod written;

pub use bases::Base;
pub use batches::Batch;
pub use checks::Answer;
pub use columns::Counted;
pub use finding::Finding;
pub use lines::Line;
pub use mended::Mended;
pub use records::PlacedRecord;
pub use reports::diagnostics::ReportedNumbers;
pub use reports::fault_lists::{Fault, FaultCount};
pub use spans::{Span, Spans};
pub use written::Written;
