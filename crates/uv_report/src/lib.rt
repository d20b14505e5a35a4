//! Diagnostics: what is wrong with a line of a file, in the formats that people and tools read.
#![tactic(auto)]

mod completion;
mod diagnostic;
mod format;
mod formats;
mod json_text;
mod look;
mod places;
mod report;

pub use completion::Completion;
pub use diagnostic::{Diagnostic, Fix, Region};
pub use format::Format;
pub use look::Look;
pub use places::column::Columns;
pub use places::column_counter::ColumnCounter;
pub use report::{begin_of, end_of, file_begin_of, file_end_of, push, separator};
