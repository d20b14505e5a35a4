//! The arguments of the command line.
#![tactic(auto)]

pub mod arguments;
mod colours;
mod commands;
mod entries;
mod help;
mod inputs;
mod jobs;
mod profile;
mod reading;
mod table;
mod words_fault;

pub use colours::Colours;
pub use jobs::{FilterJob, Job, LintJob, Told};
pub use reading::read_words;
pub use table::{COMMANDS, CommandRow, OptionForm, OptionRow};
pub use words_fault::{Reason, WordsFault};
