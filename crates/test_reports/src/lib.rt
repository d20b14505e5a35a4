//! Tests of the second parser, `uv_compare`, and of what `uv_sentences` and `uv_report` say where no run of the program
//! gets to: columns in any order, and diagnostics that no line gives. They are in a crate above these, so that none of
//! them is proved twice. The one function that makes the reported diagnostics is proved.
#![tactic(auto)]

#[cfg(test)]
mod columns;
mod diagnostics;
#[cfg(test)]
mod formats;
#[cfg(test)]
mod lengths;
#[cfg(test)]
mod reports;
#[cfg(test)]
mod second;

pub use diagnostics::refused;
