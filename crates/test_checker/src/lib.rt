//! Tests of the checker: its verdicts while no memory is left. They are in a crate above `uv_grammar`, so that it isn't
//! proved twice. Its verdicts and faults are tested by runs over `tests/vectors/`, with the program and the library for
//! C. The one function that compares an answer with the wanted one is proved.
#![tactic(auto)]

mod answers;
#[cfg(test)]
mod bases;
#[cfg(test)]
mod memory;
#[cfg(test)]
mod without_memory;

pub use answers::is_wanted;
