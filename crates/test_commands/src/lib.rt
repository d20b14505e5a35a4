//! Tests of the commands: what `uv_cli` writes for texts and for lists, how each job ends, and what it says if a read
//! or a write fails. They are in a crate above that one, so that it isn't proved twice. The one function that compares
//! a command's answer with the wanted one is proved. tests/runs/ has what the program writes for many texts and lists.
#![tactic(auto)]

mod answered;
#[cfg(test)]
mod calls;
#[cfg(test)]
mod explain;
#[cfg(test)]
mod filter;
#[cfg(test)]
mod jobs;
#[cfg(test)]
mod lint;
#[cfg(test)]
mod messages;
#[cfg(test)]
mod program;
#[cfg(test)]
mod streams;
#[cfg(test)]
mod texts;

pub use answered::is_answer;
