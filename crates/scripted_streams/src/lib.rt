//! Readers and writers that play a list of answers, to try a run over: each read and each write can be made short or
//! made to fail. The tests of readers and writers are here too.
#![tactic(auto)]

mod script_sink;
mod script_source;
#[cfg(test)]
mod streams;

pub use script_sink::ScriptSink;
pub use script_source::ScriptSource;
