//! Readers and writers: the sources of this product's inputs, and where its outputs go.
#![tactic(auto)]

mod readers;
mod stream;
mod writers;

pub use readers::FromReader;
pub use stream::{DeviceFault, Sink, Source, write_whole};
pub use writers::ToWriter;
