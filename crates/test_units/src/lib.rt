//! Tests of units and of hosts that no run of the program gets to: sets of bytes, what is known about a name without
//! ToASCII, and domains while no memory is left. They are in a crate above `uv_text` and `uv_host`, so that neither is
//! proved twice. The function that repeats a piece of text is proved.
#![tactic(auto)]

#[cfg(test)]
mod memory;
#[cfg(test)]
mod plain_names;
mod repeated;
#[cfg(test)]
mod rows;
#[cfg(test)]
mod without_memory;

pub use repeated::repeated_before;
