//! The record that a valid URL string denotes, which is the one that the URL parser makes of it (URL Standard, section
//! 4.4).
#![tactic(auto)]

mod base;
mod encoded_parts;
mod fault;
mod kept;
pub mod laws;
mod layout;
mod paths;
mod records;
mod resolver;
mod schemes;
mod serialized;
mod walker;
mod writer;

pub use base::resolve_base;
pub use fault::ResolveFault;
pub use layout::{HostKind, LaidUrl, UrlLayout};
pub use resolver::resolve;
pub use serialized::{resolve_laid, resolve_serialized, write_serialized};
