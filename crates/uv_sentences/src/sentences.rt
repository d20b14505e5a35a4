//! The sentence on a line: `message` puts it together, and the other files make parts of it. `intention` says whether a
//! text is offered in place of a line.
pub(crate) mod authority;
pub(crate) mod code_point;
pub(crate) mod domain;
pub(crate) mod drive;
pub(crate) mod intention;
pub(crate) mod ipv4;
pub(crate) mod ipv6;
pub(crate) mod marks;
pub(crate) mod message;
pub(crate) mod pieces;
pub(crate) mod scheme;
pub(crate) mod start;
pub(crate) mod template;
pub(crate) mod wording;
