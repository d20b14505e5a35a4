//! The places of a text, and what is shown around one of them.
pub(crate) mod seen_text;
pub(crate) mod window;
