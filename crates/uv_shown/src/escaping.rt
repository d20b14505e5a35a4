//! Texts as they may be shown or written: with escapes for code points that may not appear as they are.
pub(crate) mod escapes;
pub(crate) mod printable;
