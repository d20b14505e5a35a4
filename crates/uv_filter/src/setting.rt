//! How the lines of a list are mended.

use uv_mend::MendKind;
use uv_model::{Profile, Record};

/// How the lines of a list are mended, and which mended texts are written.
#[derive(Clone, Copy)]
pub struct FilterSetting<'b> {
    /// The base of relative links, if there is one.
    pub base: Option<&'b Record>,
    /// The profile by which a line is valid.
    pub profile: Profile,
    /// The kinds of the mended texts that are written.
    pub kinds: WrittenKinds,
    /// Whether mended texts are also written that reports don't offer, because something else was likely meant.
    pub all: bool,
}

/// The kinds of the mended texts that are written.
#[derive(Clone, Copy, Debug, PartialEq, Eq)]
pub enum WrittenKinds {
    /// Every kind.
    Every,
    /// `same` and `escaped`, which leave what the text says as it was: no other URL is written in its place.
    Safe,
    /// One kind.
    Only(MendKind),
}
