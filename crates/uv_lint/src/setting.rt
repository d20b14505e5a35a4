//! What the lines of a file are checked by, and how what is found is written.

use uv_model::{Extent, Profile, Record};
use uv_report::{Columns, Format, Look};

/// What the lines of a file are checked by, and how what is found is written.
#[derive(Clone, Copy)]
pub struct LintSetting<'b> {
    /// The base of relative links, where there is one.
    pub base: Option<&'b Record>,
    /// By which profile a line is valid.
    pub profile: Profile,
    /// How many of the violations of a refused line are reported.
    pub extent: Extent,
    /// How they are written.
    pub format: Format,
    /// Whether they have colours.
    pub look: Look,
    /// What columns count, also those that located lines give.
    pub columns: Columns,
    /// What a line is.
    pub form: LineForm,
}

/// What a line of a file is.
#[derive(Clone, Copy, Debug, PartialEq, Eq)]
pub enum LineForm {
    /// A text, which is reported on by the file's name and the line's number.
    Plain,
    /// `FILE:LINE:COLUMN:LINK`: the link is reported on as the text that begins there.
    Located,
}
