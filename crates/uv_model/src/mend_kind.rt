//! How a mended text relates to the refused one.
ghost use Rattle.std.specs.Prelude.{◌≡◌};
ghost use Rattle.uv_model.specs.MendKindName.{kind_name, named_kind};

/// How a mended text relates to the refused one.
#[derive(Clone, Copy, Debug, PartialEq, Eq)]
pub enum MendKind {
    /// A second parser, the crate `url`, reads both as the same URL, against the base.
    Same,
    /// It doesn't, but the mended text is the refused one with some of its code points percent-encoded, and nothing
    /// else changed.
    Escaped,
    /// Neither. The author has to look at whether the mended text is what was meant.
    Changed,
}

impl MendKind {
    /// The kind's name, as it is printed.
    pub fn name(self) -> &'static str
        ensures { result.now ≡ kind_name self }
    {
        match self {
            MendKind::Same => "same",
            MendKind::Escaped => "escaped",
            MendKind::Changed => "changed",
        }
    }

    /// The kind with this name, or `None` if no kind has it.
    pub fn of_name(name: &str) -> Option<MendKind>
        ensures { result ≡ named_kind name.now }
    {
        match name {
            "same" => Some(MendKind::Same),
            "escaped" => Some(MendKind::Escaped),
            "changed" => Some(MendKind::Changed),
            _ => None,
        }
    }
}
