//! What the check of a part of a text gives.
ghost use Rattle.std.specs.Prelude.{◌≡◌};
ghost use Rattle.uv_grammar.specs.Checked.{refusal_of};

use uv_model::Refusal;

/// A part of a text, checked.
#[derive(Drop)]
pub(crate) enum Checked<T> {
    /// A valid part, with the value that it gives.
    Valid(T),
    /// The least refusal of a part that isn't valid.
    Refused(Refusal),
}

impl<T: Drop> Checked<T> {
    /// The refusal of a part that isn't valid.
    pub(crate) fn into_refusal(self) -> Option<Refusal>
        ensures { result ≡ refusal_of self }
    {
        match self {
            Checked::Valid(_) => None,
            Checked::Refused(refusal) => Some(refusal),
        }
    }
}
