//! Messages on a refused text: the sentence on it, with what its author may have meant and the place of the code point
//! that it names.
#![tactic(auto)]

mod known_text;
mod sentences;

pub use known_text::KnownText;
pub use sentences::intention::{is_named, is_offered};
pub use sentences::message::{PlacedMessage, message};
pub use sentences::wording::{Checked, Wording, is_by_choice};
