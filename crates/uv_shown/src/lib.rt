//! How texts are shown: with escapes for code points that may not appear as they are, and by a window around a place of
//! a long one; and what is shown of a rule.
#![tactic(auto)]

mod escaping;
mod places;
mod rule;

pub use escaping::escapes::{Escapes, escaped, is_hidden, push_copied, push_escaped, push_shown};
pub use escaping::printable::is_printable_text;
pub use places::seen_text::SeenText;
pub use places::window::{carried, cut_out};
pub use rule::ShownRule;
