//! What is asked of an answer on a text.
ghost use Rattle.std.specs.Prelude.{◌≡◌, ◌↔◌, IsTrue, Some};

use uv_model::Rule;

/// Whether an answer was given (there is none if memory ran out) and is the wanted one: the refusal's place, in code
/// points from 0, and its rule, or nothing for a valid text.
pub fn is_wanted(answer: Option<Option<(usize, Rule)>>, wanted: Option<(usize, Rule)>) -> bool
    ensures { IsTrue result ↔ (answer ≡ Some wanted) }
{
    answer == Some(wanted)
}
