//! Places in code points as places in bytes.
ghost use Rattle.std.specs.Prelude.{◌≡◌, drop};
ghost use Rattle.std.specs.Str.{chars};
ghost use Rattle.urlcheck_c.specs.Finding.{byte_place};

use uv_model::after_code_points;

/// The place in bytes of a place in code points: how many bytes are before it.
pub(crate) fn byte_place(text: &str, place: usize) -> usize
    ensures { result ≡ byte_place text.now place }
{
    bytes_before(text, after_code_points(text, place), place)
}

/// How many bytes come before what follows this many code points.
pub(crate) fn bytes_before(text: &str, left: &str, place: usize) -> usize
    requires { chars left.now ≡ drop place (chars text.now) }
    ensures { result ≡ byte_place text.now place }
{
    text.len() - left.len()
}

/// What follows the code points before a place, found from another place up to which the text was already walked.
pub(crate) fn after_passed<'t>(text: &'t str, left: &'t str, passed: usize, place: usize) -> &'t str
    requires { chars left.now ≡ drop passed (chars text.now) }
    ensures { chars result.now ≡ drop place (chars text.now) }
{
    if place < passed {
        return after_code_points(text, place);
    }
    after_code_points(left, place - passed)
}
