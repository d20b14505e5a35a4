//! The code points at the start of a text, and what follows them.
ghost use Rattle.std.specs.Prelude.{◌≡◌, [], ◌∷◌, MatchOption, drop};
ghost use Rattle.std.specs.Str.{chars};
ghost use Rattle.uv_model.specs.Units as spec;

/// The first code point of a text and the text after it, or `None` if the text is empty.
pub fn first_code_point(text: &str) -> Option<(char, &str)>
    ensures { MatchOption result (chars text.now ≡ []) (λ first. chars text.now ≡ first.0 ∷ chars first.1.now) }
{
    let mut left = text.chars();
    match left.next() {
        Some(c) => Some((c, left.as_str())),
        None => None,
    }
}

/// What follows this many code points of a text: nothing if it has no more.
pub fn after_code_points(text: &str, count: usize) -> &str
    ensures { chars result.now ≡ drop count (chars text.now) }
{
    let mut left = text;
    for _ in 0..count {
        left = after_first(left);
    }
    left
}

// What follows the first code point, if there is one.
fn after_first(text: &str) -> &str
    ensures { chars result.now ≡ drop 1 (chars text.now) }
{
    match first_code_point(text) {
        Some((_, rest)) => rest,
        None => text,
    }
}

/// Whether a text begins with two ASCII hex digits, as those after a `%` (URL Standard, section 4.3).
pub fn starts_with_two_hex(text: &str) -> bool
    ensures { result ≡ spec.starts_with_two_hex (chars text.now) }
{
    match first_code_point(text) {
        Some((high, after)) => match first_code_point(after) {
            Some((low, _)) => high.is_ascii_hexdigit() && low.is_ascii_hexdigit(),
            None => false,
        },
        None => false,
    }
}
