//! How many code points a text has.
ghost use Rattle.std.specs.Prelude.{◌≡◌, length};
ghost use Rattle.std.specs.Str.{chars};

/// How many code points a text has. ASCII isn't walked by them.
pub(crate) fn count(text: &str) -> usize
    ensures { result ≡ length (chars text.now) }
{
    if text.is_ascii() {
        text.len()
    } else {
        count_walked(text)
    }
}

// How many code points a text has, counted one by one.
fn count_walked(text: &str) -> usize
    ensures { result ≡ length (chars text.now) }
{
    text.chars().count()
}
