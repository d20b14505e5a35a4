//! Texts cut at ASCII marks, in `search` the search for these, and in `beginnings` the tests of how a text begins.
ghost use Rattle.std.specs.Prelude.{◌≡◌, ◌<◌, ◌++◌, ◌∷◌, ◌==◌, MatchOption, Some, false, length, slice_index, true};
ghost use Rattle.std.specs.Str.{chars};
ghost use Rattle.memchr.specs.Find.{IsFirstByte, is_byte2};
ghost use Rattle.uv_model.specs.Ascii.{number_sign, question_mark, slash};
ghost use Rattle.uv_model.specs.Path.{is_without, starts_with_slash};
ghost use Rattle.uv_model.specs.Parts.{written_after};
ghost use Rattle.uv_grammar.specs.Slices.{chars_of, chars_of_option};
ghost use Rattle.uv_grammar.specs.TextSplits.{SplitsAtSlash, SplitsMarks};

pub(crate) mod beginnings;
pub(crate) mod search;

use crate::marks::search::first_mark;
use memchr::memchr2;

/// What is before the first such mark, and what follows it where there is one.
#[inline(always)]
pub(crate) fn split_at_mark<'t>(text: &'t str, mark: char) -> (&'t str, Option<&'t str>)
    requires { mark < 128 }
    ensures joined { chars text.now ≡ chars_of result.0 ++ written_after mark (chars_of_option result.1) }
    ensures first { is_without mark (chars_of result.0) ≡ true }
{
    match first_mark(text.as_bytes(), mark as u8) {
        Some(end) => (&text[..end], Some(&text[end + 1..])),
        None => (text, None),
    }
}

/// What is before the first `?` or `#`, the query where `?` comes first, and the fragment after the first `#`. In
/// a text of 32 bytes or more both are searched for at once, since most texts have neither.
#[inline(always)]
pub(crate) fn split_marks<'t>(text: &'t str) -> (&'t str, Option<&'t str>, Option<&'t str>)
    ensures { SplitsMarks (chars text.now) (chars_of result.0) (chars_of_option result.1) (chars_of_option result.2) }
{
    if text.len() < 32 {
        return split_marks_in_turn(text);
    }
    match memchr2(b'?', b'#', text.as_bytes()) {
        Some(end) => split_after_mark(text, end),
        None => (text, None, None),
    }
}

// What is before the first `?` or `#`, the query and the fragment, by a search for each mark: two searches are cheaper
// for a short text.
#[inline(always)]
fn split_marks_in_turn<'t>(text: &'t str) -> (&'t str, Option<&'t str>, Option<&'t str>)
    ensures { SplitsMarks (chars text.now) (chars_of result.0) (chars_of_option result.1) (chars_of_option result.2) }
{
    let (prefix, fragment) = split_at_mark(text, '#');
    let (start, query) = split_at_mark(prefix, '?');
    (start, query, fragment)
}

// What is before the first `?` or `#`, the query and the fragment, where this is the place of the first of both.
#[inline(always)]
fn split_after_mark<'t>(text: &'t str, end: usize) -> (&'t str, Option<&'t str>, Option<&'t str>)
    requires { IsFirstByte (is_byte2 question_mark number_sign) text.now (Some end) }
    ensures { SplitsMarks (chars text.now) (chars_of result.0) (chars_of_option result.1) (chars_of_option result.2) }
{
    let (start, rest) = (&text[..end], &text[end + 1..]);
    if has_question_mark(text.as_bytes(), end) {
        let (query, fragment) = split_at_mark(rest, '#');
        (start, Some(query), fragment)
    } else {
        (start, None, Some(rest))
    }
}

fn has_question_mark(bytes: &[u8], place: usize) -> bool
    requires { place < length bytes.now }
    ensures { result ≡ (slice_index bytes.now place == question_mark) }
{
    bytes[place] == b'?'
}

/// What is before the first `/`, and what begins with it.
#[inline(always)]
pub(crate) fn split_at_slash<'t>(text: &'t str) -> (&'t str, &'t str)
    ensures { SplitsAtSlash (chars text.now) (chars_of result.0) (chars_of result.1) }
{
    match first_mark(text.as_bytes(), b'/') {
        Some(end) => (&text[..end], &text[end..]),
        None => (text, &text[text.len()..]),
    }
}

/// What follows a `/` at the text's start.
#[inline(always)]
pub(crate) fn after_slash<'t>(text: &'t str) -> Option<&'t str>
    ensures { MatchOption result (starts_with_slash (chars text.now) ≡ false)
        (λ r. chars text.now ≡ slash ∷ chars_of r) }
{
    text.strip_prefix('/')
}
