//! A text cut after its longest prefix of URL units, by lanes if it is ASCII.
ghost use Rattle.std.specs.Prelude.{◌≡◌, ◌<◌, ◌==◌, ◌++◌, IfSome, MatchOption, drop, false, length, true};
ghost use Rattle.std.specs.Str.{IsUtf8, chars};
ghost use Rattle.uv_model.specs.Ascii.{percent_sign};
ghost use Rattle.uv_text.specs.Splits.{IsUnitSplit, PassesMarks, PassesUnits, class_has, starts_beyond_ascii};
ghost use Rattle.uv_text.specs.Splits.{starts_in};
ghost use Rattle.uv_text.specs.Splits.{starts_with_mark, unit_length};

use crate::tail::Tail;
use crate::units::UnitClass;
use uv_model::{first_code_point, is_url_code_point};

/// The longest prefix in which each code point is of the class, begins a percent-encoded byte or is a URL code point
/// beyond ASCII (URL Standard, section 4.3), and what follows it.
pub fn split_units<'t>(text: &'t str, class: UnitClass) -> (&'t str, &'t str)
    ensures { IsUnitSplit (class_has class) (chars text.now) (chars result.0.now) (chars result.1.now) }
{
    let (prefix, rest) = split_tail(&Tail::of(text), class);
    (prefix, rest.as_str())
}

/// The longest prefix of a tail that `split_units` gives for the class, and the tail that follows it.
/// Most texts have no escape and no code point beyond ASCII, and their prefix is one run.
#[inline(always)]
pub fn split_tail<'t>(text: &Tail<'t>, class: UnitClass) -> (&'t str, Tail<'t>)
    ensures { IsUnitSplit (class_has class) (chars text.now) (chars result.0.now) (chars result.1) }
{
    let (run, rest) = split_run(text, class);
    if !may_begin_mark(rest.as_str().as_bytes()) {
        return (run, rest);
    }
    let rest = after_rest(rest, class);
    let whole = text.as_str();
    (&whole[..whole.len() - rest.as_str().len()], rest)
}

// Whether the first byte is `%` or beyond ASCII.
#[inline(always)]
fn may_begin_mark(bytes: &[u8]) -> bool
    ensures { result ≡ false → starts_with_mark (chars bytes.now) ≡ false }
{
    match bytes {
        [first, ..] => *first == b'%' || !first.is_ascii(),
        [] => false,
    }
}

// What follows the prefix of a text that doesn't begin with a byte of the class.
fn after_rest<'t>(text: Tail<'t>, class: UnitClass) -> Tail<'t>
    requires { starts_in (class_has class) (chars text) ≡ false }
    ensures { chars result ≡ drop (unit_length (class_has class) (chars text.entry)) (chars text.entry) }
{
    let mut rest = text;
    while let Some(after) = after_more(&rest, class) {
        rest = after;
    }
    rest
}

// What comes after more of the prefix, if the text begins with an escape or a URL code point beyond ASCII.
fn after_more<'t>(text: &Tail<'t>, class: UnitClass) -> Option<Tail<'t>>
    requires { starts_in (class_has class) (chars text.now) ≡ false }
    ensures passes { MatchOption result (starts_with_mark (chars text.now) ≡ false)
        (λ rest. PassesUnits (class_has class) (chars text.now) (chars rest)) }
    ensures stops { IfSome result (λ rest. starts_in (class_has class) (chars rest) ≡ false) }
    ensures shorter { IfSome result (λ rest. length (chars rest) < length (chars text.now)) }
{
    if starts_with_percent(text.as_str().as_bytes()) {
        return after_escapes(text, class);
    }
    match after_beyond_ascii(text.as_str()) {
        Some(after) => Some(after_run(&text.ending(after), class)),
        None => None,
    }
}

// Whether the first byte is `%`.
fn starts_with_percent(bytes: &[u8]) -> bool
    ensures { result ≡ starts_in (λ b. b == percent_sign) bytes.now }
{
    match bytes {
        [first, ..] => *first == b'%',
        [] => false,
    }
}

// What comes after a run of percent-encoded bytes and bytes of the class, if a text that begins with `%` begins with
// one.
fn after_escapes<'t>(text: &Tail<'t>, class: UnitClass) -> Option<Tail<'t>>
    requires { starts_in (λ b. b == percent_sign) text.now ≡ true }
    ensures passes { MatchOption result (starts_with_mark (chars text.now) ≡ false)
        (λ rest. PassesUnits (class_has class) (chars text.now) (chars rest)) }
    ensures stops { IfSome result (λ rest. starts_in (class_has class) (chars rest) ≡ false) }
    ensures shorter { IfSome result (λ rest. length (chars rest) < length (chars text.now)) }
{
    let run = text.unit_run(class);
    if run == 0 {
        return None;
    }
    let (_, rest) = text.split_at(run);
    Some(rest)
}

// What comes after a run of bytes of the class.
#[inline(always)]
fn after_run<'t>(text: &Tail<'t>, class: UnitClass) -> Tail<'t>
    ensures passes { PassesUnits (class_has class) (chars text.now) (chars result) }
    ensures stops { starts_in (class_has class) (chars result) ≡ false }
{
    let (_, rest) = split_run(text, class);
    rest
}

// A run of bytes of the class, and what comes after it.
#[inline(always)]
fn split_run<'t>(text: &Tail<'t>, class: UnitClass) -> (&'t str, Tail<'t>)
    ensures joined { result.0.now ++ result.1 ≡ text.now }
    ensures text { IsUtf8 text.now }
    ensures passes { PassesUnits (class_has class) (chars text.now) (chars result.1) }
    ensures stops { starts_in (class_has class) (chars result.1) ≡ false }
{
    text.split_at(text.class_run(class))
}

// What comes after a run of URL code points beyond ASCII, if the text begins with one. They come in runs, so each is
// passed without a look at the 32 bytes after it.
fn after_beyond_ascii(text: &str) -> Option<&str>
    ensures passes { MatchOption result (starts_beyond_ascii (chars text.now) ≡ false)
        (λ rest. PassesMarks (chars text.now) (chars rest.now)) }
    ensures shorter { IfSome result (λ rest. length (chars rest.now) < length (chars text.now)) }
{
    let mut rest = after_one_beyond_ascii(text)?;
    while let Some(after) = after_one_beyond_ascii(rest) {
        rest = after;
    }
    Some(rest)
}

// What comes after one of them.
fn after_one_beyond_ascii(text: &str) -> Option<&str>
    ensures passes { MatchOption result (starts_beyond_ascii (chars text.now) ≡ false)
        (λ rest. PassesMarks (chars text.now) (chars rest.now)) }
    ensures shorter { IfSome result (λ rest. length (chars rest.now) < length (chars text.now)) }
{
    let (c, rest) = first_code_point(text)?;
    if !c.is_ascii() && is_url_code_point(c) {
        Some(rest)
    } else {
        None
    }
}

/// How many code points a text has.
pub fn count_code_points(text: &str) -> usize
    ensures { result ≡ length (chars text.now) }
{
    text.chars().count()
}
