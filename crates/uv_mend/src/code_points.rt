//! Texts by their code points.
ghost use Rattle.std.specs.Prelude.{◌≡◌, ◌∷◌, ◌++◌, ℕ, List, [], MatchOption, OnOk, chars};
ghost use Rattle.std.specs.Prelude.{encode_utf8_all, string_bytes};
ghost use Rattle.uv_mend.specs.CodePoints.{IsLastOf, IsRestOf};

use std::alloc::AllocError;

/// What is before a rest of a text.
pub(crate) fn before_rest<'t>(text: &'t str, rest: &str) -> &'t str
    requires { IsRestOf (chars text.now) (chars rest.now) }
    ensures { (before : List ℕ) → chars text.now ≡ before ++ chars rest.now → chars result.now ≡ before }
{
    &text[..text.len() - rest.len()]
}

/// The last code point and those before it, or `None` if there is none.
pub(crate) fn last_code_point(text: &str) -> Option<(&str, char)>
    ensures { MatchOption result (chars text.now ≡ []) (λ last. IsLastOf (chars text.now) (chars last.0.now) last.1) }
{
    let mut left = text.chars();
    match left.next_back() {
        Some(c) => Some((left.as_str(), c)),
        None => None,
    }
}

/// Appends a text. An error means that memory ran out.
pub(crate) fn push_text(out: &mut String, text: &str) -> Result<(), AllocError>
    ensures { OnOk result (string_bytes out.new ≡ string_bytes out.old ++ encode_utf8_all (chars text.now)) }
{
    out.push_str(text)
}

/// Appends one code point. An error means that memory ran out.
pub(crate) fn push_one(out: &mut String, c: char) -> Result<(), AllocError>
    ensures { OnOk result (string_bytes out.new ≡ string_bytes out.old ++ encode_utf8_all (c ∷ [])) }
{
    out.push(c)
}
