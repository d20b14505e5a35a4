//! URL code points.
ghost use Rattle.std.specs.Prelude.{◌≡◌};
ghost use Rattle.uv_model.specs.Units as spec;

/// Whether a code point is a URL code point (URL Standard, section 4.3): one of these ASCII code points, or from U+00A0
/// on any but a noncharacter, which are U+FDD0 to U+FDEF and the last two of each plane.
#[tactic(auto, using(std::proofs::lemmas::Bool::Decides::nat_tests), unfolding(crate::specs::Units::is_url_code_point))]
pub fn is_url_code_point(c: char) -> bool
    ensures { result ≡ spec.is_url_code_point c }
{
    match c {
        'a'..='z' | 'A'..='Z' | '0'..='9' => true,
        '!' | '$' | '&'..='/' | ':' | ';' | '=' | '?' | '@' | '_' | '~' => true,
        '\u{FDD0}'..='\u{FDEF}' => false,
        '\u{A0}'..='\u{10FFFD}' => u32::from(c) % 0x10000 < 0xFFFE,
        _ => false,
    }
}
