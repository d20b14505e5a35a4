//! Forbidden host code points.
ghost use Rattle.std.specs.Prelude.{◌≡◌};
ghost use Rattle.uv_model.specs.Hosts.OpaqueHost as spec;

/// Whether a code point is a forbidden host code point (URL Standard, section 3.2).
#[tactic(auto, using(std::proofs::lemmas::Bool::Decides::nat_tests))]
pub fn is_forbidden_host(c: char) -> bool
    ensures { result ≡ spec.is_forbidden_host c }
{
    match c {
        '\0' | '\t' | '\n' | '\r' | ' ' | '#' | '/' | ':' => true,
        '<' | '>' | '?' | '@' | '[' | '\\' | ']' | '^' | '|' => true,
        _ => false,
    }
}
