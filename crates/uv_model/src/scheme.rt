//! Schemes, their classes and their default ports.
ghost use Rattle.std.specs.Prelude.{◌≡◌, true};
ghost use Rattle.std.specs.Str.{bytes_eq, chars};
ghost use Rattle.uv_model.specs.Scheme.{default_port, is_lowercase_ascii, lowercase, scheme_class};

/// How the rules for texts and the parser treat a scheme.
#[derive(Clone, Copy, Debug, PartialEq, Eq)]
pub enum Class {
    /// `ftp`, `http`, `https`, `ws` and `wss`.
    SpecialNotFile,
    /// `file`.
    File,
    /// Every other scheme.
    Other,
}

/// The class of a scheme in any case (URL Standard, section 4.2).
#[tactic(auto, unfolding(crate::specs::Scheme::scheme_class, crate::specs::Scheme::default_port))]
pub fn class_of(scheme: &str) -> Class
    ensures { result ≡ scheme_class (chars scheme.now) }
{
    if is_name(scheme, "file") {
        return Class::File;
    }
    match default_port(scheme) {
        Some(_) => Class::SpecialNotFile,
        None => Class::Other,
    }
}

/// The default port of a scheme in any case, which all special schemes except `file` have (URL Standard, section 4.2).
#[tactic(auto, unfolding(crate::specs::Scheme::default_port))]
pub fn default_port(scheme: &str) -> Option<u16>
    ensures { result ≡ default_port (chars scheme.now) }
{
    if is_name(scheme, "ftp") {
        return Some(21);
    }
    if is_name(scheme, "http") {
        return Some(80);
    }
    if is_name(scheme, "https") {
        return Some(443);
    }
    if is_name(scheme, "ws") {
        return Some(80);
    }
    if is_name(scheme, "wss") {
        return Some(443);
    }
    None
}

/// Whether a text is this name in any ASCII case. The name is in lower case.
pub fn is_name(text: &str, name: &str) -> bool
    requires { is_lowercase_ascii name.now ≡ true }
    ensures { result ≡ bytes_eq (lowercase (chars text.now)) name.now }
{
    text.eq_ignore_ascii_case(name)
}
