//! What a text is read against.
ghost use Rattle.std.specs.Prelude.{◌≡◌, None};
ghost use Rattle.std.specs.Str.{chars};
ghost use Rattle.uv_model.specs.Scheme.{default_port, scheme_class};
ghost use Rattle.uv_model.specs.Setting.{scheme_or, setting_of};
ghost use Rattle.uv_grammar.specs.Bases.{as_base};
ghost use Rattle.uv_grammar.specs.Slices.{chars_of_option};

use crate::bases::Base;
use std::marker::Model;
use uv_model::{Class, Profile, default_port, is_name};

/// The profile, the base, and the class and the default port of the text's scheme, or otherwise of the base's. A text's
/// setting is made once and handed down.
#[derive(Drop)]
pub(crate) struct Setting<'b> {
    pub(crate) profile: Profile,
    pub(crate) base: Option<Base<'b>>,
    pub(crate) class: Class,
    pub(crate) default_port: Option<u16>,
}

impl<'b> Model for Setting<'b> {
    ghost use Rattle.uv_grammar.specs.Bases.{as_base};
    ghost use Rattle.uv_model.specs.Setting.{Setting};

    ghost Value = { Setting };

    ghost view = { λ s. record {
      profile = s.profile;
      base = as_base s.base;
      class = s.class;
      default_port = s.default_port;
    } };
}

impl<'b> Setting<'b> {
    /// The setting of a text with this scheme, or without one.
    #[inline(always)]
    pub(crate) fn of(base: Option<Base<'b>>, scheme: Option<&str>, profile: Profile) -> Setting<'b>
        ensures { result ≡ setting_of profile (as_base base.entry) (chars_of_option scheme.entry) }
    {
        let scheme = scheme_against(base, scheme);
        let default_port = port_of(scheme);
        Setting {
            profile,
            base,
            class: class_beside(scheme, default_port),
            default_port,
        }
    }
}

// The scheme, or otherwise the base's, or otherwise nothing.
#[inline(always)]
fn scheme_against<'s>(base: Option<Base<'s>>, scheme: Option<&'s str>) -> &'s str
    ensures { chars result.now ≡ scheme_or (as_base base.entry) (chars_of_option scheme.entry) }
{
    match (scheme, base) {
        (Some(scheme), _) => scheme,
        (None, Some(base)) => base.scheme(),
        (None, None) => "",
    }
}

// The default port of a scheme. Those that most links have are known as they are mostly written.
fn port_of(scheme: &str) -> Option<u16>
    ensures { result ≡ default_port (chars scheme.now) }
{
    if scheme == "https" {
        return Some(443);
    }
    if scheme == "http" {
        return Some(80);
    }
    if scheme == "file" {
        return None;
    }
    default_port(scheme)
}

// The class of a scheme with this default port.
fn class_beside(scheme: &str, port: Option<u16>) -> Class
    requires { port ≡ default_port (chars scheme.now) }
    ensures { result ≡ scheme_class (chars scheme.now) }
{
    match port {
        Some(_) => Class::SpecialNotFile,
        None => if scheme == "file" {
            Class::File
        } else if is_name(scheme, "file") {
            Class::File
        } else {
            Class::Other
        },
    }
}
