//! The parts of a text, built from its cut and the values of its host and its port.
ghost use Rattle.std.specs.Prelude.{◌≡◌, Option, false, option_map};
ghost use Rattle.std.specs.Str.{chars};
ghost use Rattle.uv_model.specs.Cut.{IsCut};
ghost use Rattle.uv_model.specs.Records.Url.{Url};
ghost use Rattle.uv_grammar.specs.Built.{built, form_of, form_with};
ghost use Rattle.uv_grammar.specs.Form.{seen_form};
ghost use Rattle.uv_grammar.specs.PartsHost.{as_host};

use crate::cut::Cut;
use crate::ends::ends_of;
use crate::form::Form;
use crate::marks::beginnings::has_slash;
use crate::parts::Parts;
use crate::parts_host::PartsHost;

/// The parts of a text by its cut. It is inlined, as each part would else be copied once more.
#[inline(always)]
pub(crate) fn build<'t>(
    text: &'t str,
    cut: Cut<'t>,
    host: Option<PartsHost<'t>>,
    port: Option<u16>,
) -> Parts<'t>
    requires { (base : Option Url) × IsCut base (chars text.now) cut }
    ensures { result ≡ built cut.entry (option_map as_host host.entry) port }
{
    let form = form_of(&cut);
    let ends = ends_of(text.len(), &cut);
    Parts {
        text,
        ends,
        form,
        host,
        port,
    }
}

// The form of a cut text.
#[inline(always)]
fn form_of(cut: &Cut) -> Form
    ensures { seen_form result ≡ form_of cut.now }
{
    match (cut.scheme, cut.host_text) {
        (Some(_), Some(_)) => Form::SchemeAuthority,
        (None, Some(_)) => Form::Authority,
        (Some(_), None) => if has_slash(cut.path_text) {
            Form::SchemePath
        } else {
            Form::SchemeOpaque
        },
        (None, None) => reference_form(cut.path_text),
    }
}

// The form of a text with neither a scheme nor an authority.
#[inline(always)]
fn reference_form(path_text: &str) -> Form
    ensures { seen_form result ≡ form_with false false (chars path_text.now) }
{
    if path_text.is_empty() {
        Form::NoPath
    } else if has_slash(path_text) {
        Form::PathAbsolute
    } else {
        Form::PathRelative
    }
}
