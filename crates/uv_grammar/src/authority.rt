//! The host and the port of a cut text: each host by its class in `host`, by its text in `host_text`.
pub(crate) mod host;
mod host_text;
pub(crate) mod port;

ghost use Rattle.std.specs.Prelude.{◌≡◌, ◌==◌, IfOk, IsOk, length};
ghost use Rattle.std.specs.Str.{chars};
ghost use Rattle.uv_model.specs.Cut.{ends_at_host};
ghost use Rattle.uv_model.specs.Violations.Violation.{HostPartViolation, PortPartViolation};
ghost use Rattle.uv_grammar.specs.PartsHost.{FitsPartsHost};
ghost use Rattle.uv_grammar.specs.Checked.{IsChecked};
ghost use Rattle.uv_grammar.specs.NoMemory.{HostPartTakesNoMemory};
ghost use Rattle.uv_grammar.specs.PartViolations.{IsCountable};
ghost use Rattle.uv_grammar.specs.PartValues.{FitsHostPart, FitsPortPart, without_default};

use crate::authority::host::check_host;
use crate::authority::port::check_port;
use crate::checked::Checked;
use crate::cut::Cut;
use crate::parser_paths::is_followed;
use crate::parts_host::PartsHost;
use crate::places::{host_place, port_place, refusal_after};
use crate::setting::Setting;
use std::alloc::{AllocError, Global};

/// The host of a cut text, a refusal counted from the text's start. The error is out of memory. It is inlined, as the
/// texts of the cut would else be stored.
#[inline(always)]
pub(crate) fn check_host_part<'t>(
    alloc: Global,
    cut: &Cut<'t>,
    setting: &Setting,
) -> Result<Checked<Option<PartsHost<'t>>>, AllocError>
    requires { IsCountable cut.now }
    ensures answer { IfOk result
        (IsChecked (FitsPartsHost (FitsHostPart setting.now cut.now)) (HostPartViolation setting.now cut.now)) }
    ensures memory { HostPartTakesNoMemory setting.now cut.now.host_text → IsOk result }
{
    let Some(host_text) = cut.host_text else {
        return Ok(Checked::Valid(None));
    };
    match check_host(
        alloc,
        setting.class,
        host_text,
        cut.port_text,
        cut.path_text,
        ends_at_host(cut),
        setting.profile,
    )? {
        Checked::Valid(host) => Ok(Checked::Valid(host)),
        Checked::Refused(refusal) => Ok(Checked::Refused(refusal_after(host_place(cut), refusal))),
    }
}

// Nothing of the text is after the host.
#[inline(always)]
fn ends_at_host(cut: &Cut) -> bool
    ensures { result ≡ ends_at_host cut.now }
{
    is_blank(cut.path_text) && !(cut.port_text.is_some() || is_followed(cut))
}

// The text has no code point.
fn is_blank(text: &str) -> bool
    ensures { result ≡ (length (chars text.now) == 0) }
{
    text.is_empty()
}

/// The port of a cut text, a refusal counted from the text's start.
#[inline(always)]
pub(crate) fn check_port_part(cut: &Cut, setting: &Setting) -> Checked<Option<u16>>
    requires { IsCountable cut.now }
    ensures { IsChecked (FitsPortPart setting.now cut.now) (PortPartViolation cut.now) result }
{
    match (cut.host_text, cut.port_text) {
        (Some(host_text), Some(port_text)) => match check_port(port_text) {
            Checked::Valid(number) => Checked::Valid(without_default(setting.default_port, number)),
            Checked::Refused(refusal) => {
                Checked::Refused(refusal_after(port_place(cut, host_text), refusal))
            }
        },
        _ => Checked::Valid(None),
    }
}

/// A port's number that isn't the default.
pub(crate) fn without_default(default: Option<u16>, number: Option<u16>) -> Option<u16>
    ensures { result ≡ without_default default number }
{
    match (default, number) {
        (Some(default), Some(number)) => if number == default {
            None
        } else {
            Some(number)
        },
        (None, Some(number)) => Some(number),
        (_, None) => None,
    }
}
