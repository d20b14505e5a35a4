//! The forms that ToASCII gives of texts, if they have the lengths of a domain (URL Standard, sections 3.3 and 3.5; UTS
//! #46, section 4).
ghost use Rattle.std.specs.Cow.{cow_str_bytes};
ghost use Rattle.std.specs.Prelude.{chars, encode_utf8_all, IfOk, IsTrue, None, option_map, ◌≡◌};
ghost use Rattle.idna.specs.Uts46.{to_ascii, to_unicode};
ghost use Rattle.uv_host.specs.FittingForms.{fitting_form, has_long_label, is_long_name};

use crate::domains::has_lengths;
use idna::uts46::{DnsLength, ErrorPolicy, Hyphens, ProcessingError, ProcessingSuccess, Uts46};
use idna::{AsciiDenyList, Errors};
use std::alloc::{AllocError, Global};
use std::borrow::CowStr;
use uv_text::count_code_points;

/// The most code points of a label of a domain (URL Standard, section 3.3).
const LONGEST_LABEL: usize = 63;

/// The most code points of a whole domain, not counting a full stop at its end.
const LONGEST_NAME: usize = 253;

/// The form that ToASCII gives with these settings, if it has the lengths of a domain. Punycode takes quadratic time,
/// so a name that is too long in Unicode is refused before it is made. A short text needs no such check.
pub(crate) fn fitting_form<'a>(
    alloc: Global,
    text: &'a str,
    deny: AsciiDenyList,
    hyphens: Hyphens,
) -> Result<Option<CowStr<'a>>, AllocError>
    ensures { IfOk result (λ form. option_map cow_str_bytes form ≡ fitting_form deny hyphens (chars text.now)) }
{
    if text.len() > LONGEST_NAME && is_misfit(alloc, text, deny, hyphens)? {
        return Ok(None);
    }
    let Some(form) = ascii_form(alloc, text, deny, hyphens)? else {
        return Ok(None);
    };
    if has_lengths(form.as_str()) {
        Ok(Some(form))
    } else {
        Ok(None)
    }
}

/// Whether ToUnicode (UTS #46, section 4.3), which makes no Punycode, shows that no form of a text has the lengths of a
/// domain: it refuses the text, as ToASCII then does, or it gives a label that is too long. Punycode has no fewer code
/// points than what it stands for. A no means only that this isn't shown.
fn is_misfit(
    alloc: Global,
    text: &str,
    deny: AsciiDenyList,
    hyphens: Hyphens,
) -> Result<bool, AllocError>
    ensures { IfOk result (λ answer. IsTrue answer → fitting_form deny hyphens (chars text.now) ≡ None) }
{
    match unicode_name(alloc, text, deny, hyphens)? {
        Some(name) => Ok(is_long_name(name.as_str())),
        None => Ok(true),
    }
}

/// ToUnicode (UTS #46, section 4.3); `None` if it has an error. `Uts46::process` gives that with a policy by which each
/// label stays in Unicode, and ends at the first error. `Uts46::to_unicode` would go on to mark each error.
fn unicode_name<'a>(
    alloc: Global,
    text: &'a str,
    deny: AsciiDenyList,
    hyphens: Hyphens,
) -> Result<Option<CowStr<'a>>, AllocError>
    ensures { IfOk result (λ name. option_map cow_str_bytes name
        ≡ to_unicode deny hyphens (encode_utf8_all (chars text.now))) }
{
    let mut name = String::new(alloc);
    match Uts46::new().process(
        alloc,
        text.as_bytes(),
        deny,
        hyphens,
        ErrorPolicy::FailFast,
        |_, _, _| true,
        &mut name,
        None,
    ) {
        Ok(ProcessingSuccess::Passthrough) => Ok(Some(CowStr::Borrowed(text))),
        Ok(ProcessingSuccess::WroteToSink) => Ok(Some(CowStr::Owned(name))),
        Err(ProcessingError::ValidityError) => Ok(None),
        Err(ProcessingError::SinkError | ProcessingError::OutOfMemory) => Err(AllocError),
    }
}

/// Whether a name in Unicode, or a label of it, has more code points than any domain's. It may end with a full stop.
fn is_long_name(name: &str) -> bool
    ensures { result ≡ is_long_name (chars name.now) }
{
    count_code_points(name) > LONGEST_NAME + 1 || has_long_label(name)
}

/// Whether a label of a name has more code points than any label of a domain.
fn has_long_label(name: &str) -> bool
    ensures { result ≡ has_long_label (chars name.now) }
{
    let mut length = 0;
    for c in name.chars() {
        if c == '.' {
            length = 0;
        } else if length == LONGEST_LABEL {
            return true;
        } else {
            length += 1;
        }
    }
    false
}

/// ToASCII (UTS #46, section 4.2), nontransitional, with CheckBidi and CheckJoiners, and without the check of the
/// lengths.
fn ascii_form<'a>(
    alloc: Global,
    text: &'a str,
    deny: AsciiDenyList,
    hyphens: Hyphens,
) -> Result<Option<CowStr<'a>>, AllocError>
    ensures { IfOk result (λ form. option_map cow_str_bytes form
        ≡ to_ascii deny hyphens DnsLength.Ignore (encode_utf8_all (chars text.now))) }
{
    match Uts46::new().to_ascii(alloc, text.as_bytes(), deny, hyphens, DnsLength::Ignore) {
        Ok(form) => Ok(Some(form)),
        Err(Errors::Invalid) => Ok(None),
        Err(Errors::OutOfMemory) => Err(AllocError),
    }
}
