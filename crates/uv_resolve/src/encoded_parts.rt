//! Parts percent-encoded, which leaves most of them as they are: such a part is copied at once.
ghost use Rattle.std.specs.Prelude.{◌≡◌, ◌++◌, IfOk, OnOk, chars, string_bytes};
ghost use Rattle.std.specs.Str.{IsAscii};
ghost use Rattle.uv_model.specs.Encoding.{encoded};

use crate::kept::is_never_encoded;
use std::alloc::{AllocError, Global};
use uv_model::Text;
use uv_text::{encode, push_encoded};

/// The text percent-encoded, and with `quote` also `'` (URL Standard, section 1.3). An error is out of memory.
pub(crate) fn encoded_part(alloc: Global, text: &str, quote: bool) -> Result<String, AllocError>
    ensures text { IfOk result (λ out. string_bytes out ≡ encoded quote (chars text.now)) }
    ensures ascii { IfOk result (λ out. IsAscii (string_bytes out)) }
{
    if is_never_encoded(text) {
        return String::from_str(alloc, text);
    }
    encode(alloc, text, quote)
}

/// The text percent-encoded, and with `quote` also `'`, as a record holds it. An error is out of memory.
pub(crate) fn encoded_text(alloc: Global, text: &str, quote: bool) -> Result<Text, AllocError>
    ensures { IfOk result (λ out. out ≡ encoded quote (chars text.now)) }
{
    if is_never_encoded(text) {
        return Text::copy_of(alloc, text);
    }
    Ok(Text::of(encode(alloc, text, quote)?))
}

/// Writes the text percent-encoded, and with `quote` also `'`, after what is in a string. An error is out of memory.
pub(crate) fn push_encoded_part(out: &mut String, text: &str, quote: bool) -> Result<(), AllocError>
    ensures { OnOk result (string_bytes out.new ≡ string_bytes out.old ++ encoded quote (chars text.now)) }
{
    if is_never_encoded(text) {
        return out.push_str(text);
    }
    push_encoded(out, text, quote)
}
