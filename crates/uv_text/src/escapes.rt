//! Percent-encoding of texts of URL units.
ghost use Rattle.std.specs.Prelude.{◌≡◌, ◌++◌, IfOk, OnErr, OnOk, string_bytes};
ghost use Rattle.std.specs.Str.{IsAscii, chars};
ghost use Rattle.uv_model.specs.Encoding.{encoded};

use percent_encoding::{AsciiSet, ascii_set, utf8_percent_encode};
use std::alloc::{AllocError, Global};

// Only the code points beyond ASCII, which every percent-encode set holds.
const BEYOND_ASCII: AsciiSet = ascii_set!(AsciiSet::EMPTY);

// The code points beyond ASCII and `'`, which the special-query percent-encode set changes in a text of units.
const SPECIAL_QUERY: AsciiSet = ascii_set!(AsciiSet::EMPTY.add(b'\''));

/// The text with each code point beyond ASCII as the escapes of its UTF-8 bytes, and with `quote` also `'` as `%27`
/// (URL Standard, section 1.3). All else stays, escapes too. An error means that memory ran out.
pub fn encode(alloc: Global, text: &str, quote: bool) -> Result<String, AllocError>
    ensures text { IfOk result (λ out. string_bytes out ≡ encoded quote (chars text.now)) }
    ensures ascii { IfOk result (λ out. IsAscii (string_bytes out)) }
{
    let mut out = String::new(alloc);
    push_encoded(&mut out, text, quote)?;
    Ok(out)
}

/// Appends the text to a string, with each code point beyond ASCII as the escapes of its UTF-8 bytes, and with `quote`
/// also `'` as `%27`. An error means that memory ran out, and leaves the string as it was.
pub fn push_encoded(out: &mut String, text: &str, quote: bool) -> Result<(), AllocError>
    ensures text { OnOk result (string_bytes out.new ≡ string_bytes out.old ++ encoded quote (chars text.now)) }
    ensures kept { OnErr result (string_bytes out.new ≡ string_bytes out.old) }
{
    let set = if quote { SPECIAL_QUERY } else { BEYOND_ASCII };
    utf8_percent_encode(text, set).append_to(out)
}
