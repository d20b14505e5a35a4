//! Texts of records, which are ASCII.
ghost use Rattle.std.specs.Prelude.{◌≡◌, IfOk, []};
ghost use Rattle.std.specs.Str.{IsAscii, IsNotAscii};

use std::alloc::{AllocError, Global};
use uv_model::Text;

/// An ASCII text; the empty one in place of any other.
pub fn ascii(alloc: Global, text: &str) -> Result<Text, AllocError>
    ensures kept { IsAscii text.now → IfOk result (λ made. made ≡ text.now) }
    ensures emptied { IsNotAscii text.now → IfOk result (λ made. made ≡ []) }
{
    let string = String::from_str(alloc, text)?;
    if string.as_str().is_ascii() {
        Ok(Text::of(string))
    } else {
        Ok(Text::of(String::new(alloc)))
    }
}
