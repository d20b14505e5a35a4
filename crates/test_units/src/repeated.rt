//! Texts that repeat a piece, so that what comes after it is tried at each length.
ghost use Rattle.std.specs.Prelude.{◌≡◌, ◌++◌, IfOk, string_bytes};
ghost use Rattle.std.specs.List.{repeat};

use std::alloc::{AllocError, Global};

/// A piece this many times, and what comes after it.
pub fn repeated_before(
    alloc: Global,
    piece: &str,
    count: usize,
    after: &str,
) -> Result<String, AllocError>
    ensures { IfOk result (λ text. string_bytes text ≡ repeat count piece.now ++ after.now) }
{
    let mut text = piece.repeat(alloc, count)?;
    text.push_str(after)?;
    Ok(text)
}
