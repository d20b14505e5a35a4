//! How a mended text relates to the refused one.
ghost use Rattle.std.specs.Prelude.{◌≡◌, ◌↔◌, IfOk, IsTrue, chars, option_copied};
ghost use Rattle.uv_mend.specs.Escapes.{escaped};
ghost use Rattle.uv_mend.specs.Kinds.{IsKind};

use crate::escapes::escaped;
use crate::second_parser::reads_same;
use std::alloc::{AllocError, Global};
use uv_model::{MendKind, Record};

/// The kind of a mended text. An error means that memory ran out.
pub(crate) fn kind_of(
    alloc: Global,
    text: &str,
    mended: &str,
    base: Option<&Record>,
) -> Result<MendKind, AllocError>
    ensures { IfOk result (IsKind (option_copied base.entry) text.now mended.now) }
{
    if reads_same(alloc, base, text, mended)? {
        Ok(MendKind::Same)
    } else if is_escaped(alloc, text, mended)? {
        Ok(MendKind::Escaped)
    } else {
        Ok(MendKind::Changed)
    }
}

// Whether the mended text is the other one with everything that isn't a unit written as escapes.
fn is_escaped(alloc: Global, text: &str, mended: &str) -> Result<bool, AllocError>
    ensures { IfOk result (λ is. IsTrue is ↔ (chars mended.now ≡ escaped (chars text.now))) }
{
    let written = escaped(alloc, text)?;
    Ok(written.as_str() == mended)
}
