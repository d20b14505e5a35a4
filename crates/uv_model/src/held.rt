//! Where the texts of a record are.
ghost use Rattle.std.specs.Prelude.{◌≡◌, ◌++◌, IfOk, if◌then◌else◌, is_ok, string_bytes, take};
ghost use Rattle.std.specs.String.Boundary.{IsSplitPoint};
ghost use Rattle.uv_model.specs.Records.Held.{held_text};

use arrayvec::ArrayString;
use std::alloc::{AllocError, Global};

/// Where a text is: one of at most this many bytes needs no allocation.
#[derive(Debug, Drop)]
pub(crate) enum Held<const SHORT: usize> {
    /// In the value itself.
    Short(ArrayString<SHORT>),
    /// In an allocation.
    Long(String),
}

impl<const SHORT: usize> Held<SHORT> {
    /// A copy of a text. An error means that memory ran out.
    #[inline]
    pub(crate) fn copy_of(alloc: Global, text: &str) -> Result<Held<SHORT>, AllocError>
        ensures { IfOk result (λ held. held_text held ≡ text.now) }
    {
        match ArrayString::from(text) {
            Ok(short) => Ok(Held::Short(short)),
            Err(_) => Ok(Held::Long(String::from_str(alloc, text)?)),
        }
    }

    /// The text as a slice.
    #[inline]
    pub(crate) fn as_str(&self) -> &str
        ensures { result.now ≡ held_text self.now }
    {
        match self {
            Held::Short(text) => text.as_str(),
            Held::Long(text) => text.as_str(),
        }
    }

    /// Appends a text. An error means that memory ran out, and nothing was appended.
    pub(crate) fn push_str(&mut self, alloc: Global, text: &str) -> Result<(), AllocError>
        ensures { held_text self.new
            ≡ (if is_ok result then held_text self.old ++ text.now else held_text self.old) }
    {
        match self {
            Held::Short(short) => {
                let whole = joined(alloc, short.as_str(), text)?;
                *self = Held::Long(whole);
                Ok(())
            }
            Held::Long(long) => long.push_str(text),
        }
    }

    /// Keeps only this many bytes from the start.
    pub(crate) fn truncate(&mut self, length: usize)
        requires { IsSplitPoint (held_text self.old) length }
        ensures { held_text self.new ≡ take length (held_text self.old) }
    {
        match self {
            Held::Short(short) => short.truncate(length),
            Held::Long(long) => long.truncate(length),
        }
    }
}

// Two texts, one after the other, as a new one. An error means that memory ran out.
fn joined(alloc: Global, first: &str, second: &str) -> Result<String, AllocError>
    ensures { IfOk result (λ whole. string_bytes whole ≡ first.now ++ second.now) }
{
    let mut whole = String::with_capacity(alloc, first.len().saturating_add(second.len()))?;
    whole.push_str(first)?;
    whole.push_str(second)?;
    Ok(whole)
}
