//! The texts of a record, which are ASCII.
ghost use Rattle.std.specs.Prelude.{◌≡◌, IfOk, string_bytes};
ghost use Rattle.std.specs.Str.{IsAscii, chars};

use crate::held::Held;
use std::alloc::{AllocError, Global};
use std::marker::Model;

/// An owned ASCII text. A short one, as most names of hosts are, takes no memory. Contracts see its code points, which
/// are its bytes.
#[derive(Debug, Drop)]
pub struct Text {
    held: Held<24>,
}

impl Model for Text {
    ghost use Rattle.std.specs.Prelude.{ℕ, List};
    ghost use Rattle.std.specs.Str.{IsAscii};
    ghost use Rattle.uv_model.specs.Records.Held.{held_text};

    ghost Value = { List ℕ };

    ghost view = { λ t. held_text t.held };

    ghost invariant = { λ t. IsAscii (held_text t.held) };
}

impl Text {
    /// The text of an ASCII string, without a copy.
    #[inline]
    pub fn of(text: String) -> Text
        requires { IsAscii (string_bytes text) }
        ensures { result ≡ string_bytes text }
    {
        Text {
            held: Held::Long(text),
        }
    }

    /// A copy of an ASCII text. An error means that memory ran out.
    #[inline]
    pub fn copy_of(alloc: Global, text: &str) -> Result<Text, AllocError>
        requires { IsAscii text.now }
        ensures { IfOk result (λ copy. copy ≡ text.now) }
    {
        let held = Held::copy_of(alloc, text)?;
        Ok(Text { held })
    }

    /// The text as a slice.
    #[inline]
    pub fn as_str(&self) -> &str
        ensures text { result.now ≡ self.now }
        ensures ascii { IsAscii self.now }
        ensures code_points { chars result.now ≡ self.now }
    {
        self.held.as_str()
    }

    /// An equal text. An error means that memory ran out.
    pub fn copy(&self, alloc: Global) -> Result<Text, AllocError>
        ensures { IfOk result (λ t. t ≡ self.now) }
    {
        Text::copy_of(alloc, self.as_str())
    }
}
