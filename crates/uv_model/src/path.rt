//! Paths.
ghost use Rattle.std.specs.Prelude.{◌≡◌, IfOk};
ghost use Rattle.uv_model.specs.Records.Serialize.{serial_path};

use crate::path_text::PathText;
use crate::text::Text;
use std::alloc::{AllocError, Global};

/// The path of a URL.
#[derive(Debug, Drop)]
pub enum UrlPath {
    /// An opaque path, which only a URL that isn't special and has no host may have.
    Opaque(Text),
    /// A list of segments.
    Segments(PathText),
}

impl UrlPath {
    /// The path serialized (URL Standard, section 4.5).
    pub fn as_str(&self) -> &str
        ensures { result.now ≡ serial_path self.now }
    {
        match self {
            UrlPath::Opaque(text) => text.as_str(),
            UrlPath::Segments(path) => path.as_str(),
        }
    }

    /// An equal path. An error means that memory ran out.
    pub fn copy(&self, alloc: Global) -> Result<UrlPath, AllocError>
        ensures { IfOk result (λ path. path ≡ self.now) }
    {
        match self {
            UrlPath::Opaque(text) => Ok(UrlPath::Opaque(text.copy(alloc)?)),
            UrlPath::Segments(path) => Ok(UrlPath::Segments(path.copy(alloc)?)),
        }
    }
}
