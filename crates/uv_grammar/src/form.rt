//! The forms of valid URL strings.

/// How a valid URL string begins (URL Standard, section 4.3).
#[derive(Clone, Copy, PartialEq, Eq)]
pub enum Form {
    /// A scheme, `//` and a host.
    SchemeAuthority,
    /// A scheme and a path that begins with `/`.
    SchemePath,
    /// A scheme and an opaque path.
    SchemeOpaque,
    /// `//` and a host.
    Authority,
    /// A path that begins with `/`.
    PathAbsolute,
    /// A path that isn't empty and doesn't begin with `/`.
    PathRelative,
    /// An empty path.
    NoPath,
}
