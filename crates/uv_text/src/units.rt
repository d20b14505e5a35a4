//! Classes of URL units: which ASCII code points are in them, besides escapes and URL code points beyond ASCII.
ghost use Rattle.std.specs.Prelude.{◌≡◌, ◌+◌, ◌≤◌, drop, length};
ghost use Rattle.std.specs.List.{prefix_len};
ghost use Rattle.uv_text.specs.Rows.{HoldClass};
ghost use Rattle.uv_text.specs.Splits.{ascii_unit_length, class_has};

use crate::byte_rows;
use crate::lanes::{row_end, unit_end};

// The ASCII URL code points.
const URL_ROWS: [u8; 16] = byte_rows!(
    b'0'..=b'9' | b'A'..=b'Z' | b'a'..=b'z' | b'!' | b'$' | b'&'..=b'/' | b':' | b';' | b'=' | b'?' | b'@' | b'_' | b'~'
);

// The ASCII URL code points except `?`.
const PATH_ROWS: [u8; 16] = byte_rows!(
    b'0'..=b'9' | b'A'..=b'Z' | b'a'..=b'z' | b'!' | b'$' | b'&'..=b'/' | b':' | b';' | b'=' | b'@' | b'_' | b'~'
);

// The ASCII URL code points except `/`, `:`, `?` and `@`.
const OPAQUE_HOST_ROWS: [u8; 16] = byte_rows!(
    b'0'..=b'9' | b'A'..=b'Z' | b'a'..=b'z' | b'!' | b'$' | b'&'..=b'.' | b';' | b'=' | b'_' | b'~'
);

/// The units that a part of a text may consist of, by their ASCII code points (URL Standard, section 4.3).
#[derive(Clone, Copy, PartialEq, Eq)]
pub enum UnitClass {
    /// The ASCII URL code points: for queries and fragments.
    Url,
    /// The ASCII URL code points except `?`: for a path, which a query may follow.
    Path,
    /// The ASCII URL code points except the forbidden host code points: for opaque hosts.
    OpaqueHost,
}

impl UnitClass {
    // The rows of its ASCII code points.
    #[inline(always)]
    fn rows(self) -> &'static [u8; 16]
        ensures { HoldClass result.now (class_has self) }
    {
        match self {
            UnitClass::Url => &URL_ROWS,
            UnitClass::Path => &PATH_ROWS,
            UnitClass::OpaqueHost => &OPAQUE_HOST_ROWS,
        }
    }

    /// The place after the longest run of bytes of the class that begins at a place. These are ASCII.
    #[inline(always)]
    pub fn run_end(self, bytes: &[u8], place: usize) -> usize
        requires { place ≤ length bytes.now }
        ensures { result ≡ place + prefix_len (class_has self) (drop place bytes.now) }
    {
        row_end(bytes, place, self.rows())
    }

    // The place after the longest run of bytes of the class and of percent-encoded bytes that begins at a place.
    pub(crate) fn unit_end(self, bytes: &[u8], place: usize) -> usize
        requires { place ≤ length bytes.now }
        ensures { result ≡ place + ascii_unit_length (class_has self) (drop place bytes.now) }
    {
        unit_end(bytes, place, self.rows())
    }
}
