//! The places of texts that are one after another in a buffer: each begins at its offset and ends at the next one, so
//! there is one offset more than there are texts.
ghost use Rattle.std.specs.Prelude.{◌≡◌, ◌<◌, IsTrue, ◌↔◌, length};
ghost use Rattle.urlcheck_c.specs.Offsets.{IsFirstWrong, IsRow, row_count, row_text};

/// How many texts there are: one less than offsets, and none if there are no offsets.
#[inline(always)]
pub(crate) fn row_count(offsets: &[u64]) -> usize
    ensures { result ≡ row_count offsets.now }
{
    offsets.len().saturating_sub(1)
}

/// A text of the buffer.
#[inline(always)]
pub(crate) fn row_text<'t>(texts: &'t [u8], offsets: &[u64], row: usize) -> &'t [u8]
    requires below { row < row_count offsets.now }
    requires stands { IsRow (length texts.now) offsets.now row }
    ensures { result.now ≡ row_text texts.entry.now offsets.now row }
{
    &texts[offsets[row] as usize..offsets[row + 1] as usize]
}

/// The first text whose offsets descend or don't lie within a buffer of this many bytes.
pub(crate) fn first_wrong(offsets: &[u64], bytes: usize) -> Option<usize>
    ensures { IsFirstWrong bytes offsets.now result }
{
    for row in 0..row_count(offsets) {
        if !is_row(offsets, bytes, row) {
            return Some(row);
        }
    }
    None
}

// Whether the offsets of a text ascend and lie within a buffer of this many bytes.
#[inline(always)]
fn is_row(offsets: &[u64], bytes: usize, row: usize) -> bool
    requires { row < row_count offsets.now }
    ensures { IsTrue result ↔ IsRow bytes offsets.now row }
{
    offsets[row] <= offsets[row + 1] && offsets[row + 1] as usize <= bytes
}
