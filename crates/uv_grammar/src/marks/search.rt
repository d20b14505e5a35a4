//! The search for the first mark of a text. A text of 8 to 31 bytes takes two loads, of its start and of its end.
ghost use Rattle.std.specs.Prelude.{◌≤◌, ◌+◌, ◌*◌, length};
ghost use Rattle.memchr.specs.Find.{IsFirst, IsFirstByte, Passes, is_byte};
ghost use Rattle.uv_grammar.specs.TextSplits.{IsFirstMark};

use memchr::memchr;
use std::simd::prelude::*;

/// The place of the first such byte.
pub(crate) fn first_mark(bytes: &[u8], mark: u8) -> Option<usize>
    ensures { IsFirstMark mark bytes.now result }
{
    first_byte(bytes, mark)
}

// The place of the first such byte, in the words that `memchr` has for it.
#[inline(always)]
fn first_byte(bytes: &[u8], mark: u8) -> Option<usize>
    ensures { IsFirstByte (is_byte mark) bytes.now result }
{
    let len = bytes.len();
    if 8 <= len && len < 16 {
        first_of_two_loads::<8>(bytes, mark)
    } else if 16 <= len && len < 32 {
        first_of_two_loads::<16>(bytes, mark)
    } else {
        memchr(mark, bytes)
    }
}

// The place of the first such byte, where two loads reach from end to end.
#[inline(always)]
fn first_of_two_loads<const N: usize>(bytes: &[u8], mark: u8) -> Option<usize>
    requires lanes { N ≤ 64 }
    requires one { N ≤ length bytes.now }
    requires two { length bytes.now ≤ N + N }
    ensures { IsFirstByte (is_byte mark) bytes.now result }
{
    match first_of_load::<N>(bytes, 0, mark) {
        Some(place) => Some(place),
        None => first_of_load::<N>(bytes, bytes.len() - N, mark),
    }
}

// The place of the first such byte of a load.
#[inline(always)]
fn first_of_load<const N: usize>(bytes: &[u8], from: usize, mark: u8) -> Option<usize>
    requires lanes { N ≤ 64 }
    requires within { from + N ≤ length bytes.now }
    ensures { IsFirst (Passes (is_byte mark) bytes.now) from (from + N) result }
{
    let found = Simd::<u8, N>::from_slice(&bytes[from..])
        .simd_eq(Simd::splat(mark))
        .to_bitmask();
    if found == 0 {
        None
    } else {
        Some(from + found.trailing_zeros() as usize)
    }
}
