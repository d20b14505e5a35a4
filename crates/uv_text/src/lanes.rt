//! Prefixes of bytes by lanes, 32 or 64 bytes at a time: the longest whose bytes are all in a class, and the longest of
//! bytes of a class and percent-encoded bytes.
ghost use Rattle.std.specs.Prelude.{◌≡◌, ◌+◌, ◌≤◌, ◌==◌, drop, length, map, not, take};
ghost use Rattle.std.specs.Simd.Lanes.{mask_l};
ghost use Rattle.std.specs.List.{prefix_len};
ghost use Rattle.uv_text.specs.Rows.{HasBitsOf, StandsTwice, high_bit, is_in_rows, row_at, row_bit};
ghost use Rattle.uv_text.specs.Splits.{ascii_unit_length};

use crate::byte_rows;
use std::marker::Model;
use std::simd::prelude::*;

// The bit of each high half of a byte in a row.
const HIGH_BITS: [u8; 16] = [1, 2, 4, 8, 16, 32, 64, 128, 0, 0, 0, 0, 0, 0, 0, 0];

// `%`, by the low half of a byte: a bit for each high half.
const PERCENT_ROWS: [u8; 16] = byte_rows!(b'%');

// The hex digits.
const HEX_ROWS: [u8; 16] = byte_rows!(b'0'..=b'9' | b'A'..=b'F' | b'a'..=b'f');

// A byte that no class of ASCII bytes has.
const BEYOND_ASCII: u8 = 128;

// A table of sixteen bytes in each half of a load.
#[inline(always)]
fn twice(table: &[u8; 16]) -> u8x32
    ensures { StandsTwice table.now result }
{
    u8x16::from_slice(table).swizzle([
        0, 1, 2, 3, 4, 5, 6, 7, 8, 9, 10, 11, 12, 13, 14, 15, 0, 1, 2, 3, 4, 5, 6, 7, 8, 9, 10, 11,
        12, 13, 14, 15,
    ])
}

// The rows of the low halves.
#[inline(always)]
fn rows_of(rows: &[u8; 16], v: u8x32) -> u8x32
    ensures { result ≡ map (row_at rows.now) v }
{
    twice(rows).swizzle_dyn_within::<16>(v & u8x32::splat(15))
}

// The bits of the high halves.
#[inline(always)]
fn bits_of(v: u8x32) -> u8x32
    ensures { result ≡ map high_bit v }
{
    twice(&HIGH_BITS).swizzle_dyn_within::<16>(v >> u8x32::splat(4))
}

// The bit of each high half in the row of the low half: 0 if the byte isn't in the rows.
#[inline(always)]
fn row_bit_of(rows: &[u8; 16], v: u8x32) -> u8x32
    ensures { result ≡ map (row_bit rows.now) v }
{
    rows_of(rows, v) & bits_of(v)
}

// A bit for each lane, the first the lowest, which is set if the byte is in the rows.
#[inline(always)]
fn lane_bits(v: u8x32, rows: &[u8; 16]) -> u64
    ensures { result ≡ mask_l (map (is_in_rows rows.now) v) }
{
    row_bit_of(rows, v).simd_ne(u8x32::splat(0)).to_bitmask()
}

// A bit for each lane, the first the lowest, which is set if the byte isn't in the rows.
#[inline(always)]
fn stop_bits(v: u8x32, rows: &[u8; 16]) -> u64
    ensures { result ≡ mask_l (map (λ b. not (is_in_rows rows.now b)) v) }
{
    row_bit_of(rows, v).simd_eq(u8x32::splat(0)).to_bitmask()
}

/// Up to 32 bytes of a text from a place on, loaded at once. Contracts see them, and what fills the load up after the
/// last of them, which is in no rows.
#[derive(Drop)]
pub struct Load {
    lanes: u8x32,
    before: usize,
}

impl Model for Load {
    ghost use Rattle.std.specs.Prelude.{ℕ, List, ◌≡◌, ◌≤◌, drop, length};

    ghost Value = { List ℕ };

    ghost view = { λ l. drop l.before l.lanes };

    ghost invariant = { λ l. (length l.lanes ≡ 32) × (l.before ≤ 32) };
}

impl Load {
    /// The bytes from a place on. If fewer than 32 are left, the load begins before the place: copying the bytes into a
    /// block and loading that would make the processor wait for the copy.
    #[inline(always)]
    pub(crate) fn of(bytes: &[u8], place: usize) -> Load
        requires { place ≤ length bytes.now }
        ensures { HasBitsOf (take 32 (drop place bytes.now)) result }
    {
        if bytes.len() < 32 {
            return Load::filled(&bytes[place..]);
        }
        let start = place.min(bytes.len() - 32);
        Load {
            lanes: u8x32::from_slice(&bytes[start..]),
            before: place - start,
        }
    }

    // At most 32 bytes as a load, which is filled up after the last of them.
    #[inline(always)]
    fn filled(bytes: &[u8]) -> Load
        requires { length bytes.now ≤ 32 }
        ensures { HasBitsOf bytes.now result }
    {
        let mut block = [BEYOND_ASCII; 32];
        block[..bytes.len()].copy_from_slice(bytes);
        Load {
            lanes: u8x32::from_array(block),
            before: 0,
        }
    }

    /// A bit for each byte, the first the lowest, which is set if the byte is in the rows. After the last byte of the
    /// text there is none.
    #[inline(always)]
    pub fn row_bits(&self, rows: &[u8; 16]) -> u64
        ensures { result ≡ mask_l (map (is_in_rows rows.now) self.now) }
    {
        lane_bits(self.lanes, rows) >> self.before
    }

    // How many bytes of the load are in the rows before the first that isn't. If all are, a bit after the lanes marks
    // the end.
    #[inline(always)]
    fn row_prefix(&self, rows: &[u8; 16]) -> usize
        ensures { result ≡ prefix_len (is_in_rows rows.now) self.now }
    {
        let stops = stop_bits(self.lanes, rows);
        ((stops | 1 << 32) >> self.before).trailing_zeros() as usize
    }
}

// How many of the 32 bytes from a place on are in the rows before the first that isn't.
#[inline(always)]
fn row_prefix(bytes: &[u8], place: usize, rows: &[u8; 16]) -> usize
    requires { place ≤ length bytes.now }
    ensures { result ≡ prefix_len (is_in_rows rows.now) (take 32 (drop place bytes.now)) }
{
    Load::of(bytes, place).row_prefix(rows)
}

/// The place after the longest run of bytes in the rows that begins at a place.
#[inline(always)]
pub fn row_end(bytes: &[u8], place: usize, rows: &[u8; 16]) -> usize
    requires { place ≤ length bytes.now }
    ensures { result ≡ place + prefix_len (is_in_rows rows.now) (drop place bytes.now) }
{
    let near = near_end(bytes, place, rows);
    if near - place < 64 {
        return near;
    }
    far_end(bytes, near, rows)
}

// The place after the run, if it ends within 64 bytes, and otherwise the place after these.
#[inline(always)]
fn near_end(bytes: &[u8], place: usize, rows: &[u8; 16]) -> usize
    requires { place ≤ length bytes.now }
    ensures { result ≡ place + prefix_len (is_in_rows rows.now) (take 64 (drop place bytes.now)) }
{
    let ahead = row_prefix(bytes, place, rows);
    if ahead < 32 {
        return place + ahead;
    }
    place + ahead + row_prefix(bytes, place + ahead, rows)
}

// The place after the longest run of bytes in the rows that begins at a place, found 64 bytes at a time. It is never
// inlined, since most runs are shorter.
#[inline(never)]
fn far_end(bytes: &[u8], place: usize, rows: &[u8; 16]) -> usize
    requires { place ≤ length bytes.now }
    ensures { result ≡ place + prefix_len (is_in_rows rows.now) (drop place bytes.now) }
{
    let mut end = place;
    while is_whole(bytes, end, rows) {
        end += 64;
    }
    near_end(bytes, end, rows)
}

// Whether 64 bytes are left from a place on, and all of them are in the rows.
#[inline(always)]
fn is_whole(bytes: &[u8], place: usize, rows: &[u8; 16]) -> bool
    requires { place ≤ length bytes.now }
    ensures { result ≡ (prefix_len (is_in_rows rows.now) (take 64 (drop place bytes.now)) == 64) }
{
    if bytes.len() - place < 64 {
        return false;
    }
    let first = stop_bits(u8x32::from_slice(&bytes[place..]), rows);
    let second = stop_bits(u8x32::from_slice(&bytes[place + 32..]), rows);
    first | second == 0
}

// How many of the 32 bytes from a place on are in the rows, or part of a percent-encoded byte that lies within them,
// before the first that is neither.
#[inline(always)]
fn unit_prefix(bytes: &[u8], place: usize, rows: &[u8; 16]) -> usize
    requires { place ≤ length bytes.now }
    ensures { result ≡ ascii_unit_length (is_in_rows rows.now) (take 32 (drop place bytes.now)) }
{
    let load = Load::of(bytes, place);
    let held = load.row_bits(rows);
    let percents = load.row_bits(&PERCENT_ROWS);
    let digits = load.row_bits(&HEX_ROWS);
    let units = held | percents & digits >> 1 & digits >> 2;
    units.trailing_ones() as usize
}

/// The place after the longest run of bytes in the rows and of percent-encoded bytes that begins at a place. A `%` that
/// is one of the last two of 32 bytes is looked at in the next turn, when its digits are there too.
pub(crate) fn unit_end(bytes: &[u8], place: usize, rows: &[u8; 16]) -> usize
    requires { place ≤ length bytes.now }
    ensures { result ≡ place + ascii_unit_length (is_in_rows rows.now) (drop place bytes.now) }
{
    let mut end = place;
    let mut run = unit_prefix(bytes, end, rows);
    while run >= 30 {
        end += run;
        run = unit_prefix(bytes, end, rows);
    }
    end + run
}
