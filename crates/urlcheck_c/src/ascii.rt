//! Texts that are ASCII, as most are. They are recognized by lanes, and need no further look for UTF-8.
ghost use Rattle.std.specs.Prelude.{◌≡◌, ◌≤◌, ◌<◌, ◌↔◌, IsTrue, IsUtf8, MatchOption, length};
ghost use Rattle.std.specs.Str.{IsAscii};

use std::simd::prelude::*;

// This many bytes fill two loads.
const TWO_LOADS: usize = 64;

/// The bytes as a text, if they are ASCII.
#[inline(always)]
pub(crate) fn ascii_text(bytes: &[u8]) -> Option<&str>
    ensures { MatchOption result (¬ (IsAscii bytes.now)) (λ text. (text.now ≡ bytes.now) × IsUtf8 bytes.now) }
{
    if is_ascii(bytes) {
        Some(unsafe { std::str::from_utf8_unchecked(bytes) })
    } else {
        None
    }
}

// Whether all bytes are ASCII. For most texts two loads are enough, the first of the text and the last, which may
// overlap.
#[inline(always)]
fn is_ascii(bytes: &[u8]) -> bool
    ensures { IsTrue result ↔ IsAscii bytes.now }
{
    if bytes.len() > TWO_LOADS {
        return are_loads_ascii(bytes);
    }
    if bytes.len() < 32 {
        return is_short_ascii(bytes);
    }
    let last = u8x32::from_slice(&bytes[bytes.len() - 32..]);
    is_load_ascii(u8x32::from_slice(bytes)) && is_load_ascii(last)
}

// Whether fewer than 32 bytes are all ASCII. For 16 bytes and more, two halves of a load, which may overlap, are
// enough.
#[inline(always)]
fn is_short_ascii(bytes: &[u8]) -> bool
    requires { length bytes.now < 32 }
    ensures { IsTrue result ↔ IsAscii bytes.now }
{
    if bytes.len() < 16 {
        return bytes.is_ascii();
    }
    let last = u8x16::from_slice(&bytes[bytes.len() - 16..]);
    is_half_ascii(u8x16::from_slice(bytes)) && is_half_ascii(last)
}

// Whether 32 bytes or more are all ASCII, by as many loads as they need.
#[inline(always)]
fn are_loads_ascii(bytes: &[u8]) -> bool
    requires { 32 ≤ length bytes.now }
    ensures { IsTrue result ↔ IsAscii bytes.now }
{
    let last = bytes.len() - 32;
    let mut at = 0;
    while at < last {
        if !is_load_ascii(u8x32::from_slice(&bytes[at..])) {
            return false;
        }
        at += 32;
    }
    is_load_ascii(u8x32::from_slice(&bytes[last..]))
}

// Whether 32 bytes are ASCII.
#[inline(always)]
fn is_load_ascii(load: u8x32) -> bool
    ensures { IsTrue result ↔ IsAscii load }
{
    load.simd_ge(u8x32::splat(128)).to_bitmask() == 0
}

// Whether 16 bytes are ASCII.
#[inline(always)]
fn is_half_ascii(load: u8x16) -> bool
    ensures { IsTrue result ↔ IsAscii load }
{
    load.simd_ge(u8x16::splat(128)).to_bitmask() == 0
}
