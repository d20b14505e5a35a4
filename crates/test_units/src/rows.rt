//! Sets of bytes by their rows, against a plain count of each byte at each place, and tables of bytes.
ghost use Rattle.std.specs.Prelude.{◌≤◌};

use std::process::Abort;
use uv_text::{byte_rows, byte_table, row_end};

const HELD_ROWS: [u8; 16] = byte_rows!(0x00 | b'+' | b'a'..=b'c' | 0x7E..=0x7F);

const VALUES: [u8; 256] = byte_table! { b'0' => 1, b'0'..=b'9' | b'a' => 2, 0xFF => 3, _ => 4 };

// Whether a byte is in the set of these rows.
fn is_held(byte: u8) -> bool {
    matches!(byte, 0x00 | b'+' | b'a'..=b'c' | 0x7E..=0x7F)
}

// How many bytes at the start are in the set, counted one by one.
fn plain_run(bytes: &[u8]) -> usize {
    let mut count = 0usize;
    for byte in bytes {
        if !is_held(*byte) {
            return count;
        }
        count = count.saturating_add(1);
    }
    count
}

// Checks the run against a plain count, with each byte at each place of a prefix of this many bytes.
fn counts_plainly(rt: &impl Abort, length: usize)
    requires { length ≤ 97 }
{
    let mut bytes = [b'a'; 97];
    for place in 0..length {
        for byte in 0..=255u8 {
            bytes[place] = byte;
            let prefix = &bytes[..length];
            assert!(rt;
                row_end(prefix, 0, &HELD_ROWS) == plain_run(prefix),
                "of {byte} at {place} of {length}"
            );
        }
        bytes[place] = b'a';
    }
}

#[test]
fn counts_bytes_of_a_set_as_a_plain_loop(rt: HostRuntime) {
    for length in [1, 31, 32, 33, 65usize] {
        counts_plainly(&rt, length);
    }
}

#[test]
fn gives_each_byte_the_value_of_its_first_set(rt: HostRuntime) {
    for byte in 0..=255u8 {
        let value = match byte {
            b'0' => 1,
            b'0'..=b'9' | b'a' => 2,
            0xFF => 3,
            _ => 4,
        };
        assert!(rt; VALUES[byte as usize] == value, "of {byte}");
    }
}
