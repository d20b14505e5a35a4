//! What is written into the caller's buffer.
ghost use Rattle.std.specs.Prelude.{◌≡◌, ◌≤◌, ◌++◌, drop, length, map};
ghost use Rattle.urlcheck_c.specs.Buffer.{IsWritten};
ghost use Rattle.urlcheck_c.specs.Faults.{fault_of, stored};

use crate::places::{after_passed, bytes_before};
use crate::reports::fault_lists::Fault;
use uv_model::Refusal;

/// Writes the bytes to the start of `out` if they fit, and gives their length. If `out` is shorter, it stays as it is.
pub(crate) fn write_prefix(bytes: &[u8], out: &mut [u8]) -> usize
    ensures { IsWritten bytes.now out.old out.new result }
{
    if bytes.len() <= out.len() {
        out[..bytes.len()].copy_from_slice(bytes);
    }
    bytes.len()
}

/// Writes as many faults of a text to the start of the buffer as it holds.
pub(crate) fn store(text: &str, found: &[Refusal], out: &mut [Fault])
    ensures { out.new ≡ stored text.now found.now out.old }
{
    if found.len() <= out.len() {
        store_all(text, found, out);
    } else {
        let held = out.len();
        store_all(text, &found[..held], out);
    }
}

// Writes the faults to the start of a buffer that has room for them.
fn store_all(text: &str, found: &[Refusal], out: &mut [Fault])
    requires { length found.now ≤ length out.old }
    ensures { out.new ≡ map (fault_of text.now) found.now ++ drop (length found.now) out.old }
{
    let mut left = text;
    let mut passed = 0;
    for at in 0..found.len() {
        let refusal = found[at];
        left = after_passed(text, left, passed, refusal.place);
        passed = refusal.place;
        out[at] = Fault {
            rule: u32::from(refusal.rule.number()),
            place: refusal.place,
            byte_place: bytes_before(text, left, refusal.place),
        };
    }
}
