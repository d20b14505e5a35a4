//! IPv4 and IPv6 addresses and ports as the serializers write them, appended to a text.
ghost use Rattle.std.specs.Prelude.{◌≡◌, ◌+◌, ◌*◌, ◌%◌, ◌<◌, ◌≤◌, ◌++◌, All, OnOk, OnErr, decimal, length};
ghost use Rattle.std.specs.Prelude.{string_bytes};
ghost use Rattle.std.specs.Char.{digit_char};
ghost use Rattle.std.specs.Io.{StartsWith};
ghost use Rattle.std.specs.Net.Text as address;
ghost use Rattle.uv_model.specs.Records.AddressText.{later_groups};
ghost use Rattle.uv_model.specs.Records.Serialize.{serial_ipv4, serial_ipv6, serial_port};

use arrayvec::ArrayString;
use itoa::Buffer;
use std::alloc::AllocError;
use std::str::from_utf8_unchecked;

// The text of an address is gathered in a value that has room for the longest, and appended at once.
type AddressText = ArrayString<48>;

// The hex digits in lower case.
const HEX_DIGITS: &[u8; 16] = b"0123456789abcdef";

/// Appends the four numbers of an IPv4 address, the highest first, with `.` between them. An error means that memory
/// ran out: `out` then still begins with what it held.
pub fn push_ipv4(out: &mut String, value: u32) -> Result<(), AllocError>
    ensures ok { OnOk result (string_bytes out.new ≡ string_bytes out.old ++ serial_ipv4 value) }
    ensures err { OnErr result (StartsWith (string_bytes out.new) (string_bytes out.old)) }
{
    let mut text = ArrayString::new();
    push_octet(&mut text, (value / 16_777_216 % 256) as u8);
    push_ascii(&mut text, b".");
    push_octet(&mut text, (value / 65_536 % 256) as u8);
    push_ascii(&mut text, b".");
    push_octet(&mut text, (value / 256 % 256) as u8);
    push_ascii(&mut text, b".");
    push_octet(&mut text, (value % 256) as u8);
    out.push_str(text.as_str())
}

// One of the four numbers of an IPv4 address.
#[tactic(auto, using(crate::proofs::Addresses::AddressTextLemmas::octet_digits))]
fn push_octet(text: &mut AddressText, number: u8)
    requires { length text.old.bytes + 3 ≤ 48 }
    ensures bytes { text.new.bytes ≡ text.old.bytes ++ decimal number }
    ensures len { length text.new.bytes ≤ length text.old.bytes + 3 }
{
    match number {
        100.. => push_ascii(
            text,
            &[
                b'0' + number / 100,
                b'0' + number % 100 / 10,
                b'0' + number % 100 % 10,
            ],
        ),
        10.. => push_ascii(text, &[b'0' + number / 10, b'0' + number % 10]),
        _ => push_ascii(text, &[b'0' + number]),
    }
}

// ASCII bytes. If a caller passes a fixed number of them, they are written in a few instructions and without a call.
#[tactic(auto, using(crate::proofs::Addresses::AddressTextLemmas::utf8_from_all))]
#[inline(always)]
fn push_ascii(text: &mut AddressText, bytes: &[u8])
    requires ascii { All (λ b. b < 128) bytes.now }
    requires room { length text.old.bytes + length bytes.now ≤ 48 }
    ensures bytes { text.new.bytes ≡ text.old.bytes ++ bytes.now }
    ensures len { length text.new.bytes ≡ length text.old.bytes + length bytes.now }
{
    text.push_str(unsafe { from_utf8_unchecked(bytes) });
}

/// Appends `:` and a port, if there is one. An error means that memory ran out: `out` then still begins with what it
/// held.
pub fn push_port(out: &mut String, port: Option<u16>) -> Result<(), AllocError>
    ensures ok { OnOk result (string_bytes out.new ≡ string_bytes out.old ++ serial_port port) }
    ensures err { OnErr result (StartsWith (string_bytes out.new) (string_bytes out.old)) }
{
    let Some(port) = port else {
        return Ok(());
    };
    out.push(':')?;
    push_number(out, u32::from(port))
}

// A number in decimal.
fn push_number(out: &mut String, number: u32) -> Result<(), AllocError>
    ensures ok { OnOk result (string_bytes out.new ≡ string_bytes out.old ++ decimal number) }
    ensures err { OnErr result (string_bytes out.new ≡ string_bytes out.old) }
{
    let mut digits = Buffer::new();
    out.push_str(digits.format(number))
}

/// Appends the pieces of an IPv6 address in brackets, with `::` for the longest run of two or more zero pieces, or the
/// first of several such runs. An error means that memory ran out: `out` then still begins with what it held.
pub fn push_ipv6(out: &mut String, pieces: &[u16; 8]) -> Result<(), AllocError>
    ensures ok { OnOk result (string_bytes out.new ≡ string_bytes out.old ++ serial_ipv6 pieces.now) }
    ensures err { OnErr result (StartsWith (string_bytes out.new) (string_bytes out.old)) }
{
    let mut text = ArrayString::new();
    push_ascii(&mut text, b"[");
    push_pieces(&mut text, pieces);
    push_ascii(&mut text, b"]");
    out.push_str(text.as_str())
}

// The pieces, with `::` for the longest run of two or more zero pieces, or the first of several.
#[tactic(auto, unfolding(std::specs::Net::Text::hex_groups_text))]
fn push_pieces(text: &mut AddressText, pieces: &[u16])
    requires { length text.old.bytes + 5 * length pieces.now + 2 ≤ 48 }
    ensures bytes { text.new.bytes ≡ text.old.bytes ++ address.hex_groups_text pieces.now }
    ensures len { length text.new.bytes ≤ length text.old.bytes + 5 * length pieces.now + 2 }
{
    let (start, count) = longest_zero_run(pieces);
    if count > 1 {
        push_groups(text, &pieces[..start]);
        push_ascii(text, b"::");
        push_groups(text, &pieces[start + count..]);
    } else {
        push_groups(text, pieces);
    }
}

// Groups with `:` between them.
fn push_groups(text: &mut AddressText, pieces: &[u16])
    requires { length text.old.bytes + 5 * length pieces.now ≤ 48 }
    ensures bytes { text.new.bytes ≡ text.old.bytes ++ address.groups_text pieces.now }
    ensures len { length text.new.bytes ≤ length text.old.bytes + 5 * length pieces.now }
{
    match pieces {
        [first, others @ ..] => {
            push_group(text, *first);
            push_later_groups(text, others);
        }
        [] => {}
    }
}

// Groups with `:` before each.
fn push_later_groups(text: &mut AddressText, pieces: &[u16])
    requires { length text.old.bytes + 5 * length pieces.now ≤ 48 }
    ensures bytes { text.new.bytes ≡ text.old.bytes ++ later_groups pieces.now }
    ensures len { length text.new.bytes ≤ length text.old.bytes + 5 * length pieces.now }
{
    for piece in pieces {
        push_ascii(text, b":");
        push_group(text, *piece);
    }
}

// A piece in lower-case hex, without leading zeros.
#[tactic(auto, using(crate::proofs::Addresses::AddressTextLemmas::shown_digits))]
fn push_group(text: &mut AddressText, piece: u16)
    requires { length text.old.bytes + 4 ≤ 48 }
    ensures bytes { text.new.bytes ≡ text.old.bytes ++ address.hex piece }
    ensures len { length text.new.bytes ≤ length text.old.bytes + 4 }
{
    match piece {
        0x1000.. => push_ascii(
            text,
            &[
                hex_digit(piece / 0x1000),
                hex_digit(piece / 0x100),
                hex_digit(piece / 0x10),
                hex_digit(piece),
            ],
        ),
        0x100.. => push_ascii(
            text,
            &[
                hex_digit(piece / 0x100),
                hex_digit(piece / 0x10),
                hex_digit(piece),
            ],
        ),
        0x10.. => push_ascii(text, &[hex_digit(piece / 0x10), hex_digit(piece)]),
        _ => push_ascii(text, &[hex_digit(piece)]),
    }
}

/// The start and the length of the longest run of zeros, or of the first of several.
pub fn longest_zero_run(pieces: &[u16]) -> (usize, usize)
    ensures value { result ≡ address.longest_zero_run pieces.now }
    ensures within { result.0 + result.1 ≤ length pieces.now }
{
    let mut start = pieces.len();
    let mut count = 0;
    let mut run = 0;
    for at in (0..pieces.len()).rev() {
        run = if pieces[at] == 0 { run + 1 } else { 0 };
        if run >= count {
            start = at;
            count = run;
        }
    }
    (start, count)
}

/// The last hex digit of a number, in lower case.
#[tactic(auto, using(crate::proofs::Addresses::AddressTextLemmas::hex_digits))]
#[inline(always)]
pub fn hex_digit(number: u16) -> u8
    ensures { result ≡ digit_char (number % 16) }
{
    HEX_DIGITS[(number % 16) as usize]
}
