//! IPv4 addresses of one to four numbers (URL Standard, section 3.5).
ghost use Rattle.std.specs.Char.{is_ascii_digit};
ghost use Rattle.std.specs.List.{list_all};
ghost use Rattle.std.specs.Prelude.{◌≡◌, ◌≤◌, chars};
ghost use Rattle.uv_model.specs.Hosts.Address.{Reads};
ghost use Rattle.uv_model.specs.Hosts.Numbers.{IsNumbersText};
ghost use Rattle.uv_host.specs.ParserHosts.{IsByteText, IsWeighedText, is_shortest, weight_of};

/// The value of one to four numbers from 0 to 255 in shortest decimal form, with `.` between them: each counts 256
/// times less than the one before it, but the last always counts once, so that `1.2.3` has the value of `1.2.0.3` (URL
/// Standard, section 3.5). `None` for every other text.
pub fn numbers_value(text: &str) -> Option<u32>
    ensures { Reads IsNumbersText (chars text.now) result }
{
    weighed_value(text, 3)
}

// The value of one number from 0 to 255 in shortest decimal form and at most this many more, with `.` between them: the
// first counts `weight_of(more)`, each after it 256 times less, but the last always once.
fn weighed_value(text: &str, more: usize) -> Option<u32>
    requires { more ≤ 3 }
    ensures { Reads (IsWeighedText more) text.now result }
{
    let Some((first, rest)) = text.split_once('.') else {
        return match byte_value(text) {
            Some(last) => Some(u32::from(last)),
            None => None,
        };
    };
    if more == 0 {
        return None;
    }
    let Some(number) = byte_value(first) else {
        return None;
    };
    match weighed_value(rest, more - 1) {
        Some(after) => Some(u32::from(number) * weight_of(more) + after),
        None => None,
    }
}

// The factor of the first of several numbers if at most this many follow it.
fn weight_of(more: usize) -> u32
    requires { more ≤ 3 }
    ensures { result ≡ weight_of more }
{
    match more {
        0 => 1,
        1 => 256,
        2 => 65536,
        _ => 16777216,
    }
}

// The number from 0 to 255 of which the text is the shortest decimal form.
fn byte_value(text: &str) -> Option<u8>
    ensures { Reads IsByteText text.now result }
{
    if !is_shortest(text.as_bytes()) {
        return None;
    }
    match text.parse::<u8>() {
        Ok(number) => Some(number),
        Err(_) => None,
    }
}

// Only digits, the first of which is `0` only if it is the only one.
fn is_shortest(text: &[u8]) -> bool
    ensures { result ≡ is_shortest text.now }
{
    match text {
        [] => false,
        [only] => only.is_ascii_digit(),
        [first, ..] => *first != b'0' && are_digits(text),
    }
}

fn are_digits(text: &[u8]) -> bool
    ensures { result ≡ list_all is_ascii_digit text.now }
{
    text.iter().all(|b| b.is_ascii_digit())
}
