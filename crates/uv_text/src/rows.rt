//! Constants made of bytes and ranges of bytes, written like a pattern of a `match`: the rows of a set, and a table
//! with a value for each byte.

/// The rows of a set of ASCII bytes: at each low half of a byte a bit for each high half.
///
/// ```
/// const NAME_ROWS: [u8; 16] = byte_rows!(b'a'..=b'z' | b'0'..=b'9' | b'-' | b'.' | b'_');
/// ```
#[macro_export]
macro_rules! byte_rows {
    (@bit $byte:expr, $bit:literal; ($($set:tt)+)) => {
        if $crate::is_byte_in!($byte; $($set)+) { $bit } else { 0 }
    };
    (@row $low:literal; $set:tt) => {
        $crate::byte_rows!(@bit 0x00 + $low, 1; $set)
            | $crate::byte_rows!(@bit 0x10 + $low, 2; $set)
            | $crate::byte_rows!(@bit 0x20 + $low, 4; $set)
            | $crate::byte_rows!(@bit 0x30 + $low, 8; $set)
            | $crate::byte_rows!(@bit 0x40 + $low, 16; $set)
            | $crate::byte_rows!(@bit 0x50 + $low, 32; $set)
            | $crate::byte_rows!(@bit 0x60 + $low, 64; $set)
            | $crate::byte_rows!(@bit 0x70 + $low, 128; $set)
    };
    (@rows $($low:literal)+; $set:tt) => { [$($crate::byte_rows!(@row $low; $set)),+] };
    ($($set:tt)+) => { $crate::byte_rows!(@rows 0 1 2 3 4 5 6 7 8 9 10 11 12 13 14 15; ($($set)+)) };
}

/// A value for each byte, of the first set that has it.
///
/// ```
/// const DIGITS: [u8; 256] = byte_table! { b'0' => 10, b'1'..=b'9' => 1, b'A'..=b'F' | b'a'..=b'f' => 16, _ => 0 };
/// ```
#[macro_export]
macro_rules! byte_table {
    (@value $byte:expr; ($($($first:literal $(..=$last:literal)?)|+ => $value:expr,)+ _ => $other:expr $(,)?)) => {
        $(if $crate::is_byte_in!($byte; $($first $(..=$last)?)|+) { $value } else)+ { $other }
    };
    (@bytes [$($byte:expr),*] []; $sets:tt) => { [$($crate::byte_table!(@value $byte; $sets)),*] };
    (@bytes [$($byte:expr),*] [$high:literal $($more:literal)*]; $sets:tt) => {
        $crate::byte_table!(@bytes [
            $($byte,)* $high, $high + 1, $high + 2, $high + 3, $high + 4, $high + 5, $high + 6, $high + 7,
            $high + 8, $high + 9, $high + 10, $high + 11, $high + 12, $high + 13, $high + 14, $high + 15
        ] [$($more)*]; $sets)
    };
    ($($sets:tt)+) => {
        $crate::byte_table!(@bytes [] [
            0x00 0x10 0x20 0x30 0x40 0x50 0x60 0x70 0x80 0x90 0xA0 0xB0 0xC0 0xD0 0xE0 0xF0
        ]; ($($sets)+))
    };
}

/// Whether a byte is in a set. A constant's value can't hold the `matches!` that says so elsewhere.
///
/// ```
/// const HAS_X: bool = is_byte_in!(b'x'; b'a'..=b'z' | b'_');
/// ```
#[macro_export]
macro_rules! is_byte_in {
    ($byte:expr; $($first:literal $(..=$last:literal)?)|+) => {
        false $(|| $byte == $first $(|| $first <= $byte && $byte <= $last)?)+
    };
}
