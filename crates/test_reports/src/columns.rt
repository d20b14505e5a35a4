//! Columns of places that are asked for in any order, which no run of the program does, and columns beyond the greatest
//! number of 64 bits. Each is worked out by hand from the code points of a text.

use std::process::Abort;
use uv_report::{ColumnCounter, Columns};

// Checks that the columns of these places of the text, asked for in this order, are these.
fn counts(rt: &impl Abort, columns: Columns, rows: &[(usize, u64)]) {
    let mut counter = ColumnCounter::new(columns, 1, "e\u{301}\u{65E5}\u{1F600}\ta");
    for (place, column) in rows {
        assert!(rt; counter.column(*place) == *column);
    }
}

// The places of a letter, a combining mark (U+0301), a wide code point (U+65E5), a wide one of two UTF-16 code units
// and four bytes (U+1F600), a tab, a letter and the end, and of some again, each with its column in code points; then
// in bytes, in UTF-16 code units, and in columns of a screen.
const CODE_POINTS: [(usize, u64); 11] = [
    (0, 1),
    (1, 2),
    (2, 3),
    (3, 4),
    (4, 5),
    (5, 6),
    (6, 7),
    (2, 3),
    (0, 1),
    (5, 6),
    (99, 7),
];

const BYTES: [(usize, u64); 11] = [
    (0, 1),
    (1, 2),
    (2, 4),
    (3, 7),
    (4, 11),
    (5, 12),
    (6, 13),
    (2, 4),
    (0, 1),
    (5, 12),
    (99, 13),
];

const UTF16: [(usize, u64); 11] = [
    (0, 1),
    (1, 2),
    (2, 3),
    (3, 4),
    (4, 6),
    (5, 7),
    (6, 8),
    (2, 3),
    (0, 1),
    (5, 7),
    (99, 8),
];

const SCREEN: [(usize, u64); 11] = [
    (0, 1),
    (1, 2),
    (2, 2),
    (3, 4),
    (4, 6),
    (5, 9),
    (6, 10),
    (2, 2),
    (0, 1),
    (5, 9),
    (99, 10),
];

#[test]
fn counts_columns_in_each_unit(rt: HostRuntime) {
    counts(&rt, Columns::CodePoints, &CODE_POINTS);
    counts(&rt, Columns::Bytes, &BYTES);
    counts(&rt, Columns::Utf16, &UTF16);
    counts(&rt, Columns::Screen, &SCREEN);
}

// A text may be said to begin before the first column.
#[test]
fn counts_from_before_the_first_column(rt: HostRuntime) {
    let mut counter = ColumnCounter::new(Columns::Screen, 0, "\t");
    assert!(rt; counter.column(1) == 8);
}

// The greatest number of 64 bits stands for every column beyond it.
fn stops(rt: &impl Abort, columns: Columns) {
    let mut counter = ColumnCounter::new(columns, u64::MAX - 1, "\u{1F600}a\t");
    assert!(rt; counter.column(0) == u64::MAX - 1);
    assert!(rt; counter.column(1) == u64::MAX);
    assert!(rt; counter.column(2) == u64::MAX);
    assert!(rt; counter.column(3) == u64::MAX);
}

#[test]
fn stops_at_the_greatest_column(rt: HostRuntime) {
    stops(&rt, Columns::CodePoints);
    stops(&rt, Columns::Bytes);
    stops(&rt, Columns::Utf16);
    stops(&rt, Columns::Screen);
}
