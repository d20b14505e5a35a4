//! Many texts in one call.
ghost use Rattle.std.specs.Prelude.{◌≡◌, ◌<◌, length, option_copied};
ghost use Rattle.urlcheck_c.specs.Batch.{AreChecked, IsBatchAnswer, IsPut, columns, unchecked_batch};
ghost use Rattle.urlcheck_c.specs.Offsets.{AreRows, row_count};
ghost use Rattle.urlcheck_c.specs.Request.{given};

use crate::bases::{Base, given_base};
use crate::checks::found_of;
use crate::finding::CallOutcome;
use crate::offsets::{first_wrong, row_count, row_text};
use crate::request::profile_of;
use std::alloc::Global;

/// What became of many texts.
#[repr(C)]
#[derive(Clone, Copy)]
pub struct Batch {
    /// The number of the outcome: 9 if the texts were checked, otherwise why nothing was.
    pub outcome: u32,
    /// The first text whose offsets are wrong, if the outcome says that some are, otherwise 0.
    pub row: usize,
    /// How many texts are valid.
    pub valid: usize,
    /// How many bytes were to be written, if texts were asked for, otherwise 0.
    pub length: usize,
}

/// Checks texts that are one after another in a buffer, under the profile with this number, alone or against a base as
/// `urlcheck_check` has it. The three columns get each text's verdict, its rule, both as numbers, and its place in code
/// points; a column that hasn't room for all of them is left out. If nothing is checked, nothing is written.
#[unsafe(no_mangle)]
pub extern "C" fn urlcheck_check_many(
    alloc: Global,
    texts: &[u8],
    offsets: &[u64],
    profile: u32,
    base: &Base,
    has_base: bool,
    verdicts: &mut [u8],
    rules: &mut [u8],
    places: &mut [u64],
) -> Batch
    ensures { IsBatchAnswer profile (given has_base base.now) texts.now offsets.now
        (columns verdicts.old rules.old places.old) (columns verdicts.new rules.new places.new) result }
{
    checked(
        alloc,
        texts,
        offsets,
        profile,
        given_base(base, has_base),
        verdicts,
        rules,
        places,
    )
}

// Checks texts that are one after another in a buffer, alone or against a base, and fills the three columns.
fn checked(
    alloc: Global,
    texts: &[u8],
    offsets: &[u64],
    profile: u32,
    base: Option<&Base>,
    verdicts: &mut [u8],
    rules: &mut [u8],
    places: &mut [u64],
) -> Batch
    ensures { IsBatchAnswer profile (option_copied base.entry) texts.now offsets.now
        (columns verdicts.old rules.old places.old) (columns verdicts.new rules.new places.new) result }
{
    if profile_of(profile).is_none() {
        return Batch::unchecked(CallOutcome::NoProfile, 0);
    }
    if let Some(row) = first_wrong(offsets, texts.len()) {
        return Batch::unchecked(CallOutcome::NoOffsets, row);
    }
    Batch {
        outcome: CallOutcome::Done.number(),
        row: 0,
        valid: check_rows(
            alloc, texts, offsets, profile, base, verdicts, rules, places,
        ),
        length: 0,
    }
}

// Checks each text, and counts the valid ones.
fn check_rows(
    alloc: Global,
    texts: &[u8],
    offsets: &[u64],
    profile: u32,
    base: Option<&Base>,
    verdicts: &mut [u8],
    rules: &mut [u8],
    places: &mut [u64],
) -> usize
    requires { AreRows (length texts.now) offsets.now (row_count offsets.now) }
    ensures { AreChecked profile (option_copied base.entry) texts.now offsets.now (row_count offsets.now)
        (columns verdicts.old rules.old places.old) (columns verdicts.new rules.new places.new) result }
{
    let rows = row_count(offsets);
    let mut valid = 0;
    for row in 0..rows {
        let text = row_text(texts, offsets, row);
        let found = found_of(alloc, text, profile, base);
        if found.verdict == 0 {
            valid += 1;
        }
        put(verdicts, rows, row, found.verdict as u8);
        put(rules, rows, row, found.rule as u8);
        put(places, rows, row, found.place as u64);
    }
    valid
}

/// Puts a value into a column at its row, if the column has room for all rows.
#[inline(always)]
pub(crate) fn put<T: Copy>(column: &mut [T], rows: usize, row: usize, value: T)
    requires { row < rows }
    ensures { IsPut rows row value column.old column.new }
{
    if rows <= column.len() {
        column[row] = value;
    }
}

impl Batch {
    /// The answer if nothing was checked.
    pub(crate) fn unchecked(outcome: CallOutcome, row: usize) -> Batch
        ensures { result ≡ unchecked_batch outcome row }
    {
        Batch {
            outcome: outcome.number(),
            row,
            valid: 0,
            length: 0,
        }
    }
}
