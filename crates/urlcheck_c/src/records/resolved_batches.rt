//! Many texts in one call, with the texts of their records.
ghost use Rattle.std.specs.Prelude.{◌≡◌, ◌+◌, ◌<◌, ◌≤◌, ◌++◌, ℕ, IsUtf8, List, Option, length, option_copied, string_bytes};
ghost use Rattle.urlcheck_c.specs.Finding.{IsSmall};
ghost use Rattle.urlcheck_c.specs.Offsets.{AreRows, row_count};
ghost use Rattle.urlcheck_c.specs.Batch.{IsPut};
ghost use Rattle.urlcheck_c.specs.Request.{given};
ghost use Rattle.urlcheck_c.specs.ResolvedBatch.{AreRowsResolved, IsAppended, IsRead, IsReadFor, IsRequestResolved};
ghost use Rattle.urlcheck_c.specs.ResolvedBatch.{IsResolvedBatch, IsResolvedRow, IsTextResolved, resolved_columns};

use crate::batches::{Batch, put};
use crate::buffers::write_prefix;
use crate::finding::{CallOutcome, Finding};
use crate::offsets::{first_wrong, row_count, row_text};
use crate::request::{base_read, given_bytes, profile_of, text_of};
use std::alloc::{AllocError, Global};
use uv_model::{Profile, Record};
use uv_resolve::{ResolveFault, resolve_serialized};

/// Resolves texts that are one after another in a buffer, under the profile with this number, alone or against the
/// bytes of a base as `urlcheck_resolve` has it, which is resolved once for all of them. Writes the texts of their
/// records one after another to the start of `out`, if they fit; otherwise `out` stays as it is. Three columns get each
/// text's verdict, its rule, both as numbers, and its place in code points. A fourth gets where the texts in `out`
/// begin, and where the last one ends. A column that hasn't room for all of them is left out. If nothing is resolved,
/// nothing is written.
#[unsafe(no_mangle)]
pub extern "C" fn urlcheck_resolve_many(
    alloc: Global,
    texts: &[u8],
    offsets: &[u64],
    profile: u32,
    base: &[u8],
    has_base: bool,
    verdicts: &mut [u8],
    rules: &mut [u8],
    places: &mut [u64],
    ends: &mut [u64],
    out: &mut [u8],
) -> Batch
    ensures { IsResolvedBatch profile (given has_base base.now) texts.now offsets.now
        (resolved_columns verdicts.old rules.old places.old ends.old)
        (resolved_columns verdicts.new rules.new places.new ends.new) out.old out.new result }
{
    let Some(profile) = profile_of(profile) else {
        return Batch::unchecked(CallOutcome::NoProfile, 0);
    };
    if let Some(row) = first_wrong(offsets, texts.len()) {
        return Batch::unchecked(CallOutcome::NoOffsets, row);
    }
    let read = ReadBase {
        profile,
        base: base_read(alloc, given_bytes(base, has_base), profile),
    };
    let rows = resolve_rows(alloc, texts, offsets, &read, verdicts, rules, places, ends);
    Batch {
        outcome: CallOutcome::Done.number(),
        row: 0,
        valid: rows.valid,
        length: write_prefix(rows.text.as_bytes(), out),
    }
}

/// What each text of a batch is resolved against.
#[derive(Drop)]
pub(crate) struct ReadBase {
    /// The profile by which the base and the texts are checked.
    pub(crate) profile: Profile,
    /// What the base by itself denotes, if one is given, or why it denotes nothing.
    pub(crate) base: Result<Option<Record>, Finding>,
}

// The texts of the records of rows, one after another, and how many rows are valid.
#[derive(Drop)]
struct ResolvedRows {
    text: String,
    valid: usize,
}

// Resolves each text.
fn resolve_rows(
    alloc: Global,
    texts: &[u8],
    offsets: &[u64],
    read: &ReadBase,
    verdicts: &mut [u8],
    rules: &mut [u8],
    places: &mut [u64],
    ends: &mut [u64],
) -> ResolvedRows
    requires rows { AreRows (length texts.now) offsets.now (row_count offsets.now) }
    requires read { IsRead read.now }
    ensures { (number : ℕ) (base : Option (List ℕ)) → IsReadFor number base read.now
        → AreRowsResolved number base texts.now offsets.now (row_count offsets.now)
        (resolved_columns verdicts.old rules.old places.old ends.old)
        (resolved_columns verdicts.new rules.new places.new ends.new) (string_bytes result.text) result.valid }
{
    let rows = row_count(offsets);
    let mut text = String::new(alloc);
    let mut valid = 0;
    put_end(ends, rows, 0, 0);
    for row in 0..rows {
        let bytes = row_text(texts, offsets, row);
        let found = append_resolved(alloc, bytes, read, &mut text);
        if found.verdict == 0 {
            valid += 1;
        }
        put(verdicts, rows, row, found.verdict as u8);
        put(rules, rows, row, found.rule as u8);
        put(places, rows, row, found.place as u64);
        put_end(ends, rows, row + 1, text.as_str().len());
    }
    ResolvedRows { text, valid }
}

// Puts where a text ends into its column, which has one more element than there are rows, if it has room for all.
#[inline(always)]
fn put_end(ends: &mut [u64], rows: usize, at: usize, end: usize)
    requires { at ≤ rows }
    ensures { IsPut (rows + 1) at end ends.old ends.new }
{
    if rows < ends.len() {
        ends[at] = end as u64;
    }
}

// Appends the text of the record that a text denotes, if it denotes one, and gives what was found of it. The verdict
// and the rule are small numbers.
fn append_resolved(alloc: Global, bytes: &[u8], read: &ReadBase, out: &mut String) -> Finding
    requires { IsRead read.now }
    ensures found { (number : ℕ) (base : Option (List ℕ)) → IsReadFor number base read.now
        → (text : List ℕ) × IsResolvedRow number base bytes.now result text
        × (string_bytes out.new ≡ string_bytes out.old ++ text) }
    ensures small { IsSmall result }
{
    match text_resolved(alloc, bytes, read) {
        Ok(text) => appended(text.as_str(), out),
        Err(found) => found,
    }
}

// Appends the text of a record.
fn appended(text: &str, out: &mut String) -> Finding
    ensures { IsAppended text.now (string_bytes out.old) (string_bytes out.new) result }
{
    match out.push_str(text) {
        Ok(()) => Finding::plain(CallOutcome::Valid),
        Err(AllocError) => Finding::plain(CallOutcome::Memory),
    }
}

// The text of the record that bytes denote against what was read of a base, or what was found of them.
fn text_resolved(alloc: Global, bytes: &[u8], read: &ReadBase) -> Result<String, Finding>
    ensures { (number : ℕ) (base : Option (List ℕ)) → IsReadFor number base read.now
        → IsTextResolved number base bytes.now result }
{
    match text_of(bytes, CallOutcome::NoUtf8) {
        Ok(text) => text_denoted(alloc, text, read),
        Err(found) => Err(found),
    }
}

// The text of the record that a text denotes against what was read of a base, or why it denotes none.
fn text_denoted(alloc: Global, text: &str, read: &ReadBase) -> Result<String, Finding>
    ensures { (number : ℕ) (base : Option (List ℕ)) → IsReadFor number base read.now → IsUtf8 text.now
        → IsTextResolved number base text.now result }
{
    match &read.base {
        Ok(base) => text_against(alloc, text, base.as_ref(), read.profile),
        Err(found) => Err(*found),
    }
}

// The text of the record that a text denotes against a base, or why it denotes none.
fn text_against(
    alloc: Global,
    text: &str,
    base: Option<&Record>,
    profile: Profile,
) -> Result<String, Finding>
    ensures { IsRequestResolved profile (option_copied base.entry) text.now result }
{
    match resolve_serialized(alloc, text, base, profile) {
        Ok(written) => Ok(written),
        Err(ResolveFault::Refused(refusal)) => {
            Err(Finding::refused(CallOutcome::Refused, text, refusal))
        }
        Err(ResolveFault::Memory(_)) => Err(Finding::plain(CallOutcome::Memory)),
    }
}
