//! The entries of a command, as `clap` has read them: whether an entry is there, and its values.
ghost use Rattle.std.specs.Prelude.{◌≡◌, IfOk, map, option_map, string_bytes};
ghost use Rattle.clap.specs.Words.{all_of, first_of, found_of, rows_of};
ghost use Rattle.uv_arguments.specs.Requests.{extent_in, has_flag};

use clap::ArgMatches;
use std::alloc::{AllocError, Global};
use uv_model::Extent;

/// Copies of texts, in their order.
pub(crate) fn copied_all(alloc: Global, texts: &[&str]) -> Result<Vec<String>, AllocError>
    ensures { IfOk result (λ r. map string_bytes r.items ≡ map (λ t. t.now) texts.now) }
{
    let mut copies = Vec::new(alloc);
    for text in texts {
        copies.push(text.to_string(alloc)?)?;
    }
    Ok(copies)
}

/// A copy of a text that may be absent.
pub(crate) fn copied(alloc: Global, text: Option<&str>) -> Result<Option<String>, AllocError>
    ensures { IfOk result (λ r. option_map string_bytes r ≡ option_map (λ t. t.now) text.entry) }
{
    match text {
        Some(text) => Ok(Some(text.to_string(alloc)?)),
        None => Ok(None),
    }
}

/// The first value of an entry.
pub(crate) fn value<'a>(entries: &ArgMatches<'a>, id: &str) -> Option<&'a str>
    ensures { option_map (λ t. t.now) result ≡ first_of id.now (rows_of (found_of entries.now)) }
{
    entries.get_str(id)
}

/// All values of an entry.
pub(crate) fn values<'m, 'a>(entries: &'m ArgMatches<'a>, id: &str) -> Option<&'m [&'a str]>
    ensures { option_map (λ texts. map (λ t. t.now) texts.now) result
        ≡ all_of id.now (rows_of (found_of entries.now)) }
{
    entries.get_strs(id)
}

/// Whether a flag was given.
pub(crate) fn has(entries: &ArgMatches<'_>, id: &str) -> bool
    ensures { result ≡ has_flag id.now (rows_of (found_of entries.now)) }
{
    match value(entries, id) {
        Some(text) => text == "true",
        None => false,
    }
}

/// How many violations are asked for.
pub(crate) fn extent(entries: &ArgMatches<'_>) -> Extent
    ensures { result ≡ extent_in (rows_of (found_of entries.now)) }
{
    if has(entries, "all") {
        Extent::All
    } else {
        Extent::First
    }
}
