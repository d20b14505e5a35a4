//! Names that may have been meant: the names that there are, and which of them a word is close to.

use std::alloc::{AllocError, Global};
use strsim::osa_distance;

/// The names that begin with a word, in any case; none for an empty word.
pub(crate) fn longer_names<'n>(
    alloc: Global,
    word: &str,
    names: &[&'n str],
) -> Result<Vec<&'n str>, AllocError> {
    let mut found = Vec::new(alloc);
    let word = word.to_ascii_lowercase(alloc)?;
    for name in names {
        if !word.is_empty() && name.starts_with(word.as_str()) {
            found.push(*name)?;
        }
    }
    Ok(found)
}

/// The nearest of the names, if at most a third of the word's letters, or one letter of a shorter word, has to be
/// changed, removed, added or swapped with the next one, ignoring case. A name that begins with the word goes before
/// another one that is as near.
pub(crate) fn nearest<'n>(
    alloc: Global,
    word: &str,
    names: &[&'n str],
) -> Result<Option<&'n str>, AllocError> {
    let word = word.to_ascii_lowercase(alloc)?;
    let mut near = None;
    let mut limit = (word.len() / 3).max(1) + 1;
    for name in names {
        let edits = osa_distance(alloc, word.as_str(), name)?;
        let is_begun = near.is_some() && name.starts_with(word.as_str());
        if edits < limit || (edits == limit && is_begun) {
            near = Some(*name);
            limit = edits;
        }
    }
    Ok(near)
}

/// The name that a word was likely meant as: the nearest one, or if none is near the only one that it abbreviates,
/// ignoring case.
pub(crate) fn meant<'n>(
    alloc: Global,
    word: &str,
    names: &[&'n str],
) -> Result<Option<&'n str>, AllocError> {
    if let Some(name) = nearest(alloc, word, names)? {
        return Ok(Some(name));
    }
    let word = word.to_ascii_lowercase(alloc)?;
    let mut found = None;
    for name in names {
        if abbreviates(word.as_str(), name) {
            if found.is_some() {
                return Ok(None);
            }
            found = Some(*name);
        }
    }
    Ok(found)
}

// Whether a word abbreviates a name: it begins with the same letter, and its further letters are in the name in the
// same order.
fn abbreviates(word: &str, name: &str) -> bool {
    match (word.as_bytes(), name.as_bytes()) {
        ([first, rest @ ..], [initial, others @ ..]) => {
            first == initial && is_in_order(rest, others)
        }
        _ => false,
    }
}

// Whether letters are among others in their order.
fn is_in_order(letters: &[u8], others: &[u8]) -> bool {
    let mut rest = letters;
    for other in others {
        rest = match rest {
            [first, after @ ..] if first == other => after,
            _ => rest,
        };
    }
    rest.is_empty()
}
