//! What the second parser reads texts as, against a record's text.
ghost use Rattle.std.specs.Prelude.{◌≡◌, ◌↔◌, IfOk, IsTrue, option_copied};
ghost use Rattle.uv_compare.specs.Second as spec;
ghost use Rattle.uv_compare.specs.Second.{ReadsSame};

use crate::answer::second_url;
use crate::fault::RoomFault;
use crate::plain_links::is_own_url;
use std::alloc::Global;
use url::Url;
use uv_model::Record;

/// The URL that the second parser reads in a text, against the text of the base if there is one; none if it refuses
/// either.
#[tactic(auto, unfolding(crate::specs::Second::reading))]
pub fn reading(alloc: Global, base: Option<&Record>, text: &str) -> Result<Option<Url>, RoomFault>
    ensures { IfOk result (λ url. url ≡ spec.reading (option_copied base.entry) text.now) }
{
    let Some(record) = base else {
        return second_url(alloc, None, text);
    };
    let written = record.text(alloc)?;
    match second_url(alloc, None, written.as_str())? {
        Some(base) => second_url(alloc, Some(&base), text),
        None => Ok(None),
    }
}

/// Whether the second parser reads both texts as URLs with the same text, against the text of the base if there is one.
/// Most mended texts are the text of their URL, and of those no parse is needed to see it.
#[tactic(auto, unfolding(crate::specs::Second::second_serial))]
pub fn reads_same(
    alloc: Global,
    base: Option<&Record>,
    text: &str,
    other: &str,
) -> Result<bool, RoomFault>
    ensures { IfOk result (λ same. IsTrue same ↔ ReadsSame (option_copied base.entry) text.now other.now) }
{
    let Some(url) = reading(alloc, base, text)? else {
        return Ok(false);
    };
    if is_own_url(other) {
        return Ok(url.as_str() == other);
    }
    let Some(second) = reading(alloc, base, other)? else {
        return Ok(false);
    };
    Ok(url.as_str() == second.as_str())
}
