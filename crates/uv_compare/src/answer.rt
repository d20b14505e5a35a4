//! The second parser's answer on a text, alone or against a URL of its own.
ghost use Rattle.std.specs.Prelude.{◌≡◌, ◌↔◌, IfOk, IsTrue, Some, option_copied};
ghost use Rattle.url.specs.Parser.{Gives, parse_url};
ghost use Rattle.uv_compare.specs.Second.{IsReadAs, parsed, room_fault, second_serial, text_against};

use crate::fault::RoomFault;
use crate::plain_links::is_own_url;
use std::alloc::Global;
use url::{ParseError, ParseResult, Url};

/// The URL that the second parser makes of a text, alone or against a base, if the URL's text is the written one; none
/// if it makes another one, or refuses the text. It is inlined, so that the URL isn't copied where it is only compared.
#[tactic(auto, unfolding(crate::specs::Second::second_serial, crate::specs::Second::text_against))]
#[inline(always)]
pub fn read_as(
    alloc: Global,
    base: Option<&Url>,
    text: &str,
    written: &str,
) -> Result<Option<Url>, RoomFault>
    ensures { IfOk result (IsReadAs (option_copied base.entry) text.now written.now) }
{
    let Some(url) = second_url(alloc, base, text)? else {
        return Ok(None);
    };
    if url.as_str() == written {
        Ok(Some(url))
    } else {
        Ok(None)
    }
}

/// Whether the second parser makes of a text, alone or against a base, a URL with the written text. Most links are the
/// text of their URL, and for those no parse is needed to see it.
pub fn reads_as(
    alloc: Global,
    base: Option<&Url>,
    text: &str,
    written: &str,
) -> Result<bool, RoomFault>
    ensures { IfOk result (λ same.
        IsTrue same ↔ (text_against (option_copied base.entry) text.now ≡ Some written.now)) }
{
    if text == written && is_own_url(text) {
        return Ok(true);
    }
    let url = read_as(alloc, base, text, written)?;
    Ok(url.is_some())
}

/// The URL that the second parser makes of a text, alone or against a base; none if it refuses the text.
pub(crate) fn second_url(
    alloc: Global,
    base: Option<&Url>,
    text: &str,
) -> Result<Option<Url>, RoomFault>
    ensures { IfOk result (λ url. url ≡ parsed (parse_url (option_copied base.entry) text.now)) }
{
    match parse(alloc, base, text) {
        Ok(url) => Ok(Some(url)),
        Err(error) => match room_fault(error) {
            Some(fault) => Err(fault),
            None => Ok(None),
        },
    }
}

// The fault that the second parser's error stands for; none if it refuses the text.
fn room_fault(error: ParseError) -> Option<RoomFault>
    ensures { result ≡ room_fault error }
{
    match error {
        ParseError::OutOfMemory => Some(RoomFault::Memory),
        ParseError::Overflow => Some(RoomFault::Overflow),
        _ => None,
    }
}

// The second parser's answer.
fn parse(alloc: Global, base: Option<&Url>, text: &str) -> ParseResult<Url>
    ensures { Gives result (parse_url (option_copied base.entry) text.now) }
{
    match base {
        Some(base) => base.join(text),
        None => Url::parse(alloc, text),
    }
}

/// The URL's text.
#[tactic(auto, unfolding(crate::specs::Second::second_serial))]
pub fn serial(url: &Url) -> &str
    ensures { result.now ≡ second_serial url.now }
{
    url.as_str()
}
