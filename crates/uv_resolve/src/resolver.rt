//! The record of a text, alone or against a base.
ghost use Rattle.std.specs.Prelude.{option_copied};
ghost use Rattle.std.specs.Str.{chars};
ghost use Rattle.uv_resolve.specs.ParserAnswer.{AnswersAsParser};
ghost use Rattle.uv_resolve.specs.Resolve.{IsResolved, RefusesWithoutMemory, RunsToItsRecord};

use crate::fault::ResolveFault;
use crate::laws::{parser_decides, valid_text_runs_to_its_record};
use crate::records::denoted;
use std::alloc::Global;
use uv_grammar::{Verdict, check};
use uv_model::{Profile, Record};

/// The record that a text denotes under the profile, alone or against a base (URL Standard, sections 4.3 and 4.4).
///
/// A text that isn't a valid URL string of the profile is refused before any allocation for the record. Under the
/// parser's profile the answer is a record exactly when the URL parser's run ends in that record without an error.
#[inline(always)]
pub fn resolve(
    alloc: Global,
    text: &str,
    base: Option<&Record>,
    profile: Profile,
) -> Result<Record, ResolveFault>
    ensures resolved { IsResolved profile (option_copied base.entry) (chars text.now) result }
    ensures memory { RefusesWithoutMemory profile (option_copied base.entry) (chars text.now) result }
    ensures runs { RunsToItsRecord profile (option_copied base.entry) (chars text.now) }
    ensures parser { AnswersAsParser profile (option_copied base.entry) (chars text.now) result }
{
    valid_text_runs_to_its_record(text, base, profile);
    parser_decides(text, base);
    let verdict = check(alloc, text, base, profile)?;
    match &verdict {
        Verdict::Yes(parts) => denoted(alloc, parts, base),
        Verdict::No(refusal) => Err(ResolveFault::Refused(*refusal)),
    }
}
