//! The agreement of the URL parser (URL Standard, section 4.4) with what valid texts denote, each law as the clause of
//! a function that does nothing.
ghost use Rattle.std.specs.Prelude.{option_copied};
ghost use Rattle.std.specs.Str.{chars};
ghost use Rattle.uv_parser.specs.Laws.DecidedTexts.{IsDecided};
ghost use Rattle.uv_resolve.specs.Laws.{ReferencesRunSilently, SchemeTextsRunSilently};
ghost use Rattle.uv_resolve.specs.Resolve.{RunsToItsRecord};

use uv_model::{Profile, Record};

/// On a text that is valid, alone or against a record as base, the URL parser runs to its end with no validation error
/// and no failure, in at most 2n + 5 steps (so in at most 3n + 16) where the text has n code points, and gives exactly
/// the URL that the text's parts denote, which is well formed (URL Standard, section 4.4).
pub fn valid_text_runs_to_its_record(text: &str, base: Option<&Record>, profile: Profile)
    ensures { RunsToItsRecord profile (option_copied base.entry) (chars text.now) }
{
    match base {
        Some(base) => {
            let _ = base.path();
        }
        None => {}
    }
}

/// Alone, or against a record as base, a text is valid under the parser's profile exactly when the URL parser runs to
/// its end with no validation error and no failure, within 3n + 16 steps where the text has n code points, and its
/// record is the one that the text's parts denote. On each other text the run stops at an error (URL Standard, section
/// 4.4).
pub fn parser_decides(text: &str, base: Option<&Record>)
    ensures { IsDecided (option_copied base.entry) (chars text.now) }
{
    match base {
        Some(base) => {
            let _ = base.path();
        }
        None => {}
    }
}

/// On every valid text with a scheme, against every base and none, the URL parser runs to its end with no validation
/// error and no failure, and gives exactly the URL that the text's parts denote (URL Standard, section 4.4).
pub fn scheme_texts_run_silently()
    ensures { SchemeTextsRunSilently }
{}

/// On every valid text without a scheme, against every well-formed base, the URL parser runs to its end with no
/// validation error and no failure, and gives exactly the URL that the text's parts denote (URL Standard, section 4.4).
/// The text begins with `//`, with one `/` or with another path, or it is empty or begins with `?` or `#`.
pub fn references_run_silently()
    ensures { ReferencesRunSilently }
{}
