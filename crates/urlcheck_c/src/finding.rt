//! What was found of a text, as C sees it.
ghost use Rattle.std.specs.Prelude.{◌≡◌, IsUtf8, length};
ghost use Rattle.std.specs.Str.{IsValidUpTo, chars};
ghost use Rattle.std.specs.Str.Lossy.{utf8_valid_len};
ghost use Rattle.urlcheck_c.specs.Finding.{no_utf8_finding, outcome_number, placed_finding, plain_finding};
ghost use Rattle.urlcheck_c.specs.Finding.{refused_finding};

use crate::places::byte_place;
use simdutf8::compat::from_utf8;
use uv_model::Refusal;
use uv_text::count_code_points;

/// What was found of a text, or why it wasn't checked.
#[repr(C)]
#[derive(Clone, Copy)]
pub struct Finding {
    /// The number of the outcome: 0 valid, 1 refused, 2 no UTF-8, 3 the base is refused, 4 the base isn't UTF-8, 5 out
    /// of memory, 6 no profile has the number, 7 no base of the profile, 8 the text violates a rule and a mended text
    /// is given. include/urlcheck.h has the numbers of batches and reports, from 9 on; only that file has 18.
    pub verdict: u32,
    /// The number of the violated rule, from 1 to 14, if the text or the base is refused, otherwise 0.
    pub rule: u32,
    /// The first wrong place, in code points from 0: of the text or, if the verdict is about the base, of the base. If a
    /// message is given, the place of the code point that it names.
    pub place: usize,
    /// The same place, in bytes from 0.
    pub byte_place: usize,
}

/// The outcomes of a call.
#[derive(Clone, Copy)]
pub(crate) enum CallOutcome {
    /// The text is a valid URL string.
    Valid,
    /// The text violates a rule.
    Refused,
    /// The text isn't UTF-8.
    NoUtf8,
    /// The base by itself violates a rule.
    BaseRefused,
    /// The base isn't UTF-8.
    BaseNoUtf8,
    /// An allocation failed.
    Memory,
    /// No profile has the number.
    NoProfile,
    /// What was given as a base isn't one that was prepared under the profile.
    NoBase,
    /// The text violates a rule, and a mended text is given.
    Mended,
    /// What was asked for is given.
    Done,
    /// No format has the number.
    NoFormat,
    /// No unit of columns has the number, or the format has no word for it.
    NoUnit,
    /// No rule has the number.
    NoRule,
    /// No kind of mended text has the number.
    NoKind,
    /// No completion has the number.
    NoCompletion,
    /// The place is after the text's end.
    NoPlace,
    /// A line or a column isn't from 1 to 4294967295.
    NoColumn,
    /// An offset is less than the one before it, or beyond the end of the texts.
    NoOffsets,
    /// The name of the file isn't UTF-8.
    FileNoUtf8,
    /// The mended text isn't UTF-8.
    MendedNoUtf8,
    /// One of these isn't UTF-8: the name or the address of a rule, a message, or what says where the text is.
    ReportedNoUtf8,
    /// No wording of sentences has the number.
    NoWording,
}

impl CallOutcome {
    /// The number that C sees.
    pub(crate) fn number(self) -> u32
        ensures { result ≡ outcome_number self }
    {
        match self {
            CallOutcome::Valid => 0,
            CallOutcome::Refused => 1,
            CallOutcome::NoUtf8 => 2,
            CallOutcome::BaseRefused => 3,
            CallOutcome::BaseNoUtf8 => 4,
            CallOutcome::Memory => 5,
            CallOutcome::NoProfile => 6,
            CallOutcome::NoBase => 7,
            CallOutcome::Mended => 8,
            CallOutcome::Done => 9,
            CallOutcome::NoFormat => 10,
            CallOutcome::NoUnit => 11,
            CallOutcome::NoRule => 12,
            CallOutcome::NoKind => 13,
            CallOutcome::NoCompletion => 14,
            CallOutcome::NoPlace => 15,
            CallOutcome::NoColumn => 16,
            CallOutcome::NoOffsets => 17,
            CallOutcome::FileNoUtf8 => 19,
            CallOutcome::MendedNoUtf8 => 20,
            CallOutcome::ReportedNoUtf8 => 21,
            CallOutcome::NoWording => 22,
        }
    }
}

impl Finding {
    /// An outcome without a rule and a place.
    pub(crate) fn plain(outcome: CallOutcome) -> Finding
        ensures { result ≡ plain_finding outcome }
    {
        Finding {
            verdict: outcome.number(),
            rule: 0,
            place: 0,
            byte_place: 0,
        }
    }

    /// A place of a text.
    pub(crate) fn placed(outcome: CallOutcome, text: &str, place: usize) -> Finding
        ensures { result ≡ placed_finding outcome text.now place }
    {
        Finding {
            verdict: outcome.number(),
            rule: 0,
            place,
            byte_place: byte_place(text, place),
        }
    }

    /// A text that is refused.
    pub(crate) fn refused(outcome: CallOutcome, text: &str, refusal: Refusal) -> Finding
        ensures { result ≡ refused_finding outcome text.now refusal }
    {
        Finding {
            verdict: outcome.number(),
            rule: u32::from(refusal.rule.number()),
            place: refusal.place,
            byte_place: byte_place(text, refusal.place),
        }
    }

    /// Bytes whose longest prefix that is UTF-8 has this length.
    pub(crate) fn no_utf8(outcome: CallOutcome, bytes: &[u8], prefix: usize) -> Finding
        requires prefix { IsValidUpTo bytes.now prefix }
        requires longest { prefix ≡ utf8_valid_len bytes.now }
        ensures { result ≡ no_utf8_finding outcome bytes.now }
    {
        Finding {
            verdict: outcome.number(),
            rule: 0,
            place: count_valid(&bytes[..prefix]),
            byte_place: prefix,
        }
    }
}

// How many code points the bytes hold, if they are UTF-8.
fn count_valid(bytes: &[u8]) -> usize
    ensures { IsUtf8 bytes.now → result ≡ length (chars bytes.now) }
{
    match from_utf8(bytes) {
        Ok(text) => count_code_points(text),
        Err(_) => 0,
    }
}
