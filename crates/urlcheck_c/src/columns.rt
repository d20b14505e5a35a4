//! The column of a place of a text.
ghost use Rattle.std.specs.Prelude.{◌≡◌, IsTrue, ◌↔◌};
ghost use Rattle.urlcheck_c.specs.Finding.{plain_finding};
ghost use Rattle.urlcheck_c.specs.Column.{IsColumnAnswer, IsInRange, uncounted};

use crate::finding::{CallOutcome, Finding};
use crate::reports::report_numbers::unit_of;
use crate::request::text_of;
use uv_report::ColumnCounter;
use uv_text::count_code_points;

/// What became of a column that was asked for.
#[repr(C)]
#[derive(Clone, Copy)]
pub struct Counted {
    /// The outcome: 9 if there is a column, otherwise why there is none.
    pub found: Finding,
    /// The column, from 1, or 0 if there is none.
    pub column: u64,
}

/// The column of a place, in code points, of a text that begins in this column, counted in the unit with this number.
#[unsafe(no_mangle)]
pub extern "C" fn urlcheck_column(text: &[u8], unit: u32, start: u64, place: usize) -> Counted
    ensures { IsColumnAnswer text.now unit start place result }
{
    let text = match text_of(text, CallOutcome::NoUtf8) {
        Ok(text) => text,
        Err(found) => return Counted { found, column: 0 },
    };
    let Some(columns) = unit_of(unit) else {
        return Counted::refused(CallOutcome::NoUnit);
    };
    if !is_in_range(start) {
        return Counted::refused(CallOutcome::NoColumn);
    }
    if place > count_code_points(text) {
        return Counted::refused(CallOutcome::NoPlace);
    }
    Counted {
        found: Finding::plain(CallOutcome::Done),
        column: ColumnCounter::new(columns, start, text).column(place),
    }
}

/// Whether a line or a column is from 1 to 4294967295.
pub(crate) fn is_in_range(number: u64) -> bool
    ensures { IsTrue result ↔ IsInRange number }
{
    0 < number && number <= 4_294_967_295
}

impl Counted {
    // The answer if there is no column, for this reason.
    fn refused(outcome: CallOutcome) -> Counted
        ensures { result ≡ uncounted (plain_finding outcome) }
    {
        Counted {
            found: Finding::plain(outcome),
            column: 0,
        }
    }
}
