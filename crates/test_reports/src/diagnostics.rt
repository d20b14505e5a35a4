//! A diagnostic for the tests.
ghost use Rattle.std.specs.Prelude.{◌≡◌, ◌+◌, ◌-◌, ◌^◌, [], None, min, true};
ghost use Rattle.uv_report.specs.Diagnostic.{diagnostic_view};

use uv_report::{Diagnostic, Region};
use uv_shown::SeenText;

/// A diagnostic on the third line of a file, on a text that begins its line and violates a rule at a place.
pub fn refused<'a>(
    file: &'a str,
    rule: &'a str,
    message: &'a str,
    place: usize,
    text: &'a SeenText<'a>,
) -> Diagnostic<'a>
    ensures { diagnostic_view result ≡ record {
      file = file.now;
      region = record {
        line = 3;
        column = min (place + 1) (2 ^ 64 - 1);
        end_line = 3;
        end_column = min (place + 2) (2 ^ 64 - 1);
      };
      rule = rule.now;
      index = None;
      uri = [];
      message = message.now;
      text = text.now;
      is_shown = true;
      place = place;
      named = place;
      repeat = 0;
      fix = None;
    } }
{
    Diagnostic {
        file,
        region: Region {
            line: 3,
            column: (place as u64).saturating_add(1),
            end_line: 3,
            end_column: (place as u64).saturating_add(2),
        },
        rule,
        index: None,
        uri: "",
        message,
        text,
        is_shown: true,
        place,
        named: place,
        repeat: 0,
        fix: None,
    }
}
