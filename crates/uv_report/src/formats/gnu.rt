//! Diagnostics as compilers write them.
ghost use Rattle.std.specs.Prelude.{◌≡◌, ◌++◌, OnOk, string_bytes};
ghost use Rattle.uv_report.specs.Diagnostic.{diagnostic_view};
ghost use Rattle.uv_report.specs.Formats.Gnu.{gnu_line, gnu_text};

use crate::diagnostic::Diagnostic;
use crate::look::Look;
use std::alloc::{AllocError, Global};
use uv_shown::push_shown;

// What a line has besides what the diagnostic says.
#[derive(Clone, Copy)]
struct Words {
    before_file: &'static str,
    before_sentence: &'static str,
    before_rule: &'static str,
    after_rule: &'static str,
}

/// Pushes `FILE:LINE:COLUMN: error: SENTENCE [RULE]` and a line feed.
pub(crate) fn push_gnu(
    alloc: Global,
    text: &mut String,
    look: Look,
    found: &Diagnostic<'_>,
) -> Result<(), AllocError>
    ensures { OnOk result (string_bytes text.new
        ≡ string_bytes text.old ++ gnu_text look (diagnostic_view found.now)) }
{
    match look {
        Look::Plain => {
            let words = Words {
                before_file: "",
                before_sentence: ": error: ",
                before_rule: " [",
                after_rule: "]\n",
            };
            push_line(alloc, text, words, found)
        }
        Look::Coloured => {
            let words = Words {
                before_file: "\x1b[1m",
                before_sentence: ":\x1b[0m \x1b[1;31merror:\x1b[0m ",
                before_rule: " \x1b[2m[",
                after_rule: "]\x1b[0m\n",
            };
            push_line(alloc, text, words, found)
        }
    }
}

// Pushes the line with these words.
#[tactic(auto, unfolding(crate::specs::Formats::Gnu::gnu_line))]
fn push_line(
    alloc: Global,
    text: &mut String,
    words: Words,
    found: &Diagnostic<'_>,
) -> Result<(), AllocError>
    ensures { OnOk result (string_bytes text.new ≡ string_bytes text.old
        ++ gnu_line words.before_file.now words.before_sentence.now words.before_rule.now words.after_rule.now
        (diagnostic_view found.now)) }
{
    let line = found.region.line;
    let column = found.region.column;
    let before_sentence = words.before_sentence;
    let place = format!(in alloc; ":{line}:{column}{before_sentence}")?;
    text.push_str(words.before_file)?;
    push_shown(text, found.file)?;
    text.push_str(place.as_str())?;
    push_shown(text, found.message)?;
    text.push_str(words.before_rule)?;
    push_shown(text, found.rule)?;
    text.push_str(words.after_rule)?;
    Ok(())
}
