//! What becomes of the lines of a list, one after another.
ghost use Rattle.std.specs.Prelude.{◌≡◌, ◌≢◌, ◌&&◌, true, false, [], IfOk, OnErr, OnOk};
ghost use Rattle.uv_filter.specs.declared.fate.Fate.TheVariants as became;
ghost use Rattle.uv_filter.specs.Fates.{IsFate, IsTextFate, mender_of};
ghost use Rattle.uv_filter.specs.Fates as spec;
ghost use Rattle.uv_filter.specs.Filtered.{starting, with_fate};
ghost use Rattle.uv_filter.specs.Lines.{line_view};
ghost use Rattle.uv_filter.specs.Progress.{Adds, passing};

use crate::counts::FilterCounts;
use crate::fate::Fate;
use crate::setting::{FilterSetting, WrittenKinds};
use crate::written::{ListLine, checked, push_written};
use std::alloc::{AllocError, Global};
use std::marker::Model;
use std::str::from_utf8;
use uv_lines::line_text;
use uv_mend::{MendKind, Mending, mend};
use uv_sentences::{KnownText, is_offered};

// How many bytes a line may have, not counting its end and a byte order mark.
const LINE_BYTES: usize = 65_536;

/// The state of a filter between two lines: how lines are mended, whether the next line is the first, and the counts of
/// the lines before.
#[derive(Drop)]
pub(crate) struct LineFilter<'b> {
    setting: FilterSetting<'b>,
    is_first: bool,
    counts: FilterCounts,
}

impl<'b> Model for LineFilter<'b> {
    ghost use Rattle.uv_filter.specs.Fates.{mender_of};
    ghost use Rattle.uv_filter.specs.Filtered.{Filtering};

    ghost Value = { Filtering };

    ghost view = { λ f. record {
      mender = mender_of f.setting;
      is_first = f.is_first;
      counts = f.counts;
    } };
}

impl<'b> LineFilter<'b> {
    /// The state before the first line.
    pub(crate) fn new(setting: FilterSetting<'b>) -> LineFilter<'b>
        ensures { result ≡ starting (mender_of setting.entry) }
    {
        LineFilter {
            setting,
            is_first: true,
            counts: FilterCounts::none(),
        }
    }

    /// The counts of the lines before.
    pub(crate) fn counts(&self) -> FilterCounts
        ensures { result ≡ self.now.counts }
    {
        self.counts
    }

    /// Counts a line that is too long and so isn't kept, unless it is counted already.
    pub(crate) fn count_long(&mut self, is_counted: bool)
        ensures { self.new ≡ passing is_counted self.old }
    {
        if !is_counted {
            self.count(&Fate::TooLong);
        }
    }

    /// Appends what is written of the next line, and counts it. An error means that memory ran out: then nothing has
    /// changed.
    pub(crate) fn filter(
        &mut self,
        alloc: Global,
        line: ListLine<'_>,
        out: &mut Vec<u8>,
    ) -> Result<(), AllocError>
        ensures added { OnOk result (Adds self.old (line_view line.entry) out.old.items self.new out.new.items) }
        ensures none { OnErr result ((self.new ≡ self.old) × (out.new.items ≡ out.old.items)) }
    {
        let fate = self.fate(alloc, line)?;
        let start = out.len();
        match push_written(out, line, self.is_first, &fate) {
            Ok(()) => {
                self.count(&fate);
                Ok(())
            }
            Err(AllocError) => {
                out.truncate(start);
                Err(AllocError)
            }
        }
    }

    // Counts a line, by what became of it.
    fn count(&mut self, fate: &Fate)
        ensures { self.new ≡ with_fate self.old fate.now }
    {
        self.is_first = false;
        self.counts.count(fate);
    }

    // What becomes of the next line.
    fn fate(&self, alloc: Global, line: ListLine<'_>) -> Result<Fate, AllocError>
        ensures { IfOk result (IsFate self.now.mender self.now.is_first (line_view line.entry)) }
    {
        let text = checked(line_text(line.bytes, line.is_closed), self.is_first);
        if text.len() > LINE_BYTES {
            return Ok(Fate::TooLong);
        }
        self.fate_of_text(alloc, text)
    }

    // What becomes of a text that isn't too long.
    fn fate_of_text(&self, alloc: Global, text: &[u8]) -> Result<Fate, AllocError>
        ensures { IfOk result (λ fate. (fate ≢ became.TooLong) × IsTextFate self.now.mender text.now fate) }
    {
        if text.is_empty() {
            return Ok(Fate::Empty);
        }
        match from_utf8(text) {
            Ok(text) => self.mended(alloc, text),
            Err(_) => Ok(Fate::NotUtf8),
        }
    }

    // What becomes of a text that is checked.
    fn mended(&self, alloc: Global, text: &str) -> Result<Fate, AllocError>
        requires { text.now ≢ [] }
        ensures { IfOk result (λ fate. (fate ≢ became.TooLong) × IsTextFate self.now.mender text.now fate) }
    {
        let setting = self.setting;
        match mend(alloc, text, setting.base, setting.profile)? {
            Mending::Valid => Ok(Fate::Valid),
            Mending::Mended { text: mended, kind } => {
                if writes(setting, text, mended.as_str(), kind) {
                    Ok(Fate::Mended { text: mended, kind })
                } else {
                    Ok(Fate::Refused)
                }
            }
            Mending::Refused(_) => Ok(Fate::Refused),
        }
    }
}

// Whether a mended text of this kind is written in place of a text: it is of a kind that is asked for, and reports
// offer it, unless all are written.
fn writes(setting: FilterSetting<'_>, text: &str, mended: &str, kind: MendKind) -> bool
    ensures asked { result ≡ true → spec.takes setting.entry.kinds kind ≡ true }
    ensures left { result ≡ false → (spec.takes setting.entry.kinds kind && setting.entry.all) ≡ false }
{
    takes(setting.kinds, kind) && (setting.all || is_offered(&KnownText::new(text), mended))
}

// Whether mended texts of this kind are written.
fn takes(kinds: WrittenKinds, kind: MendKind) -> bool
    ensures { result ≡ spec.takes kinds kind }
{
    match kinds {
        WrittenKinds::Every => true,
        WrittenKinds::Safe => kind != MendKind::Changed,
        WrittenKinds::Only(only) => only == kind,
    }
}
