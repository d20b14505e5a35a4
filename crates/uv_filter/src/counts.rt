//! What became of the lines of a list.
ghost use Rattle.std.specs.Prelude.{◌≡◌};
ghost use Rattle.uv_filter.specs.Counts.{both, counted, is_mended, more, none_counted, with_kind};

use crate::fate::Fate;
use uv_mend::MendKind;

/// What became of the lines that aren't empty. Each number is at most 2^64 - 1.
#[derive(Clone, Copy, Debug, PartialEq, Eq)]
pub struct FilterCounts {
    /// Lines that aren't empty.
    pub lines: u64,
    /// Those that are valid.
    pub valid: u64,
    /// Those that were replaced by a text of kind `same`.
    pub same: u64,
    /// Those that were replaced by one of kind `escaped`.
    pub escaped: u64,
    /// Those that were replaced by one of kind `changed`.
    pub changed: u64,
    /// Those that are refused and stay as they were.
    pub refused: u64,
    /// Those that aren't UTF-8.
    pub not_utf8: u64,
    /// Those that are too long.
    pub too_long: u64,
}

impl FilterCounts {
    /// No line was counted.
    pub fn none() -> FilterCounts
        ensures { result ≡ none_counted }
    {
        FilterCounts {
            lines: 0,
            valid: 0,
            same: 0,
            escaped: 0,
            changed: 0,
            refused: 0,
            not_utf8: 0,
            too_long: 0,
        }
    }

    /// The counts of two lists together.
    pub fn with(self, other: FilterCounts) -> FilterCounts
        ensures { result ≡ both self other }
    {
        FilterCounts {
            lines: self.lines.saturating_add(other.lines),
            valid: self.valid.saturating_add(other.valid),
            same: self.same.saturating_add(other.same),
            escaped: self.escaped.saturating_add(other.escaped),
            changed: self.changed.saturating_add(other.changed),
            refused: self.refused.saturating_add(other.refused),
            not_utf8: self.not_utf8.saturating_add(other.not_utf8),
            too_long: self.too_long.saturating_add(other.too_long),
        }
    }

    /// Whether a line was mended.
    pub fn is_mended(&self) -> bool
        ensures { result ≡ is_mended self.now }
    {
        self.same != 0 || self.escaped != 0 || self.changed != 0
    }

    /// Counts one more line, by what became of it.
    pub(crate) fn count(&mut self, fate: &Fate)
        ensures { self.new ≡ counted self.old fate.now }
    {
        if matches!(fate, Fate::Empty) {
            return;
        }
        self.lines = with_one(self.lines);
        match fate {
            Fate::Empty => (),
            Fate::Valid => self.valid = with_one(self.valid),
            Fate::Mended { kind, .. } => self.count_mended(*kind),
            Fate::Refused => self.refused = with_one(self.refused),
            Fate::NotUtf8 => self.not_utf8 = with_one(self.not_utf8),
            Fate::TooLong => self.too_long = with_one(self.too_long),
        }
    }

    // Counts one more mended text of this kind.
    fn count_mended(&mut self, kind: MendKind)
        ensures { self.new ≡ with_kind self.old kind }
    {
        match kind {
            MendKind::Same => self.same = with_one(self.same),
            MendKind::Escaped => self.escaped = with_one(self.escaped),
            MendKind::Changed => self.changed = with_one(self.changed),
        }
    }
}

// One more, up to the greatest number.
fn with_one(count: u64) -> u64
    ensures { result ≡ more count }
{
    count.saturating_add(1)
}
