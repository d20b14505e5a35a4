//! The state of a run between two parts of a list.
ghost use Rattle.std.specs.Prelude.{◌≡◌, ◌≤◌, [], false, vec_len};
ghost use Rattle.uv_filter.specs.Fates.{mender_of};
ghost use Rattle.uv_filter.specs.Filtered.{starting};

use crate::counts::FilterCounts;
use crate::line_filter::LineFilter;
use crate::setting::FilterSetting;
use std::alloc::Global;

/// How many bytes of a line whose end hasn't come yet are kept at most: as many as a line may have, a byte order mark
/// and a CR.
pub(crate) const KEPT_BYTES: usize = 65_540;

/// The state of a run between two parts of a list: what is kept of a line that may be short enough, whether the line
/// that has begun is already too long, and what is still to be written for the lines before it.
#[derive(Drop)]
pub(crate) struct Progress<'b> {
    pub(crate) filter: LineFilter<'b>,
    pub(crate) begun: Vec<u8>,
    pub(crate) is_long: bool,
    pub(crate) text: Vec<u8>,
    ghost kept: { vec_len begun ≤ 65540 },
}

impl<'b> Progress<'b> {
    /// The state before the first part.
    pub(crate) fn new(alloc: Global, setting: FilterSetting<'b>) -> Progress<'b>
        ensures filter { result.filter ≡ starting (mender_of setting.entry) }
        ensures begun { (result.begun.items ≡ []) × (result.is_long ≡ false) }
        ensures text { result.text.items ≡ [] }
    {
        Progress {
            filter: LineFilter::new(setting),
            begun: Vec::new(alloc),
            is_long: false,
            text: Vec::new(alloc),
        }
    }

    /// The counts of the lines before.
    pub(crate) fn counts(&self) -> FilterCounts
        ensures { result ≡ self.now.filter.counts }
    {
        self.filter.counts()
    }
}
