//! What is noticed about the bytes that are read from a list: the first of them, and what ends its lines.

use arrayvec::ArrayVec;
use uv_messages::list_contents::{Content, LineEnds, content_of};

// How many bytes are kept.
const KEPT: usize = 256;

/// What is noticed about the bytes that were read from a list.
#[derive(Drop)]
pub(crate) struct SeenBytes {
    first: ArrayVec<u8, KEPT>,
    ends: LineEnds,
}

impl SeenBytes {
    /// What is known before the first read.
    pub(crate) fn new() -> SeenBytes {
        SeenBytes {
            first: ArrayVec::new(),
            ends: LineEnds::Unseen,
        }
    }

    /// Looks at further bytes that were read.
    pub(crate) fn add(&mut self, bytes: &[u8]) {
        self.ends = match self.ends {
            LineEnds::Feeds => LineEnds::Feeds,
            _ if bytes.contains(&b'\n') => LineEnds::Feeds,
            LineEnds::Unseen if bytes.contains(&b'\r') => LineEnds::Returns,
            ends => ends,
        };
        let room = self.first.remaining_capacity().min(bytes.len());
        let _ = self.first.try_extend_from_slice(&bytes[..room]);
    }

    /// What the bytes look like, if they don't look like lines of links.
    pub(crate) fn content(&self) -> Option<Content> {
        content_of(self.first.as_slice(), self.ends)
    }
}
