//! The limits of a run over a list of links.
ghost use Rattle.std.specs.Prelude.{◌≡◌, ◌≤◌, IfSome, is_some};
ghost use Rattle.uv_links.specs.Limits.{are_limits};

// The largest limits.
const MOST_LINE_BYTES: usize = 65_536;

// The most lines that a list may have.
const MOST_LINES: u64 = 1_000_000_000;

/// How many bytes a line may have, not counting its LF and a CR before that, and how many lines may come.
#[derive(Clone, Copy, Debug, PartialEq, Eq)]
pub struct LinkLimits {
    line_bytes: usize,
    lines: u64,
    ghost short: { line_bytes ≤ 65536 },
    ghost few: { lines ≤ 1000000000 },
}

impl LinkLimits {
    /// The largest limits: lines of 65,536 bytes, and 1,000,000,000 of them.
    pub fn standard() -> LinkLimits
        ensures line_bytes { result.line_bytes ≡ 65536 }
        ensures lines { result.lines ≡ 1000000000 }
    {
        LinkLimits {
            line_bytes: MOST_LINE_BYTES,
            lines: MOST_LINES,
        }
    }

    /// These limits, or none if a number is above the largest one. Either may be 0.
    pub fn new(line_bytes: usize, lines: u64) -> Option<LinkLimits>
        ensures taken { is_some result ≡ are_limits line_bytes lines }
        ensures value { IfSome result (λ limits. (limits.line_bytes ≡ line_bytes) × (limits.lines ≡ lines)) }
    {
        if line_bytes <= MOST_LINE_BYTES && lines <= MOST_LINES {
            Some(LinkLimits { line_bytes, lines })
        } else {
            None
        }
    }

    /// How many bytes a line may have.
    pub fn line_bytes(&self) -> usize
        ensures value { result ≡ self.now.line_bytes }
        ensures bounded { result ≤ 65536 }
    {
        self.line_bytes
    }

    /// How many lines may come.
    pub fn lines(&self) -> u64
        ensures value { result ≡ self.now.lines }
        ensures bounded { result ≤ 1000000000 }
    {
        self.lines
    }
}
