//! The ends of lines.
ghost use Rattle.std.specs.Prelude.{◌≡◌, ◌==◌, count_by};

/// How many lines these bytes end: the number of LFs.
pub fn line_feeds(bytes: &[u8]) -> usize
    ensures { result ≡ count_by (λ byte. byte == 10) bytes.now }
{
    bytes.iter().filter(|byte| **byte == b'\n').count()
}
