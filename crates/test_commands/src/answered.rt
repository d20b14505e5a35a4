//! What a command over a text answers.
ghost use Rattle.std.specs.Prelude.{◌≡◌, ◌↔◌, IsTrue};

use uv_cli::CheckEnd;

/// Whether a command that ended like this, and wrote these bytes, has the wanted end and the wanted lines.
pub fn is_answer(end: CheckEnd, written: &[u8], wanted: CheckEnd, lines: &str) -> bool
    ensures { IsTrue result ↔ ((end ≡ wanted) × (written.now ≡ lines.now)) }
{
    end == wanted && written == lines.as_bytes()
}
