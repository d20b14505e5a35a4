//! The pieces of a list, each cut into lines.
ghost use Rattle.std.specs.Prelude.{◌≡◌, ℕ, ◌+◌, ◌-◌, ◌^◌, ◌<◌, List, [], IfErr, IfOk, OnOk, length, vec_len};
ghost use Rattle.std.specs.Io.KnownBytes.{Consumes, IsAtEnd};
ghost use Rattle.uv_lines.specs.Run.{reads_failed};
ghost use Rattle.uv_lines.specs.Taking.{Keeps, Leads, Left, writes_of};

use crate::fault::{LineFault, StopFault};
use crate::line::{line_before, text_after, text_beyond};
use crate::line_parts::line_end;
use crate::taker::Taker;
use std::alloc::{AllocError, Global};
use uv_io::{Sink, Source};

// How many bytes of the list are read at once.
const PIECE_BYTES: usize = 65_536;

/// Reads a list piece by piece, and has each line taken, and each part of a line that no piece ends. The output for the
/// lines that a read has ended is written before the next read.
#[tactic(none)]
pub fn take_list<R: Source, W: Sink, T: Taker>(
    alloc: Global,
    reader: &mut R,
    writer: &mut W,
    taker: &mut T,
) -> Result<(), LineFault<T::Fault>>
    requires reads { R.failed reader.old < 2 ^ 64 - 1 }
    requires writes { W.failed writer.old < 2 ^ 64 - 1 }
    requires start { T.stands taker.old (W.contents writer.old) [] taker.old (W.contents writer.old) }
    requires rests { T.rests taker.old }
    ensures ends { OnOk result ((read : List ℕ)
        × Consumes (R.remaining reader.old) (R.remaining reader.new) read × IsAtEnd (R.remaining reader.new)
        × T.ends taker.old (W.contents writer.old) read taker.new (W.contents writer.new)) }
    ensures fault { IfErr result (λ e. (read : List ℕ)
        × Consumes (R.remaining reader.old) (R.remaining reader.new) read
        × Left T.stands T.rests T.stops T.fails e taker.old (W.contents writer.old) read
        (IsAtEnd (R.remaining reader.new)) taker.new (W.contents writer.new)
        × (R.failed reader.new ≡ R.failed reader.old + reads_failed e)
        × (W.failed writer.new ≡ W.failed writer.old + writes_of T.writes e)) }
    ensures quiet { OnOk result ((R.failed reader.new ≡ R.failed reader.old)
        × (W.failed writer.new ≡ W.failed writer.old)) }
{
    let Ok(mut piece) = empty_piece(alloc) else {
        return Err(LineFault::Stop(StopFault::Memory));
    };
    take_pieces(alloc, reader, writer, taker, piece.as_mut_slice())
}

// Room for a piece.
fn empty_piece(alloc: Global) -> Result<Vec<u8>, AllocError>
    ensures { IfOk result (λ piece. 0 < vec_len piece) }
{
    vec![in alloc; 0; PIECE_BYTES]
}

// Reads the list piece by piece, and has its lines taken.
#[tactic(none)]
fn take_pieces<R: Source, W: Sink, T: Taker>(
    alloc: Global,
    reader: &mut R,
    writer: &mut W,
    taker: &mut T,
    piece: &mut [u8],
) -> Result<(), LineFault<T::Fault>>
    requires reads { R.failed reader.old < 2 ^ 64 - 1 }
    requires writes { W.failed writer.old < 2 ^ 64 - 1 }
    requires room { 0 < length piece.old }
    requires start { T.stands taker.old (W.contents writer.old) [] taker.old (W.contents writer.old) }
    requires rests { T.rests taker.old }
    ensures ends { OnOk result ((read : List ℕ)
        × Consumes (R.remaining reader.old) (R.remaining reader.new) read × IsAtEnd (R.remaining reader.new)
        × T.ends taker.old (W.contents writer.old) read taker.new (W.contents writer.new)) }
    ensures fault { IfErr result (λ e. (read : List ℕ)
        × Consumes (R.remaining reader.old) (R.remaining reader.new) read
        × Left T.stands T.rests T.stops T.fails e taker.old (W.contents writer.old) read
        (IsAtEnd (R.remaining reader.new)) taker.new (W.contents writer.new)
        × (R.failed reader.new ≡ R.failed reader.old + reads_failed e)
        × (W.failed writer.new ≡ W.failed writer.old + writes_of T.writes e)) }
    ensures quiet { OnOk result ((R.failed reader.new ≡ R.failed reader.old)
        × (W.failed writer.new ≡ W.failed writer.old)) }
{
    for _turn in 0..u64::MAX {
        let Ok(count) = reader.read(piece) else {
            return Err(LineFault::Stop(StopFault::Read));
        };
        if count == 0 {
            return match taker.end_list(alloc, writer) {
                Ok(()) => Ok(()),
                Err(fault) => Err(LineFault::Own(fault)),
            };
        }
        if let Err(fault) = take_piece(alloc, writer, taker, &piece[..count]) {
            return Err(LineFault::Own(fault));
        }
    }
    Err(LineFault::Stop(StopFault::Endless))
}

// Has each line that ends in a piece taken, and the part of the next line that the piece has, and then has what waits
// written.
fn take_piece<W: Sink, T: Taker>(
    alloc: Global,
    writer: &mut W,
    taker: &mut T,
    piece: &[u8],
) -> Result<(), T::Fault>
    requires { W.failed writer.old < 2 ^ 64 - 1 }
    ensures stands { OnOk result (Keeps T.stands taker.old (W.contents writer.old) piece.now taker.new
        (W.contents writer.new)) }
    ensures rests { OnOk result (T.rests taker.new) }
    ensures quiet { OnOk result (W.failed writer.new ≡ W.failed writer.old) }
    ensures fault { IfErr result (λ e. Leads T.stands (T.stops e) taker.old (W.contents writer.old) piece.now
        taker.new (W.contents writer.new)) }
    ensures failed { IfErr result (λ e. W.failed writer.new ≡ W.failed writer.old + T.writes e) }
{
    let mut start = 0;
    let mut text = "";
    while let Some(length) = line_end(&piece[start..]) {
        text = text_beyond(&piece[start..], text, length);
        let line = line_before(&piece[start..], text, length);
        let whole = &piece[start..start + length + 1];
        taker.take_line(alloc, writer, line, whole)?;
        text = text_after(text, length);
        start += length + 1;
    }
    taker.take_part(writer, &piece[start..])?;
    taker.end_piece(writer)
}
