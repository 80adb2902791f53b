//! Writing a whole piece to any writer, by short writes.
ghost use Rattle.std.specs.Prelude.{◌≡◌, ◌≤◌, [], length, take, IsOk, IfOk, OnOk, OnErr};
ghost use Rattle.gm_outside.specs.Growth.{GrewBy, GrewByPrefix};

use std::io;
use std::io::{ErrorKind, Write};

/// Writes the whole piece. A write of nothing is an error, and an interrupted one is tried again.
pub(crate) fn write_piece<W: Write>(writer: &mut W, piece: &[u8]) -> io::Result<()>
    ensures ok { OnOk result (GrewBy (W.contents writer.old) (W.contents writer.new) piece.now) }
    ensures err { OnErr result (GrewByPrefix (W.contents writer.old) (W.contents writer.new) piece.now) }
    ensures empty { piece.now ≡ [] → IsOk result }
{
    let mut at = 0;
    if piece.is_empty() {
        return Ok(());
    }
    for _ in 0..u64::MAX {
        at += write_some(writer, &piece[at..])?;
        if at == piece.len() {
            return Ok(());
        }
    }
    Err(io::Error::from(ErrorKind::TimedOut))
}

/// Makes one write, and answers how many bytes it took: none where it was interrupted.
fn write_some<W: Write>(writer: &mut W, piece: &[u8]) -> io::Result<usize>
    ensures within { IfOk result (λ count. count ≤ length piece.now) }
    ensures ok { IfOk result (λ count. GrewBy (W.contents writer.old) (W.contents writer.new) (take count piece.now)) }
    ensures err { OnErr result (GrewBy (W.contents writer.old) (W.contents writer.new) []) }
{
    match writer.write(piece) {
        Ok(0) => Err(io::Error::from(ErrorKind::WriteZero)),
        Err(error) if error.kind() == ErrorKind::Interrupted => Ok(0),
        taken => taken,
    }
}
