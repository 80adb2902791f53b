//! A sink over any writer.
ghost use Rattle.std.specs.Prelude.{◌≡◌};

use crate::traits::{Sink, Trouble};
use crate::writing::write_piece;
use std::io::Write;

/// A sink that hands each piece to a writer, by as many writes as it takes. It holds what the writer
/// tells, counts the pieces that the writer didn't take whole, and never wants memory.
#[derive(Drop)]
pub struct WriteSink<W> {
    writer: W,
    faults: u64,
}

impl<W: Write + Drop> WriteSink<W> {
    /// A sink without faults over this writer.
    pub fn new(writer: W) -> WriteSink<W>
        ensures { ⟦<WriteSink<W> as Sink>⟧.state result ≡ record { written = W.contents writer; faults = 0; lacks = 0 } }
    {
        WriteSink { writer, faults: 0 }
    }
}

impl<W: Write + Drop> Sink for WriteSink<W> {
    ghost state = { λ sink. record { written = W.contents sink.writer; faults = sink.faults; lacks = 0 } };

    fn write(&mut self, piece: &[u8]) -> Result<(), Trouble> {
        if write_piece(&mut self.writer, piece).is_err() {
            self.faults = self.faults.saturating_add(1);
            return Err(Trouble::Failed);
        }
        Ok(())
    }
}

#[cfg(test)]
mod tests {
    use super::WriteSink;
    use crate::traits::{Sink, Trouble};
    use std::fs;
    use std::io::{self, ErrorKind, Write};
    use std::test::Fail;

    /// A writer that takes so many bytes, one at a write, and then none.
    #[derive(Drop)]
    struct Narrow {
        room: usize,
    }

    impl Write for Narrow {
        fn write(&mut self, bytes: &[u8]) -> io::Result<usize> {
            if bytes.is_empty() || self.room == 0 {
                return Ok(0);
            }
            self.room -= 1;
            Ok(1)
        }

        fn flush(&mut self) -> io::Result<()> {
            Ok(())
        }
    }

    #[test]
    fn a_write_of_nothing_is_a_fault(rt: HostRuntime) -> Result<(), Fail> {
        let mut sink = WriteSink::new(Narrow { room: 7 });
        assert_eq!(rt; sink.write(b"job a ".as_slice()), Ok(()));
        assert_eq!(rt; sink.write(b"vers".as_slice()), Err(Trouble::Failed));
        assert_eq!(rt; sink.write(b"".as_slice()), Ok(()));
        Ok(())
    }

    /// A writer that is interrupted at the write of this number, and takes one byte at each other one.
    #[derive(Drop)]
    struct Interrupted {
        number: usize,
        writes: usize,
        taken: Vec<u8>,
    }

    impl Write for Interrupted {
        fn write(&mut self, bytes: &[u8]) -> io::Result<usize> {
            self.writes = self.writes.saturating_add(1);
            if self.writes == self.number {
                return Err(io::Error::from(ErrorKind::Interrupted));
            }
            let front = bytes.get(..1).unwrap_or(&[]);
            self.taken.extend_from_slice(front)?;
            Ok(front.len())
        }

        fn flush(&mut self) -> io::Result<()> {
            Ok(())
        }
    }

    #[test]
    fn an_interrupted_write_is_tried_again(rt: HostRuntime) -> Result<(), Fail> {
        for number in [1, 3, 6] {
            let mut writer = Interrupted {
                number,
                writes: 0,
                taken: Vec::new(rt.alloc()),
            };
            let mut sink = WriteSink::new(&mut writer);
            assert_eq!(rt; sink.write(b"job a ".as_slice()), Ok(()), "{number}");
            assert_eq!(rt; writer.taken.as_slice(), b"job a ".as_slice(), "{number}");
            assert_eq!(rt; writer.writes, 7, "{number}");
        }
        Ok(())
    }

    #[test]
    fn vec_and_file(rt: HostRuntime) -> Result<(), Fail> {
        let mut held = Vec::new(rt.alloc());
        let mut sink = WriteSink::new(&mut held);
        for piece in ["job a ", "", "vers"] {
            assert_eq!(rt; sink.write(piece.as_bytes()), Ok(()));
        }
        assert_eq!(rt; held.as_slice(), b"job a vers".as_slice());

        let mut sink = WriteSink::new(fs::create(&rt, "write_sink.txt")?);
        assert_eq!(rt; sink.write(b"one\n".as_slice()), Ok(()));
        assert_eq!(rt; sink.write(b"two\n".as_slice()), Ok(()));
        assert_eq!(rt;
            fs::read_to_string(&rt, "write_sink.txt")?.as_str(),
            "one\ntwo\n"
        );
        fs::remove_file(&rt, "write_sink.txt")?;
        Ok(())
    }
}
