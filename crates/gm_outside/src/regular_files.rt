//! The regular files of a runtime. Nothing is proved of what a file holds: it is the edge that is trusted.
ghost use Rattle.std.specs.Prelude.{OnOk};
ghost use Rattle.std.specs.Io.KnownBytes.{Consumes};

use crate::writing::write_piece;
use std::alloc::AllocGlobal;
use std::fs::File;
use std::io::{ErrorKind, Read, Seek, SeekFrom};
use std::rt::Files;
use std::{fs, io};

/// An open file, with its name where there was memory for it.
#[derive(Drop)]
struct OpenFile<F> {
    name: Option<String>,
    file: F,
}

impl<F> OpenFile<F> {
    fn has_name(&self, name: &str) -> bool {
        self.name
            .as_ref()
            .is_some_and(|own_name| own_name.as_str() == name)
    }
}

/// The regular files of a runtime, by their paths. The file of the last read stays open for the next one.
#[derive(Drop)]
pub(crate) struct RegularFiles<R: Files> {
    rt: R,
    open: Option<OpenFile<R::File>>,
}

impl<R: Files + AllocGlobal + Drop> RegularFiles<R> {
    pub(crate) fn new(rt: R) -> RegularFiles<R> {
        RegularFiles { rt, open: None }
    }

    /// The length of a file, or `None` where there is nothing of this name. It asks by the name, and closes the file.
    pub(crate) fn size(&mut self, name: &str) -> io::Result<Option<u64>> {
        self.close(name);
        self.size_by_name(name)
    }

    /// Fills `into` with the bytes of a file from `pos` on. Where that fails, no file stays open.
    pub(crate) fn read(&mut self, name: &str, pos: u64, into: &mut [u8]) -> io::Result<()> {
        let mut open = match self.take_open(name, into.len()) {
            Some(open) => open,
            None => self.open_range(name, pos, into.len())?,
        };
        open.file.seek(SeekFrom::Start(pos))?;
        fill_from(&mut open.file, into)?;
        self.open = Some(open);
        Ok(())
    }

    /// Makes a file empty, and creates it where it is missing. It closes the file.
    pub(crate) fn create(&mut self, name: &str) -> io::Result<()> {
        self.size(name)?;
        File::create(&self.rt, name)?;
        Ok(())
    }

    /// Adds bytes at the end of a file. It closes the file.
    pub(crate) fn append(&mut self, name: &str, bytes: &[u8]) -> io::Result<()> {
        self.size(name)?;
        let mut options = File::options();
        options.append(true);
        let mut file = options.open(&self.rt, name)?;
        write_piece(&mut file, bytes)
    }

    /// Closes the open file where it has this name.
    fn close(&mut self, name: &str) {
        if self.open.as_ref().is_some_and(|open| open.has_name(name)) {
            self.open = None;
        }
    }

    /// The open file, where a read of so many bytes may use it. Else it is closed. A read of no bytes may not, since it
    /// would succeed also past the end of the file.
    fn take_open(&mut self, name: &str, count: usize) -> Option<OpenFile<R::File>> {
        self.open
            .take()
            .filter(|open| count > 0 && open.has_name(name))
    }

    /// Opens a file that holds this range.
    ///
    /// Want of memory for its name is no reason to fail: then it won't be used for another read.
    fn open_range(&self, name: &str, pos: u64, count: usize) -> io::Result<OpenFile<R::File>> {
        let Some(size) = self.size_by_name(name)? else {
            return Err(io::Error::from(ErrorKind::NotFound));
        };
        if size < pos || size - pos < count as u64 {
            return Err(io::Error::from(ErrorKind::UnexpectedEof));
        }
        let file = File::open(&self.rt, name)?;
        let name = String::from_str(self.rt.alloc(), name).ok();
        Ok(OpenFile { name, file })
    }

    /// The length of a regular file, or `None` where there is nothing of this name. It opens nothing, and
    /// is asked before each opening, since opening a pipe may wait without end.
    fn size_by_name(&self, name: &str) -> io::Result<Option<u64>> {
        match fs::metadata(&self.rt, name) {
            Ok(metadata) if metadata.is_file() => Ok(Some(metadata.len())),
            Ok(_) => Err(io::Error::from(ErrorKind::InvalidInput)),
            Err(error) if error.kind() == ErrorKind::NotFound => Ok(None),
            Err(error) => Err(error),
        }
    }
}

/// Fills `into` by as many reads as it takes. It fails where the reader ends before.
fn fill_from<T: Read>(reader: &mut T, into: &mut [u8]) -> io::Result<()>
    ensures { OnOk result (Consumes (T.remaining reader.old) (T.remaining reader.new) into.new) }
{
    reader.read_exact(into)
}

#[cfg(test)]
mod tests {
    use super::fill_from;
    use std::io::{self, Read};
    use std::test::Fail;

    /// A reader of the numbers from `next` on, one at a read.
    #[derive(Drop)]
    struct OneByOne {
        next: u8,
    }

    impl Read for OneByOne {
        fn read(&mut self, into: &mut [u8]) -> io::Result<usize> {
            if into.is_empty() {
                return Ok(0);
            }
            into[0] = self.next;
            self.next = self.next.wrapping_add(1);
            Ok(1)
        }
    }

    #[test]
    fn short_reads_go_on(rt: HostRuntime) -> Result<(), Fail> {
        let mut into = [0u8; 4];
        fill_from(&mut OneByOne { next: 7 }, &mut into)?;
        assert_eq!(rt; into, [7, 8, 9, 10]);
        Ok(())
    }
}
