//! A depot over real files, which counts its reads and faults.
ghost use Rattle.std.specs.Prelude.{◌≡◌, ◌≤◌};
ghost use Rattle.gm_outside.specs.Causes.{Rose};
ghost use Rattle.gm_outside.specs.States.{untold};

use crate::regular_files::RegularFiles;
use crate::traits::{Depot, Trouble};
use std::alloc::AllocGlobal;
use std::io::{self, ErrorKind};
use std::rt::Files;

/// The regular files of a runtime, by their paths. It doesn't tell what they hold.
///
/// A folder, or anything else that isn't a regular file, is a fault.
///
/// The file of the last read stays open for the next one. A file that another process replaces or removes by its name
/// meanwhile is read in its old form until it is closed: by a call of `size`, `create` or `append` with its name, by a read of
/// another file or of no bytes, or by a read that fails.
#[derive(Drop)]
pub struct FileDepot<R: Files> {
    files: RegularFiles<R>,
    faults: u64,
    write_faults: u64,
    reads: u64,
    sizes: u64,
}

impl<R: Files + AllocGlobal + Drop> FileDepot<R> {
    /// A depot over the files of `rt`, with no call and no fault so far.
    pub fn new(rt: R) -> FileDepot<R>
        ensures { ⟦<FileDepot<R> as Depot>⟧.state result ≡ untold 0 0 0 0 }
    {
        FileDepot {
            files: RegularFiles::new(rt),
            faults: 0,
            write_faults: 0,
            reads: 0,
            sizes: 0,
        }
    }

    /// Counts an error as a fault, unless it is want of memory.
    fn count_fault(&mut self, error: io::Error) -> Trouble
        ensures reads { self.new.reads ≡ self.old.reads }
        ensures sizes { self.new.sizes ≡ self.old.sizes }
        ensures write_faults { self.new.write_faults ≡ self.old.write_faults }
        ensures later { self.old.faults ≤ self.new.faults }
        ensures failed { result ≡ Trouble.Failed → Rose self.old.faults self.new.faults }
        ensures kept { (result ≡ Trouble.Failed → ⊥) → self.new.faults ≡ self.old.faults }
    {
        if error.kind() == ErrorKind::OutOfMemory {
            return Trouble::Memory;
        }
        self.faults = self.faults.saturating_add(1);
        Trouble::Failed
    }

    /// The same for an error of a call that writes.
    fn count_write_fault(&mut self, error: io::Error) -> Trouble
        ensures reads { self.new.reads ≡ self.old.reads }
        ensures sizes { self.new.sizes ≡ self.old.sizes }
        ensures later { self.old.faults ≤ self.new.faults }
        ensures write_later { self.old.write_faults ≤ self.new.write_faults }
        ensures failed { result ≡ Trouble.Failed → Rose self.old.faults self.new.faults }
        ensures kept { (result ≡ Trouble.Failed → ⊥) → self.new.faults ≡ self.old.faults }
        ensures write_failed { result ≡ Trouble.Failed → Rose self.old.write_faults self.new.write_faults }
    {
        let trouble = self.count_fault(error);
        if trouble == Trouble::Failed {
            self.write_faults = self.write_faults.saturating_add(1);
        }
        trouble
    }
}

#[tactic(auto, using(crate::specs::ChangesRules::changes))]
impl<R: Files + AllocGlobal + Drop> Depot for FileDepot<R> {
    ghost state = { λ depot. untold depot.faults depot.write_faults depot.reads depot.sizes };

    ghost calm_tells = { λ _ h. h };

    fn size(&mut self, name: &str) -> Result<Option<u64>, Trouble> {
        self.sizes = self.sizes.saturating_add(1);
        match self.files.size(name) {
            Ok(size) => Ok(size),
            Err(error) => Err(self.count_fault(error)),
        }
    }

    fn read_at(&mut self, name: &str, pos: u64, into: &mut [u8]) -> Result<(), Trouble> {
        self.reads = self.reads.saturating_add(1);
        match self.files.read(name, pos, into) {
            Ok(()) => Ok(()),
            Err(error) => Err(self.count_fault(error)),
        }
    }

    fn create(&mut self, name: &str) -> Result<(), Trouble> {
        match self.files.create(name) {
            Ok(()) => Ok(()),
            Err(error) => Err(self.count_write_fault(error)),
        }
    }

    fn append(&mut self, name: &str, bytes: &[u8]) -> Result<(), Trouble> {
        match self.files.append(name, bytes) {
            Ok(()) => Ok(()),
            Err(error) => Err(self.count_write_fault(error)),
        }
    }
}

#[cfg(test)]
mod tests {
    use super::FileDepot;
    use crate::reading::read_whole;
    use crate::traits::{Depot, Trouble};
    use std::fs;
    use std::io::{Seek, SeekFrom, Write};
    use std::test::Fail;

    #[test]
    fn sizes(rt: HostRuntime) -> Result<(), Fail> {
        fs::write(&rt, "sizes.bin", b"abcdef".as_slice())?;
        let mut depot = FileDepot::new(rt.clone()?);
        let sizes = [
            ("sizes.bin", Ok(Some(6))),
            ("sizes_none.bin", Ok(None)),
            (".", Err(Trouble::Failed)),
            ("/dev/null", Err(Trouble::Failed)),
            // a name below a file, and a name that no file can have
            ("sizes.bin/b", Err(Trouble::Failed)),
            ("sizes\0.bin", Err(Trouble::Failed)),
        ];
        for (name, want) in sizes {
            assert_eq!(rt; depot.size(name), want, "{name}");
        }
        fs::remove_file(&rt, "sizes.bin")?;
        Ok(())
    }

    #[test]
    fn ranges(rt: HostRuntime) -> Result<(), Fail> {
        fs::write(&rt, "ranges.bin", b"abcdef".as_slice())?;
        let mut depot = FileDepot::new(rt.clone()?);
        let ranges = [
            ("ranges.bin", 2, "cde", Ok(())),
            ("ranges.bin", 6, "", Ok(())),
            ("ranges.bin", 7, "", Err(Trouble::Failed)),
            ("ranges.bin", 4, "ef?", Err(Trouble::Failed)),
            ("ranges_none.bin", 0, "", Err(Trouble::Failed)),
            (".", 0, "", Err(Trouble::Failed)),
            ("/dev/null", 0, "", Err(Trouble::Failed)),
        ];
        for (name, pos, bytes, want) in ranges {
            let mut into = [0u8; 3];
            let count = bytes.len().min(3);
            let answer = depot.read_at(name, pos, &mut into[..count]);
            assert_eq!(rt; answer, want, "{name} at {pos}");
            assert!(rt; want.is_err() || &into[..count] == bytes.as_bytes());
        }
        fs::remove_file(&rt, "ranges.bin")?;
        Ok(())
    }

    /// All but the last bytes of the file are a hole: a place that is cut to 32 bits would find zeros.
    #[test]
    fn a_file_above_4_gib(rt: HostRuntime) -> Result<(), Fail> {
        let mut file = fs::create(&rt, "huge.bin")?;
        file.seek(SeekFrom::Start(4_294_967_300))?;
        file.write_all(b"abcd".as_slice())?;
        let mut depot = FileDepot::new(rt.clone()?);
        assert_eq!(rt; depot.size("huge.bin"), Ok(Some(4_294_967_304)));
        let mut into = [0u8; 3];
        for (pos, want) in [
            (4, b"\0\0\0"),
            (4_294_967_300, b"abc"),
            (4_294_967_301, b"bcd"),
        ] {
            depot.read_at("huge.bin", pos, &mut into)?;
            assert_eq!(rt; &into, want, "at {pos}");
        }
        let past = depot.read_at("huge.bin", 4_294_967_302, &mut into);
        assert_eq!(rt; past, Err(Trouble::Failed));
        fs::remove_file(&rt, "huge.bin")?;
        Ok(())
    }

    #[test]
    fn whole_file(rt: HostRuntime) -> Result<(), Fail> {
        fs::write(&rt, "whole.bin", b"abcdef".as_slice())?;
        let mut depot = FileDepot::new(rt.clone()?);
        let whole = read_whole(rt.alloc(), &mut depot, "whole.bin", 6)?;
        assert_eq!(rt; whole.as_slice(), b"abcdef".as_slice());
        fs::remove_file(&rt, "whole.bin")?;
        Ok(())
    }

    #[test]
    fn appends(rt: HostRuntime) -> Result<(), Fail> {
        fs::write(&rt, "appends.bin", b"old".as_slice())?;
        let mut depot = FileDepot::new(rt.clone()?);
        depot.create("appends.bin")?;
        for piece in ["ab", "", "cd"] {
            depot.append("appends.bin", piece.as_bytes())?;
        }
        let text = fs::read_to_string(&rt, "appends.bin")?;
        assert_eq!(rt; text.as_str(), "abcd");
        fs::remove_file(&rt, "appends.bin")?;
        Ok(())
    }

    #[test]
    fn refused_writes(rt: HostRuntime) -> Result<(), Fail> {
        let mut depot = FileDepot::new(rt.clone()?);
        for name in [".", "/dev/null", "none/new.bin"] {
            assert_eq!(rt; depot.create(name), Err(Trouble::Failed), "{name}");
        }
        for name in [".", "/dev/null", "none.bin"] {
            let answer = depot.append(name, b"x".as_slice());
            assert_eq!(rt; answer, Err(Trouble::Failed), "{name}");
        }
        Ok(())
    }

    #[test]
    fn reads_after_writes(rt: HostRuntime) -> Result<(), Fail> {
        fs::write(&rt, "after.bin", b"abc".as_slice())?;
        let mut depot = FileDepot::new(rt.clone()?);
        let mut into = [0u8; 3];
        depot.read_at("after.bin", 0, &mut into)?;
        depot.append("after.bin", b"de".as_slice())?;
        depot.read_at("after.bin", 2, &mut into)?;
        assert_eq!(rt; into, *b"cde");
        depot.create("after.bin")?;
        let answer = depot.read_at("after.bin", 0, &mut into);
        assert_eq!(rt; answer, Err(Trouble::Failed));
        depot.append("after.bin", b"xyz".as_slice())?;
        depot.read_at("after.bin", 0, &mut into)?;
        assert_eq!(rt; into, *b"xyz");
        assert_eq!(rt; depot.faults, 1);
        fs::remove_file(&rt, "after.bin")?;
        Ok(())
    }

    #[test]
    fn reads_past_the_end_of_an_open_file(rt: HostRuntime) -> Result<(), Fail> {
        fs::write(&rt, "end.bin", b"abcdef".as_slice())?;
        let mut depot = FileDepot::new(rt.clone()?);
        let mut into = [0u8; 3];
        for (pos, count) in [(4, 3), (6, 1), (7, 0), (u64::MAX, 1)] {
            depot.read_at("end.bin", 3, &mut into)?;
            assert_eq!(rt; into, *b"def");
            let answer = depot.read_at("end.bin", pos, &mut into[..count]);
            assert_eq!(rt; answer, Err(Trouble::Failed), "{count} at {pos}");
        }
        assert_eq!(rt; depot.reads, 8);
        assert_eq!(rt; depot.faults, 4);
        fs::remove_file(&rt, "end.bin")?;
        Ok(())
    }

    #[test]
    fn reads_of_two_files_in_turn(rt: HostRuntime) -> Result<(), Fail> {
        fs::write(&rt, "turn_a.bin", b"abcdef".as_slice())?;
        fs::write(&rt, "turn_b.bin", b"uvwxyz".as_slice())?;
        let mut depot = FileDepot::new(rt.clone()?);
        let reads = [
            ("turn_a.bin", 0, *b"ab"),
            ("turn_b.bin", 4, *b"yz"),
            ("turn_b.bin", 0, *b"uv"),
            ("turn_a.bin", 4, *b"ef"),
            ("turn_a.bin", 2, *b"cd"),
        ];
        for (name, pos, want) in reads {
            let mut into = [0u8; 2];
            depot.read_at(name, pos, &mut into)?;
            assert_eq!(rt; into, want, "{name} at {pos}");
        }
        fs::remove_file(&rt, "turn_a.bin")?;
        fs::remove_file(&rt, "turn_b.bin")?;
        Ok(())
    }

    #[test]
    fn an_open_file_is_read_until_its_size_is_asked(rt: HostRuntime) -> Result<(), Fail> {
        fs::write(&rt, "open.bin", b"abc".as_slice())?;
        let mut depot = FileDepot::new(rt.clone()?);
        let mut into = [0u8; 3];
        depot.read_at("open.bin", 0, &mut into)?;
        fs::remove_file(&rt, "open.bin")?;
        depot.size("open_none.bin")?;
        depot.read_at("open.bin", 0, &mut into)?;
        assert_eq!(rt; into, *b"abc");
        assert_eq!(rt; depot.size("open.bin"), Ok(None));
        let answer = depot.read_at("open.bin", 0, &mut into);
        assert_eq!(rt; answer, Err(Trouble::Failed));
        Ok(())
    }

    #[test]
    fn a_failed_read_is_not_tried_again(rt: HostRuntime) -> Result<(), Fail> {
        fs::write(&rt, "again.bin", b"abc".as_slice())?;
        let mut depot = FileDepot::new(rt.clone()?);
        let mut into = [0u8; 4];
        depot.read_at("again.bin", 0, &mut into[..3])?;
        fs::remove_file(&rt, "again.bin")?;
        fs::write(&rt, "again.bin", b"defg".as_slice())?;
        let answer = depot.read_at("again.bin", 0, &mut into);
        assert_eq!(rt; answer, Err(Trouble::Failed));
        depot.read_at("again.bin", 0, &mut into)?;
        assert_eq!(rt; into, *b"defg");
        assert_eq!(rt; depot.reads, 3);
        assert_eq!(rt; depot.faults, 1);
        fs::remove_file(&rt, "again.bin")?;
        Ok(())
    }

    #[test]
    fn good_calls_are_no_faults(rt: HostRuntime) -> Result<(), Fail> {
        let mut depot = FileDepot::new(rt.clone()?);
        depot.create("good.bin")?;
        depot.append("good.bin", b"abc".as_slice())?;
        depot.size("good.bin")?;
        depot.read_at("good.bin", 1, &mut [0u8; 2])?;
        assert_eq!(rt; depot.reads, 1);
        assert_eq!(rt; depot.faults, 0);
        assert_eq!(rt; depot.write_faults, 0);
        fs::remove_file(&rt, "good.bin")?;
        Ok(())
    }
}
