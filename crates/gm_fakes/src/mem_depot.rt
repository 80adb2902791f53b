//! A depot in memory, whose calls can be made to fail.
ghost use Rattle.std.specs.Prelude.{◌≡◌, ◌↔◌, ◌≤◌, [], Some, length, Contains, IsTrue, IsOk, IsErr, IfOk, OnOk, OnErr, IfErr, is_ok, refl};
ghost use Rattle.std.specs.Option.{option_copied};
ghost use Rattle.std.specs.FinMap as map;
ghost use Rattle.gm_outside.specs.Changes.{with_file, with_appended, AppendedPrefix};
ghost use Rattle.gm_outside.specs.Causes.{counted, HasCause, HasExactCause};
ghost use Rattle.gm_outside.specs.Files.{Files, size_of, HasRange, HasBytesAt};

use crate::file_list::FileList;
use gm_base::Memory;
use gm_outside::{Depot, Trouble};
use std::alloc::Global;
use std::marker::Model;

/// A call of a depot that can be made to fail.
#[derive(Clone, Copy, Debug, PartialEq, Eq)]
pub enum Call {
    /// A call of `size`.
    Size,
    /// A call of `read_at`.
    Read,
    /// A call of `create`.
    Create,
    /// A call of `append`.
    Append,
}

/// Files in memory. A call fails exactly where its kind and its number, counted from 1 for each kind,
/// are listed, where `read_at` finds no such range, or where `append` finds no such file. Besides,
/// `create`, `append` and `put` may want memory.
#[derive(Drop)]
pub struct MemDepot {
    files: FileList,
    fails: Vec<(Call, u64)>,
    sizes: u64,
    reads: u64,
    creates: u64,
    appends: u64,
    faults: u64,
    write_faults: u64,
}

impl Model for MemDepot {
    ghost use Rattle.gm_fakes.specs.contracts.mem_depot.Call as call;
    ghost use Rattle.gm_fakes.specs.Memory.{HeldFiles, state_code};

    ghost Value = { HeldFiles };

    ghost coded = { state_code call.the_row.coded };

    ghost view = { λ depot. record {
      files = depot.files;
      fails = depot.fails.items;
      sizes = depot.sizes;
      reads = depot.reads;
      creates = depot.creates;
      appends = depot.appends;
      faults = depot.faults;
      write_faults = depot.write_faults;
    } };
}

impl MemDepot {
    ghost use Rattle.gm_fakes.specs.Memory.{calls_of, with_call, with_write_fault};

    /// A depot without files, whose listed calls fail.
    pub fn new(alloc: Global, fails: Vec<(Call, u64)>) -> MemDepot
        ensures { result ≡ record {
          files = map.empty;
          fails = fails.items;
          sizes = 0;
          reads = 0;
          creates = 0;
          appends = 0;
          faults = 0;
          write_faults = 0;
        } }
    {
        MemDepot {
            files: FileList::new(alloc),
            fails,
            sizes: 0,
            reads: 0,
            creates: 0,
            appends: 0,
            faults: 0,
            write_faults: 0,
        }
    }

    /// Stores a whole file in place of one of its name. It fails only for want of memory.
    pub fn put(&mut self, name: &str, bytes: &[u8]) -> Result<(), Memory>
        ensures ok { OnOk result (self.new
            ≡ record self.old { files = map.insert self.old.files name.now bytes.now }) }
        ensures err { OnErr result (self.new ≡ self.old) }
    {
        self.files.put(name, bytes)?;
        Ok(())
    }

    /// The bytes of a file.
    pub fn file(&self, name: &str) -> Option<&[u8]>
        ensures { option_copied result ≡ map.get self.now.files name.now }
    {
        self.files.get(name)
    }

    /// How often `read_at` was called.
    pub fn reads(&self) -> u64
        ensures { result ≡ self.now.reads }
    {
        self.reads
    }

    /// How many calls failed.
    pub fn faults(&self) -> u64
        ensures { result ≡ self.now.faults }
    {
        self.faults
    }

    /// How many calls of `create` and `append` failed.
    pub fn write_faults(&self) -> u64
        ensures { result ≡ self.now.write_faults }
    {
        self.write_faults
    }

    /// Counts a call, and says whether it is made to fail.
    fn begin(&mut self, call: Call) -> bool
        ensures fails { IsTrue result ↔ Contains self.old.fails (call, counted (calls_of call self.old)) }
        ensures counted { self.new ≡ with_call call self.old }
    {
        let number = self.count(call);
        self.fails.contains(&(call, number))
    }

    /// Counts a call, and answers its number.
    pub(crate) fn count(&mut self, call: Call) -> u64
        ensures number { result ≡ counted (calls_of call self.old) }
        ensures counted { self.new ≡ with_call call self.old }
    {
        match call {
            Call::Size => one_more(&mut self.sizes),
            Call::Read => one_more(&mut self.reads),
            Call::Create => one_more(&mut self.creates),
            Call::Append => one_more(&mut self.appends),
        }
    }

    fn fault(&mut self) -> Trouble
        ensures trouble { result ≡ Trouble.Failed }
        ensures after { self.new ≡ record self.old { faults = counted self.old.faults } }
        ensures later { self.old.faults ≤ self.new.faults }
    {
        self.faults = self.faults.saturating_add(1);
        Trouble::Failed
    }

    fn write_fault(&mut self) -> Trouble
        ensures trouble { result ≡ Trouble.Failed }
        ensures after { self.new ≡ with_write_fault self.old }
        ensures later { self.old.faults ≤ self.new.faults }
        ensures write_later { self.old.write_faults ≤ self.new.write_faults }
    {
        self.write_faults = self.write_faults.saturating_add(1);
        self.fault()
    }
}

#[tactic(auto, using(gm_outside::specs::ChangesRules::changes))]
impl Depot for MemDepot {
    ghost use Rattle.gm_fakes.specs.Memory.{told_of_files, with_answer, Appends, Creates, IsNextToFail};

    ghost state = { told_of_files };

    ghost calm_tells = { λ _ _. refl };

    fn size(&mut self, name: &str) -> Result<Option<u64>, Trouble>
        ensures fails { IsErr result ↔ IsNextToFail Call.Size self.old }
        ensures ok { IfOk result (λ size. size ≡ size_of self.old.files name.now) }
        ensures err { IfErr result (λ trouble. trouble ≡ Trouble.Failed) }
        ensures cause { HasExactCause Trouble.Failed self.old.faults self.new.faults result }
        ensures after { self.new ≡ with_answer Call.Size (is_ok result) self.old }
    {
        if self.begin(Call::Size) {
            return Err(self.fault());
        }
        Ok(self.files.get(name).map(|bytes| bytes.len() as u64))
    }

    fn read_at(&mut self, name: &str, pos: u64, into: &mut [u8]) -> Result<(), Trouble>
        ensures listed { IsNextToFail Call.Read self.old → IsErr result }
        ensures ok { OnOk result (HasBytesAt self.old.files name.now pos into.new) }
        ensures works { HasRange self.old.files name.now pos (length into.old)
            → (IsNextToFail Call.Read self.old → ⊥) → IsOk result }
        ensures err { IfErr result (λ trouble. trouble ≡ Trouble.Failed) }
        ensures cause { HasExactCause Trouble.Failed self.old.faults self.new.faults result }
        ensures after { self.new ≡ with_answer Call.Read (is_ok result) self.old }
    {
        if self.begin(Call::Read) {
            return Err(self.fault());
        }
        match self.files.range(name, pos, into.len()) {
            Some(bytes) => {
                into.copy_from_slice(bytes);
                Ok(())
            }
            None => Err(self.fault()),
        }
    }

    fn create(&mut self, name: &str) -> Result<(), Trouble>
        ensures creates { Creates name.now self.old self.new result }
        ensures told { OnOk result (Some self.new.files ≡ with_file (Some self.old.files) name.now []) }
        ensures cause { HasExactCause Trouble.Failed self.old.faults self.new.faults result }
        ensures write_cause { HasCause Trouble.Failed self.old.write_faults self.new.write_faults result }
    {
        if self.begin(Call::Create) {
            return Err(self.write_fault());
        }
        self.files.put(name, &[])?;
        Ok(())
    }

    fn append(&mut self, name: &str, bytes: &[u8]) -> Result<(), Trouble>
        ensures appends { Appends name.now bytes.now self.old self.new result }
        ensures told { OnOk result (Some self.new.files
            ≡ with_appended (Some self.old.files) name.now bytes.now) }
        ensures prefix { OnErr result (AppendedPrefix (Some self.old.files) (Some self.new.files) name.now bytes.now) }
        ensures cause { HasExactCause Trouble.Failed self.old.faults self.new.faults result }
        ensures write_cause { HasCause Trouble.Failed self.old.write_faults self.new.write_faults result }
    {
        if self.begin(Call::Append) {
            return Err(self.write_fault());
        }
        match self.files.append(name, bytes) {
            Err(Trouble::Failed) => Err(self.write_fault()),
            outcome => outcome,
        }
    }
}

fn one_more(count: &mut u64) -> u64
    ensures raised { count.new ≡ counted count.old }
    ensures answer { result ≡ count.new }
{
    *count = count.saturating_add(1);
    *count
}

#[cfg(test)]
mod tests {
    use super::{Call, MemDepot};
    use gm_outside::{Depot, Trouble, read_whole};
    use std::test::Fail;

    #[test]
    fn fails_where_told(rt: HostRuntime) -> Result<(), Fail> {
        let fails = vec![in rt.alloc(); (Call::Size, 2), (Call::Read, 3)]?;
        let mut depot = MemDepot::new(rt.alloc(), fails);
        depot.put("a", b"old".as_slice())?;
        depot.put("b", b"".as_slice())?;
        depot.put("a", b"abcdef".as_slice())?;
        assert!(rt;
            depot
                .file("a")
                .is_some_and(|bytes| bytes == b"abcdef".as_slice())
        );
        assert!(rt; depot.file("b").is_some_and(|bytes| bytes.is_empty()));
        assert!(rt; depot.file("c").is_none());

        assert_eq!(rt; depot.size("a"), Ok(Some(6)));
        assert_eq!(rt; depot.size("a"), Err(Trouble::Failed));
        assert_eq!(rt; depot.size("c"), Ok(None));
        assert_eq!(rt; depot.faults(), 1);

        let whole = read_whole(rt.alloc(), &mut depot, "a", 6);
        assert!(rt; whole.is_ok_and(|bytes| bytes.as_slice() == b"abcdef".as_slice()));
        let reads = [
            ("a", 3, 3, Ok(())),
            ("a", 3, 3, Err(Trouble::Failed)),
            ("a", 4, 3, Err(Trouble::Failed)),
            ("a", 6, 0, Ok(())),
            ("a", 7, 0, Err(Trouble::Failed)),
            ("b", 0, 0, Ok(())),
            ("c", 0, 0, Err(Trouble::Failed)),
        ];
        for (name, pos, count, want) in reads {
            let mut into = [0u8; 3];
            assert_eq!(rt;
                depot.read_at(name, pos, &mut into[..count]),
                want,
                "{name} at {pos}"
            );
        }
        assert_eq!(rt; depot.reads(), 8);
        assert_eq!(rt; depot.faults(), 5);
        assert_eq!(rt; depot.write_faults(), 0);
        Ok(())
    }

    #[test]
    fn writes_where_told(rt: HostRuntime) -> Result<(), Fail> {
        let fails = vec![in rt.alloc(); (Call::Create, 2), (Call::Append, 3)]?;
        let mut depot = MemDepot::new(rt.alloc(), fails);
        depot.put("a", b"old".as_slice())?;
        assert_eq!(rt; depot.create("a"), Ok(()));
        assert_eq!(rt; depot.create("b"), Err(Trouble::Failed));
        assert_eq!(rt; depot.create("c"), Ok(()));
        let appends = [
            ("a", "new", Ok(())),
            ("b", "x", Err(Trouble::Failed)),
            ("a", "y", Err(Trouble::Failed)),
            ("a", "er", Ok(())),
        ];
        for (name, piece, want) in appends {
            assert_eq!(rt; depot.append(name, piece.as_bytes()), want, "{piece}");
        }
        assert!(rt;
            depot
                .file("a")
                .is_some_and(|bytes| bytes == b"newer".as_slice())
        );
        assert!(rt; depot.file("b").is_none());
        assert!(rt; depot.file("c").is_some_and(|bytes| bytes.is_empty()));
        assert_eq!(rt; depot.faults(), 3);
        assert_eq!(rt; depot.write_faults(), 3);
        Ok(())
    }
}
