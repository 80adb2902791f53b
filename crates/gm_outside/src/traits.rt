//! What the program asks of the outside: files by their names, a place for what it writes, and a gate.
ghost use Rattle.std.specs.Prelude.{◌≡◌, ◌⊎◌, [], length, IsTrue, IsSome, IsOk, IfSome, IfOk, OnOk, OnErr, IsErrOf};
ghost use Rattle.std.specs.FinMap as map;
ghost use Rattle.gm_outside.specs.Causes.{counted};
ghost use Rattle.gm_outside.specs.Changes.{with_file, with_appended, AppendedPrefix};
ghost use Rattle.gm_outside.specs.Files.{size_of, HasRange, HasBytesAt};
ghost use Rattle.gm_outside.specs.Frames.{OnlyReads, OnlyWrites, CountsFaults, CountsWriteFaults, Writes};
ghost use Rattle.gm_outside.specs.States.{DepotState, SinkState};
ghost use Rattle.gm_outside.specs.declared.traits.Trouble.TheVariants.{Memory};

use std::alloc::AllocError;

/// Where the counts of calls and faults end.
pub const MAX_COUNT: u64 = u64::MAX;

/// Why a call on the outside gave up.
#[derive(Clone, Copy, Debug, PartialEq, Eq)]
pub enum Trouble {
    /// The call failed, and whoever answered it counted a fault.
    Failed,
    /// There was no memory for the call. That is no fault.
    Memory,
}

impl From<AllocError> for Trouble {
    ghost from_gives = { λ _ trouble. trouble ≡ Memory };

    fn from(_error: AllocError) -> Trouble {
        Trouble::Memory
    }
}

/// A store of files, by their names. Names and contents are seen as bytes.
///
/// Its `state` has the files, where it tells them, and its counts of faults, reads and questions for a size; each stops at [`MAX_COUNT`]. A `calm`
/// depot tells its files and never fails without a reason that they show. A call that doesn't fail leaves `faults` as they were.
pub trait Depot: Drop {
    ghost state: { Self → DepotState };

    /// The length of a file in bytes, or `None` where there is no such file.
    fn size(&mut self, name: &str) -> Result<Option<u64>, Trouble>
        ensures size { IfSome (state self.old).files (λ files. IfOk result (λ size. size ≡ size_of files name.now)) }
        ensures cause { CountsFaults (state self.old) (state self.new) result }
        ensures calm { IsTrue (state self.old).calm → IsErrOf result Trouble.Failed → ⊥ }
        ensures unread { (state self.new).reads ≡ (state self.old).reads }
        ensures frame { OnlyReads 1 0 (state self.old) (state self.new) };

    /// Fills `into` with the bytes of a file from `pos` on.
    ///
    /// It fails where the file is missing or doesn't hold the whole range, also where `into` is empty.
    /// After a refusal `into` may hold anything.
    fn read_at(&mut self, name: &str, pos: u64, into: &mut [u8]) -> Result<(), Trouble>
        ensures bytes { IfSome (state self.old).files (λ files. OnOk result (HasBytesAt files name.now pos into.new)) }
        ensures cause { CountsFaults (state self.old) (state self.new) result }
        ensures calm { IsTrue (state self.old).calm
            → IfSome (state self.old).files (λ files. HasRange files name.now pos (length into.old)
            → IsErrOf result Trouble.Failed → ⊥) }
        ensures read { (state self.new).reads ≡ counted (state self.old).reads }
        ensures frame { OnlyReads 0 1 (state self.old) (state self.new) };

    /// Makes a file empty, and creates it where it is missing. After a refusal the file is as before
    /// or empty. No other file changes.
    fn create(&mut self, name: &str) -> Result<(), Trouble>
        ensures ok { OnOk result ((state self.new).files ≡ with_file (state self.old).files name.now []) }
        ensures err { OnErr result (((state self.new).files ≡ (state self.old).files)
            ⊎ ((state self.new).files ≡ with_file (state self.old).files name.now [])) }
        ensures cause { CountsFaults (state self.old) (state self.new) result }
        ensures write_cause { CountsWriteFaults (state self.old) (state self.new) result }
        ensures calm { IsTrue (state self.old).calm → IsErrOf result Trouble.Failed → ⊥ }
        ensures frame { OnlyWrites (state self.old) (state self.new) };

    /// Adds bytes at the end of a file; it fails where the file is missing. After a refusal the file
    /// holds its old bytes and a first part of the new ones. No other file changes.
    fn append(&mut self, name: &str, bytes: &[u8]) -> Result<(), Trouble>
        ensures there { IfSome (state self.old).files (λ files. OnOk result (IsSome (map.get files name.now))) }
        ensures ok { OnOk result ((state self.new).files ≡ with_appended (state self.old).files name.now bytes.now) }
        ensures err { OnErr result (AppendedPrefix (state self.old).files (state self.new).files name.now bytes.now) }
        ensures cause { CountsFaults (state self.old) (state self.new) result }
        ensures write_cause { CountsWriteFaults (state self.old) (state self.new) result }
        ensures calm { IsTrue (state self.old).calm
            → IfSome (state self.old).files (λ files. IsSome (map.get files name.now)
            → IsErrOf result Trouble.Failed → ⊥) }
        ensures frame { OnlyWrites (state self.old) (state self.new) };

    ghost calm_tells: { (depot : Self) → IsTrue (state depot).calm → IsSome (state depot).files };
}

/// A place for bytes that are written one after the other.
///
/// Its `state` has the bytes that it holds, where it tells them, its count of failures, and that of pieces that found no memory; both stop at
/// [`MAX_COUNT`]. A call that doesn't fail leaves `faults` as they were.
pub trait Sink {
    ghost state: { Self → SinkState };

    /// Adds a piece, or after a refusal only some first bytes of it. An empty piece is never refused.
    fn write(&mut self, piece: &[u8]) -> Result<(), Trouble>
        ensures writes { Writes piece.now (state self.old) (state self.new) result }
        ensures empty { piece.now ≡ [] → IsOk result };
}

/// What a job passes before it goes over a chunk, by their numbers. It changes nothing.
pub trait Gate {
    /// Returns once the job may go over the chunk.
    fn passing(&self, job: u32, chunk: u32);
}
