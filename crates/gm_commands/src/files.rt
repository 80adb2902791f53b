//! The files that a command reads.

ghost use Rattle.std.specs.Prelude.{◌≡◌, IfOk, IfSome, None, Some};
ghost use Rattle.std.specs.FinMap as map;
ghost use Rattle.gm_outside.specs.Files.{size_of};
ghost use Rattle.gm_outside.specs.Frames.{OnlyReads};
ghost use Rattle.gm_commands.specs.Readings.{ReadsFiles, reading_of_file, IsTextOf, IsWithin, reads_of_text};

use crate::failure::{Failure, Operand, Refusal};
use gm_outside::{Depot, read_whole};
use std::alloc::Global;

/// What was read of a whole file.
#[derive(Drop)]
pub enum FileText {
    /// All of its bytes.
    Whole(Vec<u8>),
    /// It has so many bytes, more than were wanted, and wasn't read.
    Longer(u64),
}

/// How many bytes a file has that a command reads. `Missing` where the depot tells that there is none, `ReadFailed` where it failed,
/// both of this operand; else `OutOfMemory`.
pub fn file_size<D: Depot>(depot: &mut D, name: &str, operand: Operand) -> Result<u64, Failure>
    ensures size { IfSome (D.state depot.old).files (λ files. IfOk result (λ size. Some size
        ≡ size_of files name.now)) }
    ensures frame { OnlyReads 1 0 (D.state depot.old) (D.state depot.new) }
    ensures no_read { (D.state depot.new).reads ≡ (D.state depot.old).reads }
    ensures reads { ReadsFiles 1 0 (reading_of_file operand name.now (λ bytes. None))
        (D.state depot.old) (D.state depot.new) result }
{
    match depot.size(name) {
        Ok(Some(size)) => Ok(size),
        Ok(None) => Err(Failure::Refused(Refusal::Missing(operand))),
        Err(trouble) => Err(Failure::ReadFailed(operand).by(trouble)),
    }
}

/// The bytes of a file that a command reads whole, by one read, or its size where it has more than `most` bytes: then it isn't read.
/// `Missing`, `ReadFailed` and `OutOfMemory` as [`file_size`] answers them.
pub fn read_file<D: Depot>(
    alloc: Global,
    depot: &mut D,
    name: &str,
    operand: Operand,
    most: u64,
) -> Result<FileText, Failure>
    ensures text { IfSome (D.state depot.old).files (λ files.
        IfOk result (λ text. IsTextOf (map.get files name.now) most text)) }
    ensures bounded { IfOk result (IsWithin most) }
    ensures read { IfOk result (λ text. (D.state depot.new).reads
        ≡ reads_of_text text (D.state depot.old).reads) }
    ensures frame { OnlyReads 1 1 (D.state depot.old) (D.state depot.new) }
    ensures reads { ReadsFiles 1 1 (reading_of_file operand name.now (λ bytes. None))
        (D.state depot.old) (D.state depot.new) result }
{
    let size = file_size(depot, name, operand)?;
    if size > most {
        return Ok(FileText::Longer(size));
    }
    match read_whole(alloc, depot, name, size) {
        Ok(bytes) => Ok(FileText::Whole(bytes)),
        Err(trouble) => Err(Failure::ReadFailed(operand).by(trouble)),
    }
}
