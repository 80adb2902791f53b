//! Reading the front of a file, from any depot.
ghost use Rattle.std.specs.Prelude.{◌≡◌, ◌≤◌, length, take, IsTrue, IsErrOf, IfSome, IfOk, IsSomeAnd, vec_len};
ghost use Rattle.std.specs.FinMap as map;
ghost use Rattle.gm_outside.specs.Causes.{counted};
ghost use Rattle.gm_outside.specs.Files.{HasRange};
ghost use Rattle.gm_outside.specs.Frames.{CountsFaults, OnlyReads};

use crate::traits::{Depot, Trouble};
use std::alloc::{AllocError, Global};

/// Reads the first `size` bytes of a file, which may hold more, by one call of `read_at`.
///
/// It fails as that call does, and wants memory for the bytes: then the file may not have been read.
pub fn read_whole<D: Depot>(
    alloc: Global,
    depot: &mut D,
    name: &str,
    size: u64,
) -> Result<Vec<u8>, Trouble>
    ensures size { IfOk result (λ bytes. vec_len bytes ≡ size) }
    ensures bytes { IfSome (D.state depot.old).files (λ files. IfOk result (λ bytes. IsSomeAnd (map.get files name.now)
        (λ held. (size ≤ length held) × (bytes.items ≡ take size held)))) }
    ensures cause { CountsFaults (D.state depot.old) (D.state depot.new) result }
    ensures calm { IsTrue (D.state depot.old).calm
        → IfSome (D.state depot.old).files (λ files. HasRange files name.now 0 size
        → IsErrOf result Trouble.Failed → ⊥) }
    ensures frame { OnlyReads 0 1 (D.state depot.old) (D.state depot.new) }
    ensures one_read { (IsErrOf result Trouble.Memory → ⊥) → (D.state depot.new).reads ≡ counted (D.state depot.old).reads }
{
    let mut bytes = zeros(alloc, size as usize)?;
    depot.read_at(name, 0, &mut bytes)?;
    Ok(bytes)
}

fn zeros(alloc: Global, count: usize) -> Result<Vec<u8>, AllocError>
    ensures { IfOk result (λ zeros. vec_len zeros ≡ count) }
{
    vec![in alloc; 0; count]
}
