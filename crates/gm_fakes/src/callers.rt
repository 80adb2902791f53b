//! What callers learn from the contracts of several calls, one after the other.
ghost use Rattle.std.specs.Prelude.{◌≡◌, ◌+◌, ◌≤◌, ◌++◌, ◌⊎◌, [], ◌∷◌, Some, None, IfSome, IfOk, OnOk, OnErr, IsErrOf, IsTrue};
ghost use Rattle.std.specs.FinMap as map;
ghost use Rattle.gm_outside.specs.Changes.{with_file, HoldsPrefix};
ghost use Rattle.gm_outside.specs.Causes.{counted};
ghost use Rattle.gm_outside.specs.Frames.{OnlyReads, OnlyWrites, CountsFaults, CountsWriteFaults, Writes};
ghost use Rattle.gm_fakes.specs.Memory.{next_limit};

use crate::mem_depot::MemDepot;
use crate::mem_sink::MemSink;
use gm_outside::{Depot, MAX_COUNT, Sink, Trouble, read_whole};
use std::alloc::Global;
use std::test::Fail;

type Pair = (Vec<u8>, Vec<u8>);

// What a caller learns of two files that it reads one after the other.
fn read_two<D: Depot>(
    alloc: Global,
    depot: &mut D,
    first: &str,
    second: &str,
) -> Result<Option<Pair>, Trouble>
    ensures bytes { IfSome (D.state depot.old).files (λ files. IfOk result (λ both. IfSome both (λ pair.
        (map.get files first.now ≡ Some pair.0.items) × (map.get files second.now ≡ Some pair.1.items)))) }
    ensures cause { CountsFaults (D.state depot.old) (D.state depot.new) result }
    ensures calm { IsTrue (D.state depot.old).calm → IsErrOf result Trouble.Failed → ⊥ }
    ensures frame { IfOk result (λ both. IfSome both (λ _. OnlyReads 2 2 (D.state depot.old) (D.state depot.new))) }
    ensures files { (D.state depot.new).files ≡ (D.state depot.old).files }
    ensures calm_kept { (D.state depot.new).calm ≡ (D.state depot.old).calm }
    ensures write_faults { (D.state depot.new).write_faults ≡ (D.state depot.old).write_faults }
    ensures reads { (D.state depot.new).reads ≤ (D.state depot.old).reads + 2 }
{
    let Some(first_size) = depot.size(first)? else {
        return Ok(None);
    };
    let Some(second_size) = depot.size(second)? else {
        return Ok(None);
    };
    let first_bytes = read_whole(alloc, depot, first, first_size)?;
    let second_bytes = read_whole(alloc, depot, second, second_size)?;
    Ok(Some((first_bytes, second_bytes)))
}

// What a caller learns of two pieces that it writes one after the other.
#[tactic(auto, using(gm_outside::specs::FramesRules::frames))]
fn write_two<K: Sink>(sink: &mut K, first: &[u8], second: &[u8]) -> Result<(), Trouble>
    ensures { Writes (first.now ++ second.now) (K.state sink.old) (K.state sink.new) result }
{
    sink.write(first)?;
    sink.write(second)
}

// What a caller learns of a file that it writes in two pieces.
#[tactic(auto, using(gm_outside::specs::ChangesRules::changes))]
fn write_file<D: Depot>(
    depot: &mut D,
    name: &str,
    first: &[u8],
    second: &[u8],
) -> Result<(), Trouble>
    ensures ok { OnOk result ((D.state depot.new).files
        ≡ with_file (D.state depot.old).files name.now (first.now ++ second.now)) }
    ensures err { OnErr result (((D.state depot.new).files ≡ (D.state depot.old).files)
        ⊎ HoldsPrefix (D.state depot.old).files (D.state depot.new).files name.now (first.now ++ second.now)) }
    ensures cause { CountsFaults (D.state depot.old) (D.state depot.new) result }
    ensures write_cause { CountsWriteFaults (D.state depot.old) (D.state depot.new) result }
    ensures frame { OnlyWrites (D.state depot.old) (D.state depot.new) }
{
    depot.create(name)?;
    depot.append(name, first)?;
    depot.append(name, second)?;
    Ok(())
}

fn definitions()
    ensures next { counted 7 ≡ 8 }
    ensures last { counted MAX_COUNT ≡ MAX_COUNT }
    ensures limited { next_limit (record {
      written = [];
      fails = (2, 3) ∷ (2, 4) ∷ [];
      writes = 1;
      faults = 0;
      lacks = 0;
    }) ≡ Some 3 }
    ensures free { next_limit (record {
      written = [];
      fails = (2, 3) ∷ [];
      writes = 2;
      faults = 0;
      lacks = 0;
    }) ≡ None }
{}

#[test]
fn over_memory(rt: HostRuntime) -> Result<(), Fail> {
    definitions();
    let alloc = rt.alloc();
    let mut depot = MemDepot::new(alloc, Vec::new(alloc));
    depot.put("a", b"ab".as_slice())?;
    depot.put("b", b"c".as_slice())?;
    let Some((first, second)) = read_two(alloc, &mut depot, "a", "b")? else {
        return Err(Fail::from("a file is missing"));
    };
    assert_eq!(rt; first.as_slice(), b"ab".as_slice());
    assert_eq!(rt; second.as_slice(), b"c".as_slice());
    assert_eq!(rt; depot.reads(), 2);
    write_file(&mut depot, "a", &second, &first)?;
    assert!(rt;
        depot
            .file("a")
            .is_some_and(|bytes| bytes == b"cab".as_slice())
    );

    let mut sink = MemSink::new(alloc, Vec::new(alloc));
    write_two(&mut sink, &first, &second)?;
    assert_eq!(rt; sink.written(), b"abc".as_slice());
    Ok(())
}
