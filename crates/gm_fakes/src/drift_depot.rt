//! A depot in memory, one of whose files changes under its reader.
ghost use Rattle.std.specs.Prelude.{◌≡◌, ◌≢◌, ◌↔◌, length, EachIndex, IfErr, IfOk, IsErr, IsOk, OnOk, is_ok, slice_index};
ghost use Rattle.gm_outside.specs.Causes.{counted, HasCause, HasExactCause};
ghost use Rattle.gm_outside.specs.Files.{size_of, HasRange, HasBytesAt};
ghost use Rattle.gm_outside.specs.States.{untold};

use crate::mem_depot::{Call, MemDepot};
use gm_outside::{Depot, Trouble};

/// A depot that does what the depot in memory below it does, but for one read, which finds a file that has changed.
///
/// That read gives the front of some bytes, and zeros behind them. It never fails, also where the depot below would have,
/// and counts as a read of that one.
#[derive(Drop)]
pub struct DriftDepot {
    depot: MemDepot,
    read: u64,
    bytes: Vec<u8>,
}

impl DriftDepot {
    /// A depot over this one, whose `read`-th read, counted from 1, finds these bytes.
    pub fn new(mem: MemDepot, read: u64, bytes: Vec<u8>) -> DriftDepot
        ensures depot { result.depot ≡ mem }
        ensures read { result.read ≡ read }
        ensures bytes { result.bytes ≡ bytes }
    {
        DriftDepot {
            depot: mem,
            read,
            bytes,
        }
    }

    /// The depot below.
    pub fn depot(&self) -> &MemDepot
        ensures { result.now ≡ self.now.depot }
    {
        &self.depot
    }
}

impl Depot for DriftDepot {
    ghost use Rattle.gm_fakes.specs.Memory.{with_answer, Appends, Creates, IsNextToFail};

    ghost state = { λ drift.
        untold drift.depot.faults drift.depot.write_faults drift.depot.reads drift.depot.sizes };

    ghost calm_tells = { λ _ h. h };

    fn size(&mut self, name: &str) -> Result<Option<u64>, Trouble>
        ensures fails { IsErr result ↔ IsNextToFail Call.Size self.old.depot }
        ensures ok { IfOk result (λ size. size ≡ size_of self.old.depot.files name.now) }
        ensures cause { HasExactCause Trouble.Failed self.old.depot.faults self.new.depot.faults result }
        ensures after { self.new
            ≡ record self.old { depot = with_answer Call.Size (is_ok result) self.old.depot } }
    {
        self.depot.size(name)
    }

    fn read_at(&mut self, name: &str, pos: u64, into: &mut [u8]) -> Result<(), Trouble>
        ensures drifts { counted self.old.depot.reads ≡ self.old.read → IsOk result }
        ensures drifted { counted self.old.depot.reads ≡ self.old.read
            → EachIndex into.new (λ at. slice_index into.new at ≡ slice_index self.old.bytes.items at) }
        ensures listed { counted self.old.depot.reads ≢ self.old.read
            → IsNextToFail Call.Read self.old.depot → IsErr result }
        ensures ok { counted self.old.depot.reads ≢ self.old.read
            → OnOk result (HasBytesAt self.old.depot.files name.now pos into.new) }
        ensures works { HasRange self.old.depot.files name.now pos (length into.old)
            → (IsNextToFail Call.Read self.old.depot → ⊥) → IsOk result }
        ensures err { IfErr result (λ trouble. trouble ≡ Trouble.Failed) }
        ensures cause { HasExactCause Trouble.Failed self.old.depot.faults self.new.depot.faults result }
        ensures after { self.new
            ≡ record self.old { depot = with_answer Call.Read (is_ok result) self.old.depot } }
    {
        if self.depot.reads().saturating_add(1) != self.read {
            return self.depot.read_at(name, pos, into);
        }
        self.depot.count(Call::Read);
        fill_from_front(into, &self.bytes);
        Ok(())
    }

    fn create(&mut self, name: &str) -> Result<(), Trouble>
        ensures creates { Creates name.now self.old.depot self.new.depot result }
        ensures kept { self.new ≡ record self.old { depot = self.new.depot } }
        ensures cause { HasExactCause Trouble.Failed self.old.depot.faults self.new.depot.faults result }
        ensures write_cause { HasCause Trouble.Failed self.old.depot.write_faults self.new.depot.write_faults result }
    {
        self.depot.create(name)
    }

    fn append(&mut self, name: &str, bytes: &[u8]) -> Result<(), Trouble>
        ensures appends { Appends name.now bytes.now self.old.depot self.new.depot result }
        ensures kept { self.new ≡ record self.old { depot = self.new.depot } }
        ensures cause { HasExactCause Trouble.Failed self.old.depot.faults self.new.depot.faults result }
        ensures write_cause { HasCause Trouble.Failed self.old.depot.write_faults self.new.depot.write_faults result }
    {
        self.depot.append(name, bytes)
    }
}

/// Fills `into` with the front of these bytes, and with zeros behind them.
fn fill_from_front(into: &mut [u8], bytes: &[u8])
    ensures { EachIndex into.new (λ at. slice_index into.new at ≡ slice_index bytes.now at) }
{
    for (at, byte) in into.iter_mut().enumerate() {
        *byte = bytes.get(at).copied().unwrap_or(0);
    }
}

#[cfg(test)]
mod tests {
    use super::DriftDepot;
    use crate::mem_depot::{Call, MemDepot};
    use gm_outside::{Depot, Trouble};
    use std::test::Fail;

    #[test]
    fn drifts_once(rt: HostRuntime) -> Result<(), Fail> {
        for (bytes, want) in [("xy", *b"xy\0"), ("vwxyz", *b"vwx"), ("", [0; 3])] {
            let fails = vec![in rt.alloc(); (Call::Read, 2), (Call::Read, 4)]?;
            let mut mem = MemDepot::new(rt.alloc(), fails);
            mem.put("a", b"abcdef".as_slice())?;
            let bytes = bytes.as_bytes().to_vec(rt.alloc())?;
            let mut drift = DriftDepot::new(mem, 2, bytes);

            let mut into = [b'?'; 3];
            drift.read_at("a", 2, &mut into)?;
            assert_eq!(rt; into, *b"cde");
            drift.read_at("none", 0, &mut into)?;
            assert_eq!(rt; into, want);
            drift.read_at("a", 3, &mut into)?;
            assert_eq!(rt; into, *b"def");
            assert_eq!(rt; drift.read_at("a", 0, &mut into), Err(Trouble::Failed));
            assert_eq!(rt; drift.depot().reads(), 4);
            assert_eq!(rt; drift.depot().faults(), 1);
        }
        Ok(())
    }

    #[test]
    fn other_calls_are_handed_on(rt: HostRuntime) -> Result<(), Fail> {
        let alloc = rt.alloc();
        let fails = vec![in alloc; (Call::Append, 2)]?;
        let mut drift = DriftDepot::new(MemDepot::new(alloc, fails), 1, Vec::new(alloc));
        drift.create("a")?;
        drift.append("a", b"xyz".as_slice())?;
        assert_eq!(rt; drift.append("a", b"?".as_slice()), Err(Trouble::Failed));
        assert_eq!(rt; drift.size("a"), Ok(Some(3)));
        assert!(rt;
            drift
                .depot()
                .file("a")
                .is_some_and(|bytes| bytes == b"xyz".as_slice())
        );
        assert_eq!(rt; drift.depot().write_faults(), 1);
        Ok(())
    }
}
