//! A depot that notes the calls that it hands on.
ghost use Rattle.std.specs.Prelude.{◌≡◌, ◌↔◌, ◌++◌, [], ◌∷◌, false, IsSome, IfSome, OnOk};
ghost use Rattle.gm_fakes.specs.Notes.{noted};

use crate::mem_depot::Call;
use gm_outside::{Depot, Trouble};
use std::alloc::{AllocError, Global};

/// A call that a depot was asked for: its kind, the name of its file, and which bytes of it.
#[derive(Debug, Drop, PartialEq, Eq)]
pub struct NotedCall {
    /// The kind of the call.
    pub kind: Call,
    /// The name of the file, as the call gave it.
    pub name: String,
    /// Where a read begins. It is 0 of any other call.
    pub position: u64,
    /// How many bytes are read or appended. It is 0 of any other call.
    pub length: usize,
}

/// A depot that does what the depot below it does, and notes each call.
#[derive(Drop)]
pub struct NotingDepot<D> {
    depot: D,
    calls: Vec<NotedCall>,
    lost_note: bool,
}

impl<D: Depot> NotingDepot<D> {
    /// A depot over this one, with no note so far.
    pub fn new(alloc: Global, depot: D) -> NotingDepot<D>
        ensures depot { result.depot ≡ depot }
        ensures calls { result.calls.items ≡ [] }
        ensures none_lost { result.lost_note ≡ false }
    {
        NotingDepot {
            depot,
            calls: Vec::new(alloc),
            lost_note: false,
        }
    }

    /// The depot below.
    pub fn depot(&self) -> &D
        ensures { result.now ≡ self.now.depot }
    {
        &self.depot
    }

    /// The calls so far, the oldest first, or `None` where there was no memory to note one.
    pub fn calls(&self) -> Option<&[NotedCall]>
        ensures told { IsSome result ↔ self.now.lost_note ≡ false }
        ensures calls { IfSome result (λ calls. calls.now ≡ self.now.calls.items) }
    {
        if self.lost_note {
            return None;
        }
        Some(&self.calls)
    }

    fn note(&mut self, kind: Call, name: &str, position: u64, length: usize)
        ensures depot { self.new.depot ≡ self.old.depot }
        ensures noted { self.new.lost_note ≡ false
            → (self.old.lost_note ≡ false)
            × (noted self.new.calls.items
            ≡ noted self.old.calls.items ++ ((kind, name.now), (position, length)) ∷ []) }
    {
        if self.push_note(kind, name, position, length).is_err() {
            self.lost_note = true;
        }
    }

    fn push_note(
        &mut self,
        kind: Call,
        name: &str,
        position: u64,
        length: usize,
    ) -> Result<(), AllocError>
        ensures depot { self.new.depot ≡ self.old.depot }
        ensures lost_kept { self.new.lost_note ≡ self.old.lost_note }
        ensures ok { OnOk result (noted self.new.calls.items
            ≡ noted self.old.calls.items ++ ((kind, name.now), (position, length)) ∷ []) }
    {
        let name = String::from_str(*self.calls.allocator(), name)?;
        self.calls.push(NotedCall {
            kind,
            name,
            position,
            length,
        })?;
        Ok(())
    }
}

impl<D: Depot> Depot for NotingDepot<D> {
    ghost state = { λ noting. D.state noting.depot };

    ghost calm_tells = { λ noting. D.calm_tells noting.depot };

    fn size(&mut self, name: &str) -> Result<Option<u64>, Trouble> {
        self.note(Call::Size, name, 0, 0);
        self.depot.size(name)
    }

    fn read_at(&mut self, name: &str, pos: u64, into: &mut [u8]) -> Result<(), Trouble> {
        self.note(Call::Read, name, pos, into.len());
        self.depot.read_at(name, pos, into)
    }

    fn create(&mut self, name: &str) -> Result<(), Trouble> {
        self.note(Call::Create, name, 0, 0);
        self.depot.create(name)
    }

    fn append(&mut self, name: &str, bytes: &[u8]) -> Result<(), Trouble> {
        self.note(Call::Append, name, 0, bytes.len());
        self.depot.append(name, bytes)
    }
}

#[cfg(test)]
mod tests {
    use super::NotingDepot;
    use crate::mem_depot::{Call, MemDepot};
    use gm_outside::{Depot, Trouble};
    use std::test::Fail;

    #[test]
    fn notes_each_call(rt: HostRuntime) -> Result<(), Fail> {
        let alloc = rt.alloc();
        let fails = vec![in alloc; (Call::Append, 1)]?;
        let mut noting = NotingDepot::new(alloc, MemDepot::new(alloc, fails));
        noting.create("b")?;
        assert_eq!(rt; noting.append("b", b"x".as_slice()), Err(Trouble::Failed));
        assert_eq!(rt; noting.size("a"), Ok(None));
        noting.append("b", b"xyz".as_slice())?;
        noting.read_at("b", 1, &mut [0; 2])?;
        assert_eq!(rt; noting.depot().faults(), 1);

        let calls = noting.calls().ok_or("a note was lost")?;
        let wanted = [
            (Call::Create, "b", 0, 0),
            (Call::Append, "b", 0, 1),
            (Call::Size, "a", 0, 0),
            (Call::Append, "b", 0, 3),
            (Call::Read, "b", 1, 2),
        ];
        assert_eq!(rt; calls.len(), wanted.len());
        for (call, (kind, name, position, length)) in calls.iter().zip(wanted) {
            assert_eq!(rt; call.kind, kind);
            assert_eq!(rt; call.name.as_str(), name);
            assert_eq!(rt; call.position, position);
            assert_eq!(rt; call.length, length);
        }
        Ok(())
    }
}
