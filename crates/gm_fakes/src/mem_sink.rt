//! A sink in memory, whose writes fail exactly where they are told to.
ghost use Rattle.std.specs.Prelude.{◌≡◌, ◌≢◌, ◌++◌, [], Some, IsNone, IsOk, IsSomeAnd, OnOk, OnErr, IsErrOf, take, min, find, unwrap_or};
ghost use Rattle.gm_outside.specs.Causes.{counted, HasCause, HasExactCause};
ghost use Rattle.gm_outside.specs.Growth.{GrewBy, GrewByPrefix};

use gm_outside::{Sink, Trouble};
use std::alloc::Global;
use std::marker::Model;

/// Bytes in memory. The pair `(k, b)` among its failing writes makes the `k`-th write of a piece that
/// isn't empty fail after at most `b` bytes of its piece; of two pairs for one write the first holds.
#[derive(Drop)]
pub struct MemSink {
    held: Vec<u8>,
    fails: Vec<(u64, usize)>,
    writes: u64,
    faults: u64,
    lacks: u64,
}

impl Model for MemSink {
    ghost use Rattle.gm_fakes.specs.Memory.{HeldBytes};

    ghost Value = { HeldBytes };

    ghost view = { λ sink. record {
      written = sink.held.items;
      fails = sink.fails.items;
      writes = sink.writes;
      faults = sink.faults;
      lacks = sink.lacks;
    } };
}

impl MemSink {
    ghost use Rattle.gm_fakes.specs.Memory.{next_limit};

    /// An empty sink, whose listed writes fail.
    pub fn new(alloc: Global, fails: Vec<(u64, usize)>) -> MemSink
        ensures { result ≡ record { written = []; fails = fails.items; writes = 0; faults = 0; lacks = 0 } }
    {
        MemSink {
            held: Vec::new(alloc),
            fails,
            writes: 0,
            faults: 0,
            lacks: 0,
        }
    }

    /// The bytes that were written.
    pub fn written(&self) -> &[u8]
        ensures { result.now ≡ self.now.written }
    {
        &self.held
    }

    /// How many writes failed.
    pub fn faults(&self) -> u64
        ensures { result ≡ self.now.faults }
    {
        self.faults
    }

    /// How many writes found no memory.
    pub fn lacks(&self) -> u64
        ensures { result ≡ self.now.lacks }
    {
        self.lacks
    }

    fn next_limit(&self) -> Option<usize>
        ensures { result ≡ next_limit self.now }
    {
        let number = self.writes.saturating_add(1);
        self.fails
            .iter()
            .find(|fail| fail.0 == number)
            .map(|fail| fail.1)
    }
}

impl Sink for MemSink {
    ghost use Rattle.gm_fakes.specs.Memory.{next_limit, told_of_bytes};

    ghost state = { told_of_bytes };

    #[tactic(auto, using(gm_outside::specs::GrowthRules::growth))]
    fn write(&mut self, piece: &[u8]) -> Result<(), Trouble>
        ensures empty { piece.now ≡ [] → IsOk result }
        ensures nothing { piece.now ≡ [] → self.new ≡ self.old }
        ensures grew { OnOk result (GrewBy (Some self.old.written) (Some self.new.written) piece.now) }
        ensures grew_prefix { OnErr result (GrewByPrefix (Some self.old.written) (Some self.new.written) piece.now) }
        ensures unlimited { OnOk result (piece.now ≢ [] → IsNone (next_limit self.old)) }
        ensures ok { OnOk result (piece.now ≢ [] → self.new ≡ record self.old {
          written = self.old.written ++ piece.now;
          writes = counted self.old.writes;
        }) }
        ensures failed { IsErrOf result Trouble.Failed
            → IsSomeAnd (next_limit self.old) (λ most. self.new ≡ record self.old {
              written = self.old.written ++ take most piece.now;
              writes = counted self.old.writes;
              faults = counted self.old.faults;
            }) }
        ensures memory { IsErrOf result Trouble.Memory → self.new ≡ record self.old {
          writes = counted self.old.writes;
          lacks = counted self.old.lacks;
        } }
        ensures fault { HasExactCause Trouble.Failed self.old.faults self.new.faults result }
        ensures lack { HasCause Trouble.Memory self.old.lacks self.new.lacks result }
    {
        if piece.is_empty() {
            return Ok(());
        }
        let limit = self.next_limit();
        self.writes = self.writes.saturating_add(1);
        let most = limit.unwrap_or(piece.len()).min(piece.len());
        if self.held.extend_from_slice(&piece[..most]).is_err() {
            self.lacks = self.lacks.saturating_add(1);
            return Err(Trouble::Memory);
        }
        if limit.is_some() {
            self.faults = self.faults.saturating_add(1);
            return Err(Trouble::Failed);
        }
        Ok(())
    }
}

#[cfg(test)]
mod tests {
    use super::MemSink;
    use gm_outside::{Sink, Trouble};
    use std::test::Fail;

    #[test]
    fn fails_where_told(rt: HostRuntime) -> Result<(), Fail> {
        let fails = vec![in rt.alloc(); (2, 3), (3, 0), (5, 99)]?;
        let mut sink = MemSink::new(rt.alloc(), fails);
        let writes = [
            ("job ", Ok(())),
            ("", Ok(())),
            ("a version", Err(Trouble::Failed)),
            ("zero", Err(Trouble::Failed)),
            (" done", Ok(())),
            ("!", Err(Trouble::Failed)),
        ];
        for (piece, want) in writes {
            assert_eq!(rt; sink.write(piece.as_bytes()), want, "{piece}");
        }
        assert_eq!(rt; sink.written(), b"job a v done!".as_slice());
        assert_eq!(rt; sink.faults(), 3);
        assert_eq!(rt; sink.lacks(), 0);
        Ok(())
    }
}
