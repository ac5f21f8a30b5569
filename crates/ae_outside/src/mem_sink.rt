//! A sink in memory, which fails where it is told to.
ghost use Rattle.std.specs.Prelude.{◌≡◌, ◌↔◌, ◌<◌, ◌≤◌, Some, length, min, take, IfOk, IsTrue, IsErr, IsErrOf, OnOk, OnErr};
ghost use Rattle.ae_outside.specs.Counts.{Rose};
ghost use Rattle.ae_outside.specs.Files.{added};
ghost use Rattle.ae_outside.specs.Memory.{fails_next, with_failing, new_sink, after_write};

use crate::calls::Calls;
use crate::{FilesErr, Sink};
use ae_base::Memory;
use std::alloc::Global;
use std::marker::Model;

/// A sink in memory. It tells all that it took, and writes that are listed to fail do so.
#[derive(Drop)]
pub struct MemSink {
    bytes: Vec<u8>,
    faults: u64,
    writes: Calls,
    limit: u64,
}

impl Model for MemSink {
    ghost use Rattle.std.specs.Prelude.{◌≤◌};
    ghost use Rattle.ae_outside.specs.Memory.{MemorySink};

    ghost Value = { MemorySink };

    ghost use Rattle.ae_outside.specs.Codes.{coded_sink};

    ghost coded = { coded_sink };

    ghost view = { λ s. record { taken = s.bytes.items; faults = s.faults; writes = s.writes; limit = s.limit } };

    ghost invariant = { λ s. 1 ≤ s.limit };
}

impl MemSink {
    /// Nothing was taken, no write is listed to fail, and none was made. It takes no memory.
    pub fn new(alloc: Global) -> Self
        ensures { result ≡ new_sink }
    {
        MemSink {
            bytes: Vec::new(alloc),
            faults: 0,
            writes: Calls::new(alloc),
            limit: u64::MAX,
        }
    }

    /// What was taken. It takes no memory.
    pub fn bytes(&self) -> &[u8]
        ensures { result.now ≡ self.now.taken }
    {
        &self.bytes
    }

    /// The `k`-th write is to fail, counted from 1. After `Memory` nothing changes.
    pub fn fail_write(&mut self, k: u64) -> Result<(), Memory>
        ensures ok { OnOk result (self.new ≡ record self.old { writes = with_failing self.old.writes k }) }
        ensures err { OnErr result (self.new ≡ self.old) }
    {
        self.writes.fail(k)
    }

    /// From now on a write takes at most `limit` bytes. It takes no memory.
    pub fn piece(&mut self, limit: u64)
        requires { 1 ≤ limit }
        ensures { self.new ≡ record self.old { limit = limit } }
    {
        self.limit = limit;
    }
}

impl Sink for MemSink {
    ghost taken = { λ s. Some s.taken };

    ghost faults = { λ s. s.faults };

    /// Fails where the call is listed to fail, and there alone answers `Failed`. Else it takes as much as there is and the limit allows.
    #[tactic(auto, unfolding(crate::specs::Files::added))]
    fn write(&mut self, piece: &[u8]) -> Result<usize, FilesErr>
        ensures ok { IfOk result (λ k. Some self.new.taken ≡ added (Some self.old.taken) (take k piece.now)) }
        ensures bound { IfOk result (λ k. k ≤ length piece.now) }
        ensures some { IfOk result (λ k. 0 < length piece.now → 0 < k) }
        ensures err { OnErr result (self.new.taken ≡ self.old.taken) }
        ensures counts { self.old.faults ≤ self.new.faults }
        ensures failed { IsErrOf result FilesErr.Failed → Rose self.old.faults self.new.faults }
        ensures fails { IsTrue (fails_next self.old.writes) → IsErr result }
        ensures cause { IsErrOf result FilesErr.Failed → IsTrue (fails_next self.old.writes) }
        ensures takes { IfOk result (λ k. k ≡ min self.old.limit (length piece.now)) }
        ensures after { self.new ≡ after_write self.old piece.now result }
    {
        if self.writes.fails() {
            self.faults = self.faults.saturating_add(1);
            return Err(FilesErr::Failed);
        }
        let count = self.limit.min(piece.len() as u64) as usize;
        self.bytes.extend_from_slice(&piece[..count])?;
        Ok(count)
    }
}
