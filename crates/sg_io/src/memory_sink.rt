// A sink in memory. It tells the bytes put to it, and its calls fail where they are listed.
ghost use Rattle.std.specs.Prelude.{◌≡◌, ◌++◌, [], OnOk, OnErr};

use crate::listed::ListedCalls;
use crate::prefix::first_bytes;
use crate::{ShelfError, Sink};
use sg_text::NoMemory;
use std::alloc::Global;
use std::marker::Model;

/// Bytes in memory. Its calls to put are numbered from 0.
#[derive(Debug, Drop)]
pub struct MemorySink {
    bytes: Vec<u8>,
    calls: ListedCalls,
    faults: u64,
    wants: u64,
}

impl Model for MemorySink {
    ghost use Rattle.sg_io.specs.Memory.{SinkInMemory};

    ghost Value = { SinkInMemory };

    ghost view = { λ s. record { bytes = s.bytes.items; calls = s.calls; fault_count = s.faults; want_count = s.wants } };
}

impl MemorySink {
    ghost use Rattle.sg_io.specs.Faults.{next_count, Rises};
    ghost use Rattle.sg_io.specs.Listed.{with_listing};

    /// A sink that holds no bytes. Takes no memory.
    pub fn new(alloc: Global) -> MemorySink
        ensures bytes { result.bytes ≡ [] }
        ensures calls { result.calls ≡ record { made = 0; failing = [] } }
        ensures faults { result.fault_count ≡ 0 }
        ensures wants { result.want_count ≡ 0 }
    {
        MemorySink {
            bytes: Vec::new(alloc),
            calls: ListedCalls::new(alloc),
            faults: 0,
            wants: 0,
        }
    }

    /// Lets that call fail after `taken` bytes, at most all, were put. The last listing of a call holds.
    pub fn fail_at(&mut self, call: u64, taken: u64) -> Result<(), NoMemory>
        ensures ok { OnOk result (self.new.calls ≡ with_listing self.old.calls call taken) }
        ensures err { OnErr result (self.new ≡ self.old) }
        ensures bytes { self.new.bytes ≡ self.old.bytes }
        ensures faults { self.new.fault_count ≡ self.old.fault_count }
        ensures wants { self.new.want_count ≡ self.old.want_count }
    {
        self.calls.fail_at(call, taken)
    }

    // Adds all, or counts that there was no memory.
    fn add(&mut self, more: &[u8]) -> Result<(), NoMemory>
        ensures ok { OnOk result (self.new ≡ record self.old { bytes = self.old.bytes ++ more.now }) }
        ensures err { OnErr result (self.new ≡ record self.old { want_count = next_count self.old.want_count }) }
        ensures rises { OnErr result (Rises self.old.want_count self.new.want_count) }
    {
        let added = self.bytes.extend_from_slice(more);
        if added.is_err() {
            self.wants = self.wants.saturating_add(1);
        }
        Ok(added?)
    }

    /// The bytes put so far.
    pub fn bytes(&self) -> &[u8]
        ensures { result.now ≡ self.now.bytes }
    {
        &self.bytes
    }
}

impl Sink for MemorySink {
    ghost use Rattle.std.specs.Prelude.{Some};
    ghost use Rattle.sg_io.specs.Listed.{fails_after, after_call};
    ghost use Rattle.sg_io.specs.Memory.{PutsListed, sink_told};
    ghost use Rattle.sg_io.specs.Put.{Puts};

    ghost told = { sink_told };

    fn put(&mut self, bytes: &[u8]) -> Result<(), ShelfError>
        ensures told { Puts bytes.now (sink_told self.old) (sink_told self.new) result }
        ensures listed { PutsListed (fails_after self.old.calls) bytes.now self.old self.new result }
        ensures calls { self.new.calls ≡ after_call self.old.calls }
    {
        let listed = self.calls.next();
        let first = listed.map_or(bytes, |taken| first_bytes(bytes, taken));
        if self.add(first).is_err() {
            return Err(ShelfError::NoMemory);
        }
        match listed {
            Some(_) => {
                self.faults = self.faults.saturating_add(1);
                Err(ShelfError::Failed)
            }
            None => Ok(()),
        }
    }

    fn faults(&self) -> u64 {
        self.faults
    }
}
