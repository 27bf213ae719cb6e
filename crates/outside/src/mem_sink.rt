//! A sink in memory, which tells all its bytes.

ghost use Rattle.std.specs.Prelude.{◌≡◌, ◌⊎◌, [], Some, IsTrue, IsErr, OnOk, OnErr, false};
ghost use Rattle.outside.specs.Causes.{HasCause, faults_after};
ghost use Rattle.outside.specs.Bytes.{PutAppends};
ghost use Rattle.outside.specs.Memory.{SinkState, IsListed, called};

use crate::calls::Calls;
use crate::{Failed, Sink};
use std::alloc::Global;
use std::marker::Model;

/// A sink in memory. Calls are numbered from 1, and the listed ones fail and append nothing.
#[derive(Debug, Drop)]
pub struct MemSink {
    bytes: Vec<u8>,
    calls: Calls,
    refused: bool,
}

impl Model for MemSink {
    ghost use Rattle.outside.specs.Memory.{SinkState};

    ghost Value = { SinkState };

    ghost view = { λ s. record { bytes = s.bytes.items; calls = s.calls; refused = s.refused } };
}

impl MemSink {
    /// An empty sink, of which the calls with the numbers in `fail` fail. It takes no memory yet.
    pub fn new(alloc: Global, fail: Vec<u64>) -> MemSink
        ensures { result ≡ record {
          bytes = [];
          calls = record { made = 0; fail = fail.items; faults = 0 };
          refused = false;
        } }
    {
        MemSink {
            bytes: Vec::new(alloc),
            calls: Calls::new(fail),
            refused: false,
        }
    }

    /// What was put.
    pub fn bytes(&self) -> &[u8]
        ensures { result.now ≡ self.now.bytes }
    {
        &self.bytes
    }

    /// Whether memory was refused to a call, which counts as a fault of it.
    pub fn refused(&self) -> bool
        ensures { result ≡ self.now.refused }
    {
        self.refused
    }
}

impl Sink for MemSink {
    ghost bytes = { λ s. Some s.bytes };

    ghost faults = { λ s. s.calls.faults };

    fn put(&mut self, piece: &[u8]) -> Result<(), Failed>
        ensures bytes { PutAppends (Some self.old.bytes) (Some self.new.bytes) result piece.now }
        ensures cause { HasCause self.old.calls.faults self.new.calls.faults result }
        ensures nothing { OnErr result (self.new.bytes ≡ self.old.bytes) }
        ensures listed { IsListed self.old.calls → IsErr result }
        ensures only { IsErr result → IsListed self.old.calls ⊎ IsTrue self.new.refused }
        ensures stays { OnOk result (self.new.refused ≡ self.old.refused) }
        ensures refusal { IsListed self.old.calls → self.new.refused ≡ self.old.refused }
        ensures kept { IsTrue self.old.refused → IsTrue self.new.refused }
        ensures counted { self.new.calls ≡
            called self.old.calls (faults_after result self.old.calls.faults) }
    {
        self.calls.begin()?;
        if self.bytes.extend_from_slice(piece).is_err() {
            self.refused = true;
            return Err(self.calls.fail());
        }
        Ok(())
    }
}
