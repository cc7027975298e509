// A source and a sink in memory, whose chosen calls fail.
ghost use Rattle.std.specs.Prelude.{◌≡◌, ◌<◌, ◌≤◌, ◌++◌, ◌↔◌, [], Some, min, length, take, drop, IsErr, IfOk, IsErrOf, OnOk, OnErr, MatchResult};
ghost use Rattle.fri_outside.specs.Outside.{after_source_read, after_sink_write};
ghost use Rattle.fri_outside.specs.Terminal.{deaf_hearing};
ghost use Rattle.fri_outside.specs.Memory.{no_failures, IsDueFailure, after_call, with_failure};

use crate::plan::FailurePlan;
use crate::{Failed, Sink, Source, WriteError};
use std::alloc::{AllocError, Global};
use std::marker::Model;

/// Bytes to read, for tests. They tell which are left.
#[derive(Drop)]
pub struct MemSource {
    bytes: Vec<u8>,
    at: usize,
    piece: usize,
    plan: FailurePlan,
    faults: u64,
}

impl Model for MemSource {
    ghost use Rattle.std.specs.Prelude.{◌≤◌, take, drop, vec_len};
    ghost use Rattle.fri_outside.specs.Memory.{SourceInMemory};

    ghost Value = { SourceInMemory };

    ghost view = { λ source. record {
      given = take source.at source.bytes.items;
      rest = drop source.at source.bytes.items;
      piece = source.piece;
      plan = source.plan;
      faults = source.faults;
    } };

    ghost invariant = { λ source. (source.at ≤ vec_len source.bytes) × (1 ≤ source.piece) };
}

impl MemSource {
    /// A source of these bytes. A read gives at most `piece` of them, and no call fails.
    pub fn new(bytes: Vec<u8>, piece: usize) -> Self
        requires { 1 ≤ piece }
        ensures { result ≡ record { given = []; rest = bytes.items; piece = piece; plan = no_failures; faults = 0 } }
    {
        let plan = FailurePlan::new(*bytes.allocator());
        MemSource {
            bytes,
            at: 0,
            piece,
            plan,
            faults: 0,
        }
    }

    /// How many bytes were given.
    pub fn count(&self) -> usize
        ensures { result ≡ length self.now.given }
    {
        self.at
    }

    /// Lets the read of this number fail, where the first has the number 1.
    pub fn fail_at(&mut self, call: u64) -> Result<(), AllocError>
        ensures ok { OnOk result (self.new ≡ record self.old { plan = with_failure call self.old.plan }) }
        ensures err { OnErr result (self.new ≡ self.old) }
    {
        self.plan.fail_at(call)
    }
}

impl Source for MemSource {
    ghost left = { λ source. Some source.rest };

    ghost faults = { λ source. source.faults };

    /// Gives as many bytes as the source gives at most, as are left, and as the buffer takes.
    fn read(&mut self, buf: &mut [u8]) -> Result<usize, Failed>
        requires { 0 < length buf.old }
        ensures count { IfOk result (λ n. n ≡ min (min self.old.piece (length buf.old)) (length self.old.rest)) }
        ensures bound { IfOk result (λ n. n ≤ length buf.new) }
        ensures bytes { IfOk result (λ n. self.old.rest ≡ take n buf.new ++ self.new.rest) }
        ensures end { IfOk result (λ n. n ≡ 0 → self.old.rest ≡ []) }
        ensures same { OnErr result (self.new.rest ≡ self.old.rest) }
        ensures given { MatchResult result (λ n. self.new.given ≡ self.old.given ++ take n buf.new) (λ _. self.new.given ≡ self.old.given) }

        ensures fails { IsErr result ↔ IsDueFailure self.old.plan }
        ensures called { self.new.plan ≡ after_call self.old.plan }
        ensures counted { self.new.faults ≡ after_source_read self.old.faults result }
        ensures quiet { self.old.plan.failing ≡ [] → self.new.faults ≡ self.old.faults }
        ensures piece { self.new.piece ≡ self.old.piece }
    {
        if self.plan.count_call() {
            self.faults = self.faults.saturating_add(1);
            return Err(Failed);
        }
        let rest = &self.bytes[self.at..];
        let count = self.piece.min(buf.len()).min(rest.len());
        buf[..count].copy_from_slice(&rest[..count]);
        self.at += count;
        Ok(count)
    }
}

/// Bytes that were written, for tests. They tell what was taken.
#[derive(Drop)]
pub struct MemSink {
    bytes: Vec<u8>,
    plan: FailurePlan,
    faults: u64,
}

impl Model for MemSink {
    ghost use Rattle.fri_outside.specs.Memory.{SinkInMemory};

    ghost Value = { SinkInMemory };

    ghost view = { λ sink. record { bytes = sink.bytes.items; plan = sink.plan; faults = sink.faults } };
}

impl MemSink {
    /// A sink that took no bytes, and no call fails.
    pub fn new(alloc: Global) -> Self
        ensures { result ≡ record { bytes = []; plan = no_failures; faults = 0 } }
    {
        MemSink {
            bytes: Vec::new(alloc),
            plan: FailurePlan::new(alloc),
            faults: 0,
        }
    }

    /// The bytes that were taken.
    pub fn bytes(&self) -> &[u8]
        ensures { result.now ≡ self.now.bytes }
    {
        &self.bytes
    }

    /// Lets the write of this number fail, where the first has the number 1.
    pub fn fail_at(&mut self, call: u64) -> Result<(), AllocError>
        ensures ok { OnOk result (self.new ≡ record self.old { plan = with_failure call self.old.plan }) }
        ensures err { OnErr result (self.new ≡ self.old) }
    {
        self.plan.fail_at(call)
    }
}

impl Sink for MemSink {
    ghost taken = { λ sink. Some sink.bytes };

    ghost faults = { λ sink. sink.faults };

    ghost hearing = { λ _. deaf_hearing };

    /// Takes the whole piece.
    fn write(&mut self, piece: &[u8]) -> Result<usize, WriteError>
        requires { 0 < length piece.now }
        ensures whole { IfOk result (λ n. n ≡ length piece.now) }
        ensures bytes { MatchResult result (λ _. self.new.bytes ≡ self.old.bytes ++ piece.now)
            (λ _. self.new.bytes ≡ self.old.bytes) }

        ensures fails { IsErrOf result WriteError.Failed ↔ IsDueFailure self.old.plan }
        ensures called { self.new.plan ≡ after_call self.old.plan }
        ensures counted { self.new.faults ≡ after_sink_write self.old.faults result }
        ensures quiet { self.old.plan.failing ≡ [] → self.new.faults ≡ self.old.faults }
    {
        if self.plan.count_call() {
            self.faults = self.faults.saturating_add(1);
            return Err(WriteError::Failed);
        }
        self.bytes.extend_from_slice(piece)?;
        Ok(piece.len())
    }
}
