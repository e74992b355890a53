// A source and a sink in memory, which fail at the calls that they are made to fail at.
ghost use Rattle.std.specs.Prelude.{◌≡◌, ◌↔◌, ◌<◌, ◌≤◌, [], ◌++◌, Some, None, is_some, true, false, length, take, drop, min, Contains, IsErr, IfOk, OnOk, OnErr};
ghost use Rattle.std.specs.Io.KnownBytes.{ReadConsumes, WriteAppends};
ghost use Rattle.pv_base.specs.Fault.{FaultCounted};
ghost use Rattle.pv_io.specs.Stream.{KnownAlike};
ghost use Rattle.pv_io.specs.Memory.{SourceState, SinkState, read_source, failed_source, written_sink, failed_sink};

use crate::fail_plan::FailPlan;
use crate::{Sink, Source};
use pv_base::Failed;
use std::alloc::Global;
use std::marker::Model;

/// A source in memory. What it has left is known. Its calls of `read` are numbered from 0, and those that are planned to
/// fail give nothing. The numbers and the count of faults end at u64's greatest value, and stay there.
#[derive(Debug, Drop)]
pub struct MemSource {
    /// All the bytes, also those that were read.
    bytes: Vec<u8>,
    /// How many of them were read.
    given: usize,
    /// Which calls of `read` fail.
    plan: FailPlan,
}

impl Model for MemSource {
    ghost use Rattle.std.specs.Prelude.{◌≤◌, drop, vec_len};
    ghost use Rattle.pv_io.specs.Memory.{SourceState};

    ghost Value = { SourceState };

    ghost view = { λ s. record {
      left = drop s.given s.bytes.items;
      calls = s.plan.calls;
      fails = s.plan.fails.items;
      faults = s.plan.faults;
    } };

    ghost invariant = { λ s. s.given ≤ vec_len s.bytes };
}

impl MemSource {
    /// A source that gives these bytes and fails at the calls with the numbers `fails`.
    pub fn new(bytes: Vec<u8>, fails: Vec<u64>) -> Self
        ensures { result ≡ record { left = bytes.items; calls = 0; fails = fails.items; faults = 0 } }
    {
        MemSource {
            bytes,
            given: 0,
            plan: FailPlan::new(fails),
        }
    }

    /// The bytes that are left to read.
    pub fn left(&self) -> &[u8]
        ensures { result.now ≡ self.now.left }
    {
        let (_, left) = self.bytes.split_at(self.given);
        left
    }

    /// How many calls have failed.
    pub fn faults(&self) -> u64
        ensures { result ≡ self.now.faults }
    {
        self.plan.faults
    }
}

impl Source for MemSource {
    ghost left = { λ s. Some s.left };

    ghost given = { λ _. None };

    ghost faults = { λ s. s.faults };

    fn read(&mut self, into: &mut [u8]) -> Result<usize, Failed>
        ensures bound { IfOk result (λ n. n ≤ length into.new) }
        ensures bytes { ReadConsumes (Some self.old.left) (Some self.new.left) result into.new }
        ensures known { KnownAlike (Some self.old.left) (Some self.new.left) }
        ensures given { WriteAppends None None result into.new }
        ensures kept { is_some (Some self.old.left) ≡ false → (is_some (⟦<MemSource as Source>⟧.given self.old) ≡ true)
            × (is_some (⟦<MemSource as Source>⟧.given self.new) ≡ true) }
        ensures fault { FaultCounted self.old.faults self.new.faults result }
        ensures uncounted { OnOk result (self.new.faults ≡ self.old.faults) }

        ensures fails { IsErr result ↔ Contains self.old.fails self.old.calls }
        ensures failed { OnErr result (self.new ≡ failed_source self.old) }
        ensures count { IfOk result (λ n. n ≡ min (length into.old) (length self.old.left)) }
        ensures copied { IfOk result (λ n. into.new ≡ take n self.old.left ++ drop n into.old) }
        ensures read { IfOk result (λ n. self.new ≡ read_source self.old n) }
    {
        self.plan.begin_call()?;
        let (_, left) = self.bytes.split_at(self.given);
        let count = copy_front(left, into);
        self.given += count;
        Ok(count)
    }
}

// Copies as many bytes as fit to the front of `into`, and answers how many.
fn copy_front(from: &[u8], into: &mut [u8]) -> usize
    ensures count { result ≡ min (length into.old) (length from.now) }
    ensures copied { into.new ≡ take result from.now ++ drop result into.old }

    // As a read says it: what was given stands in front of what is left, and nothing is given only at the end.
    ensures given { from.now ≡ take result into.new ++ drop result from.now }
    ensures end { result ≡ 0 → 0 < length into.new → from.now ≡ [] }
{
    let count = into.len().min(from.len());
    let (front, _) = from.split_at(count);
    into[..count].copy_from_slice(front);
    count
}

/// A sink in memory. What it holds is known. Its calls of `write` are numbered from 0, and those that are planned to
/// fail take nothing; so does a call that finds no memory. The numbers and the count of faults end at u64's greatest
/// value, and stay there.
#[derive(Debug, Drop)]
pub struct MemSink {
    /// The bytes that were written.
    bytes: Vec<u8>,
    /// Which calls of `write` fail.
    plan: FailPlan,
}

impl Model for MemSink {
    ghost use Rattle.pv_io.specs.Memory.{SinkState};

    ghost Value = { SinkState };

    ghost view = { λ s. record {
      held = s.bytes.items;
      calls = s.plan.calls;
      fails = s.plan.fails.items;
      faults = s.plan.faults;
    } };
}

impl MemSink {
    /// An empty sink that fails at the calls with the numbers `fails`.
    pub fn new(alloc: Global, fails: Vec<u64>) -> Self
        ensures { result ≡ record { held = []; calls = 0; fails = fails.items; faults = 0 } }
    {
        MemSink {
            bytes: Vec::new(alloc),
            plan: FailPlan::new(fails),
        }
    }

    /// The bytes that the sink holds.
    pub fn bytes(&self) -> &[u8]
        ensures { result.now ≡ self.now.held }
    {
        &self.bytes
    }

    /// How many calls have failed.
    pub fn faults(&self) -> u64
        ensures { result ≡ self.now.faults }
    {
        self.plan.faults
    }
}

impl Sink for MemSink {
    ghost held = { λ s. Some s.held };

    ghost faults = { λ s. s.faults };

    fn write(&mut self, bytes: &[u8]) -> Result<usize, Failed>
        ensures bound { IfOk result (λ n. n ≤ length bytes.now) }
        ensures some { IfOk result (λ n. 0 < length bytes.now → 0 < n) }
        ensures bytes { WriteAppends (Some self.old.held) (Some self.new.held) result bytes.now }
        ensures known { KnownAlike (Some self.old.held) (Some self.new.held) }
        ensures fault { FaultCounted self.old.faults self.new.faults result }
        ensures uncounted { OnOk result (self.new.faults ≡ self.old.faults) }

        ensures fails { Contains self.old.fails self.old.calls → IsErr result }
        // A write of nothing wants no memory.
        ensures fails_only { length bytes.now ≡ 0 → OnErr result (Contains self.old.fails self.old.calls) }
        ensures failed { OnErr result (self.new ≡ failed_sink self.old) }
        ensures count { IfOk result (λ n. n ≡ length bytes.now) }
        ensures written { OnOk result (self.new ≡ written_sink self.old bytes.now) }
    {
        self.plan.begin_call()?;
        if self.bytes.extend_from_slice(bytes).is_err() {
            return Err(self.plan.fault());
        }
        Ok(bytes.len())
    }
}
