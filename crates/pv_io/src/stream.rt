// A source over a reader of std, and a sink over a writer of std.
ghost use Rattle.std.specs.Prelude.{◌≡◌, ◌<◌, ◌≤◌, [], Some, true, false, is_some, length, IsSome, IfSome, IfOk, OnOk};
ghost use Rattle.std.specs.Option.{ForSome};
ghost use Rattle.std.specs.Io.KnownBytes.{ReadConsumes, WriteAppends};
ghost use Rattle.pv_base.specs.Fault.{FaultCounted};
ghost use Rattle.pv_io.specs.Stream.{KnownAlike, CountsFaults, known_since};

use crate::{Sink, Source};
use pv_base::{Failed, History};
use std::io::{Read, Write};
use std::snapshot::Snapshot;

/// A source over a reader. What it has left is known where the reader's bytes were when it was passed to `new`. Each error of the reader counts as a fault, also that of a call which a signal interrupted: it isn't made
/// again.
#[derive(Drop)]
pub struct StdSource<R: Read> {
    /// The reader.
    inner: R,
    /// The reader as it was passed to `new`, for the proof.
    first: Snapshot<R>,
    /// What the reads have given, for the proof.
    given: History<u8>,
    /// How many calls have failed, up to u64's greatest value.
    faults: u64,
    ghost known: { ForSome (R.remaining first.value) (λ _. IsSome (R.remaining inner)) },
}

impl<R: Read> StdSource<R> {
    /// A source of what the reader has left.
    pub fn new(inner: R) -> Self
        ensures left { ⟦<StdSource<R> as Source>⟧.left result ≡ R.remaining inner }
        ensures given { ⟦<StdSource<R> as Source>⟧.given result ≡ Some [] }
        ensures faults { ⟦<StdSource<R> as Source>⟧.faults result ≡ 0 }
    {
        let first = Snapshot::of(&inner);
        StdSource {
            inner,
            first,
            given: History::new(),
            faults: 0,
        }
    }

    /// The reader.
    pub fn into_inner(self) -> R
        ensures { IfSome (⟦<StdSource<R> as Source>⟧.left self) (λ left. R.remaining result ≡ Some left) }
    {
        self.inner
    }
}

impl<R: Read> Source for StdSource<R> {
    ghost left = { λ s. known_since (R.remaining s.first.value) (R.remaining s.inner) };

    ghost given = { λ s. Some s.given.items };

    ghost faults = { λ s. s.faults };

    fn read(&mut self, into: &mut [u8]) -> Result<usize, Failed>
        ensures bound { IfOk result (λ n. n ≤ length into.new) }
        ensures bytes { ReadConsumes (⟦<StdSource<R> as Source>⟧.left self.old)
            (⟦<StdSource<R> as Source>⟧.left self.new) result into.new }
        ensures known { KnownAlike (⟦<StdSource<R> as Source>⟧.left self.old)
            (⟦<StdSource<R> as Source>⟧.left self.new) }
        ensures given { WriteAppends (⟦<StdSource<R> as Source>⟧.given self.old)
            (⟦<StdSource<R> as Source>⟧.given self.new) result into.new }
        ensures kept { is_some (⟦<StdSource<R> as Source>⟧.left self.old) ≡ false
            → (is_some (⟦<StdSource<R> as Source>⟧.given self.old) ≡ true)
            × (is_some (⟦<StdSource<R> as Source>⟧.given self.new) ≡ true) }
        ensures fault { FaultCounted (⟦<StdSource<R> as Source>⟧.faults self.old)
            (⟦<StdSource<R> as Source>⟧.faults self.new) result }
        ensures uncounted { OnOk result (⟦<StdSource<R> as Source>⟧.faults self.new
            ≡ ⟦<StdSource<R> as Source>⟧.faults self.old) }
        ensures counts { CountsFaults (⟦<StdSource<R> as Source>⟧.faults self.old)
            (⟦<StdSource<R> as Source>⟧.faults self.new) result }
    {
        match self.inner.read(into) {
            Ok(count) => {
                let (front, _) = into.split_at(count);
                self.given.extend(front);
                Ok(count)
            }
            Err(_) => {
                self.faults = self.faults.saturating_add(1);
                Err(Failed)
            }
        }
    }
}

/// A sink over a writer. What it holds is known where the writer's bytes were when it was passed to `new`. Each error of the writer counts as a fault, also that of a call which a signal interrupted: it isn't made
/// again. A write that takes nothing of a piece that has bytes counts as one too.
///
/// The sink never flushes, so it is meant for a writer without a buffer of its own.
#[derive(Drop)]
pub struct StdSink<W: Write> {
    /// The writer.
    inner: W,
    /// The writer as it was passed to `new`, for the proof.
    first: Snapshot<W>,
    /// How many calls have failed, up to u64's greatest value.
    faults: u64,
    ghost known: { ForSome (W.contents first.value) (λ _. IsSome (W.contents inner)) },
}

impl<W: Write> StdSink<W> {
    /// A sink that adds to what the writer holds.
    pub fn new(inner: W) -> Self
        ensures held { ⟦<StdSink<W> as Sink>⟧.held result ≡ W.contents inner }
        ensures faults { ⟦<StdSink<W> as Sink>⟧.faults result ≡ 0 }
    {
        let first = Snapshot::of(&inner);
        StdSink {
            inner,
            first,
            faults: 0,
        }
    }

    /// The writer.
    pub fn into_inner(self) -> W
        ensures { IfSome (⟦<StdSink<W> as Sink>⟧.held self) (λ held. W.contents result ≡ Some held) }
    {
        self.inner
    }
}

impl<W: Write> Sink for StdSink<W> {
    ghost held = { λ s. known_since (W.contents s.first.value) (W.contents s.inner) };

    ghost faults = { λ s. s.faults };

    fn write(&mut self, bytes: &[u8]) -> Result<usize, Failed>
        ensures bound { IfOk result (λ n. n ≤ length bytes.now) }
        ensures some { IfOk result (λ n. 0 < length bytes.now → 0 < n) }
        ensures bytes { WriteAppends (⟦<StdSink<W> as Sink>⟧.held self.old)
            (⟦<StdSink<W> as Sink>⟧.held self.new) result bytes.now }
        ensures known { KnownAlike (⟦<StdSink<W> as Sink>⟧.held self.old)
            (⟦<StdSink<W> as Sink>⟧.held self.new) }
        ensures fault { FaultCounted (⟦<StdSink<W> as Sink>⟧.faults self.old)
            (⟦<StdSink<W> as Sink>⟧.faults self.new) result }
        ensures uncounted { OnOk result (⟦<StdSink<W> as Sink>⟧.faults self.new
            ≡ ⟦<StdSink<W> as Sink>⟧.faults self.old) }
        ensures counts { CountsFaults (⟦<StdSink<W> as Sink>⟧.faults self.old)
            (⟦<StdSink<W> as Sink>⟧.faults self.new) result }
    {
        match self.inner.write(bytes) {
            Ok(count) if count > 0 || bytes.is_empty() => Ok(count),
            _ => {
                self.faults = self.faults.saturating_add(1);
                Err(Failed)
            }
        }
    }
}
