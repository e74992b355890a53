// Where output goes.
ghost use Rattle.std.specs.Prelude.{◌≡◌, ℕ, ◌<◌, ◌≤◌, List, Option, Result, length, IfOk, OnOk, OnErr};
ghost use Rattle.std.specs.Io.KnownBytes.{Appends, WriteAppends};
ghost use Rattle.pv_base.specs.Fault.{FaultCounted};
ghost use Rattle.pv_io.specs.Stream.{KnownAlike};

use pv_base::Failed;

/// A place that takes bytes and keeps them in order.
pub trait Sink {
    /// The bytes that the sink holds, where they are known.
    ghost held: { Self → Option (List ℕ) };

    /// How many calls have failed. It never falls, and no call that succeeds changes it; at u64's greatest value it stays.
    ghost faults: { Self → ℕ };

    /// Takes some bytes from the front of `bytes` and answers how many: at least one where there is one. A call that
    /// fails takes none.
    fn write(&mut self, bytes: &[u8]) -> Result<usize, Failed>
        ensures bound { IfOk result (λ n. n ≤ length bytes.now) }
        ensures some { IfOk result (λ n. 0 < length bytes.now → 0 < n) }
        ensures bytes { WriteAppends (held self.old) (held self.new) result bytes.now }
        ensures known { KnownAlike (held self.old) (held self.new) }
        ensures fault { FaultCounted (faults self.old) (faults self.new) result }
        ensures uncounted { OnOk result (faults self.new ≡ faults self.old) };
}
