// Where input comes from.
ghost use Rattle.std.specs.Prelude.{◌≡◌, ℕ, ◌+◌, ◌<◌, ◌≤◌, List, [], Option, Some, Result, is_some, true, false, length, vec_len, IfOk, OnOk, IsErrOf};
ghost use Rattle.std.specs.Io.KnownBytes.{ReadConsumes, WriteAppends};
ghost use Rattle.pv_base.specs.Fault.{FaultCounted, Rose};
ghost use Rattle.pv_io.specs.Stream.{KnownAlike};

use pv_base::Failed;

/// Bytes that come from outside, each once.
pub trait Source {
    /// The bytes that are left to read, where they are known.
    ghost left: { Self → Option (List ℕ) };

    /// What the reads have given so far, one after another, where that is kept: it is, before a read and after it, where the bytes that are left aren't known.
    ghost given: { Self → Option (List ℕ) };

    /// How many calls have failed. It never falls, and no call that succeeds changes it; at u64's greatest value it stays.
    ghost faults: { Self → ℕ };

    /// Reads some of the bytes that are left to the front of `into`, and answers how many. `Ok(0)` for an `into` that
    /// isn't empty is the end of the input.
    fn read(&mut self, into: &mut [u8]) -> Result<usize, Failed>
        ensures bound { IfOk result (λ n. n ≤ length into.new) }
        ensures bytes { ReadConsumes (left self.old) (left self.new) result into.new }
        ensures known { KnownAlike (left self.old) (left self.new) }
        ensures given { WriteAppends (given self.old) (given self.new) result into.new }
        ensures kept { is_some (left self.old) ≡ false → (is_some (given self.old) ≡ true) × (is_some (given self.new) ≡ true) }
        ensures fault { FaultCounted (faults self.old) (faults self.new) result }
        ensures uncounted { OnOk result (faults self.new ≡ faults self.old) };
}
