// Which calls of an object in memory fail, and how many have.
ghost use Rattle.std.specs.Prelude.{◌≡◌, ◌↔◌, ◌≤◌, Contains, IsErr};
ghost use Rattle.pv_base.specs.Fault.{risen};
ghost use Rattle.pv_io.specs.Stream.{CountsFaults};

use pv_base::Failed;

/// Which calls fail, and how many came and failed so far. Calls are numbered from 0. Both counts stay at u64's greatest
/// value once they are there.
#[derive(Debug, Drop)]
pub(crate) struct FailPlan {
    /// The numbers of the calls that fail, in any order.
    pub(crate) fails: Vec<u64>,
    /// How many calls there were, which is the number of the next one.
    pub(crate) calls: u64,
    /// How many calls have failed.
    pub(crate) faults: u64,
}

impl FailPlan {
    /// A plan by which the calls with these numbers fail. There was no call so far.
    pub(crate) fn new(fails: Vec<u64>) -> Self
        ensures fails { result.fails.items ≡ fails.items }
        ensures calls { result.calls ≡ 0 }
        ensures faults { result.faults ≡ 0 }
    {
        FailPlan {
            fails,
            calls: 0,
            faults: 0,
        }
    }

    /// Counts a call, and answers whether it goes on or fails. Where it fails, the fault is counted too.
    pub(crate) fn begin_call(&mut self) -> Result<(), Failed>
        ensures fails { IsErr result ↔ Contains self.old.fails.items self.old.calls }
        ensures same { self.new.fails.items ≡ self.old.fails.items }
        ensures calls { self.new.calls ≡ risen self.old.calls }
        ensures faults { CountsFaults self.old.faults self.new.faults result }
        ensures never_falls { self.old.faults ≤ self.new.faults }
    {
        let fails = self.fails.contains(&self.calls);
        self.calls = self.calls.saturating_add(1);
        if fails {
            return Err(self.fault());
        }
        Ok(())
    }

    /// Counts a fault, also one that wasn't planned.
    pub(crate) fn fault(&mut self) -> Failed
        ensures same { self.new.fails.items ≡ self.old.fails.items }
        ensures calls { self.new.calls ≡ self.old.calls }
        ensures faults { self.new.faults ≡ risen self.old.faults }
        ensures never_falls { self.old.faults ≤ self.new.faults }
    {
        self.faults = self.faults.saturating_add(1);
        Failed
    }
}
