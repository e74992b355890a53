// Which calls of a memory disk fail.
ghost use Rattle.std.specs.Prelude.{◌≡◌, None};
ghost use Rattle.pv_disk.specs.MemDisk.{ArmsState, firing, counted, read_fails, fail_read_after};

use pv_base::Mode;
use std::marker::Model;

/// That a write or a sync fires.
#[derive(Clone, Copy, Debug, PartialEq, Eq)]
pub(crate) struct Arm {
    /// It is the one with this number from now on, counted from 1.
    left: u32,
    /// What it leaves.
    mode: Mode,
    /// Whether it stands for a stop of the site, and not for a fault of the disk.
    stop: bool,
}

/// Which calls of a memory disk fail, and how many writes and syncs were called.
#[derive(Debug, Drop)]
pub(crate) struct Arms {
    /// The write or sync that fires.
    armed: Option<Arm>,
    /// The kind of the last one that fired.
    fired: Option<bool>,
    /// How many reads come before one that fails.
    fail_read: Option<u64>,
    /// How many writes and syncs were called, up to u64's greatest value.
    calls: u64,
}

impl Model for Arms {
    ghost use Rattle.pv_disk.specs.MemDisk.{ArmsState};

    ghost Value = { ArmsState };

    ghost view = { λ s. record { armed = s.armed; fired = s.fired; fail_read = s.fail_read; calls = s.calls } };
}

impl Arms {
    /// No call fails, and there was none.
    pub(crate) fn new() -> Self
        ensures { result ≡ record { armed = None; fired = None; fail_read = None; calls = 0 } }
    {
        Arms {
            armed: None,
            fired: None,
            fail_read: None,
            calls: 0,
        }
    }

    /// Lets the `k`-th write or sync from now on fire.
    pub(crate) fn arm(&mut self, k: u32, mode: Mode, stop: bool)
        ensures { self.new ≡ record self.old { armed = Some (record { left = k; mode = mode; stop = stop }); fired = None } }
    {
        self.armed = Some(Arm {
            left: k,
            mode,
            stop,
        });
        self.fired = None;
    }

    /// Lets none fire.
    pub(crate) fn mend(&mut self)
        ensures { self.new ≡ record self.old { armed = None; fired = None } }
    {
        self.armed = None;
        self.fired = None;
    }

    /// Lets a read fail, after `n` others.
    pub(crate) fn fail_read(&mut self, n: u64)
        ensures { self.new ≡ record self.old { fail_read = Some n } }
    {
        self.fail_read = Some(n);
    }

    /// The kind of the one that fired since the last `arm` or `mend`.
    pub(crate) fn fired(&self) -> Option<bool>
        ensures { result ≡ self.now.fired }
    {
        self.fired
    }

    /// How many writes and syncs were called.
    pub(crate) fn calls(&self) -> u64
        ensures { result ≡ self.now.calls }
    {
        self.calls
    }

    /// Counts a write or a sync, and answers how it fires, if it does.
    pub(crate) fn count_change(&mut self) -> Option<Mode>
        ensures fires { result ≡ firing self.old.armed }
        ensures counted { self.new ≡ counted self.old }
    {
        self.calls = self.calls.saturating_add(1);
        let arm = self.armed?;
        if arm.left <= 1 {
            self.armed = None;
            self.fired = Some(arm.stop);
            return Some(arm.mode);
        }
        self.armed = Some(Arm {
            left: arm.left - 1,
            ..arm
        });
        None
    }

    /// Counts a read, and answers whether it fails.
    pub(crate) fn count_read(&mut self) -> bool
        ensures fails { result ≡ read_fails self.old.fail_read }
        ensures counted { self.new ≡ record self.old { fail_read = fail_read_after self.old.fail_read } }
    {
        let Some(left) = self.fail_read else {
            return false;
        };
        if left == 0 {
            self.fail_read = None;
            return true;
        }
        self.fail_read = Some(left - 1);
        false
    }
}
