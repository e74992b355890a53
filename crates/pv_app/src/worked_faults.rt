// Worked runs in which a write or a sync stops a site or fails. The schedules of a group differ in one line, which arms a disk.

/// Schedules that differ in one line.
pub(crate) struct Group {
    /// The lines before that one.
    pub(crate) before: &'static str,
    /// The lines after it.
    pub(crate) after: &'static str,
}

/// The coordinator of a transfer has its last vote, and stops in one of the four calls that record its commit.
pub(crate) const COMMIT: Group = Group {
    before: "\
sites 2
item a 0 100
item b 1 50
submit 0 a := a - 10 ; b := b + 10
pump 7
",
    after: "\
deliver 7
start 0
report
tick 0
tick 1
tick 1
tick 1
pump
report
",
};

// The record is there: the transfer is committed, and site 1 hears of it when it asks.
const COMMITTED: &str = "\
txn 0.1.0
stopped 0
started 0 2
order 0.1.0
committed 0.1.0
open
item a 90
item b locked 0.1.0
end
order 0.1.0
committed 0.1.0
open
item a 90
item b 60
end
";

// The record isn't there: the transfer isn't committed. Both sites ask, and hear so.
const NOT_COMMITTED: &str = "\
txn 0.1.0
stopped 0
started 0 2
order 0.1.0
committed
open
item a 100 if -0.1.0 ; 90 if +0.1.0
item b locked 0.1.0
end
order 0.1.0
committed
open
item a 100
item b 50
end
";

/// Each way to stop there, with what is printed. The record is written by the first call and synced by the second; its gate is
/// opened by the third and synced by the fourth.
pub(crate) const COMMIT_STOPS: &[(&str, &str)] = &[
    ("cut 0 1 lost\n", NOT_COMMITTED),
    ("cut 0 1 kept\n", NOT_COMMITTED),
    ("cut 0 1 torn\n", NOT_COMMITTED),
    ("cut 0 2 lost\n", NOT_COMMITTED),
    ("cut 0 2 kept\n", NOT_COMMITTED),
    ("cut 0 2 torn\n", NOT_COMMITTED),
    ("cut 0 3 lost\n", NOT_COMMITTED),
    ("cut 0 3 kept\n", COMMITTED),
    ("cut 0 3 torn\n", NOT_COMMITTED),
    ("cut 0 4 lost\n", NOT_COMMITTED),
    ("cut 0 4 kept\n", COMMITTED),
    ("cut 0 4 torn\n", NOT_COMMITTED),
];

/// A call that opens the gate of a promise fails.
pub(crate) const PROMISE: Group = Group {
    before: "\
sites 2
item a 0 100
item b 1 50
submit 0 a := a - 10 ; b := b + 10
pump 5
",
    after: "\
deliver 5
start 1
report
",
};

// The promise is there, so the transfer is still open.
const PROMISED: &str = "\
txn 0.1.0
fault 1
started 1 2
order 0.1.0
committed
open 0.1.0
item a locked 0.1.0
item b 50 if -0.1.0 ; 60 if +0.1.0
end
";

// It isn't, and the grant is gone with the fault: the transfer can't commit any more.
const NOT_PROMISED: &str = "\
txn 0.1.0
fault 1
started 1 2
order 0.1.0
committed
open
item a locked 0.1.0
item b 50
end
";

/// What may be left of the open gate, with what is printed.
pub(crate) const PROMISE_FAULTS: &[(&str, &str)] = &[
    ("fail 1 3 kept\n", PROMISED),
    ("fail 1 3 lost\n", NOT_PROMISED),
];

/// A site that is down stops again in one of the five calls of its start, and is started once more: the sync before its log is
/// read, and the four that record its epoch.
pub(crate) const START: Group = Group {
    before: "\
sites 1
item a 0 7
stop 0
",
    after: "\
start 0
mend 0
start 0
report
",
};

// The epoch 2 isn't recorded, and is used.
const SECOND_EPOCH: &str = "\
stopped 0
stopped 0
started 0 2
order
committed
open
item a 7
end
";

// The epoch 2 is recorded, so it isn't used again.
const THIRD_EPOCH: &str = "\
stopped 0
stopped 0
started 0 3
order
committed
open
item a 7
end
";

// A call that fails takes the site down as a stop does.
const THIRD_EPOCH_BY_FAULT: &str = "\
stopped 0
fault 0
started 0 3
order
committed
open
item a 7
end
";

// The start makes no sixth call, so it isn't stopped.
const NOT_STOPPED: &str = "\
stopped 0
started 0 2
up 0
order
committed
open
item a 7
end
";

/// Each way to stop there, one way to fail, and one call too many, with what is printed.
pub(crate) const START_STOPS: &[(&str, &str)] = &[
    ("cut 0 1 lost\n", SECOND_EPOCH),
    ("cut 0 1 kept\n", SECOND_EPOCH),
    ("cut 0 1 torn\n", SECOND_EPOCH),
    ("cut 0 2 lost\n", SECOND_EPOCH),
    ("cut 0 2 kept\n", SECOND_EPOCH),
    ("cut 0 2 torn\n", SECOND_EPOCH),
    ("cut 0 3 lost\n", SECOND_EPOCH),
    ("cut 0 3 kept\n", SECOND_EPOCH),
    ("cut 0 3 torn\n", SECOND_EPOCH),
    ("cut 0 4 lost\n", SECOND_EPOCH),
    ("cut 0 4 kept\n", THIRD_EPOCH),
    ("cut 0 4 torn\n", SECOND_EPOCH),
    ("cut 0 5 lost\n", SECOND_EPOCH),
    ("cut 0 5 kept\n", THIRD_EPOCH),
    ("cut 0 5 torn\n", SECOND_EPOCH),
    ("fail 0 5 kept\n", THIRD_EPOCH_BY_FAULT),
    ("cut 0 6 kept\n", NOT_STOPPED),
];

/// A site that is down is started twice, and has no room for a third epoch: each start makes one call, the sync before its log is read.
pub(crate) const REFUSED_START: Group = Group {
    before: "\
sites 1
journal 32
stop 0
start 0
stop 0
",
    after: "\
start 0
start 0
",
};

// The first start stops in its sync, and the second is refused.
const STOPPED_AND_REFUSED: &str = "\
stopped 0
started 0 2
stopped 0
stopped 0
full 0 39
";

// The first start is refused, and the second stops in its sync.
const REFUSED_AND_STOPPED: &str = "\
stopped 0
started 0 2
stopped 0
full 0 39
stopped 0
";

/// Which of the two syncs stops the site, with what is printed.
pub(crate) const REFUSED_START_STOPS: &[(&str, &str)] = &[
    ("cut 0 1 lost\n", STOPPED_AND_REFUSED),
    ("cut 0 2 lost\n", REFUSED_AND_STOPPED),
];

/// A disk is armed twice before a promise and a commit, each of four calls.
pub(crate) const ARMED_TWICE: Group = Group {
    before: "\
sites 1
item a 0 100
cut 0 1 kept
",
    after: "\
submit 0 a := a + 1
pump
start 0
report
tick 0
pump
report
",
};

// Nothing is armed any more: the request commits.
const MENDED: &str = "\
txn 0.1.0
commit 0.1.0 certain nothing
up 0
order 0.1.0
committed 0.1.0
open
item a 101
end
order 0.1.0
committed 0.1.0
open
item a 101
end
";

// The fifth call fails, the first of the commit. After the restart the site asks itself, and answers that nothing was committed.
const FIFTH_CALL: &str = "\
txn 0.1.0
fault 0
started 0 2
order 0.1.0
committed
open
item a 100 if -0.1.0 ; 101 if +0.1.0
end
order 0.1.0
committed
open
item a 100
end
";

/// What the disk is armed with the second time, with what is printed: it takes the place of what was armed before.
pub(crate) const SECOND_ARMS: &[(&str, &str)] = &[
    ("mend 0\n", MENDED),
    ("fail 0 5 kept\n", FIFTH_CALL),
];
