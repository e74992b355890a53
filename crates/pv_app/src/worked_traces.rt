// Worked traces, with what an audit finds of each, and worked scripts of outboxes and of deciders, with what they print.
use pv_run::Status;

// The trace of a transfer whose outcome doesn't reach site 1.
const DOUBT: &str = "\
> sites 2
> item a 0 100
> item b 1 50
> submit 0 a := a - 10 ; b := b + 10
txn 0.1.0
> pump 8
commit 0.1.0 certain nothing
> lose 8
> tick 1
> tick 1
> tick 1
> lose 9
> report
order 0.1.0
committed 0.1.0
open
item a 90
item b 50 if -0.1.0 ; 60 if +0.1.0
end
";

// In its last item line 60 is 61.
const DOUBT_CHANGED: &str = "\
> sites 2
> item a 0 100
> item b 1 50
> submit 0 a := a - 10 ; b := b + 10
txn 0.1.0
> pump 8
commit 0.1.0 certain nothing
> lose 8
> tick 1
> tick 1
> tick 1
> lose 9
> report
order 0.1.0
committed 0.1.0
open
item a 90
item b 50 if -0.1.0 ; 61 if +0.1.0
end
";

// The trace of a transfer whose grant at site 1 has ended.
const GRANT_ENDS: &str = "\
> sites 3
> item a 0 100
> item b 1 50
> submit 2 a := a - 10 ; b := b + 10
txn 2.1.0
> pump 5
> report
order 2.1.0
committed
open 2.1.0
item a locked 2.1.0
item b locked 2.1.0
end
> tick 1
> tick 1
> tick 1
> tick 0
> tick 0
> tick 0
> report
order 2.1.0
committed
open
item a 100 if -2.1.0 ; 90 if +2.1.0
item b 50
end
> pump
refuse 2.1.0 grant-lost 1
> report
order 2.1.0
committed
open
item a 100
item b 50
end
";

// Its second report says that it is still open.
const GRANT_ENDS_OPEN: &str = "\
> sites 3
> item a 0 100
> item b 1 50
> submit 2 a := a - 10 ; b := b + 10
txn 2.1.0
> pump 5
> report
order 2.1.0
committed
open 2.1.0
item a locked 2.1.0
item b locked 2.1.0
end
> tick 1
> tick 1
> tick 1
> tick 0
> tick 0
> tick 0
> report
order 2.1.0
committed
open 2.1.0
item a 100 if -2.1.0 ; 90 if +2.1.0
item b 50
end
> pump
refuse 2.1.0 grant-lost 1
> report
order 2.1.0
committed
open
item a 100
item b 50
end
";

/// Traces and texts that are none, each with how an audit ends and what it writes.
pub(crate) const AUDITS: &[(&str, Status, &str)] = &[
    (DOUBT, Status::Done, "yes 1\n"),
    (DOUBT_CHANGED, Status::Refuted, "no 1 item b\n"),
    (GRANT_ENDS, Status::Done, "yes 3\n"),
    (GRANT_ENDS_OPEN, Status::Refuted, "no 2 item b 2.1.0\n"),
    (
        "> sites 1\n> tick 0\nno line\n",
        Status::Malformed,
        "line 3: not a trace\n",
    ),
    ("sites 1\n", Status::Malformed, "line 1: not a trace\n"),
    ("", Status::Malformed, "line 1: sites expected\n"),
];

// An output is released when its condition has become certain.
const CERTAIN: &str = "\
hold 1 0 if -0.1.0 ; 1 if +0.1.0
hold 2 1
take
learn 0.1.0 yes
take
take
";

// The record of a release stands though its call stopped.
const KEPT: &str = "\
hold 1 1
cut 4 kept
take
start
take
";

// It doesn't, and the output is released.
const LOST: &str = "\
hold 1 1
cut 4 lost
take
start
take
";

/// Scripts of outboxes, each with what it prints.
pub(crate) const OUTBOXES: &[(&str, &str)] = &[
    (
        CERTAIN,
        "held 1\nheld 2\nout 2\nlearnt 0.1.0\nout 1\nnone\n",
    ),
    (KEPT, "held 1\nstopped\nstarted\nnone\n"),
    (LOST, "held 1\nstopped\nstarted\nout 1\n"),
];

const DECIDED: &str = "\
deciders 3
propose 0 0.1.0 yes
pump
propose 1 0.1.0 no
pump
";

const DECIDED_OUTPUT: &str = "\
decided 0 0.1.0 yes
decided 1 0.1.0 yes
";

const DECIDED_LATER: &str = "\
deciders 3
propose 0 0.1.0 yes
pump 2
propose 2 0.1.0 no
pump
";

const DECIDED_LATER_OUTPUT: &str = "\
decided 2 0.1.0 yes
";

/// Scripts of deciders, each with what it prints.
pub(crate) const QUORUMS: &[(&str, &str)] = &[
    (DECIDED, DECIDED_OUTPUT),
    (DECIDED_LATER, DECIDED_LATER_OUTPUT),
];
