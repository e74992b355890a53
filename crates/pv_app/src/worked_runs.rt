// Worked runs of many sites: what each schedule prints.

// A transfer between two sites: all is delivered.
const TRANSFER: &str = "\
sites 2
item a 0 100
item b 1 50
submit 0 a := a - 10 ; b := b + 10
pump
sent
report
";

const TRANSFER_OUTPUT: &str = "\
txn 0.1.0
commit 0.1.0 certain nothing
sent 0 0>0 lock 0.1.0
sent 1 0>1 lock 0.1.0
sent 2 0>0 granted 0.1.0
sent 3 1>0 granted 0.1.0
sent 4 0>0 prepare 0.1.0
sent 5 0>1 prepare 0.1.0
sent 6 0>0 yes 0.1.0
sent 7 1>0 yes 0.1.0
sent 8 0>1 outcome 0.1.0
order 0.1.0
committed 0.1.0
open
item a 90
item b 60
end
";

/// The outcome doesn't reach site 1, which shows both values then.
pub(crate) const DOUBT: &str = "\
sites 2
item a 0 100
item b 1 50
submit 0 a := a - 10 ; b := b + 10
pump 8
lose 8
tick 1
tick 1
tick 1
lose 9
report
lose 10
";

const DOUBT_OUTPUT: &str = "\
txn 0.1.0
commit 0.1.0 certain nothing
order 0.1.0
committed 0.1.0
open
item a 90
item b 50 if -0.1.0 ; 60 if +0.1.0
end
no message 10
";

/// Its trace.
pub(crate) const DOUBT_TRACE: &str = "\
> sites 2
> item a 0 100
> item b 1 50
> submit 0 a := a - 10 ; b := b + 10
txn 0.1.0
> pump 8
commit 0.1.0 certain nothing
> lose 8
> tick 1
> tick 1
> tick 1
> lose 9
> report
order 0.1.0
committed 0.1.0
open
item a 90
item b 50 if -0.1.0 ; 60 if +0.1.0
end
> lose 10
no message 10
";

// A transaction reads the doubtful value and commits; then the lost outcome comes, twice.
const DOUBT_READ: &str = "\
sites 2
item a 0 100
item b 1 50
submit 0 a := a - 10 ; b := b + 10
pump 8
lose 8
tick 1
tick 1
tick 1
lose 9
report
submit 1 b := b * 2
pump
report
deliver 8
report
deliver 8
report
";

const DOUBT_READ_OUTPUT: &str = "\
txn 0.1.0
commit 0.1.0 certain nothing
order 0.1.0
committed 0.1.0
open
item a 90
item b 50 if -0.1.0 ; 60 if +0.1.0
end
txn 1.1.0
commit 1.1.0 certain nothing
order 0.1.0 1.1.0
committed 0.1.0 1.1.0
open
item a 90
item b 100 if -0.1.0 ; 120 if +0.1.0
end
order 0.1.0 1.1.0
committed 0.1.0 1.1.0
open
item a 90
item b 120
end
order 0.1.0 1.1.0
committed 0.1.0 1.1.0
open
item a 90
item b 120
end
";

// Queries of a doubtful value: one has a certain answer, one has two possible answers.
const DOUBT_ASKED: &str = "\
sites 2
item a 0 100
item b 1 50
submit 0 a := a - 10 ; b := b + 10
pump 8
lose 8
tick 1
tick 1
tick 1
lose 9
report
query 1 return b >= 40
pump
query 1 return b
pump
";

const DOUBT_ASKED_OUTPUT: &str = "\
txn 0.1.0
commit 0.1.0 certain nothing
order 0.1.0
committed 0.1.0
open
item a 90
item b 50 if -0.1.0 ; 60 if +0.1.0
end
txn 1.1.0
commit 1.1.0 certain 1
txn 1.1.1
commit 1.1.1 possible 50 60
";

// An item that has to be certain, and isn't where its site hasn't heard the outcome.
const CERTAIN: &str = "\
sites 2
item a 0 100
item b 1 50
submit 0 a := a - 10 ; b := b + 10
pump 8
lose 8
tick 1
tick 1
tick 1
lose 9
report
submit 1 require certain b ; b := b + 1
pump
deliver 8
submit 1 require certain b ; b := b + 1
pump
report
";

const CERTAIN_OUTPUT: &str = "\
txn 0.1.0
commit 0.1.0 certain nothing
order 0.1.0
committed 0.1.0
open
item a 90
item b 50 if -0.1.0 ; 60 if +0.1.0
end
txn 1.1.0
refuse 1.1.0 uncertain b 1
txn 1.1.1
commit 1.1.1 certain nothing
order 0.1.0 1.1.1
committed 0.1.0 1.1.1
open
item a 90
item b 61
end
";

// The same, asked for at the site that knows the outcome: there it is certain.
const CERTAIN_HERE: &str = "\
sites 2
item a 0 100
item b 1 50
submit 0 a := a - 10 ; b := b + 10
pump 8
lose 8
tick 1
tick 1
tick 1
lose 9
submit 0 require certain b ; b := b + 1
pump
report
";

const CERTAIN_HERE_OUTPUT: &str = "\
txn 0.1.0
commit 0.1.0 certain nothing
txn 0.1.1
commit 0.1.1 certain nothing
order 0.1.0 0.1.1
committed 0.1.0 0.1.1
open
item a 90
item b 61
end
";

// Two requests for one item: the second is refused.
const CONFLICT: &str = "\
sites 1
item a 0 5
submit 0 a := a + 1
submit 0 a := a + 2
pump
report
";

const CONFLICT_OUTPUT: &str = "\
txn 0.1.0
txn 0.1.1
refuse 0.1.1 conflict 0 a 0.1.0
commit 0.1.0 certain nothing
order 0.1.0
committed 0.1.0
open
item a 6
end
";

// A participant ends its grant unprepared, while another one, prepared, shows both values.
const GRANT_ENDS: &str = "\
sites 3
item a 0 100
item b 1 50
submit 2 a := a - 10 ; b := b + 10
pump 5
report
tick 1
tick 1
tick 1
tick 0
tick 0
tick 0
report
pump
report
";

const GRANT_ENDS_OUTPUT: &str = "\
txn 2.1.0
order 2.1.0
committed
open 2.1.0
item a locked 2.1.0
item b locked 2.1.0
end
order 2.1.0
committed
open
item a 100 if -2.1.0 ; 90 if +2.1.0
item b 50
end
refuse 2.1.0 grant-lost 1
order 2.1.0
committed
open
item a 100
item b 50
end
";

// A lock message comes again after a restart, and then the old request for a vote: that grant is lost.
const OLD_PREPARE: &str = "\
sites 2
item a 0 100
item b 1 50
submit 0 a := a - 10 ; b := b + 10
pump 4
stop 1
start 1
deliver 1
deliver 5
deliver 7
pump
report
";

const OLD_PREPARE_OUTPUT: &str = "\
txn 0.1.0
stopped 1
started 1 2
refuse 0.1.0 grant-lost 1
order 0.1.0
committed
open
item a 100
item b 50
end
";

// Twelve transactions in doubt over one item; a thirteenth would read twelve outcomes, which is one too many.
const TOO_MANY_OUTCOMES: &str = "\
sites 2
item x 1 0
submit 0 x := x + 1
pump 3
drop 0
tick 1
tick 1
tick 1
drop 0
submit 0 x := x + 1
pump 3
drop 0
tick 1
tick 1
tick 1
drop 0
submit 0 x := x + 1
pump 3
drop 0
tick 1
tick 1
tick 1
drop 0
submit 0 x := x + 1
pump 3
drop 0
tick 1
tick 1
tick 1
drop 0
submit 0 x := x + 1
pump 3
drop 0
tick 1
tick 1
tick 1
drop 0
submit 0 x := x + 1
pump 3
drop 0
tick 1
tick 1
tick 1
drop 0
submit 0 x := x + 1
pump 3
drop 0
tick 1
tick 1
tick 1
drop 0
submit 0 x := x + 1
pump 3
drop 0
tick 1
tick 1
tick 1
drop 0
submit 0 x := x + 1
pump 3
drop 0
tick 1
tick 1
tick 1
drop 0
submit 0 x := x + 1
pump 3
drop 0
tick 1
tick 1
tick 1
drop 0
submit 0 x := x + 1
pump 3
drop 0
tick 1
tick 1
tick 1
drop 0
submit 0 x := x + 1
pump 3
drop 0
tick 1
tick 1
tick 1
drop 0
submit 0 x := x + 1
pump 2
pump
total
";

const TOO_MANY_OUTCOMES_OUTPUT: &str = "\
txn 0.1.0
txn 0.1.1
txn 0.1.2
txn 0.1.3
txn 0.1.4
txn 0.1.5
txn 0.1.6
txn 0.1.7
txn 0.1.8
txn 0.1.9
txn 0.1.10
txn 0.1.11
txn 0.1.12
refuse 0.1.12 outcome-limit 12
total possible 0 1 2 3 4 5 6 7 8 9 10 11 12
";

// A divisor in doubt: one of the possible replies declines.
const MAY_DECLINE: &str = "\
sites 2
item a 1 10
item c 1 0
submit 0 c := 2
pump 3
drop 0
tick 1
tick 1
tick 1
drop 0
submit 1 a := a / c
pump
report
";

const MAY_DECLINE_OUTPUT: &str = "\
txn 0.1.0
txn 1.1.0
commit 1.1.0 possible declined-zero-divisor nothing
order 0.1.0 1.1.0
committed 1.1.0
open 0.1.0
item a 10 if -0.1.0 ; 5 if +0.1.0
item c 0 if -0.1.0 ; 2 if +0.1.0
end
";

// A message that was never sent, and one that comes twice more.
const REPEATED: &str = "\
sites 2
item a 0 100
item b 1 50
submit 0 a := a - 10 ; b := b + 10
pump
report
deliver 99
deliver 3
deliver 3
report
";

const REPEATED_OUTPUT: &str = "\
txn 0.1.0
commit 0.1.0 certain nothing
order 0.1.0
committed 0.1.0
open
item a 90
item b 60
end
no message 99
order 0.1.0
committed 0.1.0
open
item a 90
item b 60
end
";

// A journal without room for what has to be promised.
const FULL_JOURNAL: &str = "\
sites 1
journal 64
item a 0 100
submit 0 a := a + 1
pump
report
";

const FULL_JOURNAL_OUTPUT: &str = "\
txn 0.1.0
refuse 0.1.0 journal-full 0 66
full 0 66
order 0.1.0
committed
open
item a locked 0.1.0
end
";

// A journal without room for one more epoch.
const FULL_AT_START: &str = "\
sites 1
journal 32
stop 0
start 0
stop 0
start 0
";

const FULL_AT_START_OUTPUT: &str = "\
stopped 0
started 0 2
stopped 0
full 0 39
";

// A lock message is dropped: the coordinator waits for three ticks.
const SILENT: &str = "\
sites 2
item a 0 100
item b 1 50
submit 0 a := a - 10 ; b := b + 10
drop 1
pump
tick 0
tick 0
tick 0
report
";

const SILENT_OUTPUT: &str = "\
txn 0.1.0
refuse 0.1.0 expired 1
order
committed
open
item a 100
item b 50
end
";

/// Each schedule with what it prints.
pub(crate) const RUNS: &[(&str, &str)] = &[
    (TRANSFER, TRANSFER_OUTPUT),
    (DOUBT, DOUBT_OUTPUT),
    (DOUBT_READ, DOUBT_READ_OUTPUT),
    (DOUBT_ASKED, DOUBT_ASKED_OUTPUT),
    (CERTAIN, CERTAIN_OUTPUT),
    (CERTAIN_HERE, CERTAIN_HERE_OUTPUT),
    (CONFLICT, CONFLICT_OUTPUT),
    (GRANT_ENDS, GRANT_ENDS_OUTPUT),
    (OLD_PREPARE, OLD_PREPARE_OUTPUT),
    (TOO_MANY_OUTCOMES, TOO_MANY_OUTCOMES_OUTPUT),
    (MAY_DECLINE, MAY_DECLINE_OUTPUT),
    (REPEATED, REPEATED_OUTPUT),
    (FULL_JOURNAL, FULL_JOURNAL_OUTPUT),
    (FULL_AT_START, FULL_AT_START_OUTPUT),
    (SILENT, SILENT_OUTPUT),
];
