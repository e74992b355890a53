// The worked examples end to end, and each way to end but for lack of memory and of too many bytes of messages.
use super::*;
use crate::bay_tests::bay_of;
use crate::worked_faults::{
    ARMED_TWICE, COMMIT, COMMIT_STOPS, Group, PROMISE, PROMISE_FAULTS, REFUSED_START,
    REFUSED_START_STOPS, SECOND_ARMS, START, START_STOPS,
};
use crate::worked_runs::{DOUBT, DOUBT_TRACE, RUNS};
use crate::worked_traces::{AUDITS, OUTBOXES, QUORUMS};
use pv_io::{MemSink, MemSource};
use std::process::Abort;
use std::test::Fail;

const FIRST: &str = "sites 1\nitem a 0 100\nsubmit 0 a := a + 1\npump\nreport\n";

const FIRST_OUTPUT: &str =
    "txn 0.1.0\ncommit 0.1.0 certain nothing\norder 0.1.0\ncommitted 0.1.0\nopen\nitem a 101\nend\n";

const OVERFLOW: &str = "sites 1\nitem a 0 9223372036854775807\nsubmit 0 a := a + 1\npump\nreport\n";

const OVERFLOW_OUTPUT: &str =
    "txn 0.1.0\ncommit 0.1.0 certain declined-overflow\norder 0.1.0\ncommitted 0.1.0\nopen\nitem a 9223372036854775807\nend\n";

// two items, a query, and each way to decline
const REPLIES: &str = "\
sites 1
item a 0 7
item b 0 2
submit 0 a := a - b; b := b * 3; return a
pump
query 0 return a - b
pump
submit 0 a := 0; require a > b
pump
submit 0 b := a / (b - 6)
pump
submit 0 b := 0; a := 9223372036854775807 + a
pump
report
";

const REPLIES_OUTPUT: &str = "\
txn 0.1.0
commit 0.1.0 certain 5
txn 0.1.1
commit 0.1.1 certain -1
txn 0.1.2
commit 0.1.2 certain declined-require
txn 0.1.3
commit 0.1.3 certain declined-zero-divisor
txn 0.1.4
commit 0.1.4 certain declined-overflow
order 0.1.0 0.1.1 0.1.2 0.1.3 0.1.4
committed 0.1.0 0.1.1 0.1.2 0.1.3 0.1.4
open
item a 5
item b 6
end
";

// two reports, the first before any request, and a request after the last
const REPORTS: &str =
    "sites 1\nitem a 0 -1\nreport\nsubmit 0 a := -a\npump\nreport\nsubmit 0 a := a + 1\npump\n";

const REPORTS_OUTPUT: &str =
    "order\ncommitted\nopen\nitem a -1\nend\ntxn 0.1.0\ncommit 0.1.0 certain nothing\norder 0.1.0\ncommitted 0.1.0\nopen\nitem a 1\nend\ntxn 0.1.1\ncommit 0.1.1 certain nothing\n";

const USAGE: &str =
    "usage: polydb run | json | make N | big N | live W | show | upgrade | trace | audit | outbox | quorum\n";

const FIRST_JSON: &str = "\
{\"txn\":\"0.1.0\"}
{\"commit\":\"0.1.0\",\"replies\":[\"nothing\"]}
{\"order\":[\"0.1.0\"]}
{\"committed\":[\"0.1.0\"]}
{\"open\":[]}
{\"cases\":[{\"value\":101,\"when\":[]}],\"item\":\"a\"}
{\"end\":true}
";

// Texts, with the status and the output of their run.
const TEXTS: &[(&str, Status, &str)] = &[
    (FIRST, Status::Done, FIRST_OUTPUT),
    (OVERFLOW, Status::Done, OVERFLOW_OUTPUT),
    (REPLIES, Status::Done, REPLIES_OUTPUT),
    (REPORTS, Status::Done, REPORTS_OUTPUT),
    ("sites 1\n", Status::Done, ""),
    ("", Status::Malformed, "line 1: sites expected\n"),
    (
        "sites 1\nitem a 0 1\nsubmit 0 a := c\n",
        Status::Malformed,
        "line 3: unknown name column 6\n",
    ),
    // What stands before a malformed line isn't run.
    (
        "sites 1\nstop 0\nfail 0 1 kept\nnothing\n",
        Status::Malformed,
        "line 4: unknown word\n",
    ),
];

// The same of `trace`: the lines of the schedule stand before what they print, without blanks at their ends.
const TRACE_TEXTS: &[(&str, Status, &str)] = &[
    (DOUBT, Status::Done, DOUBT_TRACE),
    (
        "# a comment\n\tsites 1 \n\ntick 0",
        Status::Done,
        "> sites 1\n> tick 0\n",
    ),
    (
        "sites 1\nreport\nitem a 0 1\n",
        Status::Malformed,
        "line 3: too late\n",
    ),
];

// The same of `json`.
const JSON_TEXTS: &[(&str, Status, &str)] = &[
    (FIRST, Status::Done, FIRST_JSON),
    ("", Status::Malformed, "line 1: sites expected\n"),
];

// Words that are no command.
const OTHER_WORDS: &[&[&str]] = &[
    &[],
    &["--help"],
    &["run", "7"],
    &["make"],
    &["big", "07"],
    &["big", "+7"],
    &["make", "2147483648"],
    &["show", "7"],
    &["upgrade", "7"],
    &["live"],
    &["live", "0"],
    &["live", "04"],
    &["live", "17"],
    &["live", "4", "4"],
];

// Which writes fail of a call with these words, and what is written before.
const WRITE_FAULTS: &[(&[&str], &[u64], &str)] = &[
    (&["run"], &[0], ""),
    (&["run"], &[1], "txn 0.1.0\n"),
    (&["--help"], &[0], ""),
];

// the status, and what was written, of a call over memory
pub(crate) fn call(
    rt: &(impl AllocGlobal + Threads + Wait + Sync),
    words: &[&str],
    input: &[u8],
    read_fails: &[u64],
    write_fails: &[u64],
) -> Result<(Status, Vec<u8>), Fail> {
    let alloc = rt.alloc();
    let mut list = Vec::new(alloc);
    for word in words {
        list.push(String::from_str(alloc, word)?)?;
    }
    let mut source = MemSource::new(input.to_vec(alloc)?, read_fails.to_vec(alloc)?);
    let mut sink = MemSink::new(alloc, write_fails.to_vec(alloc)?);
    let mut bay = bay_of(Vec::new(alloc))?;
    let status = polydb(
        rt,
        alloc,
        &list,
        &mut source,
        &mut sink,
        &mut bay,
        &IdleGate,
    );
    Ok((status, sink.bytes().to_vec(alloc)?))
}

// Asserts what is answered and written by a call that no fault ends.
fn assert_ends(
    rt: &(impl Abort + AllocGlobal + Threads + Wait + Sync),
    words: &[&str],
    input: &str,
    status: Status,
    output: &str,
) -> Result<(), Fail> {
    let (answered, written) = call(rt, words, input.as_bytes(), &[], &[])?;
    assert_eq!(rt; answered, status, "at {input}");
    assert_eq!(rt; written.as_slice(), output.as_bytes(), "at {input}");
    Ok(())
}

#[test]
fn each_text_has_its_answer(rt: HostRuntime) -> Result<(), Fail> {
    for (input, status, output) in TEXTS {
        assert_ends(&rt, &["run"], input, *status, output)?;
    }
    Ok(())
}

#[test]
fn each_run_of_many_sites_prints_its_lines(rt: HostRuntime) -> Result<(), Fail> {
    for (schedule, output) in RUNS {
        assert_ends(&rt, &["run"], schedule, Status::Done, output)?;
    }
    Ok(())
}

#[test]
fn each_run_with_a_stop_or_a_fault_in_a_call_prints_its_lines(rt: HostRuntime) -> Result<(), Fail> {
    assert_prints(&rt, &COMMIT, COMMIT_STOPS)?;
    assert_prints(&rt, &PROMISE, PROMISE_FAULTS)?;
    assert_prints(&rt, &START, START_STOPS)?;
    assert_prints(&rt, &REFUSED_START, REFUSED_START_STOPS)?;
    assert_prints(&rt, &ARMED_TWICE, SECOND_ARMS)
}

// Asserts what each schedule of a group prints, by the line that is its own.
fn assert_prints(
    rt: &(impl Abort + AllocGlobal + Threads + Wait + Sync),
    group: &Group,
    cases: &[(&str, &str)],
) -> Result<(), Fail> {
    for (line, output) in cases {
        let schedule = format!(in rt.alloc(); "{}{line}{}", group.before, group.after)?;
        assert_ends(rt, &["run"], schedule.as_str(), Status::Done, output)?;
    }
    Ok(())
}

#[test]
fn a_trace_has_each_line_before_what_it_printed(rt: HostRuntime) -> Result<(), Fail> {
    for (input, status, output) in TRACE_TEXTS {
        assert_ends(&rt, &["trace"], input, *status, output)?;
    }
    Ok(())
}

#[test]
fn each_trace_is_judged(rt: HostRuntime) -> Result<(), Fail> {
    for (input, status, output) in AUDITS {
        assert_ends(&rt, &["audit"], input, *status, output)?;
    }
    Ok(())
}

#[test]
fn each_script_of_an_outbox_prints_its_lines(rt: HostRuntime) -> Result<(), Fail> {
    for (input, output) in OUTBOXES {
        assert_ends(&rt, &["outbox"], input, Status::Done, output)?;
    }
    Ok(())
}

#[test]
fn each_script_of_deciders_prints_its_lines(rt: HostRuntime) -> Result<(), Fail> {
    for (input, output) in QUORUMS {
        assert_ends(&rt, &["quorum"], input, Status::Done, output)?;
    }
    Ok(())
}

#[test]
fn json_writes_each_line_as_an_object(rt: HostRuntime) -> Result<(), Fail> {
    for (input, status, output) in JSON_TEXTS {
        assert_ends(&rt, &["json"], input, *status, output)?;
    }
    Ok(())
}

// What the made schedule's run prints is counted by a script of the gate.
#[test]
fn a_made_schedule_is_written_and_summarized(rt: HostRuntime) -> Result<(), Fail> {
    let (status, made) = call(&rt, &["make", "7"], b"", &[0], &[])?;
    assert!(rt; status == Status::Done);
    assert!(rt; made.starts_with(b"sites 16\nitem i0 0 1000\n"));
    let (status, _) = call(&rt, &["make", "2147483647"], b"", &[0], &[])?;
    assert!(rt; status == Status::Done);
    let (status, summary) = call(&rt, &["big", "7"], b"", &[0], &[])?;
    assert!(rt; status == Status::Done);
    assert!(rt; summary.starts_with(b"events "));
    Ok(())
}

// The input isn't read, so its fault isn't met.
#[test]
fn other_words_are_answered_by_the_usage_line(rt: HostRuntime) -> Result<(), Fail> {
    for words in OTHER_WORDS {
        let (status, written) = call(&rt, words, FIRST.as_bytes(), &[0], &[])?;
        assert_eq!(rt; status, Status::Usage);
        assert_eq!(rt; written.as_slice(), USAGE.as_bytes());
    }
    Ok(())
}

#[test]
fn a_fault_of_the_input_leaves_the_output_empty(rt: HostRuntime) -> Result<(), Fail> {
    let (status, written) = call(&rt, &["run"], FIRST.as_bytes(), &[0], &[])?;
    assert!(rt; status == Status::ReadFault);
    assert!(rt; written.is_empty());
    Ok(())
}

#[test]
fn a_fault_of_the_output_leaves_a_beginning(rt: HostRuntime) -> Result<(), Fail> {
    for (words, fails, output) in WRITE_FAULTS {
        let (status, written) = call(&rt, words, FIRST.as_bytes(), &[], fails)?;
        assert_eq!(rt; status, Status::WriteFault);
        assert_eq!(rt; written.as_slice(), output.as_bytes());
    }
    Ok(())
}

#[test]
fn an_input_may_be_too_long(rt: HostRuntime) -> Result<(), Fail> {
    let alloc = rt.alloc();
    let input = vec![in alloc; b'#'; 16_777_217]?;
    let (status, written) = call(&rt, &["run"], &input, &[], &[])?;
    assert!(rt; status == Status::TooLong);
    assert!(rt; written.is_empty());
    let (status, written) = call(&rt, &["run"], &input[1..], &[], &[])?;
    assert!(rt; status == Status::Malformed);
    assert!(rt; written.as_slice() == b"line 2: sites expected\n".as_slice());
    Ok(())
}
