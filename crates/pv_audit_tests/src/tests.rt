// What no clause says: that traces are read, and each cause once, at its edge. The texts were worked out from the rules, apart from the program.
use pv_audit::{Trace, TraceError, read_trace};
use pv_script::{Event, Line, LineCause, MAX_SCHEDULE};
use std::process::Abort;

// A transfer whose outcome doesn't reach the second site.
const IN_DOUBT: &str =
    "> sites 2\n> item a 0 100\n> item b 1 50\n> submit 0 a := a - 10 ; b := b + 10\ntxn 0.1.0\n> pump 8\ncommit 0.1.0 certain nothing\n> lose 8\n> tick 1\n> report\norder 0.1.0\ncommitted 0.1.0\nopen\nitem a 90\nitem b 50 if -0.1.0 ; 60 if +0.1.0\nend\n";

// Every kind of printed line, but those of a report.
const EACH_LINE: &str =
    "> sites 2\n> item a 0 100\n> # nothing\n>  \n> submit 0 a := a + 1\r\nrefuse 0.0.0 conflict 1 a 255.4294967295.4294967295\r\n> pump\nrefuse 0.0.0 outcome-limit 12\nrefuse 0.0.0 uncertain a 1\nrefuse 0.0.0 expired 1\nrefuse 0.0.0 grant-lost 255\nrefuse 0.0.0 journal-full 1 18446744073709551615\ncommit 0.0.0 certain -1\ncommit 0.0.0 possible nothing declined-require declined-overflow declined-zero-divisor\ncommit 0.0.0 possible\nfull 0 1\nspent 1\ndown 0\nup 1\nstopped 0\nfault 1\nstarted 0 4294967295\nno message 0\nsent 7 0>1 lock 0.0.0\nsent 8 1>0 ask 0.0.0\n> total\ntotal certain -170141183460469231731687303715884105728\ntotal possible\ntotal locked a\ntotal down 255\ntotal outcome-limit 0\n> report\norder\ncommitted\nopen 0.0.0 0.0.1\nitem a locked 0.0.0\nend";

// Texts that are no traces, with the line at fault, where the cause is that the text is none.
const NO_TRACES: &[(&str, u32)] = &[
    // What stands before the first event.
    ("end", 1),
    ("> sites 1\n\n> report\norder", 2),
    // What isn't printed so.
    ("> sites 1\n> tick 0\n down 0", 3),
    ("> sites 1\n> tick 0\ndown 0 ", 3),
    ("> sites 1\n> tick 0\ndown  0", 3),
    ("> sites 1\n> tick 0\ndown 00", 3),
    ("> sites 1\n> tick 0\ndown 256", 3),
    ("> sites 1\n> tick 0\ndown", 3),
    ("> sites 1\n> tick 0\nDown 0", 3),
    ("> sites 1\n> tick 0\n>sites 1", 3),
    ("> sites 1\n> pump\ncommit 0.0.0 certain", 3),
    ("> sites 1\n> pump\ncommit 0.0.0 possible 1", 3),
    ("> sites 1\n> pump\ncommit 0.0.0 certain +1", 3),
    ("> sites 1\n> pump\ncommit 0.0.0 certain -0", 3),
    (
        "> sites 1\n> pump\ncommit 0.0.0 certain 9223372036854775808",
        3,
    ),
    ("> sites 1\n> pump\ncommit 0.00.0 certain 1", 3),
    ("> sites 1\n> pump\ncommit 0.0.4294967296 certain 1", 3),
    (
        "> sites 1\n> total\ntotal certain 170141183460469231731687303715884105728",
        3,
    ),
    ("> sites 1\n> total\ntotal locked a", 3),
    (
        "> sites 1\n> sent\nsent 18446744073709551616 0>0 lock 0.0.0",
        3,
    ),
    ("> sites 1\n> sent\nsent 1 0>0 unlock 0.0.0", 3),
    // A request has one line.
    ("> sites 1\n> item a 0 1\n> submit 0 a := 1", 3),
    (
        "> sites 1\n> item a 0 1\n> query 0 return a\ntxn 0.0.0\nend",
        3,
    ),
    ("> sites 1\n> item a 0 1\n> submit 0 a := 1\nwhat", 4),
    // A report has its lines.
    ("> sites 1\n> report\norder\ncommitted\nopen", 2),
    (
        "> sites 1\n> item a 0 1\n> report\norder\ncommitted\nopen\nend",
        3,
    ),
    (
        "> sites 1\n> report\norder\ncommitted\nopen\nitem a 1\nend",
        2,
    ),
    (
        "> sites 1\n> item a 0 1\n> report\norder\ncommitted\nopen\nitem a 01\nend",
        3,
    ),
    (
        "> sites 1\n> item a 0 1\n> report\norder\ncommitted\nopen\nitem a 1 if +0.0.0\nend",
        3,
    ),
    (
        "> sites 1\n> item a 0 1\n> report\norder\ncommitted\nopen\nitem a 1 if -0.0.0 ; 1 if +0.0.0\nend",
        3,
    ),
    (
        "> sites 1\n> item a 0 1\n> report\norder\ncommitted\nopen\nitem a 1 if +0.0.0 ; 2 if -0.0.0\nend",
        3,
    ),
];

// The answer to a text.
fn read(rt: &(impl Abort + AllocGlobal), text: &str) -> Result<Trace, TraceError> {
    if text.len() > MAX_SCHEDULE {
        panic!(rt; "too long a text");
    }
    read_trace(rt.alloc(), text.as_bytes())
}

// Asserts that the text is a trace of so many events.
fn assert_read(rt: &(impl Abort + AllocGlobal), text: &str, events: usize) {
    match read(rt, text) {
        Ok(trace) => assert_eq!(rt; trace.parts.len(), events),
        Err(TraceError::Malformed { line, cause }) => panic!(rt; "line {line}: {cause}"),
        Err(TraceError::NoMemory) => panic!(rt; "no memory"),
    }
}

// Asserts that this line of the text has this cause.
fn assert_refused(rt: &(impl Abort + AllocGlobal), text: &str, wanted: u32, cause: LineCause) {
    match read(rt, text) {
        Ok(_) => panic!(rt; "read, and not refused at line {wanted}"),
        Err(error) => assert!(rt;
            error
                == TraceError::Malformed {
                    line: wanted,
                    cause
                }
        ),
    }
}

#[test]
fn a_trace_is_read(rt: HostRuntime) {
    match read(&rt, IN_DOUBT) {
        Ok(trace) => {
            assert!(rt; trace.catalog.len() == 2);
            match trace.parts.as_slice() {
                [submit, _, _, _, report] => {
                    assert!(rt; matches!(submit.event, Event::Submit { .. }));
                    assert!(rt; matches!(submit.lines.as_slice(), [Line::Txn(_)]));
                    assert!(rt; matches!(report.event, Event::Report));
                    assert!(rt; report.lines.len() == 6);
                },
                _ => panic!(rt; "other events"),
            }
        },
        Err(_) => panic!(rt; "no trace"),
    }
}

#[test]
fn each_line_is_read(rt: HostRuntime) {
    assert_read(&rt, EACH_LINE, 4);
    assert_read(&rt, "> sites 1", 0);
    assert_read(&rt, "> sites 1\n> tick 0\n", 1);
}

#[test]
fn texts_are_no_traces(rt: HostRuntime) {
    for (text, line) in NO_TRACES {
        assert_refused(&rt, text, *line, LineCause::NotATrace);
    }
}

#[test]
fn causes_of_schedules_stay(rt: HostRuntime) {
    assert_refused(&rt, "", 1, LineCause::SitesExpected);
    assert_refused(&rt, "> # nothing\n>  ", 3, LineCause::SitesExpected);
    assert_refused(&rt, "> sites 1\n> tick 1\ndown 00", 2, LineCause::BadNumber);
    assert_refused(
        &rt,
        "> sites 1\n> tick 0\ndown 00\n> tick 1",
        3,
        LineCause::NotATrace,
    );
}
