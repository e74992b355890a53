// What no clause says: that calls succeed, what texts say to one who reads them, and how a refusal is printed.
use pv_base::{ItemId, MAX_JOURNAL, SiteId};
use pv_script::{
    CatalogText, Event, LineCause, MAX_SCHEDULE, Schedule, ScriptError, make, read_schedule,
};
use std::process::Abort;
use std::test::Fail;

// Texts that are refused, with the line at fault and its first cause, as they are printed.
const REFUSED: &[(&str, &str)] = &[
    // Lines, and what they may hold.
    ("\n# one\nsites 1\n\n\nitem a 1 5\n", "line 6: bad number"),
    ("sites 1\n\r\n\r \nreport", "line 3: not text"),
    ("sites 1\nreport \x7f", "line 2: not text"),
    // What stands before `sites`, or in its place.
    ("", "line 1: sites expected"),
    ("# one\n\n", "line 3: sites expected"),
    ("item a 0 1", "line 1: sites expected"),
    ("what", "line 1: sites expected"),
    ("sites", "line 1: wrong count"),
    ("sites 17", "line 1: bad number"),
    ("sites 0", "line 1: bad number"),
    ("sites 18446744073709551617", "line 1: bad number"),
    ("sites 1\nsites", "line 2: twice"),
    // Declarations.
    ("sites 1\njournal 31", "line 2: bad number"),
    ("sites 1\njournal 4294967297", "line 2: bad number"),
    ("sites 1\njournal 32\njournal", "line 3: twice"),
    ("sites 1\nreport\njournal", "line 3: too late"),
    ("sites 1\njournal 32\nreport\njournal 32", "line 4: twice"),
    ("sites 1\npump\nitem a 0 1", "line 3: too late"),
    ("sites 1\nitem a 0", "line 2: wrong count"),
    ("sites 1\nitem a 0 1 2", "line 2: wrong count"),
    ("sites 1\nitem A 1 1", "line 2: bad number"),
    (
        "sites 1\nitem a 0 9223372036854775808",
        "line 2: bad number",
    ),
    ("sites 1\nitem a 0 +1", "line 2: bad number"),
    ("sites 1\nitem a 0 -", "line 2: bad number"),
    ("sites 1\nitem A 0 1", "line 2: bad name"),
    ("sites 1\nitem min 0 1", "line 2: bad name"),
    ("sites 1\nitem abcdefghijklmnopq 0 1", "line 2: bad name"),
    ("sites 1\nitem a 0 1\nitem a 0 2", "line 3: name taken"),
    // Commands but requests.
    ("sites 2\nwhat", "line 2: unknown word"),
    ("sites 2\npump 0", "line 2: bad number"),
    ("sites 2\npump 1000001", "line 2: bad number"),
    ("sites 2\npump 1 1", "line 2: wrong count"),
    ("sites 2\ndeliver", "line 2: wrong count"),
    ("sites 2\nlose 18446744073709551616", "line 2: bad number"),
    ("sites 2\ntick 2", "line 2: bad number"),
    ("sites 2\ndrop x", "line 2: bad number"),
    ("sites 2\nsent 1", "line 2: wrong count"),
    ("sites 2\ncut 0 1 gone", "line 2: bad mode"),
    ("sites 2\ncut 0 1001 gone", "line 2: bad number"),
    ("sites 2\nfail 2 1 lost", "line 2: bad number"),
    ("sites 2\nfail 1 1", "line 2: wrong count"),
    // Requests.
    (
        "sites 1\nitem a 0 1\nitem b 0 1\nsubmit 0",
        "line 4: wrong count",
    ),
    (
        "sites 1\nitem a 0 1\nitem b 0 1\nquery",
        "line 4: wrong count",
    ),
    (
        "sites 1\nitem a 0 1\nitem b 0 1\nsubmit 1 a := ",
        "line 4: bad number",
    ),
    (
        "sites 1\nitem a 0 1\nitem b 0 1\nsubmit 0 a := ",
        "line 4: program column 5",
    ),
    (
        "sites 1\nitem a 0 1\nitem b 0 1\nsubmit 0  c := 1",
        "line 4: unknown name column 1",
    ),
    (
        "sites 1\nitem a 0 1\nitem b 0 1\nquery 0 return (((((((((((((((((((((((((((((((((( a",
        "line 4: too deep column 41",
    ),
    (
        "sites 1\nitem a 0 1\nitem b 0 1\nsubmit 0 return 1",
        "line 4: names no item",
    ),
    (
        "sites 1\nitem a 0 1\nitem b 0 1\nquery 0 a := 1 ; return a",
        "line 4: query assigns",
    ),
    (
        "sites 1\nitem a 0 1\nitem b 0 1\nquery 0 require a",
        "line 4: no return",
    ),
    (
        "sites 1\nitem a 0 1\nitem b 0 1\nitem c 0 1\nitem d 0 1\nitem e 0 1\nitem f 0 1\nitem g 0 1\nitem h 0 1\nitem i 0 1\nitem j 0 1\nitem k 0 1\nitem l 0 1\nitem m 0 1\nitem n 0 1\nitem o 0 1\nitem p 0 1\nitem q 0 1\nquery 0 a := a + b + c + d + e + f + g + h + i + j + k + l + m + n + o + p + q",
        "line 19: too many names 17",
    ),
];

// The answer to a text.
fn read(rt: &(impl Abort + AllocGlobal), text: &[u8]) -> Result<Schedule, ScriptError> {
    if text.len() > MAX_SCHEDULE {
        panic!(rt; "too long a text");
    }
    read_schedule(rt.alloc(), text)
}

// The schedule of a text.
fn schedule(rt: &(impl Abort + AllocGlobal), text: &[u8]) -> Schedule {
    match read(rt, text) {
        Ok(schedule) => schedule,
        Err(error) => panic!(rt; "{error}"),
    }
}

/// Asserts that the error prints so.
pub fn assert_printed(rt: &(impl Abort + AllocGlobal), error: ScriptError, wanted: &str) {
    match format!(in rt.alloc(); "{error}") {
        Ok(printed) => assert_eq!(rt; printed.as_str(), wanted),
        Err(_) => panic!(rt; "no memory"),
    }
}

// Asserts that the text is refused, for what prints so.
fn assert_refused(rt: &(impl Abort + AllocGlobal), text: &[u8], wanted: &str) {
    match read(rt, text) {
        Ok(_) => panic!(rt; "read, and not refused: {wanted}"),
        Err(error) => assert_printed(rt, error, wanted),
    }
}

// Asserts that the text is a schedule of so many items and events.
fn assert_read(rt: &(impl Abort + AllocGlobal), text: &[u8], items: u32, events: usize) {
    let schedule = schedule(rt, text);
    assert_eq!(rt; schedule.catalog.len(), items);
    assert_eq!(rt; schedule.events.len(), events);
}

// Asserts that the event is a request at the first site, of one part, that isn't a query and has this text.
fn assert_submit(rt: &impl Abort, event: &Event, wanted: &str) {
    let Event::Submit {
        site,
        query,
        text,
        plan,
        ..
    } = event
    else {
        panic!(rt; "no request");
    };
    assert!(rt; *site == SiteId(0));
    assert!(rt; !*query);
    assert!(rt; plan.parts.len() == 1);
    assert_eq!(rt; text.as_slice(), wanted.as_bytes());
}

#[test]
fn a_schedule_is_read(rt: HostRuntime) {
    let text = "sites 1\nitem a 0 100\nsubmit 0 a := a + 1\npump\nreport\n";
    let schedule = schedule(&rt, text.as_bytes());
    let catalog = &schedule.catalog;
    assert!(rt; catalog.sites() == 1);
    assert!(rt; catalog.journal() == MAX_JOURNAL);
    assert!(rt; catalog.len() == 1);
    assert!(rt; catalog.find(b"a") == Some(ItemId(0)));
    let [submit, pump, report] = schedule.events.as_slice() else {
        panic!(rt; "other events");
    };
    assert_submit(&rt, submit, "a := a + 1");
    assert!(rt; matches!(pump, Event::Pump(None)));
    assert!(rt; matches!(report, Event::Report));
}

// The event of a line behind the text of a catalog, or why there is none.
fn behind(
    rt: &(impl Abort + AllocGlobal),
    text: &[u8],
    line: &str,
) -> Result<Option<Event>, ScriptError> {
    if text.len() > 1000 || line.len() > 1000 {
        panic!(rt; "too long a text");
    }
    match CatalogText::read(rt.alloc(), text)? {
        Some(declared) => declared.read_event(rt.alloc(), line.as_bytes()),
        None => panic!(rt; "the catalog has events"),
    }
}

#[test]
fn a_line_is_read_behind_a_catalog(rt: HostRuntime) {
    let catalog = "sites 1\nitem a 0 100\n".as_bytes();
    match behind(&rt, catalog, "submit 0 a := a + 1") {
        Ok(Some(submit)) => assert_submit(&rt, &submit, "a := a + 1"),
        _ => panic!(rt; "no event"),
    }
    assert!(rt; matches!(behind(&rt, catalog, "pump\nreport"), Ok(None)));
    assert!(rt; matches!(behind(&rt, catalog, "item b 0 1"), Ok(None)));
    match behind(&rt, catalog, "tick 1") {
        Ok(_) => panic!(rt; "a tick of no site"),
        Err(error) => assert_printed(&rt, error, "line 4: bad number"),
    }
}

#[test]
fn each_event_is_read(rt: HostRuntime) {
    let text =
        "sites 2\njournal 0064\nitem a 1 -9223372036854775808\nitem b 0 9223372036854775807\nsubmit 1 a := b ; b := a\nquery 0 return a\ndeliver 18446744073709551615\nlose 0\npump\npump 1000000\ndrop 0\ntick 1\nstop 0\nstart 0\ncut 0 1 lost\nfail 1 1000 torn\nmend 0\nsent\nreport\ntotal";
    assert_read(&rt, text.as_bytes(), 2, 16);
}

#[test]
fn lines_and_blanks_are_read(rt: HostRuntime) {
    let text = b"# \xff\n\n  \t# more\nsites 1\n \t\nitem a 0 5\n#\nreport\n\n".as_slice();
    assert_read(&rt, text, 1, 1);
    let text = "\tsites\t 01\r\nitem a 00 -007\r\nsubmit 0   a :=\ta  + 007 \r\npump\r\nreport\r";
    assert_read(&rt, text.as_bytes(), 1, 3);
    assert_read(&rt, "sites 16".as_bytes(), 0, 0);
}

#[test]
fn texts_are_refused(rt: HostRuntime) {
    for (text, wanted) in REFUSED {
        assert_refused(&rt, text.as_bytes(), wanted);
    }
}

#[test]
fn a_refusal_has_its_text(rt: HostRuntime) -> Result<(), Fail> {
    let cause = LineCause::UnknownName(7);
    let error = ScriptError::Malformed { line: 3, cause };
    let printed = format!(in rt.alloc(); "{error}, {}", ScriptError::NoMemory)?;
    assert_eq!(rt;
        printed.as_str(),
        "line 3: unknown name column 7, no memory"
    );
    Ok(())
}

// The lines and the count of what 7 makes were worked out from the rules, apart from the program.
#[test]
fn a_long_schedule_is_made(rt: HostRuntime) {
    match make(rt.alloc(), 7) {
        Ok(text) => {
            let mut lines = text.split(|b| *b == b'\n').skip(65);
            assert!(rt;
                lines.next()
                    == Some(
                        b"submit 2 require i44 >= 9 ; i44 := i44 - 9 ; i22 := i22 + 9".as_slice()
                    )
            );
            assert!(rt; lines.next() == Some(b"pump 12".as_slice()));
            assert!(rt; lines.next() == Some(b"pump".as_slice()));
            assert_read(&rt, &text, 64, 6346);
        },
        Err(error) => panic!(rt; "{error}"),
    }
}
