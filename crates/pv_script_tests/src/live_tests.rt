// What no clause says of live scripts: that they are read, what a text says to one who reads it, and each cause once, at its edge. What is wanted was worked out
// from the rules, apart from the program.
use crate::tests::assert_printed;
use pv_base::{ItemId, SiteId};
use pv_script::{LineCause, LiveScript, MAX_SCHEDULE, ScriptError, Wish, read_live};
use std::process::Abort;
use std::test::Fail;

// Texts with the line at fault and its first cause, as they are printed.
const REFUSED: &[(&str, &str)] = &[
    (
        "sites 1\nitem a 0 0\nsubmit a := 1",
        "line 3: client expected",
    ),
    ("", "line 1: sites expected"),
    ("# one\n\n", "line 3: sites expected"),
    ("client 0\nsites 1", "line 1: sites expected"),
    ("plan 0 0\nsites 1", "line 1: sites expected"),
    ("pump\nsites 1", "line 1: sites expected"),
    ("sites 1\nclient 0 \x7f", "line 2: not text"),
    ("sites 1\n\nclient0", "line 3: unknown word"),
    ("sites 1\nsites", "line 2: twice"),
    ("sites 1\njournal 32\nclient 0\njournal", "line 4: twice"),
    ("sites 1\nplan 0 0\nplan 0 0", "line 3: twice"),
    ("sites 1\nplan 0 0\nclient 0\nplan", "line 4: twice"),
    ("sites 1\nclient 0\nplan", "line 3: too late"),
    ("sites 1\nclient 0\njournal 32", "line 3: too late"),
    ("sites 1\nclient 0\nitem a 0 1", "line 3: too late"),
    ("sites 1\nplan 1", "line 2: wrong count"),
    ("sites 1\nplan 1 2 3", "line 2: wrong count"),
    ("sites 1\nclient", "line 2: wrong count"),
    ("sites 1\nclient 0 0", "line 2: wrong count"),
    ("sites 1\nsubmit", "line 2: wrong count"),
    ("sites 1\nclient 0\nquery \t", "line 3: wrong count"),
    ("sites 1\nquery (", "line 2: client expected"),
    ("sites 1\nitem a 0 0\npeek a", "line 3: client expected"),
    ("sites 1\npeek", "line 2: wrong count"),
    (
        "sites 1\nitem a 0 0\nclient 0\npeek a a",
        "line 4: wrong count",
    ),
    (
        "sites 1\nitem a 0 0\nclient 0\npeek b",
        "line 4: no such item",
    ),
    ("sites 1\nclient 0\npeek 1x", "line 3: no such item"),
    (
        "sites 2\nitem a 0 0\nclient 0\nclient 1\npeek a",
        "line 5: other site",
    ),
    ("sites 1\nplan 4294967296 0", "line 2: bad number"),
    ("sites 1\nplan 0 4294967296", "line 2: bad number"),
    ("sites 1\nplan -1 0", "line 2: bad number"),
    ("sites 1\nplan x 0", "line 2: bad number"),
    ("sites 1\nclient 1", "line 2: bad number"),
    ("sites 1\nclient x", "line 2: bad number"),
    ("sites 1\nitem A 0 1", "line 2: bad name"),
    (
        "sites 1\nitem a 0 1\nplan 0 0\nitem a 0 2",
        "line 4: name taken",
    ),
    (
        "sites 1\nitem a 0 1\nclient 0\nsubmit a := (",
        "line 4: program column 7",
    ),
    (
        "sites 1\nitem a 0 1\nclient 0\n submit \t a := (",
        "line 4: program column 7",
    ),
    (
        "sites 1\nitem a 0 1\nclient 0\nsubmit 0 a := 1",
        "line 4: program column 1",
    ),
    (
        "sites 1\nitem a 0 1\nclient 0\nsubmit a := c",
        "line 4: unknown name column 6",
    ),
    (
        "sites 1\nitem a 0 1\nclient 0\nsubmit a := (((((((((((((((((((((((((((((((((a",
        "line 4: too deep column 39",
    ),
    (
        "sites 1\nitem a 0 1\nclient 0\nsubmit return 1",
        "line 4: names no item",
    ),
    (
        "sites 1\nitem a 0 1\nitem b 0 1\nitem c 0 1\nitem d 0 1\nitem e 0 1\nitem f 0 1\nitem g 0 1\nitem h 0 1\nitem i 0 1\nitem j 0 1\nitem k 0 1\nitem l 0 1\nitem m 0 1\nitem n 0 1\nitem o 0 1\nitem p 0 1\nitem q 0 1\nclient 0\nquery a := a + b + c + d + e + f + g + h + i + j + k + l + m + n + o + p + q",
        "line 20: too many names 17",
    ),
    (
        "sites 1\nitem a 0 1\nclient 0\nquery a := 1 ; return a",
        "line 4: query assigns",
    ),
    (
        "sites 1\nitem a 0 1\nclient 0\nquery require a",
        "line 4: no return",
    ),
    (
        "sites 1\nclient 0\nclient 0\nclient 0\nclient 0\nclient 0\nclient 0\nclient 0\nclient 0\nclient 0",
        "line 10: too many clients",
    ),
    (
        "sites 1\nclient 0\nclient 0\nclient 0\nclient 0\nclient 0\nclient 0\nclient 0\nclient 0\nclient 7",
        "line 10: too many clients",
    ),
    (
        "sites 1\nclient 0\nclient 0\nclient 0\nclient 0\nclient 0\nclient 0\nclient 0\nclient 0\nclient",
        "line 10: wrong count",
    ),
    ("sites 1\nitem a 0 1\nclient 0\nitem", "line 4: too late"),
    ("sites 17\nclient 0", "line 1: bad number"),
    // No event.
    ("sites 1\npump", "line 2: unknown word"),
    ("sites 1\nclient 0\nreport", "line 3: unknown word"),
];

// The answer to a text.
fn read(rt: &(impl Abort + AllocGlobal), text: &[u8]) -> Result<LiveScript, ScriptError> {
    if text.len() > MAX_SCHEDULE {
        panic!(rt; "too long a text");
    }
    read_live(rt.alloc(), text)
}

// The live script of a text.
fn script(rt: &(impl Abort + AllocGlobal), text: &[u8]) -> LiveScript {
    match read(rt, text) {
        Ok(script) => script,
        Err(error) => panic!(rt; "{error}"),
    }
}

// Asserts that the text is refused, for what prints so.
fn assert_refused(rt: &(impl Abort + AllocGlobal), text: &[u8], wanted: &str) {
    match read(rt, text) {
        Ok(_) => panic!(rt; "read, and not refused: {wanted}"),
        Err(error) => assert_printed(rt, error, wanted),
    }
}

#[test]
fn a_live_script_is_read(rt: HostRuntime) {
    let text =
        "# two clients\nsites 2\njournal 0064\nitem a 0 100\nplan 2 03\nitem b 1 50\nclient 1\n submit\ta := a - 10 ; b := b + 10 \npeek\tb \nquery return a\r\nclient 0\nquery return  a + b";
    let script = script(&rt, text.as_bytes());
    assert!(rt; script.catalog.journal() == 64);
    assert!(rt; script.drop_each == 2 && script.double_each == 3);
    let [first, second] = script.clients.as_slice() else {
        panic!(rt; "other clients");
    };
    assert!(rt; first.site == SiteId(1) && first.requests.len() == 3);
    let [Wish::Do(_), Wish::Peek { number, item }, Wish::Do(last)] = first.requests.as_slice()
    else {
        panic!(rt; "other wishes");
    };
    assert!(rt; *number == 1 && *item == ItemId(1) && last.number == 2);
    assert!(rt; second.site == SiteId(0) && second.requests.len() == 1);
}

#[test]
fn live_scripts_are_refused(rt: HostRuntime) {
    for (text, wanted) in REFUSED {
        assert_refused(&rt, text.as_bytes(), wanted);
    }
}

// The five causes that live scripts alone have, as they are printed.
const TEXTS: &[(LineCause, &str)] = &[
    (LineCause::ClientExpected, "line 3: client expected"),
    (LineCause::TooManyClients, "line 3: too many clients"),
    (LineCause::TooManyRequests, "line 3: too many requests"),
    (LineCause::NoSuchItem, "line 3: no such item"),
    (LineCause::OtherSite, "line 3: other site"),
];

#[test]
fn a_refusal_of_a_live_script_has_its_text(rt: HostRuntime) {
    for (cause, wanted) in TEXTS {
        let cause = *cause;
        assert_printed(&rt, ScriptError::Malformed { line: 3, cause }, wanted);
    }
}
