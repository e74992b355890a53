// Worked programs and their effects, each from its text: values from outside, beside what the clauses say of all of them.
use pv_ast::{Decline, Effect, Program, Reply, Row, exec};
use pv_base::{Catalog, ItemId, MIN_JOURNAL, NoMemory, SiteId};
use pv_parse::parse;
use std::process::Abort;
use std::test::Fail;

const A: ItemId = ItemId(0);

const B: ItemId = ItemId(1);

const REQUIRE: Reply = Reply::Declined(Decline::Require);

const OVERFLOW: Reply = Reply::Declined(Decline::Overflow);

const ZERO_DIVISOR: Reply = Reply::Declined(Decline::ZeroDivisor);

const WITHDRAWAL: &str = "a := a - 10 ; require a >= 0 ; return a";

const BRANCHES: &str = "if a { b := 1 / 0 } else { b := 2 } ; if a = 0 { a := 3 } ; require a > b";

const RETURN_IN_A_BRANCH: &str = "if a { a := 8 ; return b } ; b := 1";

// Programs, each with the values of a and b before it and after it, and with its reply.
type Worked = (&'static str, (i64, i64), (i64, i64), Reply);

const WORKED: &[Worked] = &[
    (WITHDRAWAL, (100, 1), (90, 1), Reply::Value(90)),
    (WITHDRAWAL, (10, 1), (0, 1), Reply::Value(0)),
    (WITHDRAWAL, (5, 1), (5, 1), REQUIRE),
    (
        "require certain a ; a := 1 ; require certain b",
        (3, 4),
        (1, 4),
        Reply::Nothing,
    ),
    ("return 7 ; a := 1", (3, 4), (3, 4), Reply::Value(7)),
    ("a := 1 ; return 7", (3, 4), (1, 4), Reply::Value(7)),
    ("b := a", (3, 4), (3, 3), Reply::Nothing),
    ("return -7 / 2 ; a := 1", (3, 4), (3, 4), Reply::Value(-3)),
    ("return -7 % 2 ; a := 1", (3, 4), (3, 4), Reply::Value(-1)),
    (BRANCHES, (0, 9), (3, 2), Reply::Nothing),
    (BRANCHES, (1, 9), (1, 9), ZERO_DIVISOR),
    (RETURN_IN_A_BRANCH, (-1, 9), (8, 9), Reply::Value(9)),
    (RETURN_IN_A_BRANCH, (0, 9), (0, 1), Reply::Nothing),
    ("return a + b", (i64::MAX, 1), (i64::MAX, 1), OVERFLOW),
];

// the program of a text over a and b
fn program(rt: &(impl Abort + AllocGlobal), text: &str) -> Program {
    let mut catalog = Catalog::new(rt.alloc(), 1, MIN_JOURNAL);
    let a = catalog.add(b"a", SiteId(0), 0);
    let b = catalog.add(b"b", SiteId(0), 0);
    assert!(rt; a == Ok(A) && b == Ok(B));
    match parse(rt.alloc(), text.as_bytes(), &catalog) {
        Ok(program) => program,
        Err(error) => panic!(rt; "{error}"),
    }
}

fn rows(a: i64, b: i64) -> [Row; 2] {
    [Row { item: A, value: a }, Row { item: B, value: b }]
}

// what the program of a text does where a and b have these values
fn effect(rt: &(impl Abort + AllocGlobal), text: &str, a: i64, b: i64) -> Result<Effect, NoMemory> {
    let program = program(rt, text);
    let rows = rows(a, b);
    assert!(rt; program.has_items(&rows));
    exec(rt.alloc(), &program, &rows)
}

// Asserts what each program does.
fn assert_does(rt: &(impl Abort + AllocGlobal), table: &[Worked]) -> Result<(), NoMemory> {
    for (text, before, after, reply) in table {
        let effect = effect(rt, text, before.0, before.1)?;
        assert_eq!(rt;
            effect.rows.as_slice(),
            rows(after.0, after.1).as_slice(),
            "at {text}"
        );
        assert_eq!(rt; effect.reply, *reply, "at {text}");
    }
    Ok(())
}

#[test]
fn each_program_does_what_it_says(rt: HostRuntime) -> Result<(), NoMemory> {
    assert_does(&rt, WORKED)
}

#[test]
fn a_copy_is_equal(rt: HostRuntime) -> Result<(), Fail> {
    for text in [WITHDRAWAL, BRANCHES] {
        let program = program(&rt, text);
        let copy = program.copy(rt.alloc())?;
        let first = format!(in rt.alloc(); "{program:?}")?;
        let second = format!(in rt.alloc(); "{copy:?}")?;
        assert_eq!(rt; first.as_str(), second.as_str());
    }
    Ok(())
}
