// Texts, and the programs or refusals that they have by the grammar, worked out by hand. A program is written with each
// operator before its sides, in brackets, and `neg` for the `-` before one side. A refusal has its column.
use pv_ast::{Expr, Op, Program, Stmt};
use pv_base::{Catalog, CatalogError, ItemId, MIN_JOURNAL, NoMemory, SiteId};
use pv_parse::*;
use std::alloc::Global;
use std::process::Abort;
use std::test::Fail;

// The items that the programs may name, in order. Most begin with a keyword, and the last is as long as may be.
const NAMES: &[&str] = &[
    "a",
    "b",
    "android",
    "order",
    "notes",
    "minimum",
    "maximum",
    "iffy",
    "elsewhere",
    "requires",
    "returns",
    "certainly",
    "item_of_16_bytes",
];

pub(crate) fn items(alloc: Global) -> Result<Catalog, CatalogError> {
    let mut catalog = Catalog::new(alloc, 1, MIN_JOURNAL);
    for name in NAMES {
        catalog.add(name.as_bytes(), SiteId(0), 0)?;
    }
    Ok(catalog)
}

fn name_of(item: ItemId) -> &'static str {
    match NAMES.get(item.0 as usize) {
        Some(name) => name,
        None => "?",
    }
}

fn sign_of(op: Op) -> &'static str {
    match op {
        Op::Or => "or",
        Op::And => "and",
        Op::Equal => "=",
        Op::Unequal => "<>",
        Op::Less => "<",
        Op::AtMost => "<=",
        Op::Greater => ">",
        Op::AtLeast => ">=",
        Op::Plus => "+",
        Op::Sub => "-",
        Op::Times => "*",
        Op::Over => "/",
        Op::Rest => "%",
        Op::Min => "min",
        Op::Max => "max",
    }
}

fn push_expr(text: &mut String, expr: &Expr) -> Result<(), NoMemory> {
    match expr {
        Expr::Number(number) => write!(text, "{number}")?,
        Expr::Item(item) => text.push_str(name_of(*item))?,
        Expr::Minus(inner) => {
            text.push_str("(neg ")?;
            push_expr(text, &inner.expr)?;
            text.push_str(")")?;
        }
        Expr::Not(inner) => {
            text.push_str("(not ")?;
            push_expr(text, &inner.expr)?;
            text.push_str(")")?;
        }
        Expr::Two { op, left, right } => {
            text.push_str("(")?;
            text.push_str(sign_of(*op))?;
            text.push_str(" ")?;
            push_expr(text, &left.expr)?;
            text.push_str(" ")?;
            push_expr(text, &right.expr)?;
            text.push_str(")")?;
        }
    }
    Ok(())
}

#[cycle(printing)]
fn push_program(text: &mut String, program: &Program) -> Result<(), NoMemory> {
    let mut first = true;
    for stmt in &program.stmts {
        if !first {
            text.push_str("; ")?;
        }
        first = false;
        push_stmt(text, stmt)?;
    }
    Ok(())
}

#[cycle(printing)]
fn push_stmt(text: &mut String, stmt: &Stmt) -> Result<(), NoMemory> {
    match stmt {
        Stmt::Assign { item, value } => {
            text.push_str(name_of(*item))?;
            text.push_str(" := ")?;
            push_expr(text, value)?;
        }
        Stmt::Require(test) => {
            text.push_str("require ")?;
            push_expr(text, test)?;
        }
        Stmt::Certain(item) => {
            text.push_str("require certain ")?;
            text.push_str(name_of(*item))?;
        }
        Stmt::Return(value) => {
            text.push_str("return ")?;
            push_expr(text, value)?;
        }
        Stmt::If { test, body, other } => {
            text.push_str("if ")?;
            push_expr(text, test)?;
            text.push_str(" { ")?;
            push_program(text, body)?;
            text.push_str(" }")?;
            if let Some(other) = other {
                text.push_str(" else { ")?;
                push_program(text, other)?;
                text.push_str(" }")?;
            }
        }
    }
    Ok(())
}

// The program or the refusal that a text has, as it is written here.
pub(crate) fn reading(alloc: Global, catalog: &Catalog, text: &[u8]) -> Result<String, NoMemory> {
    match parse(alloc, text, catalog) {
        Ok(program) => {
            let mut printed = String::new(alloc);
            push_program(&mut printed, &program)?;
            Ok(printed)
        }
        Err(error) => Ok(format!(in alloc; "{error:?}")?),
    }
}

// Asserts that each text has the program or the refusal beside it.
pub(crate) fn assert_reads(
    rt: &impl Abort,
    alloc: Global,
    table: &[(&str, &str)],
) -> Result<(), Fail> {
    let catalog = items(alloc)?;
    for (text, expected) in table {
        let found = reading(alloc, &catalog, text.as_bytes())?;
        assert_eq!(rt; found.as_str(), *expected, "at {text}");
    }
    Ok(())
}

// Texts, with the program that each is, or its fault.
const READ: &[(&str, &str)] = &[
    // Each operator has two sides.
    ("return a or b", "return (or a b)"),
    ("return a and b", "return (and a b)"),
    ("return a = b", "return (= a b)"),
    ("return a <> b", "return (<> a b)"),
    ("return a < b", "return (< a b)"),
    ("return a <= b", "return (<= a b)"),
    ("return a > b", "return (> a b)"),
    ("return a >= b", "return (>= a b)"),
    ("return a + b", "return (+ a b)"),
    ("return a - b", "return (- a b)"),
    ("return a * b", "return (* a b)"),
    ("return a / b", "return (/ a b)"),
    ("return a % b", "return (% a b)"),
    ("return min(a, b)", "return (min a b)"),
    ("return max(a, b)", "return (max a b)"),
    // An operator may stand before one side.
    ("return -a", "return (neg a)"),
    ("return --1", "return (neg (neg 1))"),
    ("return - - a", "return (neg (neg a))"),
    ("return not a", "return (not a)"),
    ("return not not a", "return (not (not a))"),
    ("return not -a", "return (not (neg a))"),
    ("return -not a", "Malformed(9)"),
    ("return a - -1", "return (- a (neg 1))"),
    ("return a--1", "return (- a (neg 1))"),
    ("return a---1", "return (- a (neg (neg 1)))"),
    ("return -a--b", "return (- (neg a) (neg b))"),
    // `min` and `max` have two whole expressions.
    ("return min(a, max(b, 1))", "return (min a (max b 1))"),
    (
        "return max(min(a, b), -1)",
        "return (max (min a b) (neg 1))",
    ),
    (
        "return min(min(1,2),min(3,4))",
        "return (min (min 1 2) (min 3 4))",
    ),
    ("return min(a or b, a = b)", "return (min (or a b) (= a b))"),
    ("return max(not a, (b))", "return (max (not a) b)"),
    ("return -min(a, b) * 2", "return (* (neg (min a b)) 2)"),
    ("return 1 - max (a , b)", "return (- 1 (max a b))"),
    // An operator binds as its level says.
    ("return a or b and 1", "return (or a (and b 1))"),
    ("return a and b or 1", "return (or (and a b) 1)"),
    ("return not a and b", "return (and (not a) b)"),
    ("return a and not b", "return (and a (not b))"),
    ("return not a = b", "return (not (= a b))"),
    ("return a = not b", "Malformed(12)"),
    ("return a + b = 1", "return (= (+ a b) 1)"),
    ("return a = b + 1", "return (= a (+ b 1))"),
    ("return a * b + 2", "return (+ (* a b) 2)"),
    ("return a + b * 2", "return (+ a (* b 2))"),
    ("return -a * b", "return (* (neg a) b)"),
    ("return a * -b", "return (* a (neg b))"),
    // An operator binds through levels between.
    ("return -a - b", "return (- (neg a) b)"),
    ("return -a = b", "return (= (neg a) b)"),
    ("return not a or b", "return (or (not a) b)"),
    ("return a or not b", "return (or a (not b))"),
    ("return a < b and b <= 1", "return (and (< a b) (<= b 1))"),
    ("return a = b or not b", "return (or (= a b) (not b))"),
    ("return a % 2 >= b / 2", "return (>= (% a 2) (/ b 2))"),
    (
        "return not a + 1 < b * 2 and b",
        "return (and (not (< (+ a 1) (* b 2))) b)",
    ),
    (
        "return a or b and not a = b + 1 * -2",
        "return (or a (and b (not (= a (+ b (* 1 (neg 2)))))))",
    ),
    (
        "return -2 * 1 + b > a and b or not a",
        "return (or (and (> (+ (* (neg 2) 1) b) a) b) (not a))",
    ),
    // Sides are grouped to the left.
    ("return a - b - 1", "return (- (- a b) 1)"),
    ("return a / b / 2", "return (/ (/ a b) 2)"),
    ("return a % b % 2", "return (% (% a b) 2)"),
    ("return a and b and 1", "return (and (and a b) 1)"),
    ("return a or b or 1", "return (or (or a b) 1)"),
    ("return a - b + 1 - 2", "return (- (+ (- a b) 1) 2)"),
    ("return a * b / 2 % 3", "return (% (/ (* a b) 2) 3)"),
    ("return a - b * 2 - 1", "return (- (- a (* b 2)) 1)"),
    ("return a or b and 1 or 2", "return (or (or a (and b 1)) 2)"),
    (
        "return a and 1 or b and 2",
        "return (or (and a 1) (and b 2))",
    ),
    // Brackets group otherwise.
    ("return a - (b - 1)", "return (- a (- b 1))"),
    ("return a / (b / 2)", "return (/ a (/ b 2))"),
    ("return (a + b) * 2", "return (* (+ a b) 2)"),
    ("return (a or b) and 1", "return (and (or a b) 1)"),
    ("return a and (b or 1)", "return (and a (or b 1))"),
    ("return (not a) = b", "return (= (not a) b)"),
    ("return not (a and b)", "return (not (and a b))"),
    ("return -(a + b)", "return (neg (+ a b))"),
    ("return a + (not b)", "return (+ a (not b))"),
    ("return (a = b) = 1", "return (= (= a b) 1)"),
    ("return a = (b = 1)", "return (= a (= b 1))"),
    ("return ((a))", "return a"),
    // Statements follow one another.
    ("a := 1", "a := 1"),
    ("require a", "require a"),
    ("require certain a", "require certain a"),
    (
        "require certain b ; b := b - 1",
        "require certain b; b := (- b 1)",
    ),
    ("if a { require certain b }", "if a { require certain b }"),
    ("return a", "return a"),
    ("a := 1 ; b := a", "a := 1; b := a"),
    ("return 1 ; return 2", "return 1; return 2"),
    (
        "require a > 0 ; a := a - 1 ; return a",
        "require (> a 0); a := (- a 1); return a",
    ),
    // A branch has a program of its own.
    ("if a { b := 1 }", "if a { b := 1 }"),
    (
        "if a < 1 { b := 1 } else { b := 2 }",
        "if (< a 1) { b := 1 } else { b := 2 }",
    ),
    ("if a { b := 1 } ; return b", "if a { b := 1 }; return b"),
    (
        "if a { b := 1 ; return b } else { return 0 ; a := 1 } ; a := 2",
        "if a { b := 1; return b } else { return 0; a := 1 }; a := 2",
    ),
    (
        "if a { if b { a := 1 } else { a := 2 } }",
        "if a { if b { a := 1 } else { a := 2 } }",
    ),
    (
        "if a { if b { a := 1 } } else { a := 2 }",
        "if a { if b { a := 1 } } else { a := 2 }",
    ),
    (
        "if a { b := 1 } else { if b { a := 1 } ; b := 2 }",
        "if a { b := 1 } else { if b { a := 1 }; b := 2 }",
    ),
];

// Texts whose words, symbols and numbers stand close together or are long, with the program that each is, or its fault.
const CLOSE: &[(&str, &str)] = &[
    // Blanks are wanted only between words.
    ("a:=b<>1", "a := (<> b 1)"),
    ("a:=1;b:=2", "a := 1; b := 2"),
    ("if a{b:=1}else{b:=2}", "if a { b := 1 } else { b := 2 }"),
    ("if(a){b:=1}", "if a { b := 1 }"),
    ("\ta\t:=\t1\t", "a := 1"),
    (" \t a := \t \t 1  ", "a := 1"),
    ("return(a)", "return a"),
    ("require-1", "require (neg 1)"),
    ("return not(a)and(b)", "return (and (not a) b)"),
    ("return 1or 2", "return (or 1 2)"),
    ("return 007and(b)", "return (and 7 b)"),
    // A symbol is read as long as may be.
    ("a:=b<=1", "a := (<= b 1)"),
    ("a:=b>=1", "a := (>= b 1)"),
    ("a:=b<-1", "a := (< b (neg 1))"),
    ("a:=b< =1", "Malformed(7)"),
    ("a:=b< >1", "Malformed(7)"),
    ("a:=b><1", "Malformed(6)"),
    ("a:=b=<1", "Malformed(6)"),
    ("a:=b<<1", "Malformed(6)"),
    ("a:=b==1", "Malformed(6)"),
    ("a:==1", "Malformed(4)"),
    ("a::=1", "Malformed(2)"),
    ("a : = 1", "Malformed(3)"),
    // A name may begin with a keyword.
    ("iffy := order", "iffy := order"),
    ("certainly := 1", "certainly := 1"),
    ("require requires", "require requires"),
    ("return returns", "return returns"),
    ("return not notes", "return (not notes)"),
    ("return order or android", "return (or order android)"),
    ("return android and order", "return (and android order)"),
    (
        "return min(minimum,maximum)",
        "return (min minimum maximum)",
    ),
    (
        "if iffy{a:=1}else{elsewhere:=1}",
        "if iffy { a := 1 } else { elsewhere := 1 }",
    ),
    ("requirea", "UnknownName(1)"),
    ("returna", "UnknownName(1)"),
    ("not1 := 1", "UnknownName(1)"),
    ("if_ := 1", "UnknownName(1)"),
    ("a := nota", "UnknownName(6)"),
    // A word is cut after 16 bytes.
    ("item_of_16_bytes := 1", "item_of_16_bytes := 1"),
    (
        "a := item_of_16_bytes+item_of_16_bytes",
        "a := (+ item_of_16_bytes item_of_16_bytes)",
    ),
    ("item_of_16_bytess := 1", "Malformed(17)"),
    ("a := item_of_16_bytes1", "Malformed(22)"),
    ("a := item_of_16_bytes_", "Malformed(22)"),
    ("a := item_of_16_bytesitem_of_16_bytes", "Malformed(22)"),
    (
        "a := item_of_16_bytesand b",
        "a := (and item_of_16_bytes b)",
    ),
    ("abcdefghijklmnopq := 1", "UnknownName(1)"),
    ("a := abcdefghijklmnopq", "UnknownName(6)"),
    ("a := item_of_16_byte", "UnknownName(6)"),
    ("a := item_of_16_bytee1", "UnknownName(6)"),
    // A number is below two to 63.
    ("return 0", "return 0"),
    ("return 000123", "return 123"),
    ("return 9223372036854775807", "return 9223372036854775807"),
    (
        "return -9223372036854775807",
        "return (neg 9223372036854775807)",
    ),
    ("return 9223372036854775808", "Malformed(8)"),
    ("return -9223372036854775808", "Malformed(9)"),
    ("return 18446744073709551617", "Malformed(8)"),
    (
        "return 0000000000000000000009223372036854775807",
        "return 9223372036854775807",
    ),
    (
        "return 1234567890123456789012345678901234567890",
        "Malformed(8)",
    ),
    ("return 1 + 99999999999999999999 + c", "Malformed(12)"),
    // So many brackets are just enough.
    (
        "a := ((((((((((((((((((((((((((((((((b))))))))))))))))))))))))))))))))",
        "a := b",
    ),
    // A fault has its column.
    ("a := (", "Malformed(7)"),
    ("a := c", "UnknownName(6)"),
    ("a := (((((((((((((((((((((((((((((((((a", "TooDeep(39)"),
];

#[test]
fn each_text_has_its_program_or_its_fault(rt: HostRuntime) -> Result<(), Fail> {
    assert_reads(&rt, rt.alloc(), READ)
}

#[test]
fn each_close_text_has_its_program_or_its_fault(rt: HostRuntime) -> Result<(), Fail> {
    assert_reads(&rt, rt.alloc(), CLOSE)
}
