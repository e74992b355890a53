// A site's part of a story over a log in memory: what it is given and answers, and what its log then holds.
ghost use Rattle.std.specs.Prelude.{◌≡◌, ◌<◌, ◌≤◌, ℕ, false, length, All, IfOk, IfSome, IsTrue};
ghost use Rattle.pv_ast.specs.ExprView.{expr_of};
ghost use Rattle.pv_ast.specs.ProgramView.{followed_by};
ghost use Rattle.pv_base.specs.declared.limits.TheConstants.{MAX_LENGTH};
ghost use Rattle.pv_disk.specs.ListLaws.{list_model};
ghost use Rattle.pv_disk_model.specs.Size.{size_of};
ghost use Rattle.pv_model.specs.Check.{names_item, reads};
ghost use Rattle.pv_model.specs.Syntax.{end};
ghost use Rattle.pv_site.specs.Inputs.{IsInputFor, IsSpelledFrom};
ghost use Rattle.pv_site.specs.Steps.{IsReady};

use crate::tests::{bytes_of, catalog};
use pv_ast::{Expr, Op, Operand, Program, Stmt};
use pv_base::{Catalog, ItemId, MAX_JOURNAL, NoMemory, Reply, SiteId, TxnId};
use pv_check::check;
use pv_disk::{AppendFail, ListLog, Log};
use pv_site::{Cause, Input, Note, OpenError, Outgoing, Site, Step, StepError};
use pv_wire::{Envelope, decode, encode};
use std::alloc::Global;
use std::process::Abort;
use std::test::Fail;

/// What a transaction is to do. The item a is at the first site, and b at the second one.
#[derive(Clone, Copy)]
pub(crate) enum Task {
    /// `a := 1`
    Set,
    /// `a := a - 2 ; b := b + 2`
    Move,
}

/// A note, as it is expected.
#[derive(Clone, Copy)]
pub(crate) enum Noted {
    /// The request has begun this transaction.
    Txn(TxnId),
    /// The transaction has committed, with these possible replies.
    Commit(TxnId, &'static [Reply]),
    /// The transaction is refused.
    Refuse(TxnId, Cause),
}

/// What a site answers, as it is expected. Messages are written in hexadecimal.
#[derive(Clone, Copy)]
pub(crate) enum Answer {
    /// Nothing is sent or reported.
    Nothing,
    /// These messages are sent.
    Sends(&'static [&'static str]),
    /// This is reported.
    Reports(&'static [Noted]),
    /// These messages are sent, and this is reported.
    Both(&'static [&'static str], &'static [Noted]),
    /// The transaction reaches its lock point, and these messages are sent.
    Locks(TxnId, &'static [&'static str]),
    /// There is no step.
    Fails(StepError),
}

/// What happens in a story.
#[derive(Clone, Copy)]
pub(crate) enum Act {
    /// The site is given a request.
    Submit(SiteId, Task, Answer),
    /// This message, in hexadecimal, comes to the site that it goes to.
    Take(&'static str, Answer),
    /// Time passes at the site.
    Tick(SiteId, Answer),
}

/// A site's part of a story. Records are written in hexadecimal.
#[derive(Clone, Copy)]
pub(crate) struct Role {
    /// The site. What others do in the story is passed over.
    pub(crate) site: SiteId,
    /// Which appends to the log fail.
    pub(crate) fails: &'static [AppendFail],
    /// What happens then.
    pub(crate) acts: &'static [Act],
    /// What the log then holds.
    pub(crate) after: &'static [&'static str],
}

/// Where a site doesn't play its part as it is told.
#[derive(Clone, Copy, Debug, PartialEq, Eq)]
pub(crate) enum Wrong {
    /// In this act, counted from 0.
    Act(usize),
    /// In what its log holds.
    Log,
}

// the item's value and this number
fn plus(alloc: Global, item: u32, number: i64) -> Result<Expr, NoMemory>
    ensures { IfOk result (λ sum. (n : ℕ) → IsTrue (reads (expr_of sum) n) → n ≡ item) }
{
    let left = Operand::new(alloc, Expr::Item(ItemId(item)))?;
    let right = Operand::new(alloc, Expr::Number(number))?;
    Ok(Expr::Two {
        op: Op::Plus,
        left,
        right,
    })
}

// a program of one statement
fn only(alloc: Global, stmt: Stmt) -> Result<Program, NoMemory>
    ensures { IfOk result (λ program. program ≡ followed_by stmt end) }
{
    let mut stmts = Vec::new(alloc);
    stmts.push(stmt)?;
    Ok(Program { stmts })
}

// a program of two statements
fn both(alloc: Global, first: Stmt, second: Stmt) -> Result<Program, NoMemory>
    ensures { IfOk result (λ program. program ≡ followed_by first (followed_by second end)) }
{
    let mut stmts = Vec::new(alloc);
    stmts.push(first)?;
    stmts.push(second)?;
    Ok(Program { stmts })
}

// `a := 1`
fn setting(alloc: Global) -> Result<Program, NoMemory>
    ensures { IfOk result (λ program. (n : ℕ) → IsTrue (names_item program n) → n < 2) }
{
    only(
        alloc,
        Stmt::Assign {
            item: ItemId(0),
            value: Expr::Number(1),
        },
    )
}

// `a := a - 2 ; b := b + 2`
fn moving(alloc: Global) -> Result<Program, NoMemory>
    ensures { IfOk result (λ program. (n : ℕ) → IsTrue (names_item program n) → n < 2) }
{
    let less = Stmt::Assign {
        item: ItemId(0),
        value: plus(alloc, 0, -2)?,
    };
    let more = Stmt::Assign {
        item: ItemId(1),
        value: plus(alloc, 1, 2)?,
    };
    both(alloc, less, more)
}

// the program of the task
pub(crate) fn program_of(alloc: Global, task: Task) -> Result<Program, NoMemory>
    ensures { IfOk result (λ program. (n : ℕ) → IsTrue (names_item program n) → n < 2) }
{
    match task {
        Task::Set => setting(alloc),
        Task::Move => moving(alloc),
    }
}

// the request for a transaction of the task
fn request(
    alloc: Global,
    site: &Site<ListLog>,
    catalog: &Catalog,
    task: Task,
) -> Result<Input, Fail>
    requires { length catalog.now.items ≡ 2 }
    ensures { IfOk result (IsInputFor site.now.me site.now.catalog) }
{
    let program = program_of(alloc, task)?;
    let plan = check(alloc, &program, catalog, false)?;
    if !site.fits(&program, &plan) {
        return Err("the plan doesn't fit".into());
    }
    Ok(Input::Submit { program, plan })
}

// the message, if it goes to this site
fn mail(alloc: Global, me: SiteId, catalog: &Catalog, text: &str) -> Result<Option<Input>, Fail>
    ensures { IfOk result (λ given. IfSome given (IsInputFor me.0 catalog.now)) }
{
    let bytes = bytes_of(alloc, text)?;
    let Envelope { from, to, message } = decode(alloc, &bytes)?;
    if to != me {
        return Ok(None);
    }
    if from.0 >= catalog.sites() {
        return Err("a message of no site".into());
    }
    Ok(Some(Input::Take { from, message }))
}

// what the site is given in the act, if it is given anything
fn given(
    alloc: Global,
    site: &Site<ListLog>,
    me: SiteId,
    catalog: &Catalog,
    act: &Act,
) -> Result<Option<Input>, Fail>
    requires me { site.now.me ≡ me.0 }
    requires catalog { site.now.catalog ≡ catalog.now }
    requires items { length catalog.now.items ≡ 2 }
    ensures { IfOk result (λ given. IfSome given (IsInputFor site.now.me site.now.catalog)) }
{
    match act {
        Act::Submit(to, task, _) if *to == me => Ok(Some(request(alloc, site, catalog, *task)?)),
        Act::Take(text, _) => mail(alloc, me, catalog, text),
        Act::Tick(to, _) if *to == me => Ok(Some(Input::Tick)),
        Act::Submit(..) | Act::Tick(..) => Ok(None),
    }
}

// adds the bytes of the message
fn push_sent(
    bytes: &mut Vec<u8>,
    alloc: Global,
    me: SiteId,
    outgoing: Outgoing,
) -> Result<(), NoMemory>
    requires { IsSpelledFrom me.0 outgoing }
{
    let envelope = Envelope {
        from: me,
        to: outgoing.to,
        message: outgoing.message,
    };
    bytes.extend_from_slice(&encode(alloc, &envelope)?)?;
    Ok(())
}

// the bytes of the messages, one after another
fn bytes_sent(alloc: Global, me: SiteId, sends: Vec<Outgoing>) -> Result<Vec<u8>, NoMemory>
    requires { All (IsSpelledFrom me.0) sends.items }
{
    let mut bytes = Vec::new(alloc);
    for outgoing in sends {
        push_sent(&mut bytes, alloc, me, outgoing)?;
    }
    Ok(bytes)
}

// the bytes that are written here, one after another
fn bytes_told(alloc: Global, texts: &[&str]) -> Result<Vec<u8>, NoMemory> {
    let mut bytes = Vec::new(alloc);
    for text in texts {
        bytes.extend_from_slice(&bytes_of(alloc, text)?)?;
    }
    Ok(bytes)
}

// Whether the messages are these. The bytes of a message tell where it ends, so that messages in a row are told apart.
fn are_sent(
    alloc: Global,
    me: SiteId,
    sends: Vec<Outgoing>,
    texts: &[&str],
) -> Result<bool, NoMemory>
    requires { All (IsSpelledFrom me.0) sends.items }
{
    let sent = bytes_sent(alloc, me, sends)?;
    let told = bytes_told(alloc, texts)?;
    Ok(sent.as_slice() == told.as_slice())
}

// whether it is that note
fn is_noted(note: &Note, noted: &Noted) -> bool {
    match (note, noted) {
        (Note::Txn(txn), Noted::Txn(told)) => txn == told,
        (Note::Commit { txn, replies }, Noted::Commit(told, all)) => {
            txn == told && replies.as_slice() == *all
        }
        (Note::Refuse { txn, cause }, Noted::Refuse(told, why)) => txn == told && cause == why,
        _ => false,
    }
}

// whether the notes are these
fn are_noted(notes: &[Note], noted: &[Noted]) -> bool {
    notes.len() == noted.len()
        && notes
            .iter()
            .zip(noted)
            .all(|(note, noted)| is_noted(note, noted))
}

// Whether the step sends and reports this, and has that transaction at its lock point.
fn is_step(
    alloc: Global,
    me: SiteId,
    step: Step,
    sends: &[&str],
    notes: &[Noted],
    locked: Option<TxnId>,
) -> Result<bool, NoMemory>
    requires { All (IsSpelledFrom me.0) step.sends.items }
{
    let noted = are_noted(&step.notes, notes) && step.locked == locked;
    Ok(are_sent(alloc, me, step.sends, sends)? && noted)
}

// whether the step is the answer
fn is_answer(alloc: Global, me: SiteId, step: Step, answer: Answer) -> Result<bool, NoMemory>
    requires { All (IsSpelledFrom me.0) step.sends.items }
{
    match answer {
        Answer::Nothing => is_step(alloc, me, step, &[], &[], None),
        Answer::Sends(sends) => is_step(alloc, me, step, sends, &[], None),
        Answer::Reports(notes) => is_step(alloc, me, step, &[], notes, None),
        Answer::Both(sends, notes) => is_step(alloc, me, step, sends, notes, None),
        Answer::Locks(txn, sends) => is_step(alloc, me, step, sends, &[], Some(txn)),
        Answer::Fails(_) => Ok(false),
    }
}

// whether what was made of an input is the answer
fn is_made(
    alloc: Global,
    me: SiteId,
    made: Result<Step, StepError>,
    answer: Answer,
) -> Result<bool, NoMemory>
    requires { IfOk made (λ step. All (IsSpelledFrom me.0) step.sends.items) }
{
    match made {
        Ok(step) => is_answer(alloc, me, step, answer),
        Err(StepError::NoMemory) => Err(NoMemory),
        Err(error) => Ok(matches!(answer, Answer::Fails(told) if told == error)),
    }
}

// what is answered in the act
fn answer_in(act: &Act) -> Answer {
    match act {
        Act::Submit(_, _, answer) | Act::Take(_, answer) | Act::Tick(_, answer) => *answer,
    }
}

// the step of the site, which stays the same site
fn step(site: &mut Site<ListLog>, input: &Input) -> Result<Step, StepError>
    requires ready { IsReady list_model site.old }
    requires input { IsInputFor site.old.me site.old.catalog input.now }
    ensures ready { IsReady list_model site.new }
    ensures me { site.new.me ≡ site.old.me }
    ensures catalog { site.new.catalog ≡ site.old.catalog }
    ensures spelled { IfOk result (λ step. All (IsSpelledFrom site.old.me) step.sends.items) }
{
    site.step(input)
}

// Whether the site does in the act what is told of it.
fn acts(
    alloc: Global,
    site: &mut Site<ListLog>,
    me: SiteId,
    catalog: &Catalog,
    act: &Act,
) -> Result<bool, Fail>
    requires ready { IsReady list_model site.old }
    requires me { site.old.me ≡ me.0 }
    requires catalog { site.old.catalog ≡ catalog.now }
    requires items { length catalog.now.items ≡ 2 }
    ensures ready { IsReady list_model site.new }
    ensures me { site.new.me ≡ me.0 }
    ensures catalog { site.new.catalog ≡ catalog.now }
{
    let Some(input) = given(alloc, site, me, catalog, act)? else {
        return Ok(true);
    };
    let made = step(site, &input);
    Ok(is_made(alloc, me, made, answer_in(act))?)
}

// The first act in which the site does something else than is told of it, counted from 0.
fn first_wrong(
    alloc: Global,
    site: &mut Site<ListLog>,
    me: SiteId,
    catalog: &Catalog,
    told: &[Act],
) -> Result<Option<usize>, Fail>
    requires ready { IsReady list_model site.old }
    requires me { site.old.me ≡ me.0 }
    requires catalog { site.old.catalog ≡ catalog.now }
    requires items { length catalog.now.items ≡ 2 }
    ensures ready { IsReady list_model site.new }
    ensures catalog { site.new.catalog ≡ catalog.now }
{
    for (number, act) in told.iter().enumerate() {
        if !acts(alloc, site, me, catalog, act)? {
            return Ok(Some(number));
        }
    }
    Ok(None)
}

// whether the contents are these
fn are_contents(alloc: Global, contents: &[Vec<u8>], texts: &[&str]) -> Result<bool, NoMemory> {
    for (content, text) in contents.iter().zip(texts) {
        if content.as_slice() != bytes_of(alloc, text)?.as_slice() {
            return Ok(false);
        }
    }
    Ok(contents.len() == texts.len())
}

// whether the log holds these contents
fn holds(alloc: Global, log: &mut ListLog, texts: &[&str]) -> Result<bool, Fail>
    requires { size_of log.old.contents ≤ MAX_LENGTH }
    ensures { log.new ≡ log.old }
{
    let contents = log.read_all()?;
    Ok(are_contents(alloc, &contents, texts)?)
}

// the site on its log
pub(crate) fn open(
    alloc: Global,
    log: ListLog,
    me: SiteId,
    catalog: &Catalog,
) -> Result<Site<ListLog>, OpenError<ListLog>>
    requires intact { size_of log.contents ≤ MAX_LENGTH }
    requires up { log.is_down ≡ false }
    requires limit { log.limit ≡ catalog.now.journal }
    requires site { me.0 < catalog.now.sites }
    ensures ready { IfOk result (IsReady list_model) }
    ensures me { IfOk result (λ site. site.me ≡ me.0) }
    ensures catalog { IfOk result (λ site. site.catalog ≡ catalog.now) }
{
    Site::open(alloc, log, me, catalog)
}

// the site at the beginning of its part
fn beginning(alloc: Global, catalog: &Catalog, part: &Role) -> Result<Site<ListLog>, Fail>
    requires site { part.now.site.0 < catalog.now.sites }
    ensures ready { IfOk result (IsReady list_model) }
    ensures me { IfOk result (λ site. site.me ≡ part.now.site.0) }
    ensures catalog { IfOk result (λ site. site.catalog ≡ catalog.now) }
{
    let fails = part.fails.to_vec(alloc)?;
    let log = ListLog::new(alloc, catalog.journal(), fails);
    match open(alloc, log, part.site, catalog) {
        Ok(site) => Ok(site),
        Err(_) => Err("the site isn't opened".into()),
    }
}

// where the part goes wrong
fn wrong_at(alloc: Global, catalog: &Catalog, part: &Role) -> Result<Option<Wrong>, Fail>
    requires site { part.now.site.0 < catalog.now.sites }
    requires items { length catalog.now.items ≡ 2 }
{
    let mut site = beginning(alloc, catalog, part)?;
    if let Some(act) = first_wrong(alloc, &mut site, part.site, catalog, part.acts)? {
        return Ok(Some(Wrong::Act(act)));
    }
    let mut log = site.close().reopen();
    if holds(alloc, &mut log, part.after)? {
        Ok(None)
    } else {
        Ok(Some(Wrong::Log))
    }
}

// Where the site doesn't play its part as it is told, if there is such a place.
fn wrong_in(alloc: Global, part: &Role) -> Result<Option<Wrong>, Fail> {
    let catalog = catalog(alloc, MAX_JOURNAL)?;
    if part.site.0 >= catalog.sites() {
        return Err("there is no such site".into());
    }
    wrong_at(alloc, &catalog, part)
}

/// Asserts that each site plays its part as it is told.
pub(crate) fn play(rt: &impl Abort, alloc: Global, parts: &[Role]) -> Result<(), Fail> {
    for (number, part) in parts.iter().enumerate() {
        assert_eq!(rt; wrong_in(alloc, part)?, None, "in part {number}");
    }
    Ok(())
}
