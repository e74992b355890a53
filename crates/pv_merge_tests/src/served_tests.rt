// The history of a site that serves one request: it asks itself for a lock and for a vote, and takes each of its four messages.
ghost use Rattle.std.specs.Prelude.{◌≡◌, ◌∷◌, [], ◌+◌, ◌<◌, codes, IfOk, length, map};
ghost use Rattle.pv_base.specs.Catalog.{Declared};
ghost use Rattle.pv_history.specs.Entries.{stamped_of, stamps_of};
ghost use Rattle.pv_law_histories.specs.Examples.{at, first_request, granted_of, lock_of, served, vote_asked};
ghost use Rattle.pv_law_histories.specs.Fitting.{FitTogether};
ghost use Rattle.pv_law_histories.specs.History.{Intake, done};
ghost use Rattle.pv_law_step.specs.Examples.{sure, txn_at, write};
ghost use Rattle.pv_law_world.specs.Schedules.{alone, changed};
ghost use Rattle.pv_merge.specs.Moments.{ArePlanned, IsRequestPlanned};
ghost use Rattle.pv_model.specs.Syntax as model;
ghost use Rattle.pv_protocol.specs.State.{began};
ghost use Rattle.pv_script.specs.LiveView.{request_of};
ghost use Rattle.pv_site.specs.SiteState.{setup_of};
ghost use Rattle.pv_site.specs.Values.{note_of};
ghost use Rattle.pv_wire.specs.Values.{message_of};

use pv_ast::{Expr, Op, Operand, Program, Stmt};
use pv_base::{Catalog, GrantId, ItemId, MAX_JOURNAL, Reply, SiteId, TxnId, Want};
use pv_check::check;
use pv_history::{Entry, Seen, Taken};
use pv_merge::{Run, merge};
use pv_script::{Event, Line, Request};
use pv_site::Note;
use pv_tree::Poly;
use pv_wire::{Message, Read};
use std::alloc::Global;
use std::test::Fail;

const HERE: SiteId = SiteId(0);

const T: TxnId = TxnId {
    site: HERE,
    epoch: 1,
    number: 0,
};

// The first grant of the site.
const GRANT: GrantId = GrantId {
    epoch: 1,
    number: 0,
};

// One site, and a, which is 100.
fn catalog(alloc: Global) -> Result<Catalog, Fail>
    ensures { IfOk result (λ catalog. catalog ≡ (alone 100).catalog) }
{
    let mut catalog = Catalog::new(alloc, 1, MAX_JOURNAL);
    catalog.add(b"a", HERE, 100)?;
    Ok(catalog)
}

// `a := a + 1`
fn program(alloc: Global) -> Result<Program, Fail>
    ensures { IfOk result (λ program. program ≡ changed model.Op.plus 0 1 model.Program.end) }
{
    let left = Operand::new(alloc, Expr::Item(ItemId(0)))?;
    let right = Operand::new(alloc, Expr::Number(1))?;
    let value = Expr::Two {
        op: Op::Plus,
        left,
        right,
    };
    let mut stmts = Vec::new(alloc);
    stmts.push(Stmt::Assign {
        item: ItemId(0),
        value,
    })?;
    Ok(Program { stmts })
}

// The client's first request.
fn request(alloc: Global, catalog: &Catalog) -> Result<Request, Fail>
    requires { catalog.now ≡ (alone 100).catalog }
    ensures request { IfOk result (λ request. Intake.request 0 (request_of request) ≡ first_request (codes "a := a + 1") (changed model.Op.plus 0 1 model.Program.end)) }
    ensures planned { IfOk result (IsRequestPlanned catalog.now) }
{
    let program = program(alloc)?;
    let plan = check(alloc, &program, catalog, false)?;
    Ok(Request {
        number: 0,
        query: false,
        text: Vec::from_slice(alloc, b"a := a + 1")?,
        program,
        plan,
    })
}

// The item a with this value, which doesn't depend on an outcome.
fn values(alloc: Global, value: i64) -> Result<Vec<Read>, Fail>
    ensures { IfOk result (λ values. values.items ≡ write 0 (sure value) ∷ []) }
{
    let poly = Poly::sure(alloc, value)?;
    match poly.cases() {
        [only] if only.when.is_empty() && only.value == value => {}
        _ => return Err("a value that is sure has one case".into()),
    }
    Ok(vec![in alloc;
        Read {
            item: ItemId(0),
            value: poly
        },
    ]?)
}

// An entry of a message that the site has sent itself at this stamp. It comes next, and sends so many.
fn taken(stamp: u64, message: Message, sends: u32, notes: Vec<Note>) -> Entry
    requires { stamp < 100 }
    ensures stamped { stamped_of result ≡ at (stamp + 1) (Intake.parcel 0 stamp 0 (message_of message)) sends (done (map note_of notes.items)) }
    ensures planned { (catalog : Declared) → ArePlanned catalog (result ∷ []) }
{
    Entry {
        stamp: stamp + 1,
        input: Taken::Parcel {
            from: HERE,
            stamp,
            place: 0,
            message,
        },
        sends,
        short: 0,
        seen: Seen::Done(notes),
    }
}

// The entry of the request, at the site's first stamp.
fn begun(alloc: Global, catalog: &Catalog) -> Result<Entry, Fail>
    requires { catalog.now ≡ (alone 100).catalog }
    ensures stamped { IfOk result (λ entry. stamped_of entry ≡
        at 1 (first_request (codes "a := a + 1") (changed model.Op.plus 0 1 model.Program.end)) 1 (done (began (txn_at 0 0) ∷ []))) }
    ensures planned { IfOk result (λ entry. ArePlanned catalog.now (entry ∷ [])) }
{
    let request = request(alloc, catalog)?;
    Ok(Entry {
        stamp: 1,
        input: Taken::Request { client: 0, request },
        sends: 1,
        short: 0,
        seen: Seen::Done(vec![in alloc; Note::Txn(T)]?),
    })
}

// The site's messages, in order.
fn lock(alloc: Global) -> Result<Message, Fail>
    ensures { IfOk result (λ message. message_of message ≡ lock_of 0) }
{
    let wants = vec![in alloc;
        Want {
            item: ItemId(0),
            exclusive: true
        },
    ]?;
    Ok(Message::Lock { txn: T, wants })
}

fn granted(alloc: Global) -> Result<Message, Fail>
    ensures { IfOk result (λ message. message_of message ≡ granted_of 0 100) }
{
    Ok(Message::Granted {
        txn: T,
        grant: GRANT,
        values: values(alloc, 100)?,
    })
}

fn prepare(alloc: Global) -> Result<Message, Fail>
    ensures { IfOk result (λ message. message_of message ≡ vote_asked) }
{
    Ok(Message::Prepare {
        txn: T,
        grant: GRANT,
        writes: values(alloc, 101)?,
    })
}

// The history.
fn history(alloc: Global, catalog: &Catalog) -> Result<Vec<Entry>, Fail>
    requires { catalog.now ≡ (alone 100).catalog }
    ensures stamps { IfOk result (λ entries. stamps_of entries.items ≡ served) }
    ensures planned { IfOk result (λ entries. ArePlanned catalog.now entries.items) }
    ensures count { IfOk result (λ entries. length entries.items ≡ 5) }
{
    let first = begun(alloc, catalog)?;
    let second = taken(1, lock(alloc)?, 1, Vec::new(alloc));
    let third = taken(2, granted(alloc)?, 1, Vec::new(alloc));
    let fourth = taken(3, prepare(alloc)?, 1, Vec::new(alloc));
    let commit = Note::Commit {
        txn: T,
        replies: vec![in alloc; Reply::Nothing]?,
    };
    let fifth = taken(4, Message::Yes { txn: T }, 0, vec![in alloc; commit]?);
    Ok(vec![in alloc; first, second, third, fourth, fifth]?)
}

// Whether they are the request and the site's four messages, in order.
fn are_of_request(events: &[Event]) -> bool {
    match events {
        [first, rest @ ..] => is_submit(first) && are_deliveries(rest),
        [] => false,
    }
}

// Whether it is a request for a change at the site.
fn is_submit(event: &Event) -> bool {
    matches!(
        event,
        Event::Submit {
            site: HERE,
            query: false,
            ..
        }
    )
}

// Whether they are the deliveries of the first four messages.
fn are_deliveries(events: &[Event]) -> bool {
    matches!(
        events,
        [
            Event::Deliver(0),
            Event::Deliver(1),
            Event::Deliver(2),
            Event::Deliver(3)
        ]
    )
}

// Whether the transaction begins and commits.
fn are_of_commit(lines: &[Line]) -> bool {
    match lines {
        [Line::Txn(T), Line::Commit { txn: T, replies }] => {
            replies.as_slice() == [Reply::Nothing].as_slice()
        }
        _ => false,
    }
}

// The history fits a site with the program's limits.
#[tactic(auto, unfolding(pv_base::specs::Canonical::canonical_cases, pv_model::specs::Meaning::exec, pv_model::specs::Plan::plan_of, pv_protocol::specs::Coordinate::new_value, pv_protocol::specs::Coordinate::reply_value, pv_protocol::specs::Granted::on_granted, pv_protocol::specs::Lock::on_lock, pv_protocol::specs::Lock::on_submit, pv_protocol::specs::Records::journal_bytes, pv_protocol::specs::Shown::shown_within, pv_protocol::specs::Tick::on_tick, pv_protocol::specs::Vote::on_prepare, pv_protocol::specs::Vote::on_yes))]
fn history_fits()
    ensures { FitTogether (setup_of (alone 100).catalog) (served ∷ []) }
{}

// The merge of the history.
fn merged(alloc: Global) -> Result<Run, Fail> {
    let catalog = catalog(alloc)?;
    let histories = vec![in alloc; history(alloc, &catalog)?]?;
    history_fits();
    let run = merge(alloc, &histories, &catalog)?;
    Ok(run)
}

#[test]
fn a_request_is_a_submit_and_four_messages(rt: HostRuntime) -> Result<(), Fail> {
    let run = merged(rt.alloc())?;
    assert!(rt; are_of_request(&run.events));
    assert!(rt; are_of_commit(&run.lines));
    Ok(())
}
