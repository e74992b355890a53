// What a client hears of each of its requests, by a history in which one commits, the site fails at the next, and is down at the third.
use pv_base::{Reply, SiteId, TxnId};
use pv_history::{Entry, Seen, Taken};
use pv_script::{MAX_SCHEDULE, Request, Wish, read_live};
use pv_site::Note;
use pv_told::{has_line, lines_of_client};
use std::alloc::Global;
use std::test::Fail;

const T: TxnId = TxnId {
    site: SiteId(0),
    epoch: 1,
    number: 0,
};

// Three requests.
const SCRIPT: &[u8] = b"sites 1
item a 0 100
client 0
submit a := a + 1
submit a := a + 2
submit a := a + 3
";

// what the script's client wants
fn wishes(alloc: Global) -> Result<Vec<Wish>, Fail> {
    if SCRIPT.len() > MAX_SCHEDULE {
        return Err("a script is short".into());
    }
    let mut live = read_live(alloc, SCRIPT)?;
    match live.clients.pop() {
        Some(client) => Ok(client.requests),
        None => Err("a script has a client".into()),
    }
}

// what came of the request of this number
fn seen(alloc: Global, number: u32) -> Result<Seen, Fail> {
    Ok(match number {
        0 => Seen::Done(vec![in alloc; Note::Txn(T)]?),
        1 => Seen::Fault,
        _ => Seen::Down,
    })
}

// the entry of a request of the second client
fn asked(stamp: u64, request: Request, seen: Seen) -> Entry {
    Entry {
        stamp,
        input: Taken::Request { client: 1, request },
        sends: 0,
        short: 0,
        seen,
    }
}

// the entry of the commit
fn committed(alloc: Global) -> Result<Entry, Fail> {
    let replies = vec![in alloc; Reply::Nothing]?;
    Ok(Entry {
        stamp: 9,
        input: Taken::Tick,
        sends: 0,
        short: 0,
        seen: Seen::Done(vec![in alloc; Note::Commit { txn: T, replies }]?),
    })
}

// the history
fn history(alloc: Global) -> Result<Vec<Entry>, Fail> {
    let mut history = Vec::new(alloc);
    for wish in wishes(alloc)? {
        if let Wish::Do(request) = wish {
            let seen = seen(alloc, request.number)?;
            history.push(asked(u64::from(request.number), request, seen))?;
        }
    }
    history.push(committed(alloc)?)?;
    Ok(history)
}

// what the client of this place hears of so many requests, as it is debugged
fn told(
    alloc: Global,
    history: &[Entry],
    worn: bool,
    client: u32,
    requests: u32,
) -> Result<String, Fail> {
    let lines = lines_of_client(alloc, SiteId(0), worn, history, client, requests)?;
    Ok(format!(in alloc; "{lines:?}")?)
}

const TOLD: &str =
    "[ClientLine { request: 0, what: Line(Commit { txn: TxnId { site: SiteId(0), epoch: 1, number: 0 }, replies: [Nothing] }) }, ClientLine { request: 1, what: Line(Fault(SiteId(0))) }, ClientLine { request: 2, what: Line(Down(SiteId(0))) }, ClientLine { request: 3, what: NoMemory }]";

#[test]
fn each_request_has_its_line(rt: HostRuntime) -> Result<(), Fail> {
    let alloc = rt.alloc();
    let history = history(alloc)?;
    assert_eq!(rt; told(alloc, &history, false, 1, 4)?.as_str(), TOLD);
    assert_eq!(rt;
        told(alloc, &history, true, 0, 1)?.as_str(),
        "[ClientLine { request: 0, what: Worn }]"
    );
    assert!(rt; has_line(alloc, &history, 1, 0)?);
    assert!(rt; !has_line(alloc, &history, 1, 1)?);
    Ok(())
}
