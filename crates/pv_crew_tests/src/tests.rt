// What a client asks for and hears: with both ends of its rings on one thread, and by one of two desks that two workers visit on threads of their own, between the
// gate's calls.
use crate::desk::Desk;
use crate::watch::Watches;
use pv_crew::*;
use pv_post::{FaultPlan, pair};
use std::alloc::{AllocFailed, Global};
use std::test::Fail;

// A plan by which no message fails.
const NONE: FaultPlan = FaultPlan {
    drop_each: 0,
    double_each: 0,
};

// What the client is to ask for.
fn requests(alloc: Global) -> Result<Vec<u64>, AllocFailed<u64>> {
    let mut requests = Vec::new(alloc);
    requests.push(1)?;
    requests.push(5)?;
    Ok(requests)
}

#[test]
fn a_client_asks_in_order(rt: HostRuntime) -> Result<(), Fail> {
    let (asks, mut asked) = pair::<u64>(rt.alloc(), NONE)?;
    let (mut answers, hears) = pair::<u64>(rt.alloc(), NONE)?;
    answers.post(2);
    answers.post(6);
    let mut client = Client::new(rt.alloc(), requests(rt.alloc())?, asks, hears)?;
    client.play();
    assert_eq!(rt; client.heard.as_slice(), [2, 6].as_slice());
    assert!(rt; client.left.is_empty());
    assert_eq!(rt; asked.take(), Some((1, 1)));
    assert_eq!(rt; asked.take(), Some((5, 1)));
    Ok(())
}

#[test]
fn workers_serve_a_client(rt: HostRuntime) -> Result<(), Fail> {
    let (asks, asked) = pair::<u64>(rt.alloc(), NONE)?;
    let (answers, hears) = pair::<u64>(rt.alloc(), NONE)?;
    let (idle_answers, idle_asked) = pair::<u64>(rt.alloc(), NONE)?;
    let client = Client::new(rt.alloc(), requests(rt.alloc())?, asks, hears)?;
    let mut clients = Vec::new(rt.alloc());
    clients.push(client)?;
    let watches = Watches::new();
    let mut desks = Vec::new(rt.alloc());
    desks.push(Desk {
        asked,
        answers,
        watch: &watches.first,
    })?;
    desks.push(Desk {
        asked: idle_asked,
        answers: idle_answers,
        watch: &watches.second,
    })?;
    let (desks, clients) = serve(&rt, rt.alloc(), desks, 2, clients, &watches)?;
    assert_eq!(rt; clients[0].heard.as_slice(), [2, 6].as_slice());
    assert_eq!(rt; desks.len(), 2);
    assert!(rt; watches.first.is_in_order());
    assert!(rt; watches.second.is_in_order());
    assert!(rt; watches.first.visits() >= 2);
    Ok(())
}
