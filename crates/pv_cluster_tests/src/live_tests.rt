// Live runs of two sites with a client at each.
ghost use Rattle.std.specs.Prelude.{IfOk};
ghost use Rattle.pv_opening.specs.Opening.{IsRead};

use crate::lived::{Lived, launch_and_live};
use crate::meeting::Meeting;
use crate::records::{disks_of, records_of};
use crate::world::{Merged, merge_and_run};
use pv_base::{SiteId, TxnId};
use pv_cluster::{ClientLine, ClientWhat, IdleGate};
use pv_script::{Line, LiveScript, MAX_SCHEDULE, read_live};
use std::alloc::Global;
use std::test::Fail;

const SCRIPT: &[u8] = b"sites 2
item a 0 100
item b 1 50
item c 0 1
item d 1 2
client 0
submit c := c + 1
submit a := a - 10 ; b := b + 10
client 1
submit d := d + 1
submit b := b - 5 ; a := a + 5
";

// The script, read.
fn script(alloc: Global) -> Result<LiveScript, Fail>
    ensures { IfOk result IsRead }
{
    if SCRIPT.len() > MAX_SCHEDULE {
        return Err("the script is short".into());
    }
    let script = read_live(alloc, SCRIPT)?;
    Ok(script)
}

// Whether a client of this site heard what it has to: its first transaction, which is of no other site, commits, and its second one ends, since threads may have it wait too long.
fn has_heard(site: SiteId, lines: &[ClientLine]) -> bool {
    match lines {
        [first, second] => commits(site, &first.what) && ends(&second.what),
        _ => false,
    }
}

// Whether the first transaction of the site commits.
fn commits(site: SiteId, what: &ClientWhat) -> bool {
    let first = TxnId {
        site,
        epoch: 1,
        number: 0,
    };
    matches!(what, ClientWhat::Line(Line::Commit { txn, .. }) if *txn == first)
}

// Whether it is how a transaction ends.
fn ends(what: &ClientWhat) -> bool {
    matches!(
        what,
        ClientWhat::Line(
            Line::Commit { .. } | Line::RefuseConflict { .. } | Line::RefuseExpired { .. }
        )
    )
}

#[test]
fn a_live_run_and_a_world_agree(rt: HostRuntime) -> Result<(), Fail> {
    let alloc = rt.alloc();
    let script = script(alloc)?;
    let Lived {
        histories,
        logs,
        clients,
    } = launch_and_live(&rt, alloc, &script, &IdleGate)?;
    let Merged {
        told,
        printed,
        records,
    } = merge_and_run(alloc, &script.catalog, &histories)?;
    assert_eq!(rt; printed.as_str(), told.as_str());
    let kept = records_of(alloc, disks_of(alloc, logs)?)?;
    assert_eq!(rt; kept.as_str(), records.as_str());
    assert_eq!(rt; clients.len(), 2);
    assert!(rt; has_heard(SiteId(0), &clients[0]));
    assert!(rt; has_heard(SiteId(1), &clients[1]));
    Ok(())
}

#[test]
fn two_workers_are_in_visits_at_once(rt: HostRuntime) -> Result<(), Fail> {
    let alloc = rt.alloc();
    let script = script(alloc)?;
    let gate = Meeting::new();
    launch_and_live(&rt, alloc, &script, &gate)?;
    assert!(rt; gate.have_met());
    Ok(())
}
