// Runs of four boxes, each in an order that is drawn, and the same in a world.
use crate::driven::Driven;
use crate::launched::launched;
use crate::merged::merge_histories;
use crate::records::{disks_of, records_of};
use crate::world::ran;
use pv_ckpt::CkptLog;
use pv_disk::MemDisk;
use pv_script::{MAX_SCHEDULE, read_live};
use std::alloc::Global;
use std::test::Fail;

const CATALOG: &[u8] = b"sites 4\nitem a 0 100\nitem b 1 50\nitem c 2 7\nitem d 3 0\nitem e 3 1\n";

const CLIENTS: &[u8] = b"client 0
submit a := a - 10 ; b := b + 10
submit require a > c ; a := a - c ; d := d + c
query return a + b
submit a := a + e
submit a := a * 2 ; return a
client 1
submit b := b - 3 ; c := c + 3
submit if a > b { b := a } else { d := b }
submit b := b + 1 ; e := b
query return b
submit b := c ; c := b
client 2
submit c := c + 1
submit c := d ; d := c
query return a + b + c + d
submit c := c + 2 ; a := a - 2
submit return c / (e - 1)
client 3
submit d := d + e
submit e := a ; a := e
submit d := d + 1
submit e := min(a, b) ; return e
query return d - e
";

// The script with this plan of what is lost and what comes twice between sites.
fn script(alloc: Global, drop_each: u32, double_each: u32) -> Result<Vec<u8>, Fail> {
    let mut text = Vec::from_slice(alloc, CATALOG)?;
    let plan = format!(in alloc; "plan {drop_each} {double_each}\n")?;
    text.extend_from_slice(plan.as_bytes())?;
    text.extend_from_slice(CLIENTS)?;
    Ok(text)
}

// What comes of so many visits and ticks, as they are drawn from this number on.
fn driven_by(
    alloc: Global,
    text: &[u8],
    seed: u64,
    visits: u32,
) -> Result<Driven<CkptLog<MemDisk>>, Fail> {
    if text.len() > MAX_SCHEDULE {
        return Err("the script is short".into());
    }
    let script = read_live(alloc, text)?;
    launched(alloc, &script, seed, visits)
}

// What the schedule comes to in a world.
fn ran_of(alloc: Global, schedule: &[u8]) -> Result<(String, String), Fail> {
    if schedule.len() > MAX_SCHEDULE {
        return Err("the schedule is short".into());
    }
    ran(alloc, schedule)
}

// Whether 1,000 visits and ticks, as they are drawn from this number on, come to the same as a world: the same lines, which are some, and the same records.
fn agree(alloc: Global, text: &[u8], seed: u64) -> Result<bool, Fail> {
    let Driven { logs, histories } = driven_by(alloc, text, seed, 1_000)?;
    let merged = merge_histories(alloc, CATALOG, &histories)?;
    let records = records_of(alloc, disks_of(alloc, logs)?)?;
    let (lines, left) = ran_of(alloc, &merged.schedule)?;
    let same = lines.as_str() == merged.lines.as_str() && left.as_str() == records.as_str();
    Ok(same && lines.len() > 1_000)
}

// Messages that come once, and some lost and some twice.
const PLANS: [(u32, u32); 3] = [(0, 0), (7, 5), (0, 2)];

#[test]
fn boxes_and_a_world_agree(rt: HostRuntime) -> Result<(), Fail> {
    for (drop_each, double_each) in PLANS {
        let text = script(rt.alloc(), drop_each, double_each)?;
        for seed in 0..3 {
            assert!(rt;
                agree(rt.alloc(), &text, seed)?,
                "from {seed}, by {drop_each} {double_each}"
            );
        }
    }
    Ok(())
}
