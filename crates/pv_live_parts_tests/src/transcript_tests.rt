// A schedule is written as it is read, and lines of clients and of the schedule as they are.
use pv_base::{MAX_JOURNAL, SiteId};
use pv_script::{Line, MAX_SCHEDULE, Schedule, read_schedule};
use pv_transcript::*;
use std::alloc::Global;
use std::test::Fail;

// An event of each kind.
const SCHEDULE: &[u8] = b"sites 2
journal 4294967296
item a 0 100
item b 1 -50
submit 0 a := a - 10 ; b := b + 10
query 1 return a + b
deliver 3
pump
pump 8
lose 4
drop 1
tick 0
stop 1
start 1
fail 0 1 lost
cut 1 2 kept
cut 1 2 torn
mend 0
checkpoint 1
sent
report
total
";

// the schedule that the text is
fn schedule_in(alloc: Global, text: &[u8]) -> Result<Schedule, Fail> {
    if text.len() > MAX_SCHEDULE {
        return Err("a schedule is short".into());
    }
    Ok(read_schedule(alloc, text)?)
}

// whether the schedule that the text is is written as the text
fn is_written(alloc: Global, text: &[u8]) -> Result<bool, Fail> {
    let schedule = schedule_in(alloc, text)?;
    let mut written = Vec::new(alloc);
    push_schedule(&mut written, &schedule.catalog, &schedule.events)?;
    Ok(written.as_slice().strip_prefix(b"schedule\n".as_slice()) == Some(text))
}

#[test]
fn a_schedule_is_written_as_it_is_read(rt: HostRuntime) -> Result<(), Fail> {
    assert_eq!(rt; MAX_JOURNAL, 4_294_967_296);
    assert!(rt; is_written(rt.alloc(), SCHEDULE)?);
    Ok(())
}

// What clients heard, and what the schedule printed, over a catalog without items.
fn heard(alloc: Global) -> Result<Vec<u8>, Fail> {
    let catalog = pv_base::Catalog::new(alloc, 2, MAX_JOURNAL);
    let mut text = Vec::new(alloc);
    push_clients_heading(&mut text)?;
    push_heard(&mut text, 0, 1, &Line::Down(SiteId(1)), &catalog)?;
    push_worn(&mut text, 2, 0, SiteId(1))?;
    push_no_memory(&mut text, 2, 1)?;
    push_answers(&mut text, &[Line::Down(SiteId(1))], &catalog)?;
    Ok(text)
}

#[test]
fn lines_are_written(rt: HostRuntime) -> Result<(), Fail> {
    let text = heard(rt.alloc())?;
    let told =
        b"clients\nclient 0 1 down 1\nclient 2 0 worn 1\nclient 2 1 no-memory\nanswers\ndown 1\n".as_slice();
    assert!(rt; text.as_slice() == told);
    Ok(())
}
