// An outbox over a disk in memory, up or down, and what an event of a script makes of it.
ghost use Rattle.std.specs.Prelude.{◌≤◌, IfOk, None, Some};
ghost use Rattle.pv_outbox_run.specs.Box.{Box, first_box};
ghost use Rattle.pv_outbox_run.specs.Stands.{Breaks, Comes, ComesTold, IsDown, IsOpen, IsUp, Stands};
ghost use Rattle.pv_outbox_script.specs.Held.{CanHappen};
ghost use Rattle.pv_outbox_script.specs.declared.event.Event.TheVariants.{Hold, Learn, Start, Take};

use crate::told::{Told, broken};
use pv_base::{Mode, NoMemory, TxnId};
use pv_ckpt::{CkptLog, armed_logs};
use pv_disk::MemDisk;
use pv_moored::{Opened, appends_to_moored_logs, formatted, mended, open_log};
use pv_outbox::{BoxError, OpenOutbox, Outbox, contents_tell_records};
use pv_outbox_script::Event;
use pv_tree::Poly;
use std::alloc::Global;

/// An outbox over a disk in memory.
#[derive(Drop)]
pub(crate) enum Cell {
    /// It is up.
    Up(Outbox<CkptLog<MemDisk>>),
    /// It is down, and this is its disk.
    Down(MemDisk),
}

/// It is up, over a disk that was empty.
pub(crate) fn first_cell(alloc: Global) -> Result<Cell, NoMemory>
    ensures { IfOk result (λ cell. Stands cell first_box) }
{
    let disk = formatted(alloc)?;
    let (cell, _) = started(alloc, disk)?;
    Ok(cell)
}

impl Cell {
    /// What an event makes of it, and what is told of that, if anything is.
    pub(crate) fn with(self, alloc: Global, event: &Event) -> Result<(Cell, Option<Told>), NoMemory>
        requires some { (box : Box) × Stands self box }
        requires possible { CanHappen event.now }
        ensures { (box : Box) → Stands self box → IfOk result (Comes box event.now) }
    {
        match self {
            Cell::Up(outbox) => up_with(outbox, event),
            Cell::Down(disk) => down_with(alloc, disk, event),
        }
    }
}

// What an event makes of an outbox that is up.
fn up_with(
    outbox: Outbox<CkptLog<MemDisk>>,
    event: &Event,
) -> Result<(Cell, Option<Told>), NoMemory>
    requires some { (box : Box) × IsUp outbox box }
    requires possible { CanHappen event.now }
    ensures { (box : Box) → IsUp outbox box → IfOk result (Comes box event.now) }
{
    match event {
        Event::Hold { output, when } => {
            let (cell, told) = held(outbox, *output, when)?;
            Ok((cell, Some(told)))
        }
        Event::Learn { txn, commits } => {
            let (cell, told) = learnt(outbox, *txn, *commits)?;
            Ok((cell, Some(told)))
        }
        Event::Take => {
            let (cell, told) = taken(outbox)?;
            Ok((cell, Some(told)))
        }
        Event::Arm { k, mode, stop } => { Ok((Cell::Up(up_armed(outbox, *k, *mode, *stop)), None)) }
        Event::Mend => Ok((Cell::Up(up_mended(outbox)), None)),
        Event::Stop => Ok((Cell::Down(outbox.close().close()), Some(Told::Stopped))),
        Event::Start => Ok((Cell::Up(outbox), Some(Told::Up))),
    }
}

// What an event makes of an outbox that is down, over this disk.
fn down_with(alloc: Global, disk: MemDisk, event: &Event) -> Result<(Cell, Option<Told>), NoMemory>
    requires some { (box : Box) × IsDown disk box }
    requires possible { CanHappen event.now }
    ensures { (box : Box) → IsDown disk box → IfOk result (Comes box event.now) }
{
    match event {
        Event::Arm { k, mode, stop } => {
            Ok((Cell::Down(disk_armed(disk, *k, *mode, *stop)), None))
        }
        Event::Mend => Ok((Cell::Down(disk_mended(disk)), None)),
        Event::Start => {
            let (cell, told) = started(alloc, disk)?;
            Ok((cell, Some(told)))
        }
        Event::Hold { .. } | Event::Learn { .. } | Event::Take | Event::Stop => {
            Ok((Cell::Down(disk), Some(Told::Down)))
        }
    }
}

// The outbox, once this is armed at its disk.
fn up_armed(
    outbox: Outbox<CkptLog<MemDisk>>,
    k: u32,
    mode: Mode,
    stop: bool,
) -> Outbox<CkptLog<MemDisk>>
    requires { 1 ≤ k }
    ensures { (box : Box) → IsUp outbox box → IsUp result (record box { armed = Some (record { left = k; mode = mode; stop = stop }) }) }
{
    let mut outbox = outbox;
    outbox.log().disk().arm(k, mode, stop);
    outbox
}

// The outbox, once nothing is armed at its disk.
fn up_mended(outbox: Outbox<CkptLog<MemDisk>>) -> Outbox<CkptLog<MemDisk>>
    ensures { (box : Box) → IsUp outbox box → IsUp result (record box { armed = None }) }
{
    let mut outbox = outbox;
    outbox.log().disk().mend();
    outbox
}

// The disk, once this is armed there.
fn disk_armed(disk: MemDisk, k: u32, mode: Mode, stop: bool) -> MemDisk
    requires { 1 ≤ k }
    ensures { (box : Box) → IsDown disk box → IsDown result (record box { armed = Some (record { left = k; mode = mode; stop = stop }) }) }
{
    let mut disk = disk;
    disk.arm(k, mode, stop);
    disk
}

// The disk, once nothing is armed there.
fn disk_mended(disk: MemDisk) -> MemDisk
    ensures { (box : Box) → IsDown disk box → IsDown result (record box { armed = None }) }
{
    let mut disk = disk;
    disk.mend();
    disk
}

// What a start comes to over the disk of an outbox that is down.
fn started(alloc: Global, disk: MemDisk) -> Result<(Cell, Told), NoMemory>
    requires { (box : Box) × IsDown disk box }
    ensures { (box : Box) → IsDown disk box → IfOk result (ComesTold box Start) }
{
    let made = open_log(alloc, disk)?;
    match made {
        Opened::Up(log) => {
            let outbox = opened_on(alloc, log)?;
            Ok((Cell::Up(outbox), Told::Started))
        }
        Opened::Broke { disk, stops } => Ok((Cell::Down(disk), broken(stops))),
    }
}

// The outbox on a log that was just opened.
fn opened_on(alloc: Global, log: CkptLog<MemDisk>) -> Result<Outbox<CkptLog<MemDisk>>, NoMemory>
    requires { (box : Box) × IsOpen log box }
    ensures { (box : Box) → IsOpen log box → IfOk result (λ outbox. IsUp outbox box) }
{
    armed_logs();
    contents_tell_records();
    match Outbox::open(alloc, log) {
        Ok(outbox) => Ok(outbox),
        // No read is to fail.
        Err(OpenOutbox::Failed(_)) | Err(OpenOutbox::NoMemory(_)) => Err(NoMemory),
        // The log holds the records of an outbox, and it is known that it does.
        Err(OpenOutbox::BadRecord(..)) => unreachable!(),
        Err(OpenOutbox::NotOurs(..)) => unreachable!(),
    }
}

// An output is to be held.
fn held(
    outbox: Outbox<CkptLog<MemDisk>>,
    output: u32,
    when: &Poly<i64>,
) -> Result<(Cell, Told), NoMemory>
    requires some { (box : Box) × IsUp outbox box }
    requires possible { CanHappen (Hold output when.now) }
    ensures { (box : Box) → IsUp outbox box → IfOk result (ComesTold box (Hold output when.now)) }
{
    appends_to_moored_logs();
    armed_logs();
    contents_tell_records();
    let mut outbox = outbox;
    match outbox.hold(output, when) {
        Ok(()) => Ok((Cell::Up(outbox), Told::Held(output))),
        Err(BoxError::Again) => Ok((Cell::Up(outbox), Told::Again(output))),
        Err(BoxError::Full(length)) => Ok((Cell::Up(outbox), Told::Full(length))),
        Err(BoxError::Failed) => fallen(outbox),
        Err(BoxError::NoMemory) => Err(NoMemory),
        // The outbox is up.
        Err(BoxError::Known(_)) | Err(BoxError::Down) => unreachable!(),
    }
}

// An outcome is to be learnt.
fn learnt(
    outbox: Outbox<CkptLog<MemDisk>>,
    txn: TxnId,
    commits: bool,
) -> Result<(Cell, Told), NoMemory>
    requires some { (box : Box) × IsUp outbox box }
    requires possible { CanHappen (Learn txn commits) }
    ensures { (box : Box) → IsUp outbox box → IfOk result (ComesTold box (Learn txn commits)) }
{
    appends_to_moored_logs();
    armed_logs();
    contents_tell_records();
    let mut outbox = outbox;
    match outbox.learn(txn, commits) {
        Ok(()) => Ok((Cell::Up(outbox), Told::Learnt(txn))),
        Err(BoxError::Known(known)) => Ok((Cell::Up(outbox), Told::Known(txn, known))),
        Err(BoxError::Full(length)) => Ok((Cell::Up(outbox), Told::Full(length))),
        Err(BoxError::Failed) => fallen(outbox),
        Err(BoxError::NoMemory) => Err(NoMemory),
        // The outbox is up.
        Err(BoxError::Again) | Err(BoxError::Down) => unreachable!(),
    }
}

// The next output is to be released.
fn taken(outbox: Outbox<CkptLog<MemDisk>>) -> Result<(Cell, Told), NoMemory>
    requires { (box : Box) × IsUp outbox box }
    ensures { (box : Box) → IsUp outbox box → IfOk result (ComesTold box Take) }
{
    appends_to_moored_logs();
    armed_logs();
    contents_tell_records();
    let mut outbox = outbox;
    match outbox.take() {
        Ok(Some(output)) => Ok((Cell::Up(outbox), Told::Out(output))),
        Ok(None) => Ok((Cell::Up(outbox), Told::Nothing)),
        Err(BoxError::Full(length)) => Ok((Cell::Up(outbox), Told::Full(length))),
        Err(BoxError::Failed) => fallen(outbox),
        Err(BoxError::NoMemory) => Err(NoMemory),
        // The outbox is up.
        Err(BoxError::Again) | Err(BoxError::Known(_)) | Err(BoxError::Down) => unreachable!(),
    }
}

// An outbox whose log failed: it is down, and what fired is told.
fn fallen(outbox: Outbox<CkptLog<MemDisk>>) -> Result<(Cell, Told), NoMemory>
    ensures { IfOk result (Breaks outbox) }
{
    let (disk, stops) = mended(outbox.close().close())?;
    Ok((Cell::Down(disk), broken(stops)))
}
