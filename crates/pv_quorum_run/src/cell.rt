// A decider of the run, up or down, and what an input, a stop, a start and an armed fault make of it. Only this module knows what the logs are that deciders
// stand on.
ghost use Rattle.std.specs.Prelude.{◌≡◌, ◌<◌, ◌≤◌, ℕ, [], None, Some, IfOk};
ghost use Rattle.pv_quorum.specs.DeciderState.{IsInput};
ghost use Rattle.pv_quorum.specs.Values.{input_of};
ghost use Rattle.pv_quorum_run.specs.Cells.{Breaks, HasBegun, HasStarted, HasStepped, HasStopped, IsDownAs, IsOpenLog, IsUpAs, Seat, StandsForSeat, first_seat};
ghost use Rattle.pv_quorum_run.specs.declared.cell.Cell.TheVariants.{Up};

use pv_base::{Mode, NoMemory};
use pv_ckpt::{CkptLog, armed_logs};
use pv_disk::MemDisk;
use pv_moored::{Opened, appends_to_moored_logs, formatted, mended, open_log};
use pv_quorum::{
    Decider, OpenDecider, QuorumError, QuorumInput, QuorumStep, contents_tell_records,
};
use std::alloc::Global;
use std::mem::replace;

/// A decider of the run.
#[derive(Drop)]
pub(crate) enum Cell {
    /// It is up.
    Up(Decider<CkptLog<MemDisk>>),
    /// It is down, and this is its disk.
    Down(MemDisk),
    /// An event is happening to it.
    Vacant,
}

/// What came of an input.
#[derive(Debug, Drop)]
pub(crate) enum Stepped {
    /// The decider was down, and took nothing.
    Down,
    /// It has made this step.
    Made(QuorumStep),
    /// A write or a sync of its disk fired, and it is down.
    Broke {
        /// Whether that stands for a stop, and not for a fault of the disk.
        stops: bool,
    },
}

/// What came of a start.
#[derive(Clone, Copy, Debug, PartialEq, Eq)]
pub(crate) enum Start {
    /// The decider was up.
    Up,
    /// It has started.
    Started,
    /// The sync of its disk fired, and it is down.
    Broke {
        /// Whether that stands for a stop, and not for a fault of the disk.
        stops: bool,
    },
}

impl Cell {
    // The decider of this number, of so many, as a run begins: it is up, over a disk with an empty log.
    pub(crate) fn open(alloc: Global, me: u8, count: u8) -> Result<Cell, NoMemory>
        requires fewest { 3 ≤ count }
        requires most { count ≤ 5 }
        requires me { me < count }
        ensures { IfOk result (λ cell. StandsForSeat count me cell first_seat) }
    {
        let disk = formatted(alloc)?;
        // Nothing is armed, so it starts.
        let (cell, _) = started(alloc, disk, me, count)?;
        Ok(cell)
    }

    // What the decider makes of the input.
    pub(crate) fn step(&mut self, input: &QuorumInput) -> Result<Stepped, NoMemory>
        requires seat { (count : ℕ) × (me : ℕ) × (seat : Seat) × StandsForSeat count me self.old seat × IsInput me count input.now }
        ensures { (count me : ℕ) (seat : Seat) → StandsForSeat count me self.old seat →
            IfOk result (HasStepped count me self.old self.new seat seat.memory (input_of input.now)) }
    {
        let (cell, stepped) = replace(self, Cell::Vacant).stepped(input)?;
        *self = cell;
        Ok(stepped)
    }

    // Stops a decider that is up, and answers whether it was.
    pub(crate) fn stop(&mut self) -> bool
        ensures { (count me : ℕ) (seat : Seat) → StandsForSeat count me self.old seat → HasStopped count me self.old self.new seat seat.memory result }
    {
        let (cell, was_up) = replace(self, Cell::Vacant).stopped();
        *self = cell;
        was_up
    }

    // Starts a decider that is down: its log is opened and read. Takes time in proportion to the log.
    pub(crate) fn start(&mut self, alloc: Global, me: u8, count: u8) -> Result<Start, NoMemory>
        requires fewest { 3 ≤ count }
        requires most { count ≤ 5 }
        requires me { me < count }
        requires seat { (seat : Seat) × StandsForSeat count me self.old seat }
        ensures { (seat : Seat) → StandsForSeat count me self.old seat → IfOk result (HasStarted count me self.old self.new seat seat.memory) }
    {
        let (cell, start) = replace(self, Cell::Vacant).begun(alloc, me, count)?;
        *self = cell;
        Ok(start)
    }

    // Lets the `k`-th write or sync of the decider's disk from now on, counted from 1, fire in place of one armed before.
    pub(crate) fn arm(&mut self, k: u32, mode: Mode, stop: bool)
        requires { 1 ≤ k }
        ensures { (count me : ℕ) (seat : Seat) → StandsForSeat count me self.old seat →
            StandsForSeat count me self.new (record seat { arm = Some (record { left = k; mode = mode; stop = stop }) }) }
    {
        *self = replace(self, Cell::Vacant).armed(k, mode, stop);
    }

    // Lets no write and no sync of the decider's disk fire.
    pub(crate) fn mend(&mut self)
        ensures { (count me : ℕ) (seat : Seat) → StandsForSeat count me self.old seat → StandsForSeat count me self.new (record seat { arm = None }) }
    {
        *self = replace(self, Cell::Vacant).at_rest();
    }

    // What the decider makes of the input, and its cell then.
    fn stepped(self, input: &QuorumInput) -> Result<(Cell, Stepped), NoMemory>
        requires seat { (count : ℕ) × (me : ℕ) × (seat : Seat) × StandsForSeat count me self seat × IsInput me count input.now }
        ensures { (count me : ℕ) (seat : Seat) → StandsForSeat count me self seat →
            IfOk result (λ made. HasStepped count me self made.0 seat seat.memory (input_of input.now) made.1) }
    {
        match self {
            Cell::Up(up) => up_step(up, input),
            down => Ok((down, Stepped::Down)),
        }
    }

    // The cell of a decider that is stopped, and whether it was up.
    fn stopped(self) -> (Cell, bool)
        ensures { (count me : ℕ) (seat : Seat) → StandsForSeat count me self seat → HasStopped count me self result.0 seat seat.memory result.1 }
    {
        match self {
            Cell::Up(up) => (Cell::Down(up.close().close()), true),
            down => (down, false),
        }
    }

    // The cell of a decider that is started, and what comes of that.
    fn begun(self, alloc: Global, me: u8, count: u8) -> Result<(Cell, Start), NoMemory>
        requires fewest { 3 ≤ count }
        requires most { count ≤ 5 }
        requires me { me < count }
        requires seat { (seat : Seat) × StandsForSeat count me self seat }
        ensures { (seat : Seat) → StandsForSeat count me self seat → IfOk result (λ made. HasStarted count me self made.0 seat seat.memory made.1) }
    {
        match self {
            Cell::Down(disk) => started(alloc, disk, me, count),
            up => Ok((up, Start::Up)),
        }
    }

    // The cell, where the `k`-th write or sync of the decider's disk from now on, counted from 1, fires in place of one armed before.
    fn armed(self, k: u32, mode: Mode, stop: bool) -> Cell
        requires { 1 ≤ k }
        ensures { (count me : ℕ) (seat : Seat) → StandsForSeat count me self seat →
            StandsForSeat count me result (record seat { arm = Some (record { left = k; mode = mode; stop = stop }) }) }
    {
        match self {
            Cell::Up(up) => {
                let mut up = up;
                up.log().disk().arm(k, mode, stop);
                Cell::Up(up)
            }
            Cell::Down(disk) => {
                let mut disk = disk;
                disk.arm(k, mode, stop);
                Cell::Down(disk)
            }
            Cell::Vacant => Cell::Vacant,
        }
    }

    // The cell, where no write and no sync of the decider's disk fires.
    fn at_rest(self) -> Cell
        ensures { (count me : ℕ) (seat : Seat) → StandsForSeat count me self seat → StandsForSeat count me result (record seat { arm = None }) }
    {
        match self {
            Cell::Up(up) => {
                let mut up = up;
                up.log().disk().mend();
                Cell::Up(up)
            }
            Cell::Down(disk) => {
                let mut disk = disk;
                disk.mend();
                Cell::Down(disk)
            }
            Cell::Vacant => Cell::Vacant,
        }
    }
}

// What a decider that is up makes of the input, and its cell then.
fn up_step(up: Decider<CkptLog<MemDisk>>, input: &QuorumInput) -> Result<(Cell, Stepped), NoMemory>
    requires seat { (count : ℕ) × (me : ℕ) × (seat : Seat) × IsUpAs count me up seat × IsInput me count input.now }
    ensures { (count me : ℕ) (seat : Seat) → IsUpAs count me up seat →
        IfOk result (λ made. HasStepped count me (Up up) made.0 seat seat.memory (input_of input.now) made.1) }
{
    appends_to_moored_logs();
    armed_logs();
    let mut up = up;
    match up.step(input) {
        Ok(step) => Ok((Cell::Up(up), Stepped::Made(step))),
        Err(QuorumError::Fault) => fallen(up),
        Err(QuorumError::NoMemory) => Err(NoMemory),
        // The decider is up.
        Err(QuorumError::Down) => unreachable!(),
    }
}

// A decider whose log failed: it is down, and what fired is told.
fn fallen(up: Decider<CkptLog<MemDisk>>) -> Result<(Cell, Stepped), NoMemory>
    ensures { IfOk result (Breaks up) }
{
    let (disk, stops) = mended(up.close().close())?;
    Ok((Cell::Down(disk), Stepped::Broke { stops }))
}

// What comes of starting the decider of this number, of so many, over its disk, and what its cell is then.
fn started(alloc: Global, disk: MemDisk, me: u8, count: u8) -> Result<(Cell, Start), NoMemory>
    requires fewest { 3 ≤ count }
    requires most { count ≤ 5 }
    requires me { me < count }
    requires seat { (seat : Seat) × IsDownAs disk seat }
    ensures { (seat : Seat) → IsDownAs disk seat → IfOk result (λ made. HasBegun count me made.0 seat made.1) }
{
    match open_log(alloc, disk)? {
        Opened::Up(log) => {
            let up = opened_on(alloc, log, me, count)?;
            Ok((Cell::Up(up), Start::Started))
        }
        Opened::Broke { disk, stops } => Ok((Cell::Down(disk), Start::Broke { stops })),
    }
}

// The decider of this number, of so many, on a log that was just opened.
fn opened_on(
    alloc: Global,
    log: CkptLog<MemDisk>,
    me: u8,
    count: u8,
) -> Result<Decider<CkptLog<MemDisk>>, NoMemory>
    requires fewest { 3 ≤ count }
    requires most { count ≤ 5 }
    requires me { me < count }
    requires seat { (seat : Seat) × IsOpenLog log seat }
    ensures { (seat : Seat) → IsOpenLog log seat → IfOk result (λ up. IsUpAs count me up (record seat { memory = Some [] })) }
{
    armed_logs();
    contents_tell_records();
    match Decider::open(alloc, log, me, count) {
        Ok(up) => Ok(up),
        // No read is to fail.
        Err(OpenDecider::Failed(_)) | Err(OpenDecider::NoMemory(_)) => Err(NoMemory),
        // The log holds the decider's records, and it is known that it does.
        Err(OpenDecider::BadRecord(..)) => unreachable!(),
        Err(OpenDecider::NotOurs(..)) => unreachable!(),
    }
}
