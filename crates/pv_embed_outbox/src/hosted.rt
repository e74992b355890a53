// An outbox, for a host that writes its journal.
ghost use Rattle.std.specs.Prelude.{◌≡◌, ◌≤◌, ◌<◌, nat_le, ℕ, Some};
ghost use Rattle.std.specs.Option.{option_map};
ghost use Rattle.pv_host.specs.HostLaws.{host_model};
ghost use Rattle.pv_host.specs.HostLog.{HostState, contents_of, least_write, next_write};
ghost use Rattle.pv_host.specs.HostWrites.{write_of};
ghost use Rattle.pv_outbox.specs.Opens.{Opens};
ghost use Rattle.pv_outbox.specs.OutboxState.{IsUsable};
ghost use Rattle.pv_embed_outbox.specs.Calls.{HoldsBy, LearnsBy, ReleasesBy, TakesBy, before_fault, known_fault};
ghost use Rattle.pv_embed_outbox.specs.Hosted.{AsksForGroup, Writes, log_length, stored_length};
ghost use Rattle.pv_embed_outbox.specs.Opening.{IsUnread, OpensHosted, RefusesContents};

use crate::release::{Release, keep, take_first};
use crate::{HoldFault, LearnFault, OpeningFault, ReleaseFault, TakeFault};
use pv_base::{MAX_JOURNAL, MAX_SITES, TxnId};
use pv_disk::{Log, LookError};
use pv_host::{HostLog, HostWrite, host_logs_never_fail};
use pv_lines::LineFault;
use pv_outbox::{BoxError, OpenOutbox, Outbox};
use pv_outbox_script::read_condition;
use std::alloc::Global;
use std::collections::VecDeque;
use std::marker::Model;

/// An outbox for a host that writes its journal.
///
/// The host opens it on the bytes of its journal, a file of the host. It has it hold outputs back and learn outcomes, and release what is ready; each adds a record. Then
/// it asks for a group of the records that wait by [`HostedOutbox::ask`], writes what [`HostedOutbox::next_write`] says into the file, syncs, and says so by
/// [`HostedOutbox::written`], until there is nothing to write; and takes what was released by [`HostedOutbox::take`]. No output is let out before the record of its release is in
/// the file, and of what was held or learnt before nothing is told while a record isn't.
///
/// After a crash of the host the outbox is opened again on what the file then holds.
#[derive(Drop)]
pub struct HostedOutbox {
    /// Where its memory comes from.
    alloc: Global,
    /// The outbox.
    outbox: Outbox<HostLog>,
    /// What was released and not taken, the oldest first.
    released: VecDeque<Release>,
}

impl Model for HostedOutbox {
    ghost use Rattle.pv_embed_outbox.specs.Hosted.{HostedState};
    ghost use Rattle.pv_embed_outbox.specs.HostedView.{hosted_of, IsHosted};

    ghost Value = { HostedState };

    ghost view = { hosted_of };

    ghost invariant = { IsHosted };
}

impl HostedOutbox {
    ghost use Rattle.std.specs.Prelude.{⊤};
    ghost use Rattle.std.specs.Borrow.{sem};
    ghost use mathlib.Core.Option.{none};
    ghost use denote.Follow.{follows_so};
    ghost use Rattle.pv_embed_outbox.specs.contracts.hosted.HostedOutbox.{the_row};

    /// Opens an outbox. The journal is what the host's file holds, [`EMPTY_JOURNAL`](pv_host::EMPTY_JOURNAL) for a new one. What the host keeps beyond the
    /// journal's end doesn't matter. Before the host reads the bytes it syncs the file, and for a new one its entry in the folder.
    ///
    /// Nothing is to be written by an opening. Takes time in proportion to the bytes.
    ///
    /// [`OpeningFault`] has the causes of a refusal.
    pub fn open(alloc: Global, journal: Vec<u8>) -> Result<HostedOutbox, OpeningFault>
        ensures { OpensHosted journal.items result }
    {
        let log = match HostLog::open(alloc, journal, MAX_JOURNAL) {
            Ok(log) => log,
            Err(LookError::NotOurs(place)) => return Err(OpeningFault::NotOurs(place)),
            Err(LookError::NoMemory) => return Err(OpeningFault::NoMemory),
            // The bytes are in memory, and are read without fail.
            Err(LookError::Failed) => unreachable!(),
        };
        match Outbox::open(alloc, log) {
            Ok(outbox) => Ok(HostedOutbox {
                alloc,
                outbox,
                released: VecDeque::new(alloc),
            }),
            Err(error) => Err(fault_of(error)),
        }
    }

    /// Holds an output back under the condition that the text spells, as a script of an outbox has it behind the output. Takes time in proportion to the text and
    /// to the condition. The output is held for good once the host has written all that it is then asked for.
    ///
    /// [`HoldFault`] has the causes of a refusal.
    pub fn hold(&mut self, output: u32, text: &[u8]) -> Result<(), HoldFault>
        ensures { HoldsBy self.old self.new output text.now result }
    {
        host_logs_never_fail();
        let when = match read_condition(self.alloc, text) {
            Ok(when) => when,
            Err(LineFault::NoMemory) => return Err(HoldFault::NoMemory),
            Err(LineFault::At(_)) => return Err(HoldFault::BadCases),
        };
        match self.outbox.hold(output, &when) {
            Ok(()) => Ok(()),
            Err(BoxError::Again) => Err(self.held_before()),
            Err(BoxError::Full(length)) => Err(HoldFault::Full(length)),
            Err(BoxError::NoMemory) => Err(HoldFault::NoMemory),
            // No append fails, and it isn't down.
            Err(BoxError::Known(_)) | Err(BoxError::Failed) | Err(BoxError::Down) => unreachable!(),
        }
    }

    /// Learns the outcome of a transaction. Takes time in proportion to the outputs that wait for it, times the logarithm of those that may be ready. It is learnt for good once the host has
    /// written all that it is then asked for.
    ///
    /// [`LearnFault`] has the causes of a refusal.
    pub fn learn(&mut self, txn: TxnId, commits: bool) -> Result<(), LearnFault>
        ensures { LearnsBy self.old self.new txn commits result }
    {
        host_logs_never_fail();
        if txn.site.0 >= MAX_SITES {
            return Err(LearnFault::NoSite);
        }
        match self.outbox.learn(txn, commits) {
            Ok(()) => Ok(()),
            Err(BoxError::Known(outcome)) => Err(self.known_before(outcome)),
            Err(BoxError::Full(length)) => Err(LearnFault::Full(length)),
            Err(BoxError::NoMemory) => Err(LearnFault::NoMemory),
            // No append fails, and it isn't down.
            Err(BoxError::Again) | Err(BoxError::Failed) | Err(BoxError::Down) => unreachable!(),
        }
    }

    /// Releases the ready output that was held first. It is let out by [`HostedOutbox::take`] once the record of its release is in the host's file. Takes the logarithm of the
    /// outputs that may be ready, amortized.
    ///
    /// [`ReleaseFault`] has the causes of a refusal.
    pub fn release(&mut self) -> Result<(), ReleaseFault>
        ensures { ReleasesBy self.old self.new result }
    {
        host_logs_never_fail();
        if self.released.reserve(1).is_err() {
            return Err(ReleaseFault::NoMemory);
        }
        match self.outbox.take() {
            Ok(Some(output)) => {
                let length = self.outbox.log().length();
                keep(&mut self.released, Release { length, output });
                Ok(())
            }
            Ok(None) => Err(ReleaseFault::NoneReady),
            Err(BoxError::Full(length)) => Err(ReleaseFault::Full(length)),
            Err(BoxError::NoMemory) => Err(ReleaseFault::NoMemory),
            // No append fails, and it isn't down.
            Err(BoxError::Again)
            | Err(BoxError::Known(_))
            | Err(BoxError::Failed)
            | Err(BoxError::Down) => unreachable!(),
        }
    }

    /// Takes the next output that was released, in that order, where the host's file has the record of its release. The cost is bounded by a constant.
    ///
    /// [`TakeFault`] has the causes of a refusal.
    pub fn take(&mut self) -> Result<u32, TakeFault>
        ensures { TakesBy self.old self.new result }
    {
        let stored = self.stored();
        take_first(&mut self.released, stored)
    }

    /// The host is to write a group of the records that wait: as many as have so much room, in bytes, and one at least. A group that it was asked to write before
    /// stays until it has told that it is written. Takes time in proportion to the records of the group.
    pub fn ask(&mut self, room: usize)
        ensures asks { AsksForGroup room self.old self.new }
        ensures stores { stored_length self.new ≡ stored_length self.old }
    {
        self.outbox.log().ask(room);
    }

    /// For how many bytes the host needs room at least to be told what to write next, if there is something to write or to ask for. The cost is bounded by a constant.
    pub fn least_write(&mut self) -> Option<usize>
        ensures unchanged { self.new ≡ self.old }
        ensures least { result ≡ least_write self.old.outbox.log }
    {
        self.outbox.log().least_write()
    }

    /// What the host is to write next into its file of the group that it was asked to write, if there is one. It is the same until the host has told that it is done. The
    /// cost is bounded by a constant.
    pub fn next_write(&mut self) -> Option<HostWrite<'_>>
        ensures* unchanged { sem 𝓛 (follows_so the_row the_row self.entry.ghost_name none (λ _ _. ⊤) (λ new. new ≡ self.old)) }
        ensures write { option_map write_of result ≡ next_write self.old.outbox.log }
    {
        self.outbox.log().next_write()
    }

    /// The host has written that, and synced its file. Where it was asked to write nothing, nothing happens. Once a group is written, the cost is in proportion to what
    /// waits; else it is bounded by a constant.
    pub fn written(&mut self)
        ensures { Writes self.old self.new }
    {
        self.outbox.log().written();
    }

    /// How long the journal in the host's file is, by what the host has told.
    pub fn stored(&mut self) -> u64
        ensures unchanged { self.new ≡ self.old }
        ensures length { result ≡ stored_length self.old }
    {
        self.outbox.log().stored()
    }

    /// How long it is once the host has written all that the outbox has asked for.
    pub fn length(&mut self) -> u64
        ensures unchanged { self.new ≡ self.old }
        ensures length { result ≡ log_length self.old }
    {
        self.outbox.log().length()
    }

    // Whether the host's file has all records.
    fn is_written(&mut self) -> bool
        ensures unchanged { self.new ≡ self.old }
        ensures written { result ≡ nat_le (log_length self.old) (stored_length self.old) }
    {
        let length = self.length();
        length <= self.stored()
    }

    // Why an output isn't held that was held before.
    fn held_before(&mut self) -> HoldFault
        ensures unchanged { self.new ≡ self.old }
        ensures told { result ≡ before_fault (log_length self.old) (stored_length self.old) }
    {
        if self.is_written() {
            HoldFault::Again
        } else {
            HoldFault::Unwritten
        }
    }

    // Why an outcome isn't learnt where this one was before.
    fn known_before(&mut self, outcome: bool) -> LearnFault
        ensures unchanged { self.new ≡ self.old }
        ensures told { result ≡ known_fault (log_length self.old) (stored_length self.old) outcome }
    {
        if self.is_written() {
            LearnFault::Known(outcome)
        } else {
            LearnFault::Unwritten
        }
    }
}

// Why the outbox isn't opened on the log.
fn fault_of(error: OpenOutbox<HostLog>) -> OpeningFault
    requires { (log : HostState) × IsUnread log × Opens host_model log (Err error) }
    ensures { (log : HostState) → IsUnread log → Opens host_model log (Err error) → RefusesContents (contents_of log) result }
{
    match error {
        OpenOutbox::BadRecord(_, index) => OpeningFault::BadRecord(index),
        OpenOutbox::NoMemory(_) => OpeningFault::NoMemory,
        // What the log holds is known, and no call of it fails.
        OpenOutbox::Failed(_) | OpenOutbox::NotOurs(..) => unreachable!(),
    }
}
