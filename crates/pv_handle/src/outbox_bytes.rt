// An outbox whose journal's records go out as bytes, for a host that has only so much room for them.
ghost use Rattle.std.specs.Prelude.{◌≡◌};
ghost use Rattle.pv_embed_outbox.specs.Calls.{HoldsBy, LearnsBy, ReleasesBy, TakesBy};
ghost use Rattle.pv_handle.specs.Outbox.{AcceptsBoxWrite, InformsBox, OnBox, OpensBox, TakesBoxWrite};

use crate::faults::NotNext;
use crate::given::{Given, give};
use crate::journal_info::JournalInfo;
use pv_base::{MAX_JOURNAL, TxnId};
use pv_embed_outbox::{HoldFault, HostedOutbox, LearnFault, OpeningFault, ReleaseFault, TakeFault};
use pv_host::groups_fit_their_room;
use std::alloc::Global;
use std::marker::Model;

/// An outbox, as [`HostedOutbox`] is one, whose host takes bytes to write: what doesn't fit into the room that the host has stays, and comes again.
#[derive(Drop)]
pub struct ByteOutbox {
    /// The outbox.
    outbox: HostedOutbox,
    /// Whether the host was given the bytes of what it is to write next.
    taken: bool,
}

impl Model for ByteOutbox {
    ghost use Rattle.pv_handle.specs.Outbox.{BoxState};

    ghost Value = { BoxState };

    ghost view = { λ s. record { hosted = s.outbox; taken = s.taken } };
}

impl ByteOutbox {
    /// Opens an outbox on what the host's file holds, as [`HostedOutbox::open`] does.
    pub fn open(alloc: Global, file: &[u8]) -> Result<ByteOutbox, OpeningFault>
        ensures { OpensBox file.now result }
    {
        let Ok(copy) = Vec::from_slice(alloc, file) else {
            return Err(OpeningFault::NoMemory);
        };
        match HostedOutbox::open(alloc, copy) {
            Ok(outbox) => Ok(ByteOutbox {
                outbox,
                taken: false,
            }),
            Err(fault) => Err(fault),
        }
    }

    /// An output is held back, as [`HostedOutbox::hold`] does it.
    pub fn hold(&mut self, output: u32, text: &[u8]) -> Result<(), HoldFault>
        ensures { OnBox (λ old new. HoldsBy old new output text.now) self.old self.new result }
    {
        self.outbox.hold(output, text)
    }

    /// An outcome is learnt, as [`HostedOutbox::learn`] does it.
    pub fn learn(&mut self, txn: TxnId, commits: bool) -> Result<(), LearnFault>
        ensures { OnBox (λ old new. LearnsBy old new txn commits) self.old self.new result }
    {
        self.outbox.learn(txn, commits)
    }

    /// The ready output that was held first is released, as [`HostedOutbox::release`] does it.
    pub fn release(&mut self) -> Result<(), ReleaseFault>
        ensures { OnBox (λ old new. ReleasesBy old new) self.old self.new result }
    {
        self.outbox.release()
    }

    /// The next output that was released is taken, as [`HostedOutbox::take`] does it.
    pub fn take(&mut self) -> Result<u32, TakeFault>
        ensures { OnBox (λ old new. TakesBy old new) self.old self.new result }
    {
        self.outbox.take()
    }

    /// What the host is to write next into its file: of the records that wait a group, as many as have room in `out`, and one at least. Where there is no room for one
    /// it isn't asked to write, and told how much room it needs. Else the same comes until it has told that it is done.
    pub fn next_write(&mut self, out: &mut [u8]) -> Given
        ensures { TakesBoxWrite out.old out.new self.old self.new result }
    {
        groups_fit_their_room();
        let Some(needed) = self.outbox.least_write() else {
            return Given::Nothing;
        };
        if out.len() < needed {
            return Given::TooSmall { needed };
        }
        self.outbox.ask(out.len());
        let Some(write) = self.outbox.next_write() else {
            // There is something to write.
            unreachable!();
        };
        let given = give(write.bytes, write.place, out);
        self.taken = true;
        given
    }

    /// The host has written so many bytes at this place, and synced its file. That is taken only of what is to be written next, and only where
    /// [`ByteOutbox::next_write`] has given its bytes.
    pub fn written(&mut self, place: u64, count: usize) -> Result<(), NotNext>
        ensures { AcceptsBoxWrite place count self.old self.new result }
    {
        if !self.taken {
            return Err(NotNext);
        }
        let is_next = match self.outbox.next_write() {
            Some(write) => write.place == place && write.bytes.len() == count,
            None => false,
        };
        if !is_next {
            return Err(NotNext);
        }
        self.outbox.written();
        self.taken = false;
        Ok(())
    }

    /// How long its journal is.
    pub fn info(&mut self) -> JournalInfo
        ensures unchanged { self.new ≡ self.old }
        ensures informs { InformsBox self.old.hosted result }
    {
        let stored = self.outbox.stored();
        let asked = self.outbox.length();
        JournalInfo {
            stored,
            asked,
            limit: MAX_JOURNAL,
        }
    }
}
