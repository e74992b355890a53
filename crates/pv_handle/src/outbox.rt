// The slot of an outbox.
mod handle;

ghost use Rattle.std.specs.Prelude.{◌≡◌, Some, None, IsSome, is_some};

use crate::faults::NotNext;
use crate::given::Given;
use crate::journal_info::JournalInfo;
use crate::outbox_bytes::ByteOutbox;
use crate::parts::boxed;
use crate::refused::Refused;
use handle::OutboxHandle;
use pv_base::TxnId;
use pv_embed_outbox::{HoldFault, LearnFault, OpeningFault, ReleaseFault, TakeFault};
use std::alloc::Global;

/// An outbox or none, as C holds it: zeroes are a closed slot.
#[repr(C)]
pub struct OutboxSlot {
    live: bool,
    /// Where the outbox lies.
    pub handle: OutboxHandle,
    /// The flag says whether there is an outbox.
    pub ghost agrees: { live ≡ is_some handle.outbox },
}

impl OutboxSlot {
    ghost use Rattle.std.specs.Prelude.{IfNone};
    ghost use Rattle.pv_embed_outbox.specs.Calls.{HoldsBy, LearnsBy, ReleasesBy, TakesBy};
    ghost use Rattle.pv_handle.specs.Outbox.{AcceptsBoxWrite, InformsBox, OnBox, OpensBox, TakesBoxWrite};
    ghost use Rattle.pv_handle.specs.Slot.{Opens, Calls, Asks};

    /// A slot with no outbox.
    pub fn closed(alloc: Global) -> OutboxSlot
        ensures { result.handle.outbox ≡ None }
    {
        OutboxSlot {
            live: false,
            handle: OutboxHandle::none(alloc),
        }
    }

    /// Opens a closed slot with an outbox that goes on from a journal.
    pub fn open(&mut self, alloc: Global, journal: &[u8]) -> Result<(), Refused<OpeningFault>>
        ensures { Opens (OpensBox journal.now) self.old.handle.outbox self.new.handle.outbox result }
    {
        if self.live {
            return Err(Refused::InUse);
        }
        let outbox = match ByteOutbox::open(alloc, journal) {
            Ok(outbox) => outbox,
            Err(fault) => return Err(Refused::Engine(fault)),
        };
        let Ok(outbox) = boxed(alloc, outbox) else {
            return Err(Refused::Engine(OpeningFault::NoMemory));
        };
        self.put(outbox);
        Ok(())
    }

    /// An output is held back.
    pub fn hold(
        &mut self,
        alloc: Global,
        output: u32,
        text: &[u8],
    ) -> Result<(), Refused<HoldFault>>
        ensures { Calls (OnBox (λ old new. HoldsBy old new output text.now)) self.old.handle.outbox self.new.handle.outbox result }
    {
        if !self.live {
            return Err(Refused::Closed);
        }
        let mut outbox = self.take_out(alloc);
        let done = outbox.hold(output, text);
        self.put(outbox);
        match done {
            Ok(()) => Ok(()),
            Err(fault) => Err(Refused::Engine(fault)),
        }
    }

    /// An outcome is learnt.
    pub fn learn(
        &mut self,
        alloc: Global,
        txn: TxnId,
        commits: bool,
    ) -> Result<(), Refused<LearnFault>>
        ensures { Calls (OnBox (λ old new. LearnsBy old new txn commits)) self.old.handle.outbox self.new.handle.outbox result }
    {
        if !self.live {
            return Err(Refused::Closed);
        }
        let mut outbox = self.take_out(alloc);
        let done = outbox.learn(txn, commits);
        self.put(outbox);
        match done {
            Ok(()) => Ok(()),
            Err(fault) => Err(Refused::Engine(fault)),
        }
    }

    /// The ready output that was held first is released.
    pub fn release(&mut self, alloc: Global) -> Result<(), Refused<ReleaseFault>>
        ensures { Calls (OnBox (λ old new. ReleasesBy old new)) self.old.handle.outbox self.new.handle.outbox result }
    {
        if !self.live {
            return Err(Refused::Closed);
        }
        let mut outbox = self.take_out(alloc);
        let done = outbox.release();
        self.put(outbox);
        match done {
            Ok(()) => Ok(()),
            Err(fault) => Err(Refused::Engine(fault)),
        }
    }

    /// The next output that was released is taken.
    pub fn take(&mut self, alloc: Global) -> Result<u32, Refused<TakeFault>>
        ensures { Calls (OnBox (λ old new. TakesBy old new)) self.old.handle.outbox self.new.handle.outbox result }
    {
        if !self.live {
            return Err(Refused::Closed);
        }
        let mut outbox = self.take_out(alloc);
        let answer = outbox.take();
        self.put(outbox);
        match answer {
            Ok(output) => Ok(output),
            Err(fault) => Err(Refused::Engine(fault)),
        }
    }

    /// What the host is to write next into its file, as far as there is room. The outbox stays as it is, but that it was asked for that and knows of what it gave.
    pub fn next_write(&mut self, alloc: Global, out: &mut [u8]) -> Option<Given>
        ensures given { Asks (TakesBoxWrite out.old out.new) self.old.handle.outbox self.new.handle.outbox result }
        ensures unchanged { IfNone result (out.new ≡ out.old) }
    {
        if !self.live {
            return None;
        }
        let mut outbox = self.take_out(alloc);
        let given = outbox.next_write(out);
        self.put(outbox);
        Some(given)
    }

    /// The host has written so many bytes at this place, and synced its file.
    pub fn written(
        &mut self,
        alloc: Global,
        place: u64,
        count: usize,
    ) -> Result<(), Refused<NotNext>>
        ensures { Calls (AcceptsBoxWrite place count) self.old.handle.outbox self.new.handle.outbox result }
    {
        if !self.live {
            return Err(Refused::Closed);
        }
        let mut outbox = self.take_out(alloc);
        let done = outbox.written(place, count);
        self.put(outbox);
        match done {
            Ok(()) => Ok(()),
            Err(fault) => Err(Refused::Engine(fault)),
        }
    }

    /// How long the journal is.
    pub fn info(&mut self, alloc: Global) -> Option<JournalInfo>
        ensures { Asks (λ old new info. (new ≡ old) × InformsBox old.hosted info) self.old.handle.outbox self.new.handle.outbox result }
    {
        if !self.live {
            return None;
        }
        let mut outbox = self.take_out(alloc);
        let info = outbox.info();
        self.put(outbox);
        Some(info)
    }

    /// Closes the slot and frees what it held. A closed slot stays closed.
    pub fn close(&mut self, alloc: Global)
        ensures { self.new.handle.outbox ≡ None }
    {
        *self = OutboxSlot::closed(alloc);
    }

    fn take_out(&mut self, alloc: Global) -> Box<ByteOutbox>
        requires { IsSome self.old.handle.outbox }
        ensures taken { self.old.handle.outbox ≡ Some result.value }
        ensures empty { self.new.handle.outbox ≡ None }
    {
        let handle = std::mem::replace(&mut self.handle, OutboxHandle::none(alloc));
        self.live = false;
        handle.into_box()
    }

    fn put(&mut self, outbox: Box<ByteOutbox>)
        ensures { self.new.handle.outbox ≡ Some outbox.value }
    {
        self.handle = OutboxHandle::of(outbox);
        self.live = true;
    }
}

impl Drop for OutboxSlot {
    fn drop(self) {
        let OutboxSlot { live, handle } = self;
        if live {
            drop(handle.into_box());
        }
    }
}
