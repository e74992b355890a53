// The slot of a site.
mod asking;
mod handle;

ghost use Rattle.std.specs.Prelude.{◌≡◌, Some, None, IfSome, IsSome, is_some};

use crate::bytes::ByteSite;
use crate::faults::{NotNext, ValueFault};
use crate::given::Given;
use crate::parts::boxed;
use crate::refused::Refused;
use handle::SiteHandle;
use pv_base::NoMemory;
use pv_embed::{OpenFault, ReceiveFault, SubmitFault};
use std::alloc::Global;

/// A site or none, as C holds it: zeroes are a closed slot.
#[repr(C)]
pub struct SiteSlot {
    live: bool,
    /// Where the site lies.
    pub handle: SiteHandle,
    /// The flag says whether there is a site.
    pub ghost agrees: { live ≡ is_some handle.site },
}

impl SiteSlot {
    ghost use Rattle.std.specs.Prelude.{IfNone, OnErr};
    ghost use Rattle.pv_protocol.specs.State as model;
    ghost use Rattle.pv_embed.specs.Hosted.{Gives};
    ghost use Rattle.pv_embed.specs.Requests.{ReceivesBy};
    ghost use Rattle.pv_handle.specs.ByteSite.{AcceptsWrite, ReadsBytes, TakesWrite};
    ghost use Rattle.pv_handle.specs.ByteState.{OnSite, OpensBytes};
    ghost use Rattle.pv_handle.specs.Slot.{Opens, Calls, Asks};
    ghost use Rattle.pv_handle.specs.Standing.{StandsReady};
    ghost use Rattle.pv_handle.specs.Tagged.{SubmitsTagged, TakesTagged};

    /// A slot with no site.
    pub fn closed(alloc: Global) -> SiteSlot
        ensures { result.handle.site ≡ None }
    {
        SiteSlot {
            live: false,
            handle: SiteHandle::none(alloc),
        }
    }

    /// Opens a closed slot with a site that goes on from a journal.
    pub fn open(
        &mut self,
        alloc: Global,
        config: &[u8],
        me: u8,
        journal: &[u8],
    ) -> Result<(), Refused<OpenFault>>
        ensures opens { Opens (OpensBytes config.now me journal.now) self.old.handle.site self.new.handle.site result }
        ensures stands { self.old.handle.site ≡ None → IfSome self.new.handle.site StandsReady }
    {
        if self.live {
            return Err(Refused::InUse);
        }
        let site = match ByteSite::open(alloc, config, me, journal) {
            Ok(site) => site,
            Err(fault) => return Err(Refused::Engine(fault)),
        };
        let Ok(site) = boxed(alloc, site) else {
            return Err(Refused::Engine(OpenFault::NoMemory));
        };
        site.stands_ready();
        self.put(site);
        Ok(())
    }

    /// A request, with a tag of the host's.
    pub fn submit(
        &mut self,
        alloc: Global,
        text: &[u8],
        query: bool,
        tag: u64,
    ) -> Result<(), Refused<SubmitFault>>
        ensures submits { Calls (SubmitsTagged text.now query tag) self.old.handle.site self.new.handle.site result }
        ensures stands { IfSome self.new.handle.site StandsReady }
    {
        if !self.live {
            return Err(Refused::Closed);
        }
        let mut site = self.take_out(alloc);
        let done = site.submit(text, query, tag);
        site.stands_ready();
        self.put(site);
        match done {
            Ok(()) => Ok(()),
            Err(fault) => Err(Refused::Engine(fault)),
        }
    }

    /// A message comes.
    pub fn receive(&mut self, alloc: Global, bytes: &[u8]) -> Result<(), Refused<ReceiveFault>>
        ensures receives { Calls (OnSite (λ old new. ReceivesBy old new bytes.now)) self.old.handle.site self.new.handle.site result }
        ensures stands { IfSome self.new.handle.site StandsReady }
    {
        if !self.live {
            return Err(Refused::Closed);
        }
        let mut site = self.take_out(alloc);
        let done = site.receive(bytes);
        site.stands_ready();
        self.put(site);
        match done {
            Ok(()) => Ok(()),
            Err(fault) => Err(Refused::Engine(fault)),
        }
    }

    /// Time has passed.
    pub fn tick(&mut self, alloc: Global) -> Result<(), Refused<NoMemory>>
        ensures ticks { Calls (OnSite (λ old new. Gives old new model.tick)) self.old.handle.site self.new.handle.site result }
        ensures stands { IfSome self.new.handle.site StandsReady }
    {
        if !self.live {
            return Err(Refused::Closed);
        }
        let mut site = self.take_out(alloc);
        let done = site.tick();
        site.stands_ready();
        self.put(site);
        match done {
            Ok(()) => Ok(()),
            Err(fault) => Err(Refused::Engine(fault)),
        }
    }

    /// What the host is to write next into its file, as far as there is room. The site stays as it is, but that it was asked for that and knows of what it gave.
    pub fn next_write(&mut self, alloc: Global, out: &mut [u8]) -> Option<Given>
        ensures given { Asks (TakesWrite out.old out.new) self.old.handle.site self.new.handle.site result }
        ensures stands { IfSome self.new.handle.site StandsReady }
        ensures unchanged { IfNone result (out.new ≡ out.old) }
    {
        if !self.live {
            return None;
        }
        let mut site = self.take_out(alloc);
        let given = site.next_write(out);
        site.stands_ready();
        self.put(site);
        Some(given)
    }

    /// The host has written so many bytes at this place, and synced its file.
    pub fn written(
        &mut self,
        alloc: Global,
        place: u64,
        count: usize,
    ) -> Result<(), Refused<NotNext>>
        ensures accepts { Calls (AcceptsWrite place count) self.old.handle.site self.new.handle.site result }
        ensures stands { IfSome self.new.handle.site StandsReady }
    {
        if !self.live {
            return Err(Refused::Closed);
        }
        let mut site = self.take_out(alloc);
        let done = site.written(place, count);
        site.stands_ready();
        self.put(site);
        match done {
            Ok(()) => Ok(()),
            Err(fault) => Err(Refused::Engine(fault)),
        }
    }

    /// The next thing that the site lets out, and the tag of the request whose number is reported by it; or 0.
    pub fn take(
        &mut self,
        alloc: Global,
        out: &mut [u8],
        tag: &mut u64,
    ) -> Result<Given, Refused<NoMemory>>
        ensures given { Calls (TakesTagged out.old out.new tag.new) self.old.handle.site self.new.handle.site result }
        ensures unchanged { OnErr result (out.new ≡ out.old) }
        ensures untagged { OnErr result (tag.new ≡ 0) }
        ensures stands { IfSome self.new.handle.site StandsReady }
    {
        *tag = 0;
        if !self.live {
            return Err(Refused::Closed);
        }
        let mut site = self.take_out(alloc);
        let answer = site.take(out, tag);
        site.stands_ready();
        self.put(site);
        match answer {
            Ok(given) => Ok(given),
            Err(fault) => Err(Refused::Engine(fault)),
        }
    }

    /// What the site shows of an item, once all records are in the host's file. The site stays as it is.
    pub fn read(
        &mut self,
        alloc: Global,
        name: &[u8],
        out: &mut [u8],
    ) -> Result<Given, Refused<ValueFault>>
        ensures read { Calls (λ old new answer. (new ≡ old) × ReadsBytes old.hosted name.now out.old out.new answer)
            self.old.handle.site self.new.handle.site result }
        ensures unchanged { OnErr result (out.new ≡ out.old) }
    {
        if !self.live {
            return Err(Refused::Closed);
        }
        let site = self.take_out(alloc);
        let answer = site.read(name, out);
        self.put(site);
        match answer {
            Ok(given) => Ok(given),
            Err(fault) => Err(Refused::Engine(fault)),
        }
    }

    /// Closes the slot and frees what it held. A closed slot stays closed.
    pub fn close(&mut self, alloc: Global)
        ensures { self.new.handle.site ≡ None }
    {
        *self = SiteSlot::closed(alloc);
    }

    fn take_out(&mut self, alloc: Global) -> Box<ByteSite>
        requires { IsSome self.old.handle.site }
        ensures taken { self.old.handle.site ≡ Some result.value }
        ensures empty { self.new.handle.site ≡ None }
    {
        let handle = std::mem::replace(&mut self.handle, SiteHandle::none(alloc));
        self.live = false;
        handle.into_box()
    }

    fn put(&mut self, site: Box<ByteSite>)
        ensures { self.new.handle.site ≡ Some site.value }
    {
        self.handle = SiteHandle::of(site);
        self.live = true;
    }
}

impl Drop for SiteSlot {
    fn drop(self) {
        let SiteSlot { live, handle } = self;
        if live {
            drop(handle.into_box());
        }
    }
}
