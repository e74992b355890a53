// A site in a box.
ghost use Rattle.std.specs.Prelude.{◌≡◌, ◌==◌, ◌<◌, ◌≤◌, ◌^◌, ◌-◌, ◌↔◌, ◌+◌, ◌++◌, ◌∷◌, max, min, [], All, true, if◌then◌else◌, Some, None, IfOk, IfSome, IfNone, OnOk, is_none, length, vec_capacity};
ghost use Rattle.pv_cell.specs.Box.{IsBox, IsFromSite, IsTickDue, IsWorn};
ghost use Rattle.pv_cell.specs.Changes.{LeavesTaken, TakesIn};
ghost use Rattle.pv_cell.specs.Follows.{Follows, FollowsNo};
ghost use Rattle.pv_cell.specs.Opens.{AreFresh, IsOpened};
ghost use Rattle.pv_cell.specs.Room.{HasRoom, IsRoomier};
ghost use Rattle.pv_cell.specs.Visits.{IsNext, TakesArrival, TakesTick, Visits};
ghost use Rattle.pv_cell.specs.declared.visit.Visit.TheVariants as visit;
ghost use Rattle.pv_history.specs.Entries.{intake_of};
ghost use Rattle.pv_law_histories.specs.Posting.{stamp_with};
ghost use Rattle.pv_mail.specs.Answers.{asker_of};
ghost use Rattle.pv_mail.specs.Given.{IsTakenFor};
ghost use Rattle.pv_mail.specs.Looks.{AllFoundEmpty, SameInRings};
ghost use Rattle.pv_mail.specs.Telling.{TellsLossTo};
ghost use Rattle.pv_mail.specs.declared.arrival.Arrival.TheVariants as arrival;
ghost use Rattle.pv_protocol.specs.Sound.{IsSetupInRange};
ghost use Rattle.pv_site.specs.Inputs.{IsSpelledFrom};
ghost use Rattle.pv_site.specs.SiteState.{setup_of};
ghost use Rattle.pv_site.specs.Steps.{IsReady};
ghost use Rattle.pv_wire.specs.Faults.{fault_of};

use crate::Visit;
use pv_base::{NoMemory, SiteId};
use pv_disk::Log;
use pv_history::{Entry, MAX_ENTRIES, Seen, Taken};
use pv_mail::{
    Arrival, Asker, Begun, Ends, Parcel, Telling, copy_request, joined, parted, post_all,
};
use pv_script::Request;
use pv_site::{Site, Step, StepError};
use pv_wire::{Envelope, WireError, decode};
use std::alloc::Global;

/// After this many visits in a row that found nothing a tick is due, where the site waits for something.
pub const IDLE_VISITS: u32 = 64;

/// A site with the rings by which sites and clients reach it, and the history of what it took in.
///
/// Stamps are Lamport's (1978): each entry's is one more than the greater of the one before it and the one that came with its message.
#[derive(Drop)]
pub struct SiteBox<L: Log> {
    alloc: Global,
    /// The site's number.
    pub(crate) me: SiteId,
    pub(crate) site: Site<L>,
    pub(crate) ends: Ends,
    /// What the site took in, and what came of it.
    pub(crate) history: Vec<Entry>,
    /// The stamp of the last entry, or 0.
    pub(crate) stamp: u64,
    /// Whether the site is down.
    pub(crate) down: bool,
    /// What clients asked for that was begun and isn't decided.
    pub(crate) begun: Vec<Begun>,
    /// What was taken at the last visit and counts once more.
    pub(crate) again: Option<Arrival>,
    /// The place of the ring that is asked first.
    pub(crate) next: usize,
    /// How many visits in a row have found nothing, at most so many as make a tick due.
    pub(crate) idle: u32,
}

impl<L: Log> SiteBox<L> {
    ghost use Rattle.std.specs.Borrow.{Lends, sem};
    ghost use Rattle.pv_cell.specs.Lending.{with_ends};
    ghost use Rattle.pv_cell.specs.contracts.site_box.SiteBox.{the_row};
    ghost use Rattle.pv_mail.specs.contracts.ends.Ends as lent;

    /// A box of the site of this number, whose history is empty. The site is one as [`Site::open`] gives it on a log in which it finds nothing, and nothing was posted
    /// on the ends. There is one end of each kind for each site of the catalog, and there are as many ends to clients as from them.
    pub fn new(alloc: Global, me: SiteId, site: Site<L>, ends: Ends) -> Result<SiteBox<L>, NoMemory>
        requires me { (me.0 ≡ site.me) × (site.me < site.catalog.sites) }
        requires catalog { IsSetupInRange (setup_of site.catalog) }
        requires ready { IsReady L.model site }
        requires opened { IsOpened site }
        requires sites { (length ends.sites_in.items ≡ site.catalog.sites) × (length ends.sites_out.items ≡ site.catalog.sites) }
        requires clients { (length ends.clients_in.items ≡ length ends.clients_out.items) × (length ends.clients_in.items < 2 ^ 32) }
        requires fresh { AreFresh ends }
        ensures is_box { IfOk result (IsBox L.model) }
        ensures holds { IfOk result (λ new. (new.site ≡ site) × (new.ends ≡ ends)) }
        ensures empty { IfOk result (λ new. (new.history.items ≡ []) × (new.stamp ≡ 0) × (new.begun.items ≡ []) × (new.again ≡ None) × (new.idle ≡ 0) × (new.next ≡ 0)) }
    {
        let begun = Vec::with_capacity(alloc, ends.clients_in.len())?;
        Ok(SiteBox {
            alloc,
            me,
            site,
            ends,
            history: Vec::new(alloc),
            stamp: 0,
            down: false,
            begun,
            again: None,
            next: 0,
            idle: 0,
        })
    }

    /// The site takes at most one input: a tick where one is due, else what was taken before and counts once more, else what the next ring holds. It
    /// makes its step, and what it sends and has to say is posted. Takes the time of the step and of what it posts, on average over visits,
    /// however long the history is: where its room is full, one visit moves all entries.
    ///
    /// - [`Visit::Took`]: the history has one more entry.
    /// - [`Visit::Idle`]: nothing was there, and nothing changes but the count of such visits, by which a tick comes due.
    /// - [`Visit::Worn`]: the history has [`MAX_ENTRIES`] entries, or its last stamp is the greatest. Nothing is taken.
    /// - [`Visit::Lost`]: there was no memory. The site is as if the input hadn't come, and a client whose request it is hears of it.
    /// - [`Visit::Stray`]: the parcel isn't the spelling of a message from that ring's site to this one, or has the greatest stamp; or the program of the
    ///   request can't run, or has another plan. It is passed over.
    pub fn visit(&mut self) -> Visit
        requires { IsBox L.model self.old }
        ensures visits { Visits L.model self.old self.new result }
        ensures is_box { IsBox L.model self.new }
    {
        if self.is_worn() {
            return Visit::Worn;
        }
        if self.is_tick_due() {
            return self.take_tick();
        }
        match self.next_arrival() {
            Some((arrival, count)) => {
                self.idle = 0;
                self.take_arrival(arrival, count)
            }
            None => {
                self.idle = longer(self.idle);
                Visit::Idle
            }
        }
    }

    /// The site takes a tick. The answer is [`Visit::Took`], [`Visit::Worn`] or [`Visit::Lost`], as that of [`visit`](SiteBox::visit).
    pub fn tick(&mut self) -> Visit
        requires { IsBox L.model self.old }
        ensures takes { TakesTick L.model self.old self.new result }
        ensures is_box { IsBox L.model self.new }
    {
        if self.is_worn() {
            return Visit::Worn;
        }
        self.take_tick()
    }

    /// What the site took in so far, and what came of it.
    pub fn history(&self) -> &[Entry]
        ensures { result.now ≡ self.now.history.items }
    {
        &self.history
    }

    /// The site.
    pub fn site(&self) -> &Site<L>
        ensures { result.now ≡ self.now.site }
    {
        &self.site
    }

    /// The ring ends, lent, so that a thread that has the other ends too can see what the rings hold. Where they come back with nothing posted on them and nothing
    /// taken from them (`AreStill`), all laws on boxes hold on (`boxes_lend_their_ends`).
    pub fn ends(&mut self) -> &mut Ends
        ensures* lends { sem 𝓛 (Lends (the_row L.row L.Log) lent.the_row self.entry result (with_ends self.old)) }
        ensures value { result.now ≡ self.old.ends }
    {
        &mut self.ends
    }

    /// The site and the history.
    pub fn into_parts(self) -> (Site<L>, Vec<Entry>)
        ensures { (result.0 ≡ self.site) × (result.1 ≡ self.history) }
    {
        (self.site, self.history)
    }

    /// Whether nothing can be taken any more.
    pub fn is_worn(&self) -> bool
        ensures { (result ≡ true) ↔ IsWorn self.now }
    {
        self.history.len() == MAX_ENTRIES || self.stamp == u64::MAX
    }

    // Whether a tick is due.
    fn is_tick_due(&self) -> bool
        requires { IsBox L.model self.now }
        ensures { (result ≡ true) ↔ IsTickDue self.now }
    {
        self.idle >= IDLE_VISITS && !self.down && self.site.waits()
    }

    // What is taken now, and how often it counts.
    fn next_arrival(&mut self) -> Option<(Arrival, u8)>
        requires { IsBox L.model self.old }
        ensures changed { self.new ≡ record self.old {
          ends = record self.old.ends { sites_in = self.new.ends.sites_in; clients_in = self.new.ends.clients_in };
          again = None;
          next = self.new.next;
        } }
        ensures some { IfSome result (λ it. IsNext self.old self.new it.0 it.1 × IsFromSite self.old.site.catalog.sites it.0) }
        ensures none { IfNone result ((self.old.again ≡ None) × (self.new.next ≡ self.old.next) × AllFoundEmpty self.old.ends self.new.ends) }
        ensures is_box { IsBox L.model self.new }
    {
        if let Some(arrival) = self.again.take() {
            return Some((arrival, 1));
        }
        self.ends.take_next(&mut self.next)
    }

    // The site takes a tick, with which the count of visits that found nothing begins anew.
    fn take_tick(&mut self) -> Visit
        requires is_box { IsBox L.model self.old }
        requires not_worn { IsWorn self.old → ⊥ }
        ensures takes { TakesTick L.model self.old self.new result }
        ensures is_box { IsBox L.model self.new }
    {
        self.idle = 0;
        self.take_in(0, Taken::Tick)
    }

    // The site takes what came.
    fn take_arrival(&mut self, arrival: Arrival, count: u8) -> Visit
        requires is_box { IsBox L.model self.old }
        requires not_worn { IsWorn self.old → ⊥ }
        requires from { IsFromSite self.old.site.catalog.sites arrival }
        ensures takes { TakesArrival L.model self.old self.new arrival result }
        ensures again { self.new.again ≡ (if count == 2 then Some arrival else self.old.again) }
        ensures same { (self.new.idle ≡ self.old.idle) × (self.new.next ≡ self.old.next) × SameInRings self.old.ends self.new.ends }
        ensures is_box { IsBox L.model self.new }
    {
        match arrival {
            Arrival::Parcel { from, parcel } => self.take_parcel(from, parcel, count),
            Arrival::Request { client, request } => self.take_request(client, request, count),
        }
    }

    // The site takes what the ring of a site brought.
    fn take_parcel(&mut self, from: SiteId, parcel: Parcel, count: u8) -> Visit
        requires is_box { IsBox L.model self.old }
        requires not_worn { IsWorn self.old → ⊥ }
        requires from { from.0 < self.old.site.catalog.sites }
        ensures takes { TakesArrival L.model self.old self.new (arrival.Parcel from parcel) result }
        ensures again { self.new.again ≡ (if count == 2 then Some (arrival.Parcel from parcel) else self.old.again) }
        ensures same { (self.new.idle ≡ self.old.idle) × (self.new.next ≡ self.old.next) × SameInRings self.old.ends self.new.ends }
        ensures is_box { IsBox L.model self.new }
    {
        let visit = self.take_bytes(from, &parcel);
        if count == 2 {
            self.again = Some(Arrival::Parcel { from, parcel });
        }
        visit
    }

    // The site takes the message that the parcel spells.
    fn take_bytes(&mut self, from: SiteId, parcel: &Parcel) -> Visit
        requires is_box { IsBox L.model self.old }
        requires not_worn { IsWorn self.old → ⊥ }
        requires from { from.0 < self.old.site.catalog.sites }
        ensures takes { TakesArrival L.model self.old self.new (arrival.Parcel from parcel.now) result }
        ensures left { LeavesTaken self.old self.new }
        ensures is_box { IsBox L.model self.new }
    {
        if parcel.stamp == u64::MAX {
            return Visit::Stray;
        }
        let envelope = match decode(self.alloc, &parcel.bytes) {
            Ok(envelope) => envelope,
            Err(error) => return unread(error),
        };
        if !is_between(&envelope, from, self.me) {
            return Visit::Stray;
        }
        let taken = Taken::Parcel {
            from,
            stamp: parcel.stamp,
            place: parcel.place,
            message: envelope.message,
        };
        self.take_in(parcel.stamp, taken)
    }

    // The site takes what a client asks for.
    fn take_request(&mut self, client: u32, request: Request, count: u8) -> Visit
        requires is_box { IsBox L.model self.old }
        requires not_worn { IsWorn self.old → ⊥ }
        ensures takes { TakesArrival L.model self.old self.new (arrival.Request client request) result }
        ensures again { self.new.again ≡ (if count == 2 then Some (arrival.Request client request) else self.old.again) }
        ensures same { (self.new.idle ≡ self.old.idle) × (self.new.next ≡ self.old.next) × SameInRings self.old.ends self.new.ends }
        ensures is_box { IsBox L.model self.new }
    {
        if count != 2 {
            return self.take_asked(client, request);
        }
        let visit = self.take_copy(client, &request);
        self.again = Some(Arrival::Request { client, request });
        visit
    }

    // The site takes a copy of what a client asks for.
    fn take_copy(&mut self, client: u32, request: &Request) -> Visit
        requires is_box { IsBox L.model self.old }
        requires not_worn { IsWorn self.old → ⊥ }
        ensures takes { TakesArrival L.model self.old self.new (arrival.Request client request.now) result }
        ensures left { LeavesTaken self.old self.new }
        ensures is_box { IsBox L.model self.new }
    {
        match copy_request(self.alloc, request) {
            Ok(copy) => self.take_asked(client, copy),
            Err(NoMemory) => {
                let number = request.number;
                self.lose(Some(Asker { client, number }))
            }
        }
    }

    // The site takes the request, if it can run.
    fn take_asked(&mut self, client: u32, request: Request) -> Visit
        requires is_box { IsBox L.model self.old }
        requires not_worn { IsWorn self.old → ⊥ }
        ensures takes { TakesArrival L.model self.old self.new (arrival.Request client request) result }
        ensures left { LeavesTaken self.old self.new }
        ensures is_box { IsBox L.model self.new }
    {
        if !self.site.fits(&request.program, &request.plan) {
            return Visit::Stray;
        }
        self.take_in(0, Taken::Request { client, request })
    }

    // The site takes an input that came with this stamp, or 0 where none came with it. The room for its entry is made first, so that a step that was
    // made has its entry.
    fn take_in(&mut self, came: u64, taken: Taken) -> Visit
        requires is_box { IsBox L.model self.old }
        requires not_worn { IsWorn self.old → ⊥ }
        requires input { IsTakenFor self.old.site.me self.old.site.catalog taken }
        requires came { (came ≡ stamp_with (intake_of taken)) × (came < 2 ^ 64 - 1) }
        ensures takes { TakesIn L.model self.old self.new (intake_of taken) result }
        ensures is_box { IsBox L.model self.new }
    {
        let asker = asker_of(&taken);
        if self.make_room().is_err() {
            return self.lose(asker);
        }
        let stamp = self.stamp.max(came) + 1;
        self.step(stamp, taken, asker)
    }

    // Makes room for an entry, and for one more that is begun.
    fn make_room(&mut self) -> Result<(), NoMemory>
        ensures room { OnOk result (HasRoom self.new) }
        ensures same { IsRoomier self.old self.new }
    {
        self.history.reserve(1)?;
        self.begun.reserve(1)?;
        Ok(())
    }

    // The site makes its step, whose entry has this stamp. There is room for the entry.
    fn step(&mut self, stamp: u64, taken: Taken, asker: Option<Asker>) -> Visit
        requires is_box { IsBox L.model self.old }
        requires room { HasRoom self.old × (length self.old.history.items < MAX_ENTRIES) }
        requires input { IsTakenFor self.old.site.me self.old.site.catalog taken }
        requires stamp { stamp ≡ max self.old.stamp (stamp_with (intake_of taken)) + 1 }
        requires asker { asker ≡ asker_of (intake_of taken) }
        ensures takes { TakesIn L.model self.old self.new (intake_of taken) result }
        ensures is_box { IsBox L.model self.new }
    {
        let (input, head) = parted(taken);
        let stepped = self.site.step(&input);
        let taken = joined(head, input);
        match stepped {
            Ok(step) => self.follow(stamp, taken, asker, step),
            Err(error) => self.fail(stamp, taken, asker, error),
        }
    }

    // What the step sends and reports is posted, and its entry is made.
    fn follow(&mut self, stamp: u64, taken: Taken, asker: Option<Asker>, step: Step) -> Visit
        requires room { HasRoom self.old }
        requires spelled { All (IsSpelledFrom self.old.me.0) step.sends.items }
        requires few { length step.sends.items < 2 ^ 32 }
        ensures follows { Follows self.old self.new stamp taken asker step }
        ensures took { result ≡ visit.Took }
    {
        let Step { sends, notes, .. } = step;
        let count = sends.len() as u32;
        let short = post_all(self.alloc, &mut self.ends.sites_out, self.me, stamp, sends);
        let telling = self.telling(1);
        telling.all(&mut self.ends.clients_out, asker, &mut self.begun, &notes);
        self.enter(Entry {
            stamp,
            input: taken,
            sends: count,
            short,
            seen: Seen::Done(notes),
        })
    }

    // No step was made, for this cause.
    fn fail(&mut self, stamp: u64, taken: Taken, asker: Option<Asker>, error: StepError) -> Visit
        requires { HasRoom self.old }
        ensures { FollowsNo self.old self.new stamp taken asker error result }
    {
        match error {
            StepError::Fault => {
                self.down = true;
                self.enter(Entry {
                    stamp,
                    input: taken,
                    sends: 0,
                    short: 0,
                    seen: Seen::Fault,
                })
            }
            StepError::Down => {
                let telling = self.telling(1);
                telling.down(&mut self.ends.clients_out, asker);
                self.enter(Entry {
                    stamp,
                    input: taken,
                    sends: 0,
                    short: 0,
                    seen: Seen::Down,
                })
            }
            StepError::NoMemory => self.lose(asker),
        }
    }

    // The history has one more entry, for which there is room.
    fn enter(&mut self, entry: Entry) -> Visit
        requires { length self.old.history.items < vec_capacity self.old.history }
        ensures changed { self.new ≡ record self.old { history = self.new.history; stamp = entry.stamp } }
        ensures entry { self.new.history.items ≡ self.old.history.items ++ entry ∷ [] }
        ensures took { result ≡ visit.Took }
    {
        self.stamp = entry.stamp;
        self.history.push_reserved(entry);
        Visit::Took
    }

    // The input is lost, and a client that asked for it hears so.
    fn lose(&mut self, asker: Option<Asker>) -> Visit
        ensures changed { self.new ≡ record self.old { ends = record self.old.ends { clients_out = self.new.ends.clients_out } } }
        ensures tells { TellsLossTo (length self.old.history.items) asker self.old.ends.clients_out.items self.new.ends.clients_out.items }
        ensures lost { result ≡ visit.Lost }
    {
        let telling = self.telling(0);
        telling.loss(&mut self.ends.clients_out, asker);
        Visit::Lost
    }

    // What answers say that have seen so many entries more than there are now.
    fn telling(&self, more: u64) -> Telling
        requires { more ≤ 1 }
        ensures { (result.site ≡ self.now.me) × (result.seen ≡ length self.now.history.items + more) }
    {
        Telling {
            alloc: self.alloc,
            site: self.me,
            seen: self.history.len() as u64 + more,
        }
    }
}

// Who asked for what was taken in, if it is a request.
fn asker_of(taken: &Taken) -> Option<Asker>
    ensures { result ≡ asker_of (intake_of taken.now) }
{
    match taken {
        Taken::Request { client, request } => Some(Asker {
            client: *client,
            number: request.number,
        }),
        _ => None,
    }
}

// Whether the message is from this site to that one.
fn is_between(envelope: &Envelope, from: SiteId, to: SiteId) -> bool
    ensures { (result ≡ true) ↔ ((envelope.now.from.0 ≡ from.0) × (envelope.now.to.0 ≡ to.0)) }
{
    envelope.from == from && envelope.to == to
}

// What comes of bytes that aren't read.
fn unread(error: WireError) -> Visit
    ensures { result ≡ (if is_none (fault_of error) then visit.Lost else visit.Stray) }
{
    match error {
        WireError::NoMemory => Visit::Lost,
        WireError::BadKind(_)
        | WireError::Short(_)
        | WireError::Extra(_)
        | WireError::BadField(_)
        | WireError::BadPoly(_) => Visit::Stray,
    }
}

// One more visit that found nothing.
fn longer(idle: u32) -> u32
    requires { idle ≤ IDLE_VISITS }
    ensures { result ≡ min (idle + 1) IDLE_VISITS }
{
    if idle < IDLE_VISITS { idle + 1 } else { idle }
}
