// One site, for a host that carries its messages and writes its journal.
mod asking;

ghost use Rattle.std.specs.Prelude.{◌≡◌, ◌<◌, ◌≤◌, ℕ, length, slice_get, Some, Err, IfOk, IfSome};
ghost use Rattle.std.specs.Option.{option_map};
ghost use Rattle.pv_base.specs.Catalog.{Declared};
ghost use Rattle.pv_protocol.specs.State as model;
ghost use Rattle.pv_site.specs.Inputs.{IsInputFor};
ghost use Rattle.pv_site.specs.Opens.{Opens};
ghost use Rattle.pv_site.specs.Steps.{IsReady};
ghost use Rattle.pv_site.specs.Values.{input_of};
ghost use Rattle.pv_host.specs.HostLaws.{host_model};
ghost use Rattle.pv_host.specs.HostLog.{HostState, contents_of, least_write, next_write};
ghost use Rattle.pv_host.specs.HostWrites.{write_of};
ghost use Rattle.pv_embed.specs.Opening.{IsUnread, OpensHosted, RefusesContents};
ghost use Rattle.pv_embed.specs.Held.{Held};
ghost use Rattle.pv_embed.specs.Hosted.{AsksForGroup, Gives, TakesNext, Writes, stored_length, stored_records};
ghost use Rattle.pv_embed.specs.Outputs.{IsSpelled, out_of};
ghost use Rattle.pv_embed.specs.Requests.{Begins, ReceivesBy, SubmitsBy, ReadsBy};

use crate::made::{Made, Output, begun_first, keep, take_first};
use crate::{OpenFault, ReadFault, ReceiveFault, SubmitFault, hosted_sites_stay_up};
use pv_base::{Catalog, MAX_INPUT, NoMemory, SiteId, TxnId};
use pv_check::{CheckError, check};
use pv_disk::{Log, LookError};
use pv_host::{HostLog, HostWrite};
use pv_law_programs::{one_plan, some_items};
use pv_parse::{ParseError, parse};
use pv_script::{ScriptError, read_schedule};
use pv_site::{Input, OpenError, Shown, Site, StepError};
use pv_wire::{WireError, decode};
use std::alloc::Global;
use std::collections::VecDeque;
use std::marker::Model;

/// A site of the database for a host that carries its messages and writes its journal.
///
/// The host opens it on the bytes of its journal, a file of the host. It gives it requests, messages and ticks; each is a step of the site. Then it asks for a group of
/// the records that wait by [`HostedSite::ask`], writes what [`HostedSite::next_write`] says into the file, syncs, and says so by [`HostedSite::written`], until there
/// is nothing to write; and takes what the site lets out by [`HostedSite::take`]: messages for other sites, and reports. Nothing is let out before all records are in the file that
/// the site had when it made it, and nothing is read while a record isn't.
///
/// After a crash of the host the site is opened again on what the file then holds.
#[derive(Drop)]
pub struct HostedSite {
    /// Where its memory comes from.
    alloc: Global,
    /// Its number.
    me: SiteId,
    /// What is declared.
    catalog: Catalog,
    /// The site.
    site: Site<HostLog>,
    /// How much of its journal is in the file, in bytes. The log has this number too, and the next one, but the site lends its log only to be changed, and a reading
    /// changes nothing.
    stored: u64,
    /// How many records are in the file.
    records: u64,
    /// What its steps made that wasn't let out, the oldest first. In each there is something.
    made: VecDeque<Made>,
}

impl Model for HostedSite {
    ghost use Rattle.pv_embed.specs.Hosted.{HostedState};
    ghost use Rattle.pv_embed.specs.HostedView.{hosted_of, IsHosted};

    ghost Value = { HostedState };

    ghost use Rattle.std.specs.Coded.{codes};
    ghost use Rattle.pv_model.specs.SyntaxCodes.{program_code};

    ghost coded = { Prim.hlevel (codes, program_code) };

    ghost view = { hosted_of };

    ghost invariant = { IsHosted };
}

impl HostedSite {
    ghost use Rattle.std.specs.Prelude.{⊤};
    ghost use Rattle.std.specs.Borrow.{sem};
    ghost use mathlib.Core.Option.{none};
    ghost use denote.Follow.{follows_so};
    ghost use Rattle.pv_embed.specs.contracts.hosted.HostedSite.{the_row};

    /// Opens a site. The configuration has the lines `sites`, `journal` and `item` of a schedule, and is the same for all sites; the journal is what the
    /// host's file holds, [`EMPTY_JOURNAL`](crate::EMPTY_JOURNAL) for a new site. What the host keeps beyond the journal's end doesn't matter.
    ///
    /// Before the host reads the journal's bytes it syncs the file, and for a new one its entry in the folder: a crash of its process alone may leave bytes
    /// that are written and not synced, and the site counts all that it finds as written.
    ///
    /// The site begins in a new epoch, whose record is the first thing to write. Takes time in proportion to the journal and the configuration.
    ///
    /// [`OpenFault`] has the causes of a refusal.
    pub fn open(
        alloc: Global,
        config: &[u8],
        me: u8,
        journal: Vec<u8>,
    ) -> Result<HostedSite, OpenFault>
        ensures { OpensHosted config.now me journal.items result }
    {
        if config.len() as u64 > MAX_INPUT {
            return Err(OpenFault::TooLong);
        }
        let schedule = match read_schedule(alloc, config) {
            Ok(schedule) => schedule,
            Err(ScriptError::Malformed { line, cause }) => {
                return Err(OpenFault::Malformed { line, cause });
            }
            Err(ScriptError::NoMemory) => return Err(OpenFault::NoMemory),
        };
        if !schedule.events.is_empty() {
            return Err(OpenFault::HasEvents);
        }
        let catalog = schedule.catalog;
        if me >= catalog.sites() {
            return Err(OpenFault::NoSite);
        }
        let me = SiteId(me);
        let log = match HostLog::open(alloc, journal, catalog.journal()) {
            Ok(log) => log,
            Err(LookError::NotOurs(place)) => return Err(OpenFault::NotOurs(place)),
            Err(LookError::NoMemory) => return Err(OpenFault::NoMemory),
            // The bytes are in memory, and are read without fail.
            Err(LookError::Failed) => unreachable!(),
        };
        let stored = log.stored();
        let records = log.records();
        match Site::open(alloc, log, me, &catalog) {
            Ok(site) => Ok(HostedSite {
                alloc,
                me,
                catalog,
                site,
                stored,
                records,
                made: VecDeque::new(alloc),
            }),
            Err(error) => Err(fault_of(error)),
        }
    }

    /// A request: the program that the text is runs, with this site as its coordinator. A query assigns nothing and has a `return`. Takes time in proportion
    /// to the text, besides looking up each name.
    ///
    /// What comes of it is let out by [`HostedSite::take`]. The first report is [`Note::Txn`](crate::Note::Txn), or
    /// [`Note::Spent`](crate::Note::Spent) where no number is left, and then nothing else comes of it.
    ///
    /// The host is told of which transaction that report will be, so that it can keep with it what it has of the request. The number itself isn't to be shown before:
    /// a crash may undo that it was given, and then another request gets it.
    ///
    /// Each refusal leaves the site as it was, but for room that was made:
    ///
    /// - [`SubmitFault::Text`]: the text is no program.
    /// - [`SubmitFault::Program`]: the program may not run, as a request or as a query.
    /// - [`SubmitFault::NoMemory`]: there was no memory.
    pub fn submit(&mut self, text: &[u8], query: bool) -> Result<Option<TxnId>, SubmitFault>
        ensures submits { SubmitsBy self.old self.new text.now query result }
        ensures begins { IfOk result (Begins self.old self.new) }
    {
        some_items();
        one_plan();
        let program = match parse(self.alloc, text, &self.catalog) {
            Ok(program) => program,
            Err(ParseError::NoMemory) => return Err(SubmitFault::NoMemory),
            Err(error) => return Err(SubmitFault::Text(error)),
        };
        let plan = match check(self.alloc, &program, &self.catalog, query) {
            Ok(plan) => plan,
            Err(CheckError::NoMemory) => return Err(SubmitFault::NoMemory),
            Err(error) => return Err(SubmitFault::Program(error)),
        };
        Ok(self.step(&Input::Submit { program, plan })?)
    }

    /// A message comes, as the bytes that [`encode`](crate::encode) made of what another site, or this one, let out. Takes time in proportion to the bytes,
    /// and to the items and outcomes that the message touches.
    ///
    /// Each refusal leaves the site as it was, but for room that was made:
    ///
    /// - [`ReceiveFault::Malformed`]: the bytes are no message.
    /// - [`ReceiveFault::NotForHere`]: the message goes to another site.
    /// - [`ReceiveFault::NoSender`]: it comes from a site that the configuration hasn't.
    /// - [`ReceiveFault::NoMemory`]: there was no memory.
    pub fn receive(&mut self, bytes: &[u8]) -> Result<(), ReceiveFault>
        ensures { ReceivesBy self.old self.new bytes.now result }
    {
        let envelope = match decode(self.alloc, bytes) {
            Ok(envelope) => envelope,
            Err(WireError::NoMemory) => return Err(ReceiveFault::NoMemory),
            Err(error) => return Err(ReceiveFault::Malformed(error)),
        };
        if envelope.to != self.me {
            return Err(ReceiveFault::NotForHere);
        }
        if envelope.from.0 >= self.catalog.sites() {
            return Err(ReceiveFault::NoSender);
        }
        self.step(&Input::Take {
            from: envelope.from,
            message: envelope.message,
        })?;
        Ok(())
    }

    /// Time has passed. Takes time in proportion to what stands at the site, and to the outcomes that its values name. Where there was no memory the site is
    /// as it was, but for room that was made.
    pub fn tick(&mut self) -> Result<(), NoMemory>
        ensures { Gives self.old self.new model.tick result }
    {
        self.step(&Input::Tick)?;
        Ok(())
    }

    /// The host is to write a group of the records that wait: as many as have so much room, in bytes, and one at least. A group that it was asked to write before
    /// stays until it has told that it is written. Takes time in proportion to the records of the group.
    pub fn ask(&mut self, room: usize)
        ensures asks { AsksForGroup room self.old self.new }
        ensures stores { stored_length self.new ≡ stored_length self.old }
    {
        self.site.log().ask(room);
    }

    /// For how many bytes the host needs room at least to be told what to write next, if there is something to write or to ask for. The cost is bounded by a constant.
    pub fn least_write(&mut self) -> Option<usize>
        ensures unchanged { self.new ≡ self.old }
        ensures least { result ≡ least_write self.old.site.log }
    {
        self.site.log().least_write()
    }

    /// What the host is to write next into its file of the group that it was asked to write, if there is one. It is the same until the host has told that it is done. The
    /// cost is bounded by a constant.
    pub fn next_write(&mut self) -> Option<HostWrite<'_>>
        ensures* unchanged { sem 𝓛 (follows_so the_row the_row self.entry.ghost_name none (λ _ _. ⊤) (λ new. new ≡ self.old)) }
        ensures write { option_map write_of result ≡ next_write self.old.site.log }
    {
        self.site.log().next_write()
    }

    /// The host has written that, and synced its file. Where it was asked to write nothing, nothing happens. Once a group is written, the cost is in proportion to what
    /// waits; else it is bounded by a constant.
    pub fn written(&mut self)
        ensures { Writes self.old self.new }
    {
        let log = self.site.log();
        log.written();
        let stored = log.stored();
        let records = log.records();
        self.stored = stored;
        self.records = records;
    }

    /// The next thing that the site lets out, if there is one: the host's file has all that the log had when it was made. It comes in the order of the steps,
    /// and of each step the messages come first. The cost is bounded by a constant.
    ///
    /// [`encode`](crate::encode) gives the bytes of a message, which the site that it goes to takes by [`HostedSite::receive`].
    #[tactic(auto, using(crate::proofs::MadeLemmas::takes_spelled))]
    pub fn take(&mut self) -> Option<Output>
        ensures takes { TakesNext self.old self.new result }
        ensures spelled { IfSome result (λ output. IsSpelled (out_of output)) }
    {
        take_first(&mut self.made, self.me, self.stored)
    }

    /// What the site shows of its item of this name: its value, or the transaction that holds it. Takes time in proportion to the name and to the
    /// transactions that hold the item, and logarithmic in the locks.
    ///
    /// - [`ReadFault::UnknownName`]: no item has this name.
    /// - [`ReadFault::NotHere`]: the item is at another site.
    /// - [`ReadFault::Unwritten`]: records wait to be written into the host's file, and what would be shown may rest on them.
    pub fn read(&self, name: &[u8]) -> Result<Shown<'_>, ReadFault>
        ensures { ReadsBy self.now name.now result }
    {
        let Some(item) = self.catalog.find(name) else {
            return Err(ReadFault::UnknownName);
        };
        if self.catalog.site_of(item) != self.me {
            return Err(ReadFault::NotHere);
        }
        if self.stored < self.site.length() {
            return Err(ReadFault::Unwritten);
        }
        Ok(self.site.read(item))
    }

    /// How long the journal in the host's file has to be when the next output is let out, if there is one. [`HostedSite::stored`] says how long it is.
    pub fn waits_for(&self) -> Option<u64>
        ensures { result ≡ option_map (λ (held : Held). held.length) (slice_get self.now.held 0) }
    {
        Some(self.made.front()?.length)
    }

    /// How long the journal in the host's file is, by what the host has told.
    pub fn stored(&self) -> u64
        ensures { result ≡ stored_length self.now }
    {
        self.stored
    }

    /// How many records are in the host's file, by what the host has told. The cost is bounded by a constant.
    pub fn records(&self) -> u64
        ensures { result ≡ stored_records self.now }
    {
        self.records
    }

    /// Its number.
    pub fn me(&self) -> SiteId
        ensures { result.0 ≡ self.now.site.me }
    {
        self.me
    }

    /// What is declared.
    pub fn catalog(&self) -> &Catalog
        ensures { result.now ≡ self.now.site.catalog }
    {
        &self.catalog
    }

    /// The epoch in which it was opened.
    pub fn epoch(&self) -> u32
        ensures { result ≡ self.now.site.epoch }
    {
        self.site.epoch()
    }

    /// Shows what [`files_hold_what_was_let_out`](crate::files_hold_what_was_let_out) asks of a site, which is so between any two calls: it is up, and its log
    /// holds its records. It does nothing.
    pub fn stands_ready(&self)
        ensures ready { IsReady host_model self.now.site }
        ensures up { (running : model.Running) × (self.now.site.running ≡ Some running) }
    {
        let _ = &self.alloc;
    }

    // The site makes a step of the input, and it is told which transaction began. The memory for what it makes is taken before: after the step nothing can fail.
    fn step(&mut self, input: &Input) -> Result<Option<TxnId>, NoMemory>
        requires { IsInputFor self.old.site.me self.old.site.catalog input.now }
        ensures gives { Gives self.old self.new (input_of input.now) result }
        ensures begins { IfOk result (Begins self.old self.new) }
    {
        hosted_sites_stay_up();
        self.made.reserve(1)?;
        match self.site.step(input) {
            Ok(step) => {
                let length = self.site.log().length();
                let begun = begun_first(&step.notes);
                keep(&mut self.made, Made::of(length, step));
                Ok(begun)
            }
            Err(StepError::NoMemory) => Err(NoMemory),
            // No append fails.
            Err(StepError::Fault) | Err(StepError::Down) => unreachable!(),
        }
    }
}

// Why the site isn't opened on the log.
fn fault_of(error: OpenError<HostLog>) -> OpenFault
    requires { (log : HostState) × (me : ℕ) × (catalog : Declared) × IsUnread log × Opens host_model log me catalog (Err error) }
    ensures { (log : HostState) (me : ℕ) (catalog : Declared) → IsUnread log → Opens host_model log me catalog (Err error) →
        RefusesContents catalog me (contents_of log) result }
{
    match error {
        OpenError::Full(_, length) => OpenFault::Full(length),
        OpenError::EpochsSpent(_) => OpenFault::EpochsSpent,
        OpenError::BadRecord(_, index) => OpenFault::BadRecord(index),
        OpenError::TooManyOutcomes(_, count) => OpenFault::TooManyOutcomes(count),
        OpenError::NoMemory(_) => OpenFault::NoMemory,
        // What the log holds is known, and no call of it fails.
        OpenError::Failed(_) | OpenError::NotOurs(..) => unreachable!(),
    }
}
