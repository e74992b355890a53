// A site whose messages, reports and values go out as bytes, for a host that has only so much room for them.
mod asking;

ghost use Rattle.std.specs.Prelude.{◌≡◌, ◌≤◌, IfSome, None};
ghost use Rattle.pv_protocol.specs.State as model;
ghost use Rattle.pv_embed.specs.Hosted.{Gives, HostedState, stored_length};
ghost use Rattle.pv_embed.specs.Requests.{ReceivesBy};
ghost use Rattle.pv_handle.specs.ByteSite.{AcceptsWrite, NothingMayLeave, ReadsBytes, TakesWrite};
ghost use Rattle.pv_handle.specs.ByteState.{OnSite, OpensBytes};
ghost use Rattle.pv_handle.specs.Tagged.{SubmitsTagged, TakesTagged};
ghost use Rattle.pv_handle.specs.Waiting.{waits_before};

use crate::faults::{NotNext, ValueFault};
use crate::given::{Given, give};
use crate::opening::open_hosted;
use crate::outputs::{give_output, shown_text};
use crate::tags::{Tag, keep_tag, let_go};
use pv_base::{Catalog, NoMemory};
use pv_embed::{HostedSite, OpenFault, Output, ReceiveFault, SubmitFault};
use pv_host::groups_fit_their_room;
use std::alloc::Global;
use std::collections::VecDeque;
use std::marker::Model;

/// A site of the database, as [`HostedSite`] is one, whose host takes bytes: what doesn't fit into the room that the host has stays, and comes again.
#[derive(Drop)]
pub struct ByteSite {
    /// Where its memory comes from.
    alloc: Global,
    /// The site.
    site: HostedSite,
    /// What the site has let out and the host hasn't taken.
    waiting: Option<Waiting>,
    /// Whether the host was given the bytes of what it is to write next.
    taken: bool,
    /// What the host has given to requests whose numbers weren't reported yet, the oldest first.
    tags: VecDeque<Tag>,
}

/// What a site has let out, and how long its log was after the step that made it.
#[derive(Drop)]
pub(crate) struct Waiting {
    /// How long the log was.
    pub(crate) length: u64,
    /// What was let out.
    pub(crate) output: Output,
}

impl Model for ByteSite {
    ghost use Rattle.pv_handle.specs.ByteState.{ByteState};
    ghost use Rattle.pv_handle.specs.ByteView.{state_of, IsByteSite};

    ghost Value = { ByteState };

    ghost use Rattle.std.specs.Coded.{codes};
    ghost use Rattle.pv_model.specs.SyntaxCodes.{program_code};

    ghost coded = { Prim.hlevel (codes, program_code) };

    ghost view = { state_of };

    ghost invariant = { IsByteSite };
}

impl ByteSite {
    /// Opens a site on the bytes of its journal, as [`HostedSite::open`] does. It takes memory for the journal alone, whatever stands behind it.
    pub fn open(alloc: Global, config: &[u8], me: u8, journal: &[u8]) -> Result<ByteSite, OpenFault>
        ensures { OpensBytes config.now me journal.now result }
    {
        let site = open_hosted(alloc, config, me, journal)?;
        Ok(ByteSite {
            alloc,
            site,
            waiting: None,
            taken: false,
            tags: VecDeque::new(alloc),
        })
    }

    /// A request, as [`HostedSite::submit`] takes it, with a tag of the host's, by which it knows the report of the request's number.
    pub fn submit(&mut self, text: &[u8], query: bool, tag: u64) -> Result<(), SubmitFault>
        ensures { SubmitsTagged text.now query tag self.old self.new result }
    {
        if self.tags.reserve(1).is_err() {
            return Err(SubmitFault::NoMemory);
        }
        match self.site.submit(text, query) {
            Ok(begun) => {
                keep_tag(&mut self.tags, begun, tag);
                Ok(())
            }
            Err(fault) => Err(fault),
        }
    }

    /// A message comes, as [`HostedSite::receive`] takes it.
    pub fn receive(&mut self, bytes: &[u8]) -> Result<(), ReceiveFault>
        ensures { OnSite (λ old new. ReceivesBy old new bytes.now) self.old self.new result }
    {
        self.site.receive(bytes)
    }

    /// Time has passed.
    pub fn tick(&mut self) -> Result<(), NoMemory>
        ensures { OnSite (λ old new. Gives old new model.tick) self.old self.new result }
    {
        self.site.tick()
    }

    /// What the host is to write next into its file: of the records that wait a group, as many as have room in `out`, and one at least. Where there is no room for one
    /// it isn't asked to write, and told how much room it needs. Else the same comes until it has told that it is done.
    pub fn next_write(&mut self, out: &mut [u8]) -> Given
        ensures { TakesWrite out.old out.new self.old self.new result }
    {
        groups_fit_their_room();
        let Some(needed) = self.site.least_write() else {
            return Given::Nothing;
        };
        if out.len() < needed {
            return Given::TooSmall { needed };
        }
        self.site.ask(out.len());
        let Some(write) = self.site.next_write() else {
            // There is something to write.
            unreachable!();
        };
        let given = give(write.bytes, write.place, out);
        self.taken = true;
        given
    }

    /// The host has written so many bytes at this place, and synced its file. That is taken only of what is to be written next, and only where
    /// [`ByteSite::next_write`] has given its bytes.
    pub fn written(&mut self, place: u64, count: usize) -> Result<(), NotNext>
        ensures { AcceptsWrite place count self.old self.new result }
    {
        if !self.taken {
            return Err(NotNext);
        }
        let is_next = match self.site.next_write() {
            Some(write) => write.place == place && write.bytes.len() == count,
            None => false,
        };
        if !is_next {
            return Err(NotNext);
        }
        self.site.written();
        self.taken = false;
        Ok(())
    }

    /// The next thing that the site lets out: the bytes of a message, which go to a site, or a report as a line, which goes to [`REPORT`](crate::REPORT).
    /// It stays until there was room and memory for it. With the report of a request's number goes the request's tag, and 0 with all else.
    pub fn take(&mut self, out: &mut [u8], tag: &mut u64) -> Result<Given, NoMemory>
        ensures { TakesTagged out.old out.new tag.new self.old self.new result }
    {
        *tag = 0;
        bring(&mut self.site, &mut self.waiting);
        let Some(waiting) = &self.waiting else {
            return Ok(Given::Nothing);
        };
        let given = give_output(
            self.alloc,
            &waiting.output,
            self.site.me(),
            self.site.catalog(),
            out,
        )?;
        *tag = let_go(&mut self.waiting, &mut self.tags, given);
        Ok(given)
    }

    /// What the site shows of its item of this name, as the line that a report has for it, once all records are in the host's file.
    pub fn read(&self, name: &[u8], out: &mut [u8]) -> Result<Given, ValueFault>
        ensures { ReadsBytes self.now.hosted name.now out.old out.new result }
    {
        let shown = self.site.read(name)?;
        let catalog = self.site.catalog();
        let Some(item) = catalog.find(name) else {
            return Err(ValueFault::UnknownName);
        };
        let text = shown_text(self.alloc, item, shown, catalog)?;
        Ok(give(&text, 0, out))
    }
}

// Lets the site let out what is next, unless something waits.
fn bring(site: &mut HostedSite, waiting: &mut Option<Waiting>)
    ensures held { waits_before waiting.new site.new.held ≡ waits_before waiting.old site.old.held }
    ensures site { site.new ≡ record site.old { held = site.new.held } }
    ensures stored { IfSome waiting.old (λ waits. waits.length ≤ stored_length site.old) → IfSome waiting.new (λ waits. waits.length ≤ stored_length site.old) }
    ensures nothing { waiting.new ≡ None → NothingMayLeave (stored_length site.old) site.new.held }
{
    if waiting.is_some() {
        return;
    }
    let Some(length) = site.waits_for() else {
        return;
    };
    if let Some(output) = site.take() {
        *waiting = Some(Waiting { length, output });
    }
}
