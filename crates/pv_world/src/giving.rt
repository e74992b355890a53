// A site is given something to do: its step, and what the step sends, places and reports.
ghost use Rattle.std.specs.Prelude.{◌≡◌, ◌<◌, [], ◌∷◌, All, OnOk, Option, length, map};
ghost use Rattle.std.specs.Option.{option_map};
ghost use Rattle.pv_protocol.specs.Attempt.{given};
ghost use Rattle.pv_protocol.specs.Lines as protocol;
ghost use Rattle.pv_protocol.specs.State as state;
ghost use Rattle.pv_protocol.specs.World as model;
ghost use Rattle.pv_protocol.specs.World.{from_site, site_at, with_sent};
ghost use Rattle.pv_site.specs.Answer.{IsAnswer};
ghost use Rattle.pv_site.specs.Inputs.{IsSpelledFrom};
ghost use Rattle.pv_site.specs.SiteState.{setup_of};
ghost use Rattle.pv_site.specs.Given.{input_in};
ghost use Rattle.pv_site.specs.Values.{outgoing_of};
ghost use Rattle.pv_world.specs.Places.{IsPlacedRight};
ghost use Rattle.pv_world.specs.Stands as world;
ghost use Rattle.pv_world.specs.Steps.{Becomes, CanGive, Comes, IsPlaced, with_placed};
ghost use Rattle.pv_world.specs.Taken.{IsOrderly};

use crate::cell::Stepped;
use crate::lines::{broken_line, push_notes};
use crate::order::at_lock_point;
use crate::{World, WorldError};
use pv_base::{NoMemory, SiteId, TxnId};
use pv_script::Line;
use pv_site::{Given, Outgoing, Step};
use pv_wire::{Envelope, encode_in};

impl World {
    // A site that is up makes a step of the input; one that is down says so.
    pub(crate) fn give(
        &mut self,
        site: SiteId,
        input: Given<'_>,
        lines: &mut Vec<Line>,
    ) -> Result<(), WorldError>
        requires { CanGive self.old site.0 input }
        ensures { (is : model.World) → world.Stands self.old is → IsOrderly (setup_of self.old.catalog) is →
            Comes self.old self.new lines.old.items lines.new.items (given (setup_of self.old.catalog) is site.0 (input_in input.entry) (site_at is site.0).running) result }
    {
        match self.cells[site.0 as usize].step(self.alloc, site, &self.catalog, input)? {
            Stepped::Made(step) => self.follow(site, step, lines),
            Stepped::Broke { stops } => Ok(lines.push(broken_line(site, stops))?),
            Stepped::Down => Ok(lines.push(Line::Down(site))?),
        }
    }

    // What a step of a site places, sends and reports.
    fn follow(&mut self, site: SiteId, step: Step, lines: &mut Vec<Line>) -> Result<(), WorldError>
        requires site { site.0 < length self.old.cells.items }
        requires spelled { All (IsSpelledFrom site.0) step.sends.items }
        ensures { (is : model.World) (made : state.Step) → world.Stands self.old is → IsAnswer step made →
            IsPlacedRight self.old.catalog (site_at is site.0).running made.placed →
            Becomes self.old self.new lines.old.items lines.new.items
            (with_sent (with_placed is made.placed) (from_site site.0 made.sends)) (protocol.lines_of site.0 made.notes) result }
    {
        self.place(site, step.locked)?;
        self.send_all(site, step.sends)?;
        push_notes(lines, site, step.notes)?;
        Ok(())
    }

    // The transaction that has reached its lock point, if one has, is the last of the order.
    fn place(&mut self, site: SiteId, locked: Option<TxnId>) -> Result<(), NoMemory>
        requires { site.0 < length self.old.cells.items }
        ensures { (is : model.World) (at_point : Option state.Placed) → world.Stands self.old is →
            locked ≡ option_map (λ (placed : state.Placed). placed.txn) at_point →
            IsPlacedRight self.old.catalog (site_at is site.0).running at_point → OnOk result (IsPlaced self.old self.new is at_point) }
    {
        if let Some(txn) = locked {
            let placed = at_lock_point(
                self.alloc,
                &self.cells[site.0 as usize],
                txn,
                self.catalog.sites(),
            )?;
            self.order.push(placed)?;
        }
        Ok(())
    }

    // Sends the messages, one after another.
    fn send_all(&mut self, from: SiteId, sends: Vec<Outgoing>) -> Result<(), WorldError>
        requires { All (IsSpelledFrom from.0) sends.items }
        ensures { (is : model.World) → world.Stands self.old is →
            Becomes self.old self.new [] [] (with_sent is (from_site from.0 (map outgoing_of sends.items))) [] result }
    {
        for outgoing in sends {
            self.send(from, outgoing)?;
        }
        Ok(())
    }

    // Sends a message.
    fn send(&mut self, from: SiteId, outgoing: Outgoing) -> Result<(), WorldError>
        requires { IsSpelledFrom from.0 outgoing }
        ensures { (is : model.World) → world.Stands self.old is →
            Becomes self.old self.new [] [] (with_sent is (from_site from.0 (outgoing_of outgoing ∷ []))) [] result }
    {
        let to = outgoing.to;
        let envelope = Envelope {
            from,
            to,
            message: outgoing.message,
        };
        let bytes = encode_in(self.spare.lend(), &envelope)?;
        let posted = self.mail.post(to, &bytes);
        self.spare.take_back(bytes);
        posted
    }
}
