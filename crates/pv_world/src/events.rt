// What each event of a schedule makes of the world.
ghost use Rattle.std.specs.Prelude.{◌≡◌, false, slice_get};
ghost use Rattle.pv_protocol.specs.Attempt.{begun, delivered, given, halted, lost, opened, packed};
ghost use Rattle.pv_protocol.specs.Run.{transitions_of};
ghost use Rattle.pv_protocol.specs.State.{submit};
ghost use Rattle.pv_protocol.specs.WellFormed.{CanRun, HasSite, IsWellFormed};
ghost use Rattle.pv_protocol.specs.World as model;
ghost use Rattle.pv_protocol.specs.World.{site_at};
ghost use Rattle.pv_model.specs.Check.{IsPlan};
ghost use Rattle.pv_model.specs.Events as happening;
ghost use Rattle.pv_script.specs.ScheduleView.{event_of, HasPlan};
ghost use Rattle.pv_site.specs.SiteState.{setup_of};
ghost use Rattle.pv_world.specs.Pumping.{is_over, one_less};
ghost use Rattle.pv_world.specs.Stands.{StandsFor, StandsForSome};
ghost use Rattle.pv_world.specs.Stands as world;
ghost use Rattle.pv_world.specs.Steps.{Comes, MakesTransitions};

use crate::cell::{Checkpointed, Start};
use crate::laws::reached_worlds_are_lawful;
use crate::lines::broken_line;
use crate::spelled::envelope;
use crate::{World, WorldError};
use pv_ast::Program;
use pv_base::SiteId;
use pv_check::Plan;
use pv_law_programs::one_plan;
use pv_script::{Event, Line};
use pv_site::Given;

impl World {
    // Makes of the world what the event makes of it; what it prints is put after these lines.
    pub(crate) fn happen(&mut self, event: &Event, lines: &mut Vec<Line>) -> Result<(), WorldError>
        requires stands { StandsForSome self.old }
        requires event { IsWellFormed self.old.catalog (event_of event.now) }
        requires plan { HasPlan self.old.catalog event.now }
        ensures { (is : model.World) → StandsFor self.old is →
            MakesTransitions self.old self.new lines.old.items lines.new.items is (transitions_of (setup_of self.old.catalog) is (event_of event.now)) result }
    {
        match event {
            Event::Pump(most) => self.pump(*most, lines),
            other => self.happen_once(other, lines),
        }
    }

    // An event that isn't a pump.
    fn happen_once(&mut self, event: &Event, lines: &mut Vec<Line>) -> Result<(), WorldError>
        requires stands { StandsForSome self.old }
        requires event { IsWellFormed self.old.catalog (event_of event.now) }
        requires plan { HasPlan self.old.catalog event.now }
        ensures { (is : model.World) → StandsFor self.old is →
            Comes self.old self.new lines.old.items lines.new.items (begun (setup_of self.old.catalog) is (event_of event.now)) result }
    {
        reached_worlds_are_lawful();
        match event {
            Event::Submit {
                site,
                program,
                plan,
                ..
            } => self.submit(*site, program, plan, lines),
            Event::Deliver(number) => self.deliver(*number, lines),
            Event::Lose(number) => self.lose(*number, lines),
            Event::Drop(site) => {
                self.mail.drop_to(*site);
                Ok(())
            }
            Event::Tick(site) => self.give(*site, Given::Tick, lines),
            Event::Stop(site) => self.stop(*site, lines),
            Event::Start(site) => self.start(*site, lines),
            Event::Sent => Ok(self.push_sent(lines)?),
            Event::Report => Ok(self.push_report(lines)?),
            Event::Total => Ok(self.push_total(lines)?),
            Event::Arm {
                site,
                k,
                mode,
                stop,
            } => {
                self.cells[site.0 as usize].arm(*k, *mode, *stop);
                Ok(())
            }
            Event::Mend(site) => {
                self.cells[site.0 as usize].mend();
                Ok(())
            }
            Event::Checkpoint(site) => self.checkpoint(*site, lines),
            // A pump is its deliveries.
            Event::Pump(_) => Ok(()),
        }
    }

    // A request.
    fn submit(
        &mut self,
        site: SiteId,
        program: &Program,
        plan: &Plan,
        lines: &mut Vec<Line>,
    ) -> Result<(), WorldError>
        requires stands { StandsForSome self.old }
        requires site { HasSite self.old.catalog site.0 }
        requires runs { CanRun self.old.catalog program.now }
        requires plan { IsPlan program.now self.old.catalog.items plan.now.parts.items }
        ensures { (is : model.World) → StandsFor self.old is →
            Comes self.old self.new lines.old.items lines.new.items (given (setup_of self.old.catalog) is site.0 (submit program.now) (site_at is site.0).running) result }
    {
        reached_worlds_are_lawful();
        one_plan();
        self.give(site, Given::Submit { program, plan }, lines)
    }

    // The message of this number is done, and its receiver takes it.
    fn deliver(&mut self, number: u64, lines: &mut Vec<Line>) -> Result<(), WorldError>
        requires { StandsForSome self.old }
        ensures { (is : model.World) → StandsFor self.old is →
            Comes self.old self.new lines.old.items lines.new.items (delivered (setup_of self.old.catalog) is number (slice_get is.sent number)) result }
    {
        reached_worlds_are_lawful();
        let Some(bytes) = self.mail.get(number) else {
            return Ok(lines.push(Line::NoMessage(number))?);
        };
        let envelope = envelope(self.alloc, bytes)?;
        self.mail.finish(number);
        let input = Given::Take {
            from: envelope.from,
            message: &envelope.message,
        };
        self.give(envelope.to, input, lines)
    }

    // The fresh messages are delivered, the least first, until none is left or so many were delivered.
    fn pump(&mut self, most: Option<u32>, lines: &mut Vec<Line>) -> Result<(), WorldError>
        requires { StandsForSome self.old }
        ensures { (is : model.World) → StandsFor self.old is →
            MakesTransitions self.old self.new lines.old.items lines.new.items is (transitions_of (setup_of self.old.catalog) is (happening.pump most)) result }
    {
        let mut left = most;
        while !is_over(left) {
            let Some(number) = self.mail.next_fresh() else {
                return Ok(());
            };
            self.deliver(number, lines)?;
            left = one_less(left);
        }
        Ok(())
    }

    // The message of this number is done without being taken.
    fn lose(&mut self, number: u64, lines: &mut Vec<Line>) -> Result<(), WorldError>
        ensures { (is : model.World) → world.Stands self.old is →
            Comes self.old self.new lines.old.items lines.new.items (lost is number (slice_get is.sent number)) result }
    {
        if number >= self.mail.len() as u64 {
            return Ok(lines.push(Line::NoMessage(number))?);
        }
        self.mail.finish(number);
        Ok(())
    }

    // The site stops between steps.
    fn stop(&mut self, site: SiteId, lines: &mut Vec<Line>) -> Result<(), WorldError>
        requires stands { StandsForSome self.old }
        requires site { HasSite self.old.catalog site.0 }
        ensures { (is : model.World) → StandsFor self.old is →
            Comes self.old self.new lines.old.items lines.new.items (halted is site.0 (site_at is site.0).running) result }
    {
        let stopped = self.cells[site.0 as usize].stop();
        Ok(lines.push(if stopped {
            Line::Stopped(site)
        } else {
            Line::Down(site)
        })?)
    }

    // The site writes its log anew, packed.
    fn checkpoint(&mut self, site: SiteId, lines: &mut Vec<Line>) -> Result<(), WorldError>
        requires stands { StandsForSome self.old }
        requires site { HasSite self.old.catalog site.0 }
        ensures { (is : model.World) → StandsFor self.old is →
            Comes self.old self.new lines.old.items lines.new.items (packed is site.0 (site_at is site.0).running) result }
    {
        reached_worlds_are_lawful();
        let line = match self.cells[site.0 as usize].checkpoint(self.alloc)? {
            Checkpointed::Done => return Ok(()),
            Checkpointed::Down => Line::Down(site),
            Checkpointed::Spent => Line::Spent(site),
            Checkpointed::Broke { stops } => broken_line(site, stops),
        };
        Ok(lines.push(line)?)
    }

    // The site starts.
    fn start(&mut self, site: SiteId, lines: &mut Vec<Line>) -> Result<(), WorldError>
        requires stands { StandsForSome self.old }
        requires site { HasSite self.old.catalog site.0 }
        ensures { (is : model.World) → StandsFor self.old is →
            Comes self.old self.new lines.old.items lines.new.items (opened (setup_of self.old.catalog) is site.0 (site_at is site.0).running) result }
    {
        reached_worlds_are_lawful();
        let line = match self.cells[site.0 as usize].start(self.alloc, site, &self.catalog)? {
            Start::Up => Line::Up(site),
            Start::Started(epoch) => Line::Started { site, epoch },
            Start::Full(length) => Line::Full { site, length },
            Start::Spent => Line::Spent(site),
            Start::Broke { stops } => broken_line(site, stops),
        };
        Ok(lines.push(line)?)
    }
}

// Whether not one more is to be delivered.
fn is_over(left: Option<u32>) -> bool
    ensures { result ≡ is_over left }
{
    match left {
        Some(most) => most == 0,
        None => false,
    }
}

// One less is to be delivered.
fn one_less(left: Option<u32>) -> Option<u32>
    requires { is_over left ≡ false }
    ensures { result ≡ one_less left }
{
    match left {
        Some(most) => Some(most - 1),
        None => None,
    }
}
