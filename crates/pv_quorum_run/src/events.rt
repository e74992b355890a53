// What each event of a script makes of the deciders.
ghost use Rattle.std.specs.Prelude.{◌≡◌, ◌<◌, ◌++◌, true, map, slice_get, IfOk, OnOk};
ghost use Rattle.pv_base.specs.declared.limits.TheConstants.{MAX_SITES};
ghost use Rattle.pv_law_decisions.specs.Scene as scenes;
ghost use Rattle.pv_law_decisions.specs.Scene.{Scene, memory_at};
ghost use Rattle.pv_law_quorum.specs.World as law;
ghost use Rattle.pv_quorum.specs.DeciderState.{IsInput};
ghost use Rattle.pv_quorum.specs.Values.{input_of};
ghost use Rattle.pv_quorum_run.specs.Happening.{HasFollowed, HasHappened, HasPumped};
ghost use Rattle.pv_quorum_run.specs.LineView.{line_of, start_line, stop_line};
ghost use Rattle.pv_quorum_run.specs.Mail.{sent_by};
ghost use Rattle.pv_quorum_run.specs.Stands.{Becomes, StandsFor, StandsForSome, setup_for};
ghost use Rattle.pv_quorum_script.specs.Fits.{IsEventFor};
ghost use Rattle.pv_quorum_script.specs.declared.event.QuorumEvent.TheVariants.{Pump};

use crate::cell::{Start, Stepped};
use crate::mail::{Mail, Sent};
use crate::printing::{Line, broken_line, push_line, push_step};
use crate::table::Table;
use pv_base::{NoMemory, TxnId};
use pv_quorum::{QuorumInput, QuorumSend, QuorumStep};
use pv_quorum_script::QuorumEvent;

impl Table {
    // Makes of the deciders what the event makes of them; what it prints comes after what the buffer holds.
    pub(crate) fn happen(&mut self, event: &QuorumEvent, text: &mut Vec<u8>) -> Result<(), NoMemory>
        requires stands { StandsForSome self.old }
        requires event { IsEventFor self.old.count event.now }
        ensures { (scene : Scene) → StandsFor self.old scene → OnOk result (HasHappened self.old self.new text.old.items text.new.items scene event.now) }
    {
        match *event {
            QuorumEvent::Propose {
                decider,
                txn,
                commits,
            } => self.propose(decider, txn, commits, text),
            QuorumEvent::Deliver(number) => self.deliver(number, text),
            QuorumEvent::Pump(most) => self.pump(most, text),
            QuorumEvent::Lose(number) => self.lose(number, text),
            QuorumEvent::Drop(decider) => {
                self.mail.drop_to(decider);
                Ok(())
            }
            QuorumEvent::Stop(decider) => self.stop(decider, text),
            QuorumEvent::Start(decider) => self.start(decider, text),
            QuorumEvent::Arm {
                decider,
                call,
                mode,
                stop,
            } => {
                self.cells[decider as usize].arm(call, mode, stop);
                Ok(())
            }
            QuorumEvent::Mend(decider) => {
                self.cells[decider as usize].mend();
                Ok(())
            }
        }
    }

    // A decider proposes an outcome.
    fn propose(
        &mut self,
        decider: u8,
        txn: TxnId,
        commits: bool,
        text: &mut Vec<u8>,
    ) -> Result<(), NoMemory>
        requires stands { StandsForSome self.old }
        requires decider { decider < self.old.count }
        requires site { txn.site.0 < MAX_SITES }
        ensures { (scene : Scene) → StandsFor self.old scene →
            Becomes self.old self.new text.old.items text.new.items (scenes.proposed (setup_for self.old) scene decider txn commits) result }
    {
        self.give(decider, &QuorumInput::Propose { txn, commits }, text)
    }

    // The message of this number is done, and its receiver takes it.
    fn deliver(&mut self, number: u64, text: &mut Vec<u8>) -> Result<(), NoMemory>
        requires { StandsForSome self.old }
        ensures { (scene : Scene) → StandsFor self.old scene →
            Becomes self.old self.new text.old.items text.new.items (scenes.delivered (setup_for self.old) scene number) result }
    {
        let Some(post) = self.mail.get(number) else {
            return push_line(text, Line::NoMessage(number));
        };
        self.mail.finish(number);
        let input = QuorumInput::Take {
            from: post.from,
            message: post.message,
        };
        self.give(post.to, &input, text)
    }

    // The fresh messages are delivered, the least first, until none is left or so many were delivered.
    fn pump(&mut self, most: Option<u32>, text: &mut Vec<u8>) -> Result<(), NoMemory>
        requires { StandsForSome self.old }
        ensures { (scene : Scene) → StandsFor self.old scene →
            OnOk result (HasHappened self.old self.new text.old.items text.new.items scene (Pump most)) }
    {
        match most {
            Some(most) => {
                self.pump_some(u64::from(most), text)?;
                Ok(())
            }
            None => {
                // So many messages aren't in any memory.
                if !self.pump_some(u64::MAX, text)? {
                    return Err(NoMemory);
                }
                Ok(())
            }
        }
    }

    // Fresh messages are delivered, so many at most. Answers whether none is left.
    fn pump_some(&mut self, most: u64, text: &mut Vec<u8>) -> Result<bool, NoMemory>
        requires { StandsForSome self.old }
        ensures { (scene : Scene) → StandsFor self.old scene →
            IfOk result (HasPumped self.old self.new text.old.items text.new.items scene most) }
    {
        for _ in 0..most {
            let Some(number) = self.mail.next_fresh() else {
                return Ok(true);
            };
            self.deliver(number, text)?;
        }
        Ok(false)
    }

    // The message of this number is done without being taken.
    fn lose(&mut self, number: u64, text: &mut Vec<u8>) -> Result<(), NoMemory>
        ensures { (scene : Scene) → StandsFor self.old scene →
            Becomes self.old self.new text.old.items text.new.items (scenes.lost scene number (slice_get scene.world.sent number)) result }
    {
        if self.mail.get(number).is_none() {
            return push_line(text, Line::NoMessage(number));
        }
        self.mail.finish(number);
        Ok(())
    }

    // The decider stops between steps.
    fn stop(&mut self, decider: u8, text: &mut Vec<u8>) -> Result<(), NoMemory>
        requires stands { StandsForSome self.old }
        requires decider { decider < self.old.count }
        ensures { (scene : Scene) → StandsFor self.old scene →
            Becomes self.old self.new text.old.items text.new.items (scenes.halted (setup_for self.old) scene decider (memory_at scene decider)) result }
    {
        let was_up = self.cells[decider as usize].stop();
        push_line(text, stop_line(decider, was_up))
    }

    // The decider starts.
    fn start(&mut self, decider: u8, text: &mut Vec<u8>) -> Result<(), NoMemory>
        requires stands { StandsForSome self.old }
        requires decider { decider < self.old.count }
        ensures { (scene : Scene) → StandsFor self.old scene →
            Becomes self.old self.new text.old.items text.new.items (scenes.begun (setup_for self.old) scene decider (memory_at scene decider)) result }
    {
        let start = self.cells[decider as usize].start(self.alloc, decider, self.count)?;
        push_line(text, start_line(decider, start))
    }

    // A decider that is up makes a step of the input; one that is down says so.
    fn give(&mut self, decider: u8, input: &QuorumInput, text: &mut Vec<u8>) -> Result<(), NoMemory>
        requires stands { StandsForSome self.old }
        requires decider { decider < self.old.count }
        requires input { IsInput decider self.old.count input.now }
        ensures { (scene : Scene) (made : law.Ending → law.Event) → StandsFor self.old scene →
            ((ending : law.Ending) → law.after_event (setup_for self.old) scene.world (made ending)
            ≡ law.given (setup_for self.old) scene.world decider (input_of input.now) ending (memory_at scene decider)) →
            Becomes self.old self.new text.old.items text.new.items
            (scenes.given (setup_for self.old) scene decider (input_of input.now) made (memory_at scene decider)) result }
    {
        match self.cells[decider as usize].step(input)? {
            Stepped::Made(step) => self.follow(decider, &step, text),
            Stepped::Broke { stops } => push_line(text, broken_line(decider, stops)),
            Stepped::Down => push_line(text, Line::Down(decider)),
        }
    }

    // What a step of a decider sends and reports.
    fn follow(&mut self, decider: u8, step: &QuorumStep, text: &mut Vec<u8>) -> Result<(), NoMemory>
        ensures { OnOk result (HasFollowed self.old self.new text.old.items text.new.items decider step.now) }
    {
        post_all(&mut self.mail, decider, &step.sends)?;
        push_step(text, decider, step)
    }
}

// The line of a stop, by whether the decider was up.
fn stop_line(decider: u8, was_up: bool) -> Line
    ensures { line_of result ≡ stop_line decider was_up }
{
    if was_up {
        Line::Stopped(decider)
    } else {
        Line::Down(decider)
    }
}

// The line of a start, by what came of it.
fn start_line(decider: u8, start: Start) -> Line
    ensures { line_of result ≡ start_line decider start }
{
    match start {
        Start::Up => Line::Up(decider),
        Start::Started => Line::Started(decider),
        Start::Broke { stops } => broken_line(decider, stops),
    }
}

// Sends the messages, one after another.
fn post_all(mail: &mut Mail, from: u8, sends: &[QuorumSend]) -> Result<(), NoMemory>
    ensures { OnOk result (mail.new ≡ record { sent = mail.old.sent ++ map (sent_by from) sends.now; fresh = mail.old.fresh ++ map (λ send. true) sends.now }) }
{
    for send in sends {
        mail.post(Sent {
            from,
            to: send.to,
            message: send.message,
        })?;
    }
    Ok(())
}
