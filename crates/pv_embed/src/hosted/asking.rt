// What a host asks of its site, which changes nothing.
ghost use Rattle.std.specs.Prelude.{◌≡◌, map};
ghost use Rattle.pv_site.specs.Values.{outgoing_of};
ghost use Rattle.pv_embed.specs.Hosted.{log_length};
ghost use Rattle.pv_embed.specs.Outcomes.{AnswersAsk, TellsOutcome, own_txn, reported};

use crate::{HostedSite, Outcome, OutcomeFault, hosted_sites_stay_up};
use pv_base::{NoMemory, TxnId};
use pv_law_format::some_envelope_spelling;
use pv_site::{Input, Message, Outgoing, StepError, setup_is_in_range};

impl HostedSite {
    /// How long the journal is once the host has written all that the site has asked for. [`HostedSite::stored`] says how long it is.
    pub fn length(&self) -> u64
        ensures { result ≡ log_length self.now }
    {
        self.site.length()
    }

    /// What became of a transaction of this site, by its records and by what it works on: the site answers as it answers another one that asks for the outcome. It
    /// does so once all records are in the host's file, as an item is shown, since a crash may undo what rests on others. Takes logarithmic time.
    ///
    /// The site stays as it was, but for room that was made where there was no memory.
    ///
    /// - [`OutcomeFault::NotHere`]: another site coordinates it.
    /// - [`OutcomeFault::Unwritten`]: records wait to be written into the host's file.
    /// - [`OutcomeFault::NotBegun`]: the site has given its number to no transaction yet.
    /// - [`OutcomeFault::NoMemory`]: there was no memory.
    pub fn outcome(&mut self, txn: TxnId) -> Result<Outcome, OutcomeFault>
        ensures { TellsOutcome self.old self.new txn result }
    {
        if txn.site != self.me {
            return Err(OutcomeFault::NotHere);
        }
        if self.stored < self.site.length() {
            return Err(OutcomeFault::Unwritten);
        }
        let works = self.site.works(txn);
        match self.asked(txn.epoch, txn.number)? {
            Some(true) => Ok(Outcome::Committed),
            Some(false) => Ok(Outcome::NotCommitted),
            None if works => Ok(Outcome::AtWork),
            None => Err(OutcomeFault::NotBegun),
        }
    }

    // What the site answers to a question for the outcome of its transaction, which it asks of itself: whether it commits, or nothing.
    fn asked(&mut self, epoch: u32, number: u32) -> Result<Option<bool>, NoMemory>
        ensures { AnswersAsk self.old self.new (own_txn self.old.site.me epoch number) result }
    {
        hosted_sites_stay_up();
        some_envelope_spelling();
        setup_is_in_range(&self.catalog);
        let question = Input::Take {
            from: self.me,
            message: Message::Ask {
                txn: TxnId {
                    site: self.me,
                    epoch,
                    number,
                },
            },
        };
        match self.site.step(&question) {
            Ok(step) => Ok(reported(&step.sends)),
            Err(StepError::NoMemory) => Err(NoMemory),
            // No append fails.
            Err(StepError::Fault) | Err(StepError::Down) => unreachable!(),
        }
    }
}

// The outcome that the first of these messages reports.
fn reported(sends: &[Outgoing]) -> Option<bool>
    ensures { result ≡ reported (map outgoing_of sends.now) }
{
    match &sends.first()?.message {
        Message::Outcome { commits, .. } => Some(*commits),
        Message::Lock { .. }
        | Message::Granted { .. }
        | Message::Denied { .. }
        | Message::Prepare { .. }
        | Message::Yes { .. }
        | Message::No { .. }
        | Message::Ask { .. } => None,
    }
}
