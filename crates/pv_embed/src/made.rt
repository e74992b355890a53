// What a step sends and reports, until the host may have it.
ghost use Rattle.std.specs.Prelude.{◌≡◌, ◌≢◌, ◌↔◌, ◌<◌, ◌≤◌, ◌++◌, ℕ, [], true, map, All};
ghost use Rattle.std.specs.List.{flat_map};
ghost use Rattle.std.specs.VecDeque.{deque_capacity, deque_len};
ghost use Rattle.pv_site.specs.Values.{note_of, outgoing_of};
ghost use Rattle.pv_embed.specs.Outputs.{TakesFirst, TakesFrom, held_of, outputs_of, outs};
ghost use Rattle.pv_embed.specs.Requests.{begun_first};

use pv_base::{SiteId, TxnId};
use pv_site::{Note, Outgoing, Step};
use pv_wire::Envelope;
use std::collections::VecDeque;
use std::vec::IntoIter;

/// What a site lets out.
#[derive(Debug, Drop)]
pub enum Output {
    /// A message, which the host is to carry to the site that it goes to, as the bytes that [`encode`](crate::encode) makes of it. It may be lost, and may come
    /// twice. It may go to a site that the configuration hasn't, where the journal names a transaction of that site: then it is lost.
    Message(Envelope),
    /// A report.
    Note(Note),
}

/// What a step sends and reports, as far as it wasn't let out.
#[derive(Drop)]
pub(crate) struct Made {
    /// How long the log was after the step.
    pub(crate) length: u64,
    /// The messages, in order.
    pub(crate) sends: IntoIter<Outgoing>,
    /// The reports, in order.
    pub(crate) notes: IntoIter<Note>,
}

impl Made {
    /// What a step made, after which the log was so long.
    pub(crate) fn of(length: u64, step: Step) -> Made
        ensures outputs { (from : ℕ) → outputs_of from result ≡ outs from (map outgoing_of step.sends.items) (map note_of step.notes.items) }
        ensures length { result.length ≡ length }
    {
        Made {
            length,
            sends: step.sends.into_iter(),
            notes: step.notes.into_iter(),
        }
    }

    /// The next one: the messages come first.
    pub(crate) fn take(&mut self, from: SiteId) -> Option<Output>
        ensures takes { TakesFirst (outputs_of from.0 self.old) (outputs_of from.0 self.new) result }
        ensures length { self.new.length ≡ self.old.length }
    {
        if let Some(outgoing) = self.sends.next() {
            return Some(Output::Message(Envelope {
                from,
                to: outgoing.to,
                message: outgoing.message,
            }));
        }
        let note = self.notes.next()?;
        Some(Output::Note(note))
    }

    /// Whether all was let out.
    pub(crate) fn is_empty(&self) -> bool
        ensures { (from : ℕ) → (result ≡ true) ↔ (outputs_of from self.now ≡ []) }
    {
        self.sends.len() == 0 && self.notes.len() == 0
    }
}

/// The transaction that the first of these reports says has begun, if it is such a one.
pub(crate) fn begun_first(notes: &[Note]) -> Option<TxnId>
    ensures { result ≡ begun_first (map note_of notes.now) }
{
    match notes.first()? {
        Note::Txn(txn) => Some(*txn),
        Note::Commit { .. } | Note::Refuse { .. } | Note::Full(_) | Note::Spent => None,
    }
}

/// Adds what a step made, if it made something. There is room for it.
pub(crate) fn keep(queue: &mut VecDeque<Made>, made: Made)
    requires { deque_len queue.old < deque_capacity queue.old }
    ensures held { (from : ℕ) → flat_map (held_of from) queue.new.items ≡ flat_map (held_of from) queue.old.items ++ held_of from made }
    ensures some { (from : ℕ) → All (λ each. outputs_of from each ≢ []) queue.old.items → All (λ each. outputs_of from each ≢ []) queue.new.items }
    ensures lengths { (most : ℕ) → All (λ each. each.length ≤ most) queue.old.items → made.length ≤ most → All (λ each. each.length ≤ most) queue.new.items }
{
    if made.is_empty() {
        return;
    }
    queue.push_back_reserved(made);
}

/// Takes the first of what the steps made, where so much of the log is in the file as there was when it was made. In each of them there is something.
pub(crate) fn take_first(queue: &mut VecDeque<Made>, me: SiteId, stored: u64) -> Option<Output>
    requires { All (λ each. outputs_of me.0 each ≢ []) queue.old.items }
    ensures takes { TakesFrom stored (flat_map (held_of me.0) queue.old.items) (flat_map (held_of me.0) queue.new.items) result }
    ensures some { All (λ each. outputs_of me.0 each ≢ []) queue.new.items }
    ensures lengths { (most : ℕ) → All (λ each. each.length ≤ most) queue.old.items → All (λ each. each.length ≤ most) queue.new.items }
{
    let made = queue.front_mut()?;
    if made.length > stored {
        return None;
    }
    let output = made.take(me);
    if made.is_empty() {
        queue.pop_front();
    }
    output
}
