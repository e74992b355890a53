// The calls on a slot of an outbox.
ghost use Rattle.std.specs.Prelude.{◌≡◌, None};
ghost use Rattle.pv_base.specs.declared.txn.TxnId.{TxnId};
ghost use Rattle.pv_embed_outbox.specs.Calls.{HoldsBy, LearnsBy, ReleasesBy, TakesBy};
ghost use Rattle.pv_handle.specs.Outbox.{AcceptsBoxWrite, InformsBox, OnBox, OpensBox, TakesBoxWrite};
ghost use Rattle.pv_handle.specs.Slot.{Opens, Calls, Asks};
ghost use Rattle.pv_c.specs.Answer.{Answers, GivenAs};
ghost use Rattle.pv_c.specs.Causes.{write_number};
ghost use Rattle.pv_c.specs.Faults.{AnswersAt};
ghost use Rattle.pv_c.specs.Outbox.{JournalAs, LearntAs, TakenAs, holding_number, opening_box_fault, opening_box_number, releasing_number};

use crate::fault::Fault;
use crate::given_text::given;
use crate::numbers::{numbers_of_asked, status_of_write};
use crate::outbox_numbers::{
    journal_of, learnt_outcome, opening_box_fault_of, status_of_box_opening, status_of_holding,
    status_of_journal, status_of_learning, status_of_releasing, status_of_taking, taken_output,
};
use pv_base::{SiteId, TxnId};
use pv_handle::{JournalInfo, OutboxSlot};
use std::alloc::Global;

/// Opens a closed slot with an outbox that goes on from a journal, and says where it is refused.
#[unsafe(no_mangle)]
pub extern "C" fn polydb_outbox_open(
    alloc: Global,
    outbox: &mut OutboxSlot,
    journal: &[u8],
    fault: &mut Fault,
) -> u32
    ensures { AnswersAt opening_box_number opening_box_fault result fault.new (Opens (OpensBox journal.now) outbox.old.handle.outbox outbox.new.handle.outbox) }
{
    let answer = outbox.open(alloc, given(journal));
    *fault = opening_box_fault_of(answer);
    status_of_box_opening(answer)
}

/// An output is held back.
#[unsafe(no_mangle)]
pub extern "C" fn polydb_outbox_hold(
    alloc: Global,
    outbox: &mut OutboxSlot,
    output: u32,
    cases: &[u8],
) -> u32
    ensures { Answers holding_number result (Calls (OnBox (λ old new. HoldsBy old new output cases.now)) outbox.old.handle.outbox outbox.new.handle.outbox) }
{
    status_of_holding(outbox.hold(alloc, output, given(cases)))
}

/// An outcome is learnt; and it is said which one was before.
#[unsafe(no_mangle)]
pub extern "C" fn polydb_outbox_learn(
    alloc: Global,
    outbox: &mut OutboxSlot,
    coordinator: u8,
    epoch: u32,
    number: u32,
    commits: bool,
    outcome: &mut u32,
) -> u32
    ensures { let txn : TxnId = record { site = record { 0 = coordinator }; epoch = epoch; number = number } in
        LearntAs result outcome.new (Calls (OnBox (λ old new. LearnsBy old new txn commits)) outbox.old.handle.outbox outbox.new.handle.outbox) }
{
    let txn = TxnId {
        site: SiteId(coordinator),
        epoch,
        number,
    };
    let answer = outbox.learn(alloc, txn, commits);
    *outcome = learnt_outcome(answer);
    status_of_learning(answer)
}

/// The ready output that was held first is released.
#[unsafe(no_mangle)]
pub extern "C" fn polydb_outbox_release(alloc: Global, outbox: &mut OutboxSlot) -> u32
    ensures { Answers releasing_number result (Calls (OnBox (λ old new. ReleasesBy old new)) outbox.old.handle.outbox outbox.new.handle.outbox) }
{
    status_of_releasing(outbox.release(alloc))
}

/// The next output that was released is taken, once the record of that is in the host's file.
#[unsafe(no_mangle)]
pub extern "C" fn polydb_outbox_take(
    alloc: Global,
    outbox: &mut OutboxSlot,
    output: &mut u32,
) -> u32
    ensures { TakenAs result output.new (Calls (OnBox (λ old new. TakesBy old new)) outbox.old.handle.outbox outbox.new.handle.outbox) }
{
    let answer = outbox.take(alloc);
    *output = taken_output(answer);
    status_of_taking(answer)
}

/// What the host is to write next into its file, and where.
#[unsafe(no_mangle)]
pub extern "C" fn polydb_outbox_take_journal(
    alloc: Global,
    outbox: &mut OutboxSlot,
    out: &mut [u8],
    written: &mut usize,
    place: &mut u64,
) -> u32
    ensures given { GivenAs (record { status = result; count = written.new; to = place.new })
        (Asks (TakesBoxWrite out.old out.new) outbox.old.handle.outbox outbox.new.handle.outbox) }
    ensures unchanged { outbox.old.handle.outbox ≡ None → out.new ≡ out.old }
{
    let answer = outbox.next_write(alloc, out);
    let numbers = numbers_of_asked(answer);
    *written = numbers.count;
    *place = numbers.to;
    numbers.status
}

/// The host has written so many bytes at this place, and synced its file.
#[unsafe(no_mangle)]
pub extern "C" fn polydb_outbox_journal_synced(
    alloc: Global,
    outbox: &mut OutboxSlot,
    place: u64,
    written: usize,
) -> u32
    ensures { Answers write_number result (Calls (AcceptsBoxWrite place written) outbox.old.handle.outbox outbox.new.handle.outbox) }
{
    status_of_write(outbox.written(alloc, place, written))
}

/// How long the outbox's journal is.
#[unsafe(no_mangle)]
pub extern "C" fn polydb_outbox_info(
    alloc: Global,
    outbox: &mut OutboxSlot,
    journal: &mut JournalInfo,
) -> u32
    ensures { JournalAs result journal.new (Asks (λ old new info. (new ≡ old) × InformsBox old.hosted info) outbox.old.handle.outbox outbox.new.handle.outbox) }
{
    let answer = outbox.info(alloc);
    *journal = journal_of(answer);
    status_of_journal(answer)
}

/// Closes the slot and frees what it held.
#[unsafe(no_mangle)]
pub extern "C" fn polydb_outbox_close(alloc: Global, outbox: &mut OutboxSlot)
    ensures { outbox.new.handle.outbox ≡ None }
{
    outbox.close(alloc);
}
