// What clients are told along a history.
ghost use Rattle.std.specs.Prelude.{◌≡◌, ◌++◌, [], ℕ, IfOk, OnOk, map};
ghost use Rattle.pv_history.specs.Entries.{came_of, intake_of, stamps_of};
ghost use Rattle.pv_mail.specs.Answers as mail;
ghost use Rattle.pv_mail.specs.Answers.{asker_after, begun_after, begun_after_all, begun_by, told_by, told_of, told_of_all, with_begun};
ghost use Rattle.pv_site.specs.Values.{note_of};
ghost use Rattle.pv_told.specs.Along as law;
ghost use Rattle.pv_told.specs.Words.{printed, told_in};

use crate::asker::asker_of;
use crate::told::Told;
use crate::word::Word;
use pv_base::{NoMemory, TxnId};
use pv_history::{Entry, Seen};
use pv_mail::{Asker, Begun, take_asker};
use pv_site::Note;
use std::alloc::Global;

/// What clients are told along the history, in order. Takes time in proportion to the history, and to the transactions that came to an end times those that were begun and
/// not decided then.
pub(crate) fn told_along<'a>(alloc: Global, history: &'a [Entry]) -> Result<Vec<Told<'a>>, NoMemory>
    ensures { (me : ℕ) → IfOk result (λ told. told_in me told.items ≡ law.told_along me [] (stamps_of history.now)) }
{
    let mut told = Vec::new(alloc);
    let mut begun = Vec::new(alloc);
    for entry in history {
        tell_entry(&mut told, &mut begun, entry)?;
    }
    Ok(told)
}

// Adds what clients are told of the entry, where these transactions are begun and not decided.
fn tell_entry<'a>(
    told: &mut Vec<Told<'a>>,
    begun: &mut Vec<Begun>,
    entry: &'a Entry,
) -> Result<(), NoMemory>
    ensures begun { OnOk result (begun.new.items ≡ begun_by begun.old.items (intake_of entry.now.input) (came_of entry.now.seen)) }
    ensures told { (me : ℕ) → OnOk result (told_in me told.new.items ≡ told_in me told.old.items ++ told_by me begun.old.items (intake_of entry.now.input) (came_of entry.now.seen)) }
{
    let asker = asker_of(&entry.input);
    match &entry.seen {
        Seen::Done(notes) => tell_notes(told, begun, asker, notes),
        Seen::Fault => Ok(()),
        Seen::Down => tell(told, asker, Word::Down),
    }
}

// Adds what clients are told of the notes of a step. Where one of them asked for what the step took in, it is the asker.
fn tell_notes<'a>(
    told: &mut Vec<Told<'a>>,
    begun: &mut Vec<Begun>,
    asker: Option<Asker>,
    notes: &'a [Note],
) -> Result<(), NoMemory>
    ensures begun { OnOk result (begun.new.items ≡ begun_after_all asker begun.old.items (map note_of notes.now)) }
    ensures told { (me : ℕ) → OnOk result (told_in me told.new.items ≡ told_in me told.old.items ++ told_of_all me asker begun.old.items (map note_of notes.now)) }
{
    let mut asker = asker;
    for note in notes {
        asker = tell_note(told, begun, asker, note)?;
    }
    Ok(())
}

// Adds what a client is told of the note. Gives back who is still to be answered: nobody once the request has begun its transaction.
fn tell_note<'a>(
    told: &mut Vec<Told<'a>>,
    begun: &mut Vec<Begun>,
    asker: Option<Asker>,
    note: &'a Note,
) -> Result<Option<Asker>, NoMemory>
    ensures asker { IfOk result (λ left. left ≡ asker_after asker (note_of note.now)) }
    ensures begun { OnOk result (begun.new.items ≡ begun_after asker begun.old.items (note_of note.now)) }
    ensures told { (me : ℕ) → OnOk result (told_in me told.new.items ≡ told_in me told.old.items ++ told_of me asker begun.old.items (note_of note.now)) }
{
    match note {
        Note::Txn(txn) => {
            begin(begun, *txn, asker)?;
            return Ok(None);
        }
        Note::Commit { txn, .. } | Note::Refuse { txn, .. } => {
            let other = take_asker(begun, *txn);
            tell(told, other, Word::Note(note))?;
        }
        Note::Spent => tell(told, asker, Word::Note(note))?,
        Note::Full(_) => {}
    }
    Ok(asker)
}

// A transaction is begun, which somebody asked for or nobody.
fn begin(begun: &mut Vec<Begun>, txn: TxnId, asker: Option<Asker>) -> Result<(), NoMemory>
    ensures { OnOk result (begun.new.items ≡ with_begun asker txn begun.old.items) }
{
    if let Some(asker) = asker {
        begun.push(Begun { txn, asker })?;
    }
    Ok(())
}

// The client, if there is one, is told this.
fn tell<'a>(told: &mut Vec<Told<'a>>, asker: Option<Asker>, word: Word<'a>) -> Result<(), NoMemory>
    ensures { (me : ℕ) → OnOk result (told_in me told.new.items ≡ told_in me told.old.items ++ mail.told asker (printed me word.entry)) }
{
    if let Some(asker) = asker {
        told.push(Told { asker, word })?;
    }
    Ok(())
}
