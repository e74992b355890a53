// What the steps of a site tell its clients.
ghost use Rattle.std.specs.Prelude.{◌≡◌, map};
ghost use Rattle.pv_mail.specs.Answers.{asker_after, begun_after, begun_after_all, told, told_of, told_of_all, with_begun};
ghost use Rattle.pv_mail.specs.Telling.{HasRoomFor, TellsAll, TellsDownTo, TellsLossTo, TellsOne};
ghost use Rattle.pv_protocol.specs.Lines as model;
ghost use Rattle.pv_site.specs.Values.{note_of};

use crate::asked::take_asker;
use crate::{Answer, Asker, Begun, What};
use pv_base::{SiteId, TxnId};
use pv_history::line_of;
use pv_post::Out;
use pv_rings::post_to;
use pv_script::Line;
use pv_site::Note;
use std::alloc::Global;

/// What answers say beside what their client hears: the site, and how many entries they have seen.
#[derive(Clone, Copy)]
pub struct Telling {
    /// Where the memory for a line comes from.
    pub alloc: Global,
    /// The site.
    pub site: SiteId,
    /// How many entries the history has.
    pub seen: u64,
}

impl Telling {
    /// Tells the clients what a step of the site reports. Where one of them asked for what the step took in, it is the asker: there is room for one more
    /// that is begun.
    pub fn all(
        self,
        outs: &mut Vec<Out<Answer>>,
        asker: Option<Asker>,
        begun: &mut Vec<Begun>,
        notes: &[Note],
    )
        requires { HasRoomFor asker begun.old }
        ensures begun { begun.new.items ≡ begun_after_all asker begun.old.items (map note_of notes.now) }
        ensures tells { TellsAll self.seen (told_of_all self.site.0 asker begun.old.items (map note_of notes.now)) outs.old.items outs.new.items }
    {
        let mut asker = asker;
        for note in notes {
            asker = self.note(outs, asker, begun, note);
        }
    }

    // Tells a client what a note says that it hears of. The asker is answered who is left: a request begins one transaction.
    fn note(
        self,
        outs: &mut Vec<Out<Answer>>,
        asker: Option<Asker>,
        begun: &mut Vec<Begun>,
        note: &Note,
    ) -> Option<Asker>
        requires { HasRoomFor asker begun.old }
        ensures asker { result ≡ asker_after asker (note_of note.now) }
        ensures begun { begun.new.items ≡ begun_after asker begun.old.items (note_of note.now) }
        ensures tells { TellsAll self.seen (told_of self.site.0 asker begun.old.items (note_of note.now)) outs.old.items outs.new.items }
        ensures room { HasRoomFor result begun.new }
    {
        match note {
            Note::Txn(txn) => {
                begin(begun, *txn, asker);
                return None;
            }
            Note::Commit { txn, .. } | Note::Refuse { txn, .. } => {
                let other = take_asker(begun, *txn);
                self.print(outs, other, note);
            }
            Note::Spent => self.print(outs, asker, note),
            Note::Full(_) => {}
        }
        asker
    }

    // Tells a client what the note prints.
    fn print(self, outs: &mut Vec<Out<Answer>>, asker: Option<Asker>, note: &Note)
        ensures { TellsAll self.seen (told asker (model.line_of self.site.0 (note_of note.now))) outs.old.items outs.new.items }
    {
        if let Some(asker) = asker {
            let what = match line_of(self.alloc, self.site, note) {
                Ok(line) => What::Line(line),
                Err(_) => What::NoMemory,
            };
            self.tell(outs, asker, what);
        }
    }

    /// Tells a client that its site is down.
    pub fn down(self, outs: &mut Vec<Out<Answer>>, asker: Option<Asker>)
        ensures { TellsDownTo self.site.0 self.seen asker outs.old.items outs.new.items }
    {
        if let Some(asker) = asker {
            self.tell(outs, asker, What::Line(Line::Down(self.site)));
        }
    }

    /// Tells a client that there was no memory for what it asked for.
    pub fn loss(self, outs: &mut Vec<Out<Answer>>, asker: Option<Asker>)
        ensures { TellsLossTo self.seen asker outs.old.items outs.new.items }
    {
        if let Some(asker) = asker {
            self.tell(outs, asker, What::NoMemory);
        }
    }

    // Tells a client this.
    fn tell(self, outs: &mut Vec<Out<Answer>>, asker: Asker, what: What)
        ensures { TellsOne asker.client (record { number = asker.number; seen = self.seen; what = what }) outs.old.items outs.new.items }
    {
        let answer = Answer {
            number: asker.number,
            seen: self.seen,
            what,
        };
        post_to(outs, asker.client as usize, answer);
    }
}

// A transaction is begun. Where a client asked for it, that is noted; there is room.
fn begin(begun: &mut Vec<Begun>, txn: TxnId, asker: Option<Asker>)
    requires { HasRoomFor asker begun.old }
    ensures { begun.new.items ≡ with_begun asker txn begun.old.items }
{
    if let Some(asker) = asker {
        begun.push_reserved(Begun { txn, asker });
    }
}
