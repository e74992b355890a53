// What a site goes on from that is opened on what a crash left of its disk. The function does nothing: it states a law.
ghost use Rattle.std.specs.Prelude.{◌≡◌, ℕ, List, Some, Result, Ok, Err};
ghost use Rattle.pv_base.specs.Catalog.{Declared};
ghost use Rattle.pv_format.specs.Contents.{SpellRecords};
ghost use Rattle.pv_format.specs.Record.{Record};
ghost use Rattle.pv_journal.specs.JournalModel.{journal_model};
ghost use Rattle.pv_journal.specs.Opening as journal;
ghost use Rattle.pv_journal.specs.declared.journal.Journal.{Journal as JournalState};
ghost use Rattle.pv_disk_model.specs.Size.{Contents};
ghost use Rattle.pv_format.specs.Journal.{IsJournal};
ghost use Rattle.pv_law_recovery.specs.Recovery.{IsBeforeOrAfter, IsBegunOrNot, Recovers, log_of};
ghost use Rattle.pv_protocol.specs.State as model;
ghost use Rattle.pv_site.specs.Crashes.{IsUp};
ghost use Rattle.pv_site.specs.Opens as site;
ghost use Rattle.pv_site.specs.SiteState.{SiteState};
ghost use Rattle.pv_site.specs.Steps.{Steps};
ghost use Rattle.pv_site.specs.declared.error.OpenError.{OpenError};
ghost use Rattle.pv_site.specs.declared.error.StepError.{StepError};
ghost use Rattle.pv_site.specs.declared.error.StepError.TheVariants.{NoMemory};
ghost use Rattle.pv_site.specs.declared.input.Step.{Step};

use pv_disk::Disk;
use pv_journal::Journal;
use pv_law_journal::{contents_are_those_of_the_journal, one_journal};
use pv_site::crashes_leave_before_or_after;

/// Of a site whose log is a journal on a disk that tells its content:
///
/// - Whatever a crash leaves on the disk at any moment of a step is a journal, and a site that is opened on it goes on from the records before the step, or
///   from these with the step's one.
/// - Once the step has answered, a crash leaves a journal of all records that the site has then; and where it answers that there is no memory, it leaves one of
///   those before, at any moment of the step.
/// - Whatever a crash leaves at any moment of an opening of a site on such a journal is one of the records in it, or of these and the record of an epoch.
///
/// What is opened adds no record but that of its epoch (write-ahead logging: Mohan et al., 1992).
pub fn crashes_are_recovered<D: Disk>()
    ensures at_any_moment { (old new : SiteState (JournalState D)) (running : model.Running) (input : model.Input) (result : Result Step StepError) (left : List ℕ) →
        IsUp (journal_model D.model) old running → Steps (journal_model D.model) old new (Some running) input result →
        D.model.left_since new.log.disk (D.model.moment old.log.disk) left → Recovers D.model left (IsBeforeOrAfter old running input) }
    ensures without_memory { (old new : SiteState (JournalState D)) (running : model.Running) (input : model.Input) (left : List ℕ) →
        IsUp (journal_model D.model) old running → Steps (journal_model D.model) old new (Some running) input (Err NoMemory) →
        D.model.left_since new.log.disk (D.model.moment old.log.disk) left → Recovers D.model left (λ records. records ≡ old.records) }
    ensures while_opening { (disk : D) (limit : ℕ) (log : JournalState D) (held : List ℕ) (contents : Contents) (records : List Record) (me : ℕ) (catalog : Declared)
        (opened : Result (SiteState (JournalState D)) (OpenError (JournalState D))) (left : List ℕ) →
        D.model.content disk ≡ Some held → IsJournal contents held → SpellRecords records contents →
        journal.Opens D.model disk limit (Ok log) → site.Opens (journal_model D.model) log me catalog opened →
        D.model.left_since (log_of opened).disk (D.model.moment log.disk) left → Recovers D.model left (IsBegunOrNot contents) }
    ensures once_answered { (old new : SiteState (JournalState D)) (running : model.Running) (input : model.Input) (answer : Step) (left : List ℕ) →
        IsUp (journal_model D.model) old running → Steps (journal_model D.model) old new (Some running) input (Ok answer) →
        D.model.may_leave new.log.disk left → Recovers D.model left (λ records. records ≡ new.records) }
{
    crashes_leave_before_or_after::<Journal<D>>();
    one_journal();
    contents_are_those_of_the_journal();
}
