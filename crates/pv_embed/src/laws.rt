// What is true of sites with hosts. The functions do nothing: each states a law.
ghost use Rattle.std.specs.Prelude.{◌≡◌, ◌∷◌, ◌++◌, ◌+◌, ◌≤◌, ℕ, [], List, Option, Some, None, Result, Ok, Err};
ghost use Rattle.pv_format.specs.Contents.{SpellRecords};
ghost use Rattle.pv_format.specs.Record.{Record, epoch_begun};
ghost use Rattle.pv_disk_model.specs.Disk.{overlaid};
ghost use Rattle.pv_disk_model.specs.Size.{Contents, size_of};
ghost use Rattle.pv_format.specs.Journal.{IsJournal};
ghost use Rattle.pv_protocol.specs.State as model;
ghost use Rattle.pv_protocol.specs.Records.{longer_journal};
ghost use Rattle.pv_site.specs.SiteState.{SiteState};
ghost use Rattle.pv_site.specs.Steps.{IsReady, Steps};
ghost use Rattle.pv_site.specs.declared.error.StepError.{StepError};
ghost use Rattle.pv_site.specs.declared.error.StepError.TheVariants.{Fault};
ghost use Rattle.pv_site.specs.declared.input.Step.{Step};
ghost use Rattle.pv_host.specs.declared.TheConstants.{EMPTY_JOURNAL};
ghost use Rattle.pv_host.specs.HostFile.{IsFile, MayLeave};
ghost use Rattle.pv_host.specs.HostLaws.{host_model};
ghost use Rattle.pv_host.specs.HostLog.{HostState, HostWrite, next_write};
ghost use Rattle.pv_embed.specs.Held.{Held};
ghost use Rattle.pv_embed.specs.Hosted.{AsksForGroup, HasStepped, HostedState, Stays, TakesNext, Writes};
ghost use Rattle.pv_embed.specs.Kept.{HoldsStoredRecords, RestOn};
ghost use Rattle.pv_embed.specs.LetOut.{WasLetOut};
ghost use Rattle.pv_embed.specs.Opening.{HasOpenedOn};
ghost use Rattle.pv_embed.specs.declared.made.Output.{Output};

use pv_host::{HostLog, files_are_journals, host_logs_never_fail};
use pv_law_journal::one_journal;
use pv_site::{crashes_leave_before_or_after, logs_tell_of_records};

/// Of a host that writes what it is told into the file on which the site was opened:
///
/// - Each file that it may hold stays one through every call, and is one again once it has written what comes next. So is what a crash leaves.
/// - Whatever such a file is, it is a journal of the first of the site's records: of as many as the host has told to be in it, or of these and all of the
/// group that it was asked to write.
/// - What a step makes rests on all records that the site has after it, and is held with the length of the log of them. When something is let out, each such
///   file is a journal at least as long, and one that is begins with these records.
/// - So from the moment that something is let out, whatever calls come and whatever a crash leaves, all records on which it rests are in the file (`kept`).
/// - A site that is opened on it goes on from the records in it, and adds to them that of its epoch alone.
///
/// [`HostedSite::stands_ready`](crate::HostedSite::stands_ready) shows what is asked of the site.
pub fn files_hold_what_was_let_out()
    ensures opened { (config file : List ℕ) (me : ℕ) (hosted : HostedState) → HasOpenedOn config me file hosted → IsFile hosted.site.log file }
    ensures stepped { (old new : HostedState) (input : model.Input) (file : List ℕ) → HasStepped old new input → IsFile old.site.log file → IsFile new.site.log file }
    ensures stayed { (old new : HostedState) (file : List ℕ) → Stays old new → IsFile old.site.log file → IsFile new.site.log file }
    ensures asked { (old new : HostedState) (room : ℕ) (file : List ℕ) → AsksForGroup room old new → IsFile old.site.log file → IsFile new.site.log file }
    ensures written { (old new : HostedState) (write : HostWrite) (file : List ℕ) → Writes old new → next_write old.site.log ≡ Some write → IsFile old.site.log file →
        IsFile new.site.log (overlaid file write.place write.bytes) }
    ensures idle { (old new : HostedState) (file : List ℕ) → Writes old new → next_write old.site.log ≡ None → IsFile old.site.log file → IsFile new.site.log file }
    ensures taken { (old new : HostedState) (result : Option Output) (file : List ℕ) → TakesNext old new result → IsFile old.site.log file → IsFile new.site.log file }
    ensures crashed { (hosted : HostedState) (file left : List ℕ) → IsFile hosted.site.log file → MayLeave hosted.site.log file left → IsFile hosted.site.log left }
    ensures held { (hosted : HostedState) (running : model.Running) (file : List ℕ) → IsReady host_model hosted.site → hosted.site.running ≡ Some running →
        IsFile hosted.site.log file → HoldsStoredRecords hosted file }
    ensures rests { (old new : HostedState) (input : model.Input) → IsReady host_model new.site → HasStepped old new input →
        (made : List Held) × (new.held ≡ old.held ++ made) × RestOn new.site.surplus new.site.records made }
    ensures let_out { (old new : HostedState) (first : Held) (later : List Held) (output : Output) (file : List ℕ) (contents : Contents) → old.held ≡ first ∷ later →
        TakesNext old new (Some output) → IsFile old.site.log file → IsJournal contents file → first.length ≤ size_of contents }
    ensures whole { (hosted : HostedState) (running : model.Running) (file : List ℕ) (contents : Contents) (front later : List Record) → IsReady host_model hosted.site →
        hosted.site.running ≡ Some running → IsFile hosted.site.log file → IsJournal contents file → hosted.site.records ≡ front ++ later →
        longer_journal hosted.site.surplus front ≤ size_of contents → (others : List Record) × SpellRecords (front ++ others) contents }
    ensures kept { (made now : HostedState) (output : Output) (running : model.Running) (file : List ℕ) (contents : Contents) → IsReady host_model made.site →
        WasLetOut made output now → IsReady host_model now.site → now.site.running ≡ Some running → IsFile now.site.log file → IsJournal contents file →
        (others : List Record) × SpellRecords (made.site.records ++ others) contents }
    ensures reopened { (config file : List ℕ) (me : ℕ) (hosted : HostedState) (contents : Contents) (records : List Record) → HasOpenedOn config me file hosted →
        IsJournal contents file → SpellRecords records contents → hosted.site.records ≡ records ++ epoch_begun hosted.site.epoch ∷ [] }
{
    files_are_journals();
    one_journal();
    crashes_leave_before_or_after::<HostLog>();
    logs_tell_of_records();
}

/// A new file, [`EMPTY_JOURNAL`](crate::EMPTY_JOURNAL), is a journal without records.
pub fn new_files_are_journals()
    ensures { IsJournal [] EMPTY_JOURNAL }
{}

/// No step of a site over such a log has a fault, and none leaves it down.
pub fn hosted_sites_stay_up()
    ensures no_fault { (old new : SiteState HostState) (running : Option model.Running) (input : model.Input) → Steps host_model old new running input (Err Fault) → ⊥ }
    ensures up { (old new : SiteState HostState) (running : model.Running) (input : model.Input) (result : Result Step StepError) → old.running ≡ Some running →
        Steps host_model old new (Some running) input result → (later : model.Running) × (new.running ≡ Some later) }
{
    host_logs_never_fail();
}
