// What is true of outboxes with hosts. The functions do nothing: each states a law.
ghost use Rattle.std.specs.Prelude.{◌≡◌, ◌≢◌, ◌∷◌, ◌++◌, ⊤, ℕ, true, [], List, All, Ok};
ghost use Rattle.std.specs.List.{AllPairs};
ghost use Rattle.pv_disk_model.specs.Size.{Contents};
ghost use Rattle.pv_format.specs.Journal.{IsJournal};
ghost use Rattle.pv_host.specs.HostFile.{IsStored, MayLeave};
ghost use Rattle.pv_host.specs.HostLog.{contents_of};
ghost use Rattle.pv_law_outbox.specs.Ready.{IsNext};
ghost use Rattle.pv_law_outbox.specs.State.{Record, is_taken, state_of, taken};
ghost use Rattle.pv_outbox.specs.Spelling.{SpellRecords};
ghost use Rattle.pv_embed_outbox.specs.Calls.{ReleasesBy, TakesBy};
ghost use Rattle.pv_embed_outbox.specs.Hosted.{HostedState};
ghost use Rattle.pv_embed_outbox.specs.Life.{Act, Life, Place, closed, running, taken_in};

use pv_host::files_are_journals;
use pv_law_journal::one_journal;
use pv_outbox::contents_tell_records;

/// Whatever comes to pass with outboxes, one after another on one file of a host, where each write leaves nothing but what it writes or, cut off, any bytes in its place:
///
/// - No output is taken twice.
/// - Where a file has the record that an output is released, no outbox lets it out that is opened on the file, nor any later one.
/// - When an output is taken, the host has told that the file has the record of its release.
/// - What is released is the ready output that was held first, by the records that the log has then, and its record is added to them.
/// - What the outbox knows is what its log's records say, and the file is a journal of the first of them: of as many as the host has told to be written, or of these and all of the group that it
///   was asked to write.
/// - What the records say that the host has told to be written is said from then on, in each outbox that is opened later, too.
/// - What a kill leaves, within a write or between two, is a journal of an outbox's records: none of the causes is there for which an opening on it is refused, but want of memory.
pub fn outputs_are_let_out_once()
    ensures once { (file : List ℕ) (acts : List Act) (end : Place) → Life (closed file) acts end → AllPairs (λ output later. output ≢ later) (taken_in acts) }
    ensures never_again { (file : List ℕ) (contents : Contents) (entries : List Record) (acts : List Act) (end : Place) (output : ℕ) → IsJournal contents file →
        SpellRecords entries contents → is_taken (state_of entries) output ≡ true → Life (closed file) acts end → All (λ other. output ≢ other) (taken_in acts) }
    ensures let_out { (start file : List ℕ) (before : List Act) (old new : HostedState) (output : ℕ) → Life (closed start) before (running old file) →
        TakesBy old new (Ok output) → (entries : List Record) × SpellRecords entries old.outbox.log.stored × (is_taken (state_of entries) output ≡ true) }
    ensures ready { (start file : List ℕ) (before : List Act) (old new : HostedState) (answer : ⊤) → Life (closed start) before (running old file) → ReleasesBy old new (Ok answer) →
        (entries : List Record) × (output : ℕ) × SpellRecords entries (contents_of old.outbox.log) × IsNext (state_of entries) output
        × SpellRecords (entries ++ taken output ∷ []) (contents_of new.outbox.log) }
    ensures knows { (start file : List ℕ) (acts : List Act) (hosted : HostedState) → Life (closed start) acts (running hosted file) →
        (entries : List Record) × SpellRecords entries (contents_of hosted.outbox.log) × (hosted.outbox.state ≡ state_of entries) × IsStored hosted.outbox.log file }
    ensures kept { (start file after : List ℕ) (before acts : List Act) (old new : HostedState) (entries : List Record) → Life (closed start) before (running old file) →
        SpellRecords entries old.outbox.log.stored → Life (running old file) acts (running new after) →
        (more : List Record) × SpellRecords (entries ++ more) (contents_of new.outbox.log) × (new.outbox.state ≡ state_of (entries ++ more)) }
    ensures left { (start file left : List ℕ) (before : List Act) (hosted : HostedState) → Life (closed start) before (running hosted file) →
        MayLeave hosted.outbox.log file left → (contents : Contents) × (entries : List Record) × IsJournal contents left × SpellRecords entries contents }
{
    files_are_journals();
    one_journal();
    contents_tell_records();
}
