//! The law of hosted sites: sites in processes of their own, each with a host and a file, agree as the sites of a world do, since for whatever
//! happens to them there are events whose run mirrors it. The functions do nothing: each states a law.
#![tactic(auto)]

ghost use Rattle.std.specs.Prelude.{◌≡◌, ℕ, ◌<◌, ◌≤◌, Bool, true, false, Option, Some, None, Result, Ok, Err, List, [], ◌∷◌, ◌++◌, drop, length, map, option_to_list, slice_get, All, AllPairs, IsTrue, ⊤};
ghost use Rattle.std.specs.Option.{option_map};
ghost use Rattle.std.specs.List.{Contains};
ghost use Rattle.pv_base.specs.Catalog.{Declared, Item};
ghost use Rattle.pv_base.specs.declared.failure.NoMemory.{NoMemory};
ghost use Rattle.pv_base.specs.declared.reply.Reply.{Reply};
ghost use Rattle.pv_base.specs.declared.txn.TxnId.{TxnId};
ghost use Rattle.pv_embed.specs.Held.{Held, message, note};
ghost use Rattle.pv_disk_model.specs.Disk.{overlaid};
ghost use Rattle.pv_embed.specs.Hosted.{AsksForGroup, Gives, HasStepped, HostedState, TakesNext, Writes, log_length, stored_length};
ghost use Rattle.pv_embed.specs.Opening.{Configures, HasOpenedOn, OpensHosted};
ghost use Rattle.pv_embed.specs.Outcomes.{TellsOutcome};
ghost use Rattle.pv_embed.specs.Outputs.{out_of};
ghost use Rattle.pv_embed.specs.Requests.{ReceivesBy, SubmitsBy};
ghost use Rattle.pv_embed.specs.declared.asked.Outcome.{Outcome};
ghost use Rattle.pv_embed.specs.declared.asked.Outcome.TheVariants.{Committed, NotCommitted, AtWork};
ghost use Rattle.pv_embed.specs.declared.asked.OutcomeFault.{OutcomeFault};
ghost use Rattle.pv_embed.specs.declared.asked.OutcomeFault.TheVariants.{NotBegun};
ghost use Rattle.pv_embed.specs.declared.fault.OpenFault.TheVariants.{BadRecord, NotOurs, TooManyOutcomes};
ghost use Rattle.pv_embed.specs.declared.fault.ReceiveFault.{ReceiveFault};
ghost use Rattle.pv_embed.specs.declared.fault.SubmitFault.{SubmitFault};
ghost use Rattle.pv_embed.specs.declared.made.Output.{Output};
ghost use Rattle.pv_format.specs.Message.{Envelope, outcome_reported};
ghost use Rattle.pv_host.specs.HostFile.{MayLeave};
ghost use Rattle.pv_host.specs.HostLog.{HostWrite, next_write};
ghost use Rattle.pv_law_hosted.specs.Alone.{GoesOn, HasFile};
ghost use Rattle.pv_law_hosted.specs.Asked.{Asked, asked_as};
ghost use Rattle.pv_law_hosted.specs.Calls.{BeginsAsked, HasSite, IsFromASite};
ghost use Rattle.pv_law_hosted.specs.Claims.{HoldsSite, IsAnswered, IsRefused};
ghost use Rattle.pv_law_hosted.specs.Deployment.{Deployment, IsNew, Station, station_at, with_station};
ghost use Rattle.pv_law_hosted.specs.DeploymentEvents.{Happens, HoldTheSame, MayLeaveAhead, MayTake, Stands};
ghost use Rattle.pv_law_hosted.specs.Made.{IsLetOutOf, made_as, made_by};
ghost use Rattle.pv_law_hosted.specs.Mirrored.{IsMirrored, plain_site, world_of};
ghost use Rattle.pv_law_hosted.specs.Numbers.{AreNumbersFirst, IsAskedAfter};
ghost use Rattle.pv_law_hosted.specs.OneOutcome.{IsSaid};
ghost use Rattle.pv_law_hosted.specs.Reports.{reports_of};
ghost use Rattle.pv_law_hosted.specs.Worked as worked;
ghost use Rattle.pv_law_ends.specs.Ends.{TellOtherEnds, TellsEnd};
ghost use Rattle.pv_law_growth.specs.Growth.{HasGrown};
ghost use Rattle.pv_law_outcomes.specs.Decided.{IsCutTo};
ghost use Rattle.pv_model.specs.Events.{Event, Schedule, submit};
ghost use Rattle.pv_model.specs.Meaning.{value_in};
ghost use Rattle.pv_model.specs.Syntax.{Program};
ghost use Rattle.pv_protocol.specs.Committed.{Fits, entry_of, home_of, is_committed, is_readable, serial_rows};
ghost use Rattle.pv_protocol.specs.Lines.{Line, line_of};
ghost use Rattle.pv_protocol.specs.Outcomes.{IsOut};
ghost use Rattle.pv_protocol.specs.Places.{Place};
ghost use Rattle.pv_protocol.specs.Records.{known};
ghost use Rattle.pv_protocol.specs.Run.{printed, run};
ghost use Rattle.pv_protocol.specs.Shown.{item_value};
ghost use Rattle.pv_protocol.specs.State.{Cause, Entry, Input, Note, Placed, Setup, began, committed, refused, tick};
ghost use Rattle.pv_protocol.specs.WellFormed.{IsWellFormed};
ghost use Rattle.pv_protocol.specs.World.{opening, site_at};
ghost use Rattle.pv_site.specs.SiteState.{setup_of};

use pv_embed::files_hold_what_was_let_out;
use pv_host::files_are_journals;
use pv_law_answers::{commits_answer, committed_fit, no_txn_is_begun_twice, worlds_agree};
use pv_law_ends::{no_txn_ends_twice, txns_end_at_home};
use pv_law_events::{runs_are_reached, starts_find_sound_records};
use pv_law_format::one_record;
use pv_law_journal::one_journal;
use pv_law_outcomes::{
    locks_are_coherent, no_two_outcomes, outcomes_are_decided, outcomes_are_for_ever,
    what_is_open_was_open,
};
use pv_law_programs::some_items;
use pv_law_refusals::refusals_hold;
use pv_law_schedules::one_schedule;
use pv_law_world::{epochs_are_recorded, memories_are_in_order, schedules_are_in_range};
use pv_site::logs_tell_of_records;

/// A deployment is mirrored by the run of some events, under the one configuration that it has from its beginning on, whatever happens in it; and the run only goes on.
pub fn deployments_are_runs()
    ensures new { (catalog : Declared) (d : Deployment) → IsNew catalog d → IsMirrored (setup_of catalog) d [] }
    ensures event { (config : List ℕ) (schedule : Schedule) (d later : Deployment) (events : List Event) → Configures config schedule →
        IsMirrored (setup_of schedule.catalog) d events → Happens config schedule.catalog d later →
        (more : List Event) × IsMirrored (setup_of schedule.catalog) later (events ++ more) }
{
    files_are_journals();
    files_hold_what_was_let_out();
    logs_tell_of_records();
    no_txn_is_begun_twice();
    one_journal();
    one_record();
    one_schedule();
}

/// What the calls of [`HostedSite`](pv_embed::HostedSite) promise is something that may happen in a deployment. So the calls of programs, each by the clause of its
/// contract, make a deployment that a run mirrors. What their hosts owe stands before the arrows, and is all that they owe:
///
/// - Where bytes that it hands on spell a message, one of the sites has let it out (`received`).
/// - It says that a write is in the file only where it is (`wrote`).
/// - A write that hasn't ended, or has failed, leaves the file with any bytes in its range, and so does the end of a process (`is_writing`, `gone`).
/// - It may write on before it says so: a group and its gate, as one write or one after the other. Since nobody else reads the file while the process is there, such a write
///   counts as it says so, or as the process goes (`gone`).
/// - It opens a site, of a number that has no process, on the file that the last process of that number has left, as it is found then: what a write of that process still leaves
///   is part of `gone` (`opened`). What stands behind the journal's end has no part in that: the bytes that it reads may be without, and it may leave another file that holds
///   the same, before any other call (`opened_beside`).
/// - At first each file is a journal without records and no process is there ([`deployments_are_runs`]), and each configuration declares the one catalog.
///
/// [`HostedSite::stands_ready`](pv_embed::HostedSite::stands_ready) shows that the site stands after a call. Before it, it has its number, its catalog and what
/// stands ready, since the deployment is mirrored (`has`). Where a configuration has grown no run goes on; there it has its number and the catalog of its process from its opening on
/// (`has_opened`), whatever happens then (`keeps`). A reading changes nothing, nor does a question what is to be written of what was asked for. `gave` is `took` for who
/// gives as bytes what is let out.
pub fn calls_happen()
    ensures has { (catalog : Declared) (d : Deployment) (events : List Event) (n : ℕ) (site : HostedState) → IsMirrored (setup_of catalog) d events → n < catalog.sites →
        (station_at d n).hosted ≡ Some site → HasSite catalog d n site × Stands site }
    ensures has_opened { (config file : List ℕ) (schedule : Schedule) (d : Deployment) (n : ℕ) (site : HostedState) → Configures config schedule →
        HasOpenedOn config n file site → (station_at d n).hosted ≡ Some site → HasSite schedule.catalog d n site }
    ensures keeps { (config : List ℕ) (catalog other : Declared) (d later : Deployment) (n : ℕ) (site next : HostedState) → HasSite catalog d n site →
        Happens config other d later → (station_at later n).hosted ≡ Some next → HasSite catalog later n next }
    ensures submitted { (config : List ℕ) (catalog : Declared) (d : Deployment) (n : ℕ) (site next : HostedState)
        (text : List ℕ) (query : Bool) (result : Result ⊤ SubmitFault) → HasSite catalog d n site → Stands next → SubmitsBy site next text query result →
        (asked : List Asked) × BeginsAsked catalog site next text result asked ×
        Happens config catalog d (with_station d n (record (station_at d n) { hosted = Some next; asked = (station_at d n).asked ++ asked })) }
    ensures received { (config : List ℕ) (catalog : Declared) (d : Deployment) (n : ℕ) (site next : HostedState)
        (bytes : List ℕ) (result : Result ⊤ ReceiveFault) → HasSite catalog d n site → Stands next → IsFromASite d bytes → ReceivesBy site next bytes result →
        Happens config catalog d (with_station d n (record (station_at d n) { hosted = Some next })) }
    ensures ticked { (config : List ℕ) (catalog : Declared) (d : Deployment) (n : ℕ) (site next : HostedState) (result : Result ⊤ NoMemory) →
        HasSite catalog d n site → Stands next → Gives site next tick result →
        Happens config catalog d (with_station d n (record (station_at d n) { hosted = Some next })) }
    ensures asked { (config : List ℕ) (catalog : Declared) (d : Deployment) (n : ℕ) (site next : HostedState) (room : ℕ) →
        HasSite catalog d n site → Stands next → AsksForGroup room site next →
        Happens config catalog d (with_station d n (record (station_at d n) { hosted = Some next })) }
    ensures wrote { (config : List ℕ) (catalog : Declared) (d : Deployment) (n : ℕ) (site next : HostedState) (write : HostWrite) →
        HasSite catalog d n site → Stands next → next_write site.site.log ≡ Some write → Writes site next →
        Happens config catalog d (with_station d n (record (station_at d n) { file = overlaid (station_at d n).file write.place write.bytes; hosted = Some next })) }
    ensures idled { (config : List ℕ) (catalog : Declared) (d : Deployment) (n : ℕ) (site next : HostedState) →
        HasSite catalog d n site → Stands next → next_write site.site.log ≡ None → Writes site next →
        Happens config catalog d (with_station d n (record (station_at d n) { hosted = Some next })) }
    ensures took { (config : List ℕ) (catalog : Declared) (d : Deployment) (n : ℕ) (site next : HostedState) (result : Option Output) →
        HasSite catalog d n site → Stands next → TakesNext site next result →
        Happens config catalog d
        (with_station d n (record (station_at d n) { hosted = Some next; let_out = (station_at d n).let_out ++ option_to_list (option_map out_of result) })) }
    ensures gave { (config : List ℕ) (catalog : Declared) (d : Deployment) (n : ℕ) (site next : HostedState) (first : Held) (later : List Held) →
        HasSite catalog d n site → Stands next → site.held ≡ first ∷ later → first.length ≤ stored_length site → next ≡ record site { held = later } →
        Happens config catalog d (with_station d n (record (station_at d n) { hosted = Some next; let_out = (station_at d n).let_out ++ first.out ∷ [] })) }
    ensures told { (config : List ℕ) (catalog : Declared) (d : Deployment) (n : ℕ) (site next : HostedState) (txn : TxnId) (result : Result Outcome OutcomeFault) →
        HasSite catalog d n site → Stands next → TellsOutcome site next txn result →
        Happens config catalog d (with_station d n (record (station_at d n) { hosted = Some next })) }
    ensures is_writing { (config : List ℕ) (catalog : Declared) (d : Deployment) (n : ℕ) (site : HostedState) (left : List ℕ) →
        HasSite catalog d n site → Stands site → MayLeave site.site.log (station_at d n).file left →
        Happens config catalog d (with_station d n (record (station_at d n) { file = left })) }
    ensures gone { (config : List ℕ) (catalog : Declared) (d : Deployment) (n : ℕ) (site : HostedState) (left : List ℕ) →
        HasSite catalog d n site → MayLeaveAhead site.site.log (station_at d n).file left →
        Happens config catalog d (with_station d n (record (station_at d n) { file = left; hosted = None })) }
    ensures opened { (config : List ℕ) (catalog : Declared) (d : Deployment) (n : ℕ) (site : HostedState) →
        n < catalog.sites → (station_at d n).hosted ≡ None → HasOpenedOn config n (station_at d n).file site → Stands site →
        Happens config catalog d (with_station d n (record (station_at d n) { hosted = Some site })) }
    ensures opened_beside { (config : List ℕ) (catalog : Declared) (d : Deployment) (n : ℕ) (site : HostedState) (bytes left : List ℕ) →
        n < catalog.sites → (station_at d n).hosted ≡ None → HoldTheSame (station_at d n).file bytes → HoldTheSame (station_at d n).file left →
        HasOpenedOn config n bytes site → Stands site →
        Happens config catalog d (with_station d n (record (station_at d n) { file = left; hosted = Some site })) }
{
    some_items();
    one_journal();
    one_schedule();
}

/// What holds of a deployment that a run mirrors:
///
/// - The run's events are well formed, so all that is promised of runs is promised of it.
/// - What each station has let out, in its order, its site sends and prints in the run, in its order: of what each process's steps made it is a beginning.
/// - Where all of its log is said to be in the file, a site shows what the world's site shows: it has the same records and the same memory.
/// - The file of a station whose process is gone is a journal of exactly the records of the world's site, or of none, where that site was started once and nothing has happened in it.
pub fn mirrored_deployments_agree()
    ensures well { (setup : Setup) (d : Deployment) (events : List Event) → IsMirrored setup d events → All (IsWellFormed setup.catalog) events }
    ensures let_out { (setup : Setup) (d : Deployment) (events : List Event) (n : ℕ) → IsMirrored setup d events → n < setup.catalog.sites →
        IsLetOutOf n (map (made_as n) (station_at d n).let_out) (made_by setup n events) }
    ensures shown { (setup : Setup) (d : Deployment) (events : List Event) (n : ℕ) (hosted : HostedState) → IsMirrored setup d events → n < setup.catalog.sites →
        (station_at d n).hosted ≡ Some hosted → log_length hosted ≤ stored_length hosted →
        site_at (world_of setup events) n ≡ plain_site hosted.site.records hosted.site.running }
    ensures file { (setup : Setup) (d : Deployment) (events : List Event) (n : ℕ) → IsMirrored setup d events → n < setup.catalog.sites →
        (station_at d n).hosted ≡ None → HoldsSite (station_at d n).file (site_at (world_of setup events) n) }
{
    logs_tell_of_records();
}

/// So what users of a deployment see agrees with the serial run, as all that is promised of runs:
///
/// - Each message that was let out was sent in the run, and each report is a line of it. So one outcome of a transaction, the answers of a commit, and that a
///   refusal holds for ever, are promised of what was let out.
/// - Where all of its log is said to be in the file, a site shows of each item that no transaction holds, at each assignment that fits, the value that the
///   serial run of the order leaves it.
pub fn hosted_sites_agree()
    ensures sent { (setup : Setup) (d : Deployment) (events : List Event) (n : ℕ) (envelope : Envelope) → IsMirrored setup d events → n < setup.catalog.sites →
        Contains (station_at d n).let_out (message envelope) → Contains (world_of setup events).sent envelope }
    ensures printed { (setup : Setup) (d : Deployment) (events : List Event) (n : ℕ) (reported : Note) → IsMirrored setup d events → n < setup.catalog.sites →
        Contains (station_at d n).let_out (note reported) → Contains (printed setup events) (line_of n reported) }
    ensures shown { (setup : Setup) (d : Deployment) (events : List Event) (hosted : HostedState) (assignment : List TxnId) (i : ℕ) (item : Item) →
        IsMirrored setup d events → slice_get setup.catalog.items i ≡ Some item → (station_at d item.site).hosted ≡ Some hosted →
        log_length hosted ≤ stored_length hosted → IsTrue (is_readable hosted.site.running i) → Fits (world_of setup events) assignment →
        item_value setup.catalog hosted.site.records i assignment ≡ value_in (serial_rows setup (world_of setup events) assignment) i }
{
    mirrored_deployments_agree();
    worlds_agree();
}

/// Whatever happens in a deployment, a report that was let out holds:
///
/// - A commit that a site reports is one of the run, with the replies that it answers there: the possible ones, and those of each serial run that fits are among them. And its
///   transaction is committed, now and whatever happens later.
/// - A refusal that a site reports is one of the run, with its cause there; and its transaction is neither committed nor open, now and whatever happens later, since
///   what was let out stays so and the run goes on.
/// - So of one transaction not both are reported.
pub fn hosted_reports_hold()
    ensures commits { (setup : Setup) (d : Deployment) (events : List Event) (n : ℕ) (txn : TxnId) (replies : List Reply) → IsMirrored setup d events →
        n < setup.catalog.sites → Contains (station_at d n).let_out (note (committed txn replies)) → IsAnswered setup events txn replies }
    ensures refusals { (setup : Setup) (d : Deployment) (events : List Event) (n : ℕ) (txn : TxnId) (cause : Cause) → IsMirrored setup d events →
        n < setup.catalog.sites → Contains (station_at d n).let_out (note (refused txn cause)) → IsRefused setup events txn cause }
    ensures not_both { (setup : Setup) (d : Deployment) (events : List Event) (n m : ℕ) (txn : TxnId) (replies : List Reply) (cause : Cause) → IsMirrored setup d events →
        n < setup.catalog.sites → m < setup.catalog.sites → Contains (station_at d n).let_out (note (committed txn replies)) →
        Contains (station_at d m).let_out (note (refused txn cause)) → ⊥ }
{
    hosted_sites_agree();
    runs_are_reached();
    commits_answer();
    committed_fit();
    outcomes_are_for_ever();
    refusals_hold();
}

/// Of each transaction at most one report tells how it ends, whatever happens in a deployment: of what a station has let out, whichever of its processes did, no two reports say of
/// one transaction that it has committed or is refused (`once`); and a report that says so is of the transaction's own site (`home`).
pub fn hosted_requests_end_once()
    ensures once { (setup : Setup) (d : Deployment) (events : List Event) (n : ℕ) → IsMirrored setup d events → n < setup.catalog.sites →
        AllPairs TellOtherEnds (reports_of n (station_at d n).let_out) }
    ensures home { (setup : Setup) (d : Deployment) (events : List Event) (n : ℕ) (reported : Note) (txn : TxnId) → IsMirrored setup d events → n < setup.catalog.sites →
        Contains (station_at d n).let_out (note reported) → TellsEnd txn (line_of n reported) → home_of txn ≡ n }
{
    no_txn_ends_twice();
    txns_end_at_home();
}

/// What a site has told to have committed stays so, whatever becomes of the site then: calls, crashes and openings, each under whatever configuration. So it does as a configuration
/// grows, where no run goes on. It is a law of one site alone, since the records on which it tells so are in its file, and a file is only added to (`goes_on`, from a mirrored deployment
/// on, `mirrored`). What happens in a deployment, by whatever catalog, is something that becomes of each of its stations (`walked`): so calls are walked here too as [`calls_happen`] has them. Each later site of that number has a record that says so (`kept`). So where it tells of the transaction again, it tells that it has committed (`told`), and not that
/// its number may still be given (`begun`).
pub fn told_commits_are_kept()
    ensures mirrored { (setup : Setup) (d : Deployment) (events : List Event) (n : ℕ) → IsMirrored setup d events → n < setup.catalog.sites → HasFile (station_at d n) }
    ensures goes_on { (n : ℕ) (first last : Station) → HasFile first → GoesOn n first last → HasFile last }
    ensures walked { (config : List ℕ) (catalog : Declared) (d later : Deployment) (n : ℕ) (last : Station) → Happens config catalog d later →
        GoesOn n (station_at later n) last → GoesOn n (station_at d n) last }
    ensures kept { (n : ℕ) (first last : Station) (site new later : HostedState) (txn : TxnId) → HasFile first → first.hosted ≡ Some site →
        TellsOutcome site new txn (Ok Committed) → GoesOn n first last → last.hosted ≡ Some later → known later.site.records txn ≡ Some true }
    ensures told { (n : ℕ) (first last : Station) (site new later again : HostedState) (txn : TxnId) (outcome : Outcome) → HasFile first → first.hosted ≡ Some site →
        TellsOutcome site new txn (Ok Committed) → GoesOn n first last → last.hosted ≡ Some later → TellsOutcome later again txn (Ok outcome) → outcome ≡ Committed }
    ensures begun { (n : ℕ) (first last : Station) (site new later again : HostedState) (txn : TxnId) → HasFile first → first.hosted ≡ Some site →
        TellsOutcome site new txn (Ok Committed) → GoesOn n first last → last.hosted ≡ Some later → TellsOutcome later again txn (Err NotBegun) → ⊥ }
{
    epochs_are_recorded();
    files_are_journals();
    files_hold_what_was_let_out();
    logs_tell_of_records();
    no_txn_is_begun_twice();
    one_journal();
    one_record();
    one_schedule();
}

/// What was let out before a request was given stands before it in the run: what stations have let out is in the run that mirrors the deployment now
/// (`mirrored_deployments_agree`), and no transaction that a site begins from now on is begun in that run. It is begun in what the run goes on with, by the program that was asked for (`hosted_programs_are_asked_for`).
pub fn hosted_time_is_kept()
    ensures { (setup : Setup) (d : Deployment) (events : List Event) (n : ℕ) (site next : HostedState) (input : Input) (held : Held) (txn : TxnId) →
        IsMirrored setup d events → n < setup.catalog.sites → (station_at d n).hosted ≡ Some site → MayTake setup.catalog d n input → HasStepped site next input →
        Contains (drop (length site.held) next.held) held → held.out ≡ note (began txn) → Contains (printed setup events) (line_of n (began txn)) → ⊥ }
{
    no_txn_is_begun_twice();
}

/// The run's programs are those that hosts have given to their sites:
///
/// - Whatever a request begins in the run has the program that a process of its site was asked for last under its number (`begun`). So where the number was let out, it is the program of the
///   request that has the number, as a process gives none to two requests: only one whose number came into no file is given to another request, and from when it is let out on it never is (`hosted_time_is_kept`).
/// - So each transaction of the order, by whose programs all that is shown and answered goes, has the program that was asked for under its number
///   (`order`). So what each program that hosts ask for keeps, the serial run keeps.
pub fn hosted_programs_are_asked_for()
    ensures begun { (setup : Setup) (d : Deployment) (events : List Event) (n : ℕ) (query : Bool) (text : List ℕ) (program : Program) (txn : TxnId)
        (place : Place (run setup (opening setup) events)) → IsMirrored setup d events → place.transition.event ≡ submit n query text program →
        Contains place.transition.lines (Line.txn txn) → asked_as (station_at d n).asked txn ≡ Some program }
    ensures order { (setup : Setup) (d : Deployment) (events : List Event) (placed : Placed) → IsMirrored setup d events → Contains (world_of setup events).order placed →
        asked_as (station_at d (home_of placed.txn)).asked placed.txn ≡ Some placed.program }
{}

/// What a site has shown stays right, whatever happens later. An assignment that fits a later world, cut to the transactions that were in the order when the item was shown, is
/// one at which it was shown the value that the serial run of that order leaves: none that couldn't commit any more does later.
pub fn hosted_readings_last()
    ensures { (setup : Setup) (d : Deployment) (events more : List Event) (hosted : HostedState) (assignment part : List TxnId) (i : ℕ) (item : Item) →
        IsMirrored setup d events → slice_get setup.catalog.items i ≡ Some item → (station_at d item.site).hosted ≡ Some hosted →
        log_length hosted ≤ stored_length hosted → IsTrue (is_readable hosted.site.running i) → All (IsWellFormed setup.catalog) (events ++ more) →
        Fits (world_of setup (events ++ more)) assignment → IsCutTo (world_of setup events) assignment part →
        item_value setup.catalog hosted.site.records i part ≡ value_in (serial_rows setup (world_of setup events) part) i }
{
    hosted_sites_agree();
    runs_are_reached();
    what_is_open_was_open();
}

/// The file that a process has left is read by the next one: whatever the configuration is, an opening on it, or on other bytes that hold the same, isn't refused since it were
/// no journal, or held what is no record; and where the configuration is the deployment's (`narrow`), or that with another limit of journals (`raised`), or with more items
/// behind its own and any limit (`grown`), not since its records gave an item too many outcomes.
pub fn left_files_are_read()
    ensures ours { (config : List ℕ) (setup : Setup) (d : Deployment) (events : List Event) (n place : ℕ) (bytes : List ℕ) → IsMirrored setup d events →
        n < setup.catalog.sites → (station_at d n).hosted ≡ None → HoldTheSame (station_at d n).file bytes → OpensHosted config n bytes (Err (NotOurs place)) → ⊥ }
    ensures records { (config : List ℕ) (setup : Setup) (d : Deployment) (events : List Event) (n index : ℕ) (bytes : List ℕ) → IsMirrored setup d events →
        n < setup.catalog.sites → (station_at d n).hosted ≡ None → HoldTheSame (station_at d n).file bytes → OpensHosted config n bytes (Err (BadRecord index)) → ⊥ }
    ensures narrow { (config : List ℕ) (schedule : Schedule) (d : Deployment) (events : List Event) (n count : ℕ) (bytes : List ℕ) → Configures config schedule →
        IsMirrored (setup_of schedule.catalog) d events → n < schedule.catalog.sites → (station_at d n).hosted ≡ None → HoldTheSame (station_at d n).file bytes →
        OpensHosted config n bytes (Err (TooManyOutcomes count)) → ⊥ }
    ensures raised { (config later_config : List ℕ) (schedule later : Schedule) (limit : ℕ) (d : Deployment) (events : List Event) (n count : ℕ) (bytes : List ℕ) →
        Configures config schedule → Configures later_config later → later.catalog ≡ record schedule.catalog { journal = limit } →
        IsMirrored (setup_of schedule.catalog) d events → n < schedule.catalog.sites → (station_at d n).hosted ≡ None → HoldTheSame (station_at d n).file bytes →
        OpensHosted later_config n bytes (Err (TooManyOutcomes count)) → ⊥ }
    ensures grown { (config later_config : List ℕ) (schedule later : Schedule) (grown : Declared) (limit : ℕ) (d : Deployment) (events : List Event) (n count : ℕ)
        (bytes : List ℕ) → Configures config schedule → Configures later_config later → HasGrown schedule.catalog grown → later.catalog ≡ record grown { journal = limit } →
        IsMirrored (setup_of schedule.catalog) d events → n < schedule.catalog.sites → (station_at d n).hosted ≡ None → HoldTheSame (station_at d n).file bytes →
        OpensHosted later_config n bytes (Err (TooManyOutcomes count)) → ⊥ }
{
    mirrored_deployments_agree();
    locks_are_coherent();
    one_journal();
    one_schedule();
    runs_are_reached();
    schedules_are_in_range();
    starts_find_sound_records();
}

/// What a site tells of a transaction that it coordinates is so in the run, and stays so whatever happens later, since the run only goes on:
///
/// - Of one that has committed, that it is committed there.
/// - Of one that hasn't and never will, that it is neither committed nor open there.
/// - Of one that is at work, that its site works on it there, and it isn't committed yet.
/// - Of one whose number it has reported, one of these, and not that the number may still be given (`begun`).
///
/// And the outcomes of a transaction that sites report to one another in messages that were let out are one outcome.
pub fn hosted_outcomes_hold()
    ensures commits { (setup : Setup) (d : Deployment) (events more : List Event) (n : ℕ) (hosted new : HostedState) (txn : TxnId) → IsMirrored setup d events →
        n < setup.catalog.sites → (station_at d n).hosted ≡ Some hosted → TellsOutcome hosted new txn (Ok Committed) →
        All (IsWellFormed setup.catalog) (events ++ more) → IsTrue (is_committed (world_of setup (events ++ more)) txn) }
    ensures never { (setup : Setup) (d : Deployment) (events more : List Event) (n : ℕ) (hosted new : HostedState) (txn : TxnId) → IsMirrored setup d events →
        n < setup.catalog.sites → (station_at d n).hosted ≡ Some hosted → TellsOutcome hosted new txn (Ok NotCommitted) →
        All (IsWellFormed setup.catalog) (events ++ more) → IsOut txn (world_of setup (events ++ more)) }
    ensures at_work { (setup : Setup) (d : Deployment) (events : List Event) (n : ℕ) (hosted new : HostedState) (txn : TxnId) → IsMirrored setup d events →
        n < setup.catalog.sites → (station_at d n).hosted ≡ Some hosted → TellsOutcome hosted new txn (Ok AtWork) →
        (entry : Entry) × (entry_of (world_of setup events) txn ≡ Some entry) × (is_committed (world_of setup events) txn ≡ false) }
    ensures begun { (setup : Setup) (d : Deployment) (events : List Event) (n : ℕ) (hosted new : HostedState) (txn : TxnId) → IsMirrored setup d events →
        n < setup.catalog.sites → (station_at d n).hosted ≡ Some hosted → Contains (station_at d n).let_out (note (began txn)) →
        TellsOutcome hosted new txn (Err NotBegun) → ⊥ }
    ensures one { (setup : Setup) (d : Deployment) (events : List Event) (n m : ℕ) (envelope other : Envelope) (txn : TxnId) (commits reported : Bool) →
        IsMirrored setup d events → n < setup.catalog.sites → m < setup.catalog.sites → Contains (station_at d n).let_out (message envelope) →
        Contains (station_at d m).let_out (message other) → envelope.message ≡ outcome_reported txn commits → other.message ≡ outcome_reported txn reported →
        commits ≡ reported }
{
    mirrored_deployments_agree();
    hosted_sites_agree();
    runs_are_reached();
    epochs_are_recorded();
    memories_are_in_order();
    outcomes_are_decided();
    outcomes_are_for_ever();
    no_two_outcomes();
}

/// Whatever sites say of a transaction's outcome, they say one: in messages and in reports that were let out, and to their hosts that ask (`now`). And what was said once is so
/// whatever happens later: so nothing else is said then, by whichever process (`later`).
pub fn hosted_sites_tell_one_outcome()
    ensures now { (setup : Setup) (d : Deployment) (events : List Event) (txn : TxnId) (commits other : Bool) → IsMirrored setup d events → IsSaid setup d txn commits →
        IsSaid setup d txn other → commits ≡ other }
    ensures later { (setup : Setup) (d later : Deployment) (events more : List Event) (txn : TxnId) (commits other : Bool) → IsMirrored setup d events →
        IsMirrored setup later (events ++ more) → IsSaid setup d txn commits → IsSaid setup later txn other → commits ≡ other }
{
    hosted_sites_agree();
    hosted_reports_hold();
    hosted_outcomes_hold();
    runs_are_reached();
    outcomes_are_decided();
    outcomes_are_for_ever();
    refusals_hold();
}

/// A transaction that commits has had its number let out, by the site that has begun it (`committed`); and behind the number that site has let out a message that asks for a vote
/// on the transaction (`asked`). So a host that keeps the number of each request as it takes it, before it takes anything more, has the number of whatever commits. Where its process
/// has gone between the two, so that the number was let out and no message behind it that asks for a vote, the transaction hasn't committed and never will (`killed`). From a new deployment on (`new`), whatever happens in it
/// (`event`), the number stands before whatever asks for a vote on the transaction, since one process makes both.
pub fn commits_have_their_numbers_out()
    ensures new { (catalog : Declared) (d : Deployment) → IsNew catalog d → AreNumbersFirst (setup_of catalog) d }
    ensures event { (config : List ℕ) (schedule : Schedule) (d later : Deployment) (events : List Event) → IsMirrored (setup_of schedule.catalog) d events →
        AreNumbersFirst (setup_of schedule.catalog) d → Happens config schedule.catalog d later → AreNumbersFirst (setup_of schedule.catalog) later }
    ensures asked { (setup : Setup) (d : Deployment) (events : List Event) (txn : TxnId) → IsMirrored setup d events → AreNumbersFirst setup d →
        IsTrue (is_committed (world_of setup events) txn) → IsAskedAfter txn (station_at d (home_of txn)).let_out }
    ensures committed { (setup : Setup) (d : Deployment) (events : List Event) (txn : TxnId) → IsMirrored setup d events → AreNumbersFirst setup d →
        IsTrue (is_committed (world_of setup events) txn) → Contains (station_at d (home_of txn)).let_out (note (began txn)) }
    ensures killed { (setup : Setup) (d : Deployment) (events more : List Event) (n : ℕ) (txn : TxnId) → IsMirrored setup d events → AreNumbersFirst setup d →
        n < setup.catalog.sites → (station_at d n).hosted ≡ None → Contains (station_at d n).let_out (note (began txn)) →
        (IsAskedAfter txn (station_at d n).let_out → ⊥) → All (IsWellFormed setup.catalog) (events ++ more) → IsOut txn (world_of setup (events ++ more)) }
{
    files_are_journals();
    files_hold_what_was_let_out();
    hosted_sites_agree();
    mirrored_deployments_agree();
    one_journal();
    one_record();
    runs_are_reached();
    epochs_are_recorded();
    memories_are_in_order();
    outcomes_are_for_ever();
}

/// A deployment of one site, computed, so that the laws above don't speak of nothing. The site is opened on a new file, and its process goes before anything is written
/// (`opened`, `died`): that leaves the deployment as it was, in which no process was yet. The site is opened anew, in the same epoch; its host asks what to write (`asked`),
/// writes the epoch's record behind the gate and says so (`wrote`). Then the gate is opened in the file, and the process goes before its host has said so (`found`).
///
/// A run mirrors it, and the site of that run has the record that was found and never said to be written, and is down (`mirrored`). And another process that opens the site finds
/// it (`reopened`): its site goes on from it, in the second epoch (`records`).
pub fn a_record_is_found()
    ensures configured { Configures worked.config worked.schedule }
    ensures new { IsNew worked.catalog worked.fresh }
    ensures opened { Happens worked.config worked.catalog worked.fresh worked.up }
    ensures died { Happens worked.config worked.catalog worked.up worked.fresh }
    ensures asked { Happens worked.config worked.catalog worked.up worked.asked }
    ensures wrote { Happens worked.config worked.catalog worked.asked worked.writing }
    ensures found { Happens worked.config worked.catalog worked.writing worked.found }
    ensures mirrored { (events : List Event) × IsMirrored (setup_of worked.catalog) worked.found events ×
        ((site_at (world_of (setup_of worked.catalog) events) 0).records ≡ worked.begun_records) ×
        ((site_at (world_of (setup_of worked.catalog) events) 0).running ≡ None) }
    ensures reopened { (site : HostedState) → HasOpenedOn worked.config 0 worked.found_file site → Stands site →
        Happens worked.config worked.catalog worked.found (worked.found_again site) }
    ensures records { (site : HostedState) → HasOpenedOn worked.config 0 worked.found_file site → site.site.records ≡ worked.found_records }
{
    deployments_are_runs();
    mirrored_deployments_agree();
    one_journal();
    one_record();
}

/// The same deployment goes on otherwise: the host says that the gate is open too, so the record is stored (`stored`), and the site is given a request, `return a`. Where the call has
/// memory it makes of the site what is computed here (`taken`): it holds a message to itself, for the locks, and the number `0.1.0` (`requested`). Both are let out (`asked`,
/// `numbered`), since the record on which they rest is in the file. Then the process is killed (`killed`), and another one opens the site (`opened`), in the second epoch (`epoch`).
///
/// A run mirrors it, which has begun a transaction of this number (`mirrored`).
pub fn a_number_is_let_out()
    ensures stored { Happens worked.config worked.catalog worked.writing worked.stored }
    ensures taken { (next : HostedState) → HasStepped (worked.begun worked.stored_log) next (Input.submit worked.program) →
        next ≡ worked.asked_by (worked.asking ∷ worked.numbering ∷ []) }
    ensures requested { (next : HostedState) → HasStepped (worked.begun worked.stored_log) next (Input.submit worked.program) →
        Happens worked.config worked.catalog worked.stored worked.requested }
    ensures asked { Happens worked.config worked.catalog worked.requested worked.sent }
    ensures numbered { Happens worked.config worked.catalog worked.sent worked.numbered }
    ensures killed { Happens worked.config worked.catalog worked.numbered worked.killed }
    ensures opened { (site : HostedState) → HasOpenedOn worked.config 0 worked.found_file site → Stands site →
        Happens worked.config worked.catalog worked.killed (worked.opened_again site) }
    ensures epoch { (site : HostedState) → HasOpenedOn worked.config 0 worked.found_file site → site.site.epoch ≡ 2 }
    ensures mirrored { (next site : HostedState) → HasStepped (worked.begun worked.stored_log) next (Input.submit worked.program) →
        HasOpenedOn worked.config 0 worked.found_file site → Stands site →
        (events : List Event) × IsMirrored (setup_of worked.catalog) (worked.opened_again site) events × Contains (printed (setup_of worked.catalog) events) (Line.txn worked.number) }
{
    deployments_are_runs();
    hosted_sites_agree();
    one_journal();
    one_record();
}
