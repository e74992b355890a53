// The commands `show` and `upgrade`: the input is read, and the disks of the sites that it declares are toured.
ghost use Rattle.std.specs.Prelude.{◌≡◌, ◌≤◌, ℕ, Ok, IfOk, is_ok, if◌then◌else◌, length};
ghost use Rattle.pv_app.specs.TourEnds as ends;
ghost use Rattle.pv_app.specs.TourEnds.{EndsTour, IsUseOf, Tells, TellsOfSites, tour_status};
ghost use Rattle.pv_base.specs.Fault.{Rose};
ghost use Rattle.pv_base.specs.declared.limits.TheConstants.{MAX_SITES};
ghost use Rattle.pv_io.specs.SinkEffects.{HasFailed, Writes, WritesNothing};
ghost use Rattle.pv_model.specs.LineCauses.{LineCause};
ghost use Rattle.pv_model.specs.LiveScript.{LiveScript};
ghost use Rattle.pv_model.specs.Schedule.{IsLiveScript, IsMalformedLiveScript};
ghost use Rattle.pv_run.specs.InputAnswers.{GivesUpOr, fault_text};
ghost use Rattle.pv_run.specs.declared.status.Status.TheVariants as status;
ghost use Rattle.pv_show.specs.Bays.{IsAtRest, RisesAtBayFault, UsesDisks};

use crate::tour::Tour;
use crate::tour_end::TourEnd;
use pv_base::{Catalog, Failed, MAX_INPUT};
use pv_disk::Bay;
use pv_io::{ReadEnd, Sink, Source, read_all, write_all};
use pv_run::{Status, WriteEnd, refuse, status_of_unread};
use pv_script::{ScriptError, read_live};
use pv_show::{ShowError, show};
use pv_upgrade::upgrade;
use std::alloc::Global;

/// Reads the input to its end, and tours the disks of its sites. An error is why the input wasn't read. Then nothing was written.
pub(crate) fn read_and_tour<R: Source, W: Sink, B: Bay>(
    alloc: Global,
    tour: Tour,
    source: &mut R,
    sink: &mut W,
    bay: &mut B,
) -> Result<TourEnd, ReadEnd>
    requires rest { IsAtRest B.model bay.old }
    ensures ends { EndsTour R.Source W.Sink B.model B.D.model tour source.old source.new sink.old sink.new bay.old bay.new result }
    ensures rest { IsAtRest B.model bay.new }
{
    match read_all(alloc, source, MAX_INPUT) {
        Ok(input) => Ok(tour_text(alloc, tour, &input, sink, bay)),
        Err(why) => Err(why),
    }
}

/// The status of a tour, by how [`read_and_tour`] ended.
pub(crate) fn status_of_tour(ended: Result<TourEnd, ReadEnd>) -> Status
    ensures { result ≡ tour_status ended }
{
    match ended {
        Ok(TourEnd::Done) => Status::Done,
        Ok(TourEnd::Malformed) => Status::Malformed,
        Ok(TourEnd::WriteFault) => Status::WriteFault,
        Ok(TourEnd::NoMemory) => Status::NoMemory,
        Ok(TourEnd::BayFault) => Status::BayFault,
        Err(why) => status_of_unread(why),
    }
}

// What is told to an input that was read to its end.
fn tour_text<W: Sink, B: Bay>(
    alloc: Global,
    tour: Tour,
    input: &[u8],
    sink: &mut W,
    bay: &mut B,
) -> TourEnd
    requires short { length input.now ≤ MAX_INPUT }
    requires rest { IsAtRest B.model bay.old }
    ensures told { (script : LiveScript) → IsLiveScript input.now script →
        TellsOfSites B.model B.D.model W.Sink tour script.catalog bay.old bay.new sink.old sink.new result }
    ensures refused { (number : ℕ) (cause : LineCause) → IsMalformedLiveScript input.now number cause →
        GivesUpOr W.Sink (tour_status (Ok result)) status.Malformed (fault_text number cause) sink.old sink.new × (bay.new ≡ bay.old)
        × (result ≡ TourEnd.Malformed → Writes W.Sink sink.old sink.new (fault_text number cause)) }
    ensures done { result ≡ TourEnd.Done → (script : LiveScript) × IsLiveScript input.now script }
    ensures malformed { result ≡ TourEnd.Malformed → (number : ℕ) × (cause : LineCause) × IsMalformedLiveScript input.now number cause }
    ensures uses { UsesDisks B.model B.D.model (IsUseOf B.D.model tour) MAX_SITES bay.old bay.new }
    ensures only_declared { (script : LiveScript) → IsLiveScript input.now script → UsesDisks B.model B.D.model (IsUseOf B.D.model tour) script.catalog.sites bay.old bay.new }
    ensures alone { result ≡ TourEnd.Malformed → bay.new ≡ bay.old }
    ensures rest { IsAtRest B.model bay.new }
    ensures bay_fault { result ≡ TourEnd.BayFault → Rose (B.model.faults bay.old) (B.model.faults bay.new) × WritesNothing W.Sink sink.old sink.new }
    ensures write_fault { result ≡ TourEnd.WriteFault → HasFailed W.Sink sink.old sink.new }
{
    match read_live(alloc, input) {
        Ok(script) => tour_sites(alloc, tour, &script.catalog, sink, bay),
        Err(ScriptError::Malformed { line, cause }) => {
            end_of_refusal(refuse(alloc, line, cause, sink))
        }
        Err(ScriptError::NoMemory) => TourEnd::NoMemory,
    }
}

// Tours the disks of the sites, and writes what tells of them.
fn tour_sites<W: Sink, B: Bay>(
    alloc: Global,
    tour: Tour,
    catalog: &Catalog,
    sink: &mut W,
    bay: &mut B,
) -> TourEnd
    requires { IsAtRest B.model bay.old }
    ensures told { TellsOfSites B.model B.D.model W.Sink tour catalog.now bay.old bay.new sink.old sink.new result }
    ensures uses { UsesDisks B.model B.D.model (IsUseOf B.D.model tour) catalog.now.sites bay.old bay.new }
    ensures few { catalog.now.sites ≤ MAX_SITES }
    ensures rest { IsAtRest B.model bay.new }
    ensures write_fault { result ≡ TourEnd.WriteFault → HasFailed W.Sink sink.old sink.new }
{
    match told_of(alloc, tour, catalog, bay) {
        Ok(text) => end_of_told(write_all(sink, &text)),
        Err(ShowError::BayFault) => TourEnd::BayFault,
        Err(ShowError::NoMemory) => TourEnd::NoMemory,
    }
}

// What tells of the disks of the sites, after the tour.
fn told_of<B: Bay>(
    alloc: Global,
    tour: Tour,
    catalog: &Catalog,
    bay: &mut B,
) -> Result<Vec<u8>, ShowError>
    requires rest { IsAtRest B.model bay.old }
    ensures text { IfOk result (λ text. Tells B.model B.D.model tour catalog.now bay.old bay.new text.items) }
    ensures faults { RisesAtBayFault B.model bay.old bay.new result }
    ensures uses { UsesDisks B.model B.D.model (IsUseOf B.D.model tour) catalog.now.sites bay.old bay.new }
    ensures few { catalog.now.sites ≤ MAX_SITES }
    ensures rest { IsAtRest B.model bay.new }
{
    match tour {
        Tour::Show => show(alloc, catalog, bay),
        Tour::Upgrade => upgrade(alloc, catalog, bay),
    }
}

// How it ended for a text that was refused so.
fn end_of_refusal(written: Result<(), WriteEnd>) -> TourEnd
    ensures { result ≡ ends.end_of_refusal written }
{
    match written {
        Ok(()) => TourEnd::Malformed,
        Err(WriteEnd::WriteFault) => TourEnd::WriteFault,
        Err(WriteEnd::NoMemory) => TourEnd::NoMemory,
    }
}

// How it ended where what tells of the sites was written so.
fn end_of_told(written: Result<(), Failed>) -> TourEnd
    ensures { result ≡ (if is_ok written then TourEnd.Done else TourEnd.WriteFault) }
{
    match written {
        Ok(()) => TourEnd::Done,
        Err(Failed) => TourEnd::WriteFault,
    }
}
