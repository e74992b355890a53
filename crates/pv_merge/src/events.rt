// The events of a moment.
ghost use Rattle.std.specs.Prelude.{◌≡◌, ◌≤◌, ◌++◌, ◌∷◌, [], ◌^◌, All, IfOk, OnOk, map};
ghost use Rattle.pv_base.specs.Catalog.{Declared};
ghost use Rattle.pv_law_histories.specs.Merge as model;
ghost use Rattle.pv_law_histories.specs.Merge.{AreInOrder, events_at, with_fault};
ghost use Rattle.pv_model.specs.Events as law;
ghost use Rattle.pv_history.specs.Entries.{came_of, intake_of};
ghost use Rattle.pv_script.specs.ScheduleView as script;
ghost use Rattle.pv_script.specs.ScheduleView.{HasPlan};
ghost use Rattle.pv_merge.specs.Moments.{IsPlanned, IsRequestPlanned, IsSentAmong, moment_of};
ghost use Rattle.pv_merge.specs.Numbers.{numbers_from};

use crate::moment::Moment;
use crate::numbers::number_of;
use pv_base::{Mode, NoMemory, SiteId};
use pv_history::{Seen, Taken};
use pv_script::{Event, Request};
use std::alloc::Global;

/// Adds the events of one of these moments: what its site took in, and where a fault came of it, before that the fault of the next write.
pub(crate) fn push_events(
    alloc: Global,
    events: &mut Vec<Event>,
    moments: &[Moment<'_>],
    numbers: &[u64],
    moment: &Moment<'_>,
) -> Result<(), NoMemory>
    requires order { AreInOrder (map moment_of moments.now) }
    requires numbers { numbers.now ≡ numbers_from 0 (map moment_of moments.now) }
    requires small { All (λ number. number ≤ 2 ^ 60) numbers.now }
    requires there { IsSentAmong (map moment_of moments.now) (intake_of moment.now.entry.now.input) }
    ensures events { OnOk result (map script.event_of events.new.items ≡ map script.event_of events.old.items ++ events_at (map moment_of moments.now) (moment_of moment.now)) }
    ensures plans { (catalog : Declared) → IsPlanned catalog moment.now.entry.now.input → All (HasPlan catalog) events.old.items → OnOk result (All (HasPlan catalog) events.new.items) }
{
    let event = event_of(alloc, moments, numbers, moment.site, &moment.entry.input)?;
    push_fault(events, moment.site, &moment.entry.seen)?;
    events.push(event)?;
    Ok(())
}

// Where a fault came of it, adds that the site's next write fails.
fn push_fault(events: &mut Vec<Event>, site: SiteId, seen: &Seen) -> Result<(), NoMemory>
    ensures events { (event : law.Event) → OnOk result (map script.event_of events.new.items ++ event ∷ [] ≡ map script.event_of events.old.items ++ with_fault site.0 (came_of seen.now) event) }
    ensures plans { (catalog : Declared) → All (HasPlan catalog) events.old.items → OnOk result (All (HasPlan catalog) events.new.items) }
{
    match seen {
        Seen::Done(_) => Ok(()),
        Seen::Down => Ok(()),
        Seen::Fault => {
            events.push(Event::Arm {
                site,
                k: 1,
                mode: Mode::Lost,
                stop: false,
            })?;
            Ok(())
        }
    }
}

// The event that is what this site took in.
fn event_of(
    alloc: Global,
    moments: &[Moment<'_>],
    numbers: &[u64],
    site: SiteId,
    taken: &Taken,
) -> Result<Event, NoMemory>
    requires order { AreInOrder (map moment_of moments.now) }
    requires numbers { numbers.now ≡ numbers_from 0 (map moment_of moments.now) }
    requires small { All (λ number. number ≤ 2 ^ 60) numbers.now }
    requires there { IsSentAmong (map moment_of moments.now) (intake_of taken.now) }
    ensures event { IfOk result (λ event. script.event_of event ≡ model.event_of (map moment_of moments.now) site.0 (intake_of taken.now)) }
    ensures plan { (catalog : Declared) → IsPlanned catalog taken.now → IfOk result (HasPlan catalog) }
{
    match taken {
        Taken::Request { request, .. } => submit(alloc, site, request),
        Taken::Parcel {
            from,
            stamp,
            place,
            ..
        } => Ok(Event::Deliver(number_of(moments, numbers, *from, *stamp, *place))),
        Taken::Tick => Ok(Event::Tick(site)),
    }
}

// The event that a request is.
fn submit(alloc: Global, site: SiteId, request: &Request) -> Result<Event, NoMemory>
    ensures event { IfOk result (λ event. script.event_of event ≡
        law.submit site.0 request.now.query request.now.text.items request.now.program) }
    ensures plan { (catalog : Declared) → IsRequestPlanned catalog request.now → IfOk result (HasPlan catalog) }
{
    Ok(Event::Submit {
        site,
        query: request.query,
        text: Vec::from_slice(alloc, &request.text)?,
        program: request.program.copy(alloc)?,
        plan: request.plan.copy(alloc)?,
    })
}
