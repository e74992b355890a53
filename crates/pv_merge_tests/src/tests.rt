// Two sites to which nothing comes but time: the lesser one comes first where both have one stamp.
ghost use Rattle.std.specs.Prelude.{◌≡◌, [], ◌∷◌, map, IfOk, OnOk};
ghost use Rattle.pv_base.specs.Catalog.{Declared};
ghost use Rattle.pv_history.specs.Entries.{stamped_of, stamps_of};
ghost use Rattle.pv_law_histories.specs.Fitting.{FitTogether};
ghost use Rattle.pv_merge.specs.Moments.{ArePlanned};
ghost use Rattle.pv_merge_tests.specs.Ticks.{ticked, two_sites};
ghost use Rattle.pv_site.specs.SiteState.{setup_of};

use pv_base::{Catalog, MAX_JOURNAL, SiteId};
use pv_history::{Entry, Seen, Taken};
use pv_merge::merge;
use pv_script::Event;
use std::alloc::Global;
use std::test::Fail;

// A site that waits for nothing lets time pass.
#[tactic(auto, unfolding(pv_protocol::specs::Outcome::named_here, pv_protocol::specs::Tick::on_tick))]
fn histories_fit()
    ensures { FitTogether (setup_of two_sites) ((ticked 1 ∷ ticked 3 ∷ []) ∷ ((ticked 1 ∷ []) ∷ [])) }
{}

// Time passes.
fn tick(alloc: Global, stamp: u64) -> Entry
    ensures stamped { stamped_of result ≡ ticked stamp }
    ensures planned { (catalog : Declared) → ArePlanned catalog (result ∷ []) }
{
    Entry {
        stamp,
        input: Taken::Tick,
        sends: 0,
        short: 0,
        seen: Seen::Done(Vec::new(alloc)),
    }
}

#[test]
fn entries_come_by_stamp_and_then_by_site(rt: HostRuntime) -> Result<(), Fail> {
    let alloc = rt.alloc();
    let catalog = Catalog::new(alloc, 2, MAX_JOURNAL);
    let first = vec![in alloc; tick(alloc, 1), tick(alloc, 3)]?;
    let second = vec![in alloc; tick(alloc, 1)]?;
    let histories = vec![in alloc; first, second]?;
    histories_fit();
    let run = merge(alloc, &histories, &catalog)?;
    assert!(rt;
        matches!(
            run.events.as_slice(),
            [
                Event::Tick(SiteId(0)),
                Event::Tick(SiteId(1)),
                Event::Tick(SiteId(0))
            ]
        )
    );
    assert!(rt; run.lines.is_empty());
    Ok(())
}
