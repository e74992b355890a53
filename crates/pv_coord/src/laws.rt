// Laws on coordinators. The functions do nothing: each states a law.
ghost use Rattle.std.specs.Prelude.{◌≡◌, ◌||◌, not, ℕ};
ghost use Rattle.pv_coord.specs.Planned.{IsPlanned};
ghost use Rattle.pv_coord.specs.Work as own;
ghost use Rattle.pv_protocol.specs.Coordinate.{has_all_grants, has_all_votes};
ghost use Rattle.pv_protocol.specs.Granted.{asked_of, is_unawaited, is_grant_ignored, is_wanted};
ghost use Rattle.pv_protocol.specs.Here.{Here, participants};
ghost use Rattle.pv_protocol.specs.State.{Taken};
ghost use Rattle.pv_protocol.specs.Tick.{awaited};
ghost use Rattle.pv_protocol.specs.Vote.{is_vote_ignored};

/// Where an entry has the plan of its program, its participants, which answers it takes no notice of, whether all have granted or
/// voted, and for whom it waits are as the protocol says.
pub fn a_planned_entry_is_the_protocols()
    ensures participants { (here : Here) (work : own.Work) → IsPlanned here work → own.sites_of work ≡ participants here work.entry }
    ensures grant { (here : Here) (work : own.Work) (taken : Taken) → IsPlanned here work →
        own.is_grant_ignored work taken ≡ is_grant_ignored here work.entry taken.site taken.values }
    ensures denial { (here : Here) (work : own.Work) (from item : ℕ) → IsPlanned here work →
        own.is_denial_ignored work from item ≡ (is_unawaited here work.entry from || not (is_wanted (asked_of here work.entry from) item)) }
    ensures vote { (here : Here) (work : own.Work) (from : ℕ) → IsPlanned here work → own.is_vote_ignored work from ≡ is_vote_ignored here work.entry from }
    ensures all_grants { (here : Here) (work : own.Work) → IsPlanned here work → own.has_all_grants work ≡ has_all_grants here work.entry }
    ensures all_votes { (here : Here) (work : own.Work) → IsPlanned here work → own.has_all_votes work ≡ has_all_votes here work.entry }
    ensures awaited { (here : Here) (work : own.Work) → IsPlanned here work → own.awaited work ≡ awaited here work.entry }
{}
