//! How much a step of a site makes at most: entries of its coordinator, and messages. The functions do nothing: each states a law.
#![tactic(auto)]

ghost use Rattle.std.specs.Prelude.{◌+◌, ◌*◌, ◌≤◌, length};
ghost use Rattle.pv_base.specs.declared.limits.TheConstants.{HELD_NAMES, MAX_ITEMS};
ghost use Rattle.pv_law_world.specs.Pumps.{HasFewSites};
ghost use Rattle.pv_protocol.specs.Here.{Here};
ghost use Rattle.pv_protocol.specs.State.{Input};
ghost use Rattle.pv_protocol.specs.Step.{step_on};
ghost use Rattle.pv_protocol.specs.Width.{IsNarrow};

/// A step adds one entry to those of the coordinator at most.
pub fn entries_grow_by_one()
    ensures { (here : Here) (input : Input) → length (step_on here input).running.entries ≤ length here.running.entries + 1 }
{}

/// A step sends 16 messages for each entry of the coordinator at most, and a fixed number beside: of a tick they are one for each outcome that a
/// shown value names. A narrow site has at most 1,024 times [`pv_base::HELD_NAMES`] of those. The number here is greater than it need be, and rounds up a
/// bound by weights, 83,521.
pub fn sends_are_few()
    ensures { (here : Here) (input : Input) → HasFewSites here.setup.catalog → length here.setup.catalog.items ≤ MAX_ITEMS →
        IsNarrow HELD_NAMES here.setup.catalog here.me here.records →
        length (step_on here input).sends ≤ 16 * length here.running.entries + 100000 }
{}
