//! Laws of lines: what is printed names only items of the catalog. The functions here do nothing: each states a law.
#![tactic(auto)]

ghost use Rattle.std.specs.Prelude.{ℕ, All};
ghost use Rattle.std.specs.List.{Contains};
ghost use Rattle.pv_model.specs.Events.{Event};
ghost use Rattle.pv_protocol.specs.Here.{Here};
ghost use Rattle.pv_protocol.specs.Lines.{line_of};
ghost use Rattle.pv_protocol.specs.Run.{lines_of_transitions, transitions_of};
ghost use Rattle.pv_protocol.specs.State.{Input, Note, Setup};
ghost use Rattle.pv_protocol.specs.Step.{step_on};
ghost use Rattle.pv_protocol.specs.World.{World};
ghost use Rattle.pv_report.specs.NamesOnlyItems.{NamesOnlyItems};

/// Each report of a step, as a line of whatever site, can be printed: the item that it names, if it names one, is one of the catalog.
pub fn reports_name_only_items()
    ensures { (here : Here) (input : Input) (site : ℕ) (note : Note) → Contains (step_on here input).notes note → NamesOnlyItems here.setup.catalog (line_of site note) }
{}

/// Each line that an event prints can be printed, whatever the world.
pub fn lines_name_only_items()
    ensures { (setup : Setup) (world : World) (event : Event) → All (NamesOnlyItems setup.catalog) (lines_of_transitions (transitions_of setup world event)) }
{}
