// A run, from its script to what it prints.
ghost use Rattle.std.specs.Prelude.{◌≤◌, All, IfOk};
ghost use Rattle.pv_quorum_run.specs.Ends.{IsOutput};
ghost use Rattle.pv_quorum_script.specs.Fits.{IsEventFor};
ghost use Rattle.pv_quorum_script.specs.Reads.{plain};

use crate::table::Table;
use pv_base::NoMemory;
use pv_quorum_script::QuorumScript;
use std::alloc::Global;

// What the run of a script prints. Takes time in proportion to the events and the messages that they send, but that each `drop` looks at all
// messages and each start reads the log, and memory for the deciders and the text.
pub(crate) fn text_of_run(alloc: Global, script: &QuorumScript) -> Result<Vec<u8>, NoMemory>
    requires fewest { 3 ≤ script.now.deciders }
    requires most { script.now.deciders ≤ 5 }
    requires events { All (IsEventFor script.now.deciders) script.now.events.items }
    ensures { IfOk result (λ text. IsOutput (plain script.now) text.items) }
{
    let mut table = Table::new(alloc, script.deciders)?;
    let mut text = Vec::new(alloc);
    for event in &script.events {
        table.happen(event, &mut text)?;
    }
    Ok(text)
}
