// How a refused line is named.
ghost use Rattle.std.specs.Prelude.{◌≡◌, IfOk};
ghost use Rattle.pv_lines.specs.Refusals.{refusal_text};

use crate::Cause;
use pv_base::NoMemory;
use std::alloc::Global;

/// `line N: CAUSE`, with its line feed.
#[tactic(auto, unfolding(crate::specs::Refusals::refusal_text))]
pub fn refusal(alloc: Global, line: u32, cause: Cause) -> Result<String, NoMemory>
    ensures { IfOk result (λ text. text.bytes.items ≡ refusal_text line cause) }
{
    Ok(format!(in alloc; "line {line}: {cause}\n")?)
}
