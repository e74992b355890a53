// Whether a configuration grows, without a slot.
ghost use Rattle.pv_growth.specs.Grows.{AnswersGrowth};
ghost use Rattle.pv_c.specs.Answer.{GrownAs};

use crate::given_text::given;
use crate::numbers::status_of_growth;
use pv_growth::config_grows;
use std::alloc::Global;

/// Whether a site that was opened with the one configuration may be opened with the other from now on.
#[unsafe(no_mangle)]
pub extern "C" fn polydb_config_grows(alloc: Global, before: &[u8], later: &[u8]) -> u32
    ensures { GrownAs result (AnswersGrowth before.now later.now) }
{
    status_of_growth(config_grows(alloc, given(before), given(later)))
}
