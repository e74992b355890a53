// Values that name no outcome: what a site knows leaves them as they are.
ghost use Rattle.std.specs.Prelude.{◌≡◌, ◌&&◌};
ghost use Rattle.std.specs.List.{list_all};
ghost use Rattle.pv_model.specs.Alternatives as model;
ghost use Rattle.pv_cases.specs.Sure.{is_one_case};

use pv_base::Exact;
use pv_split::Joined;
use pv_tree::{Poly, Read};

/// Whether neither what is written nor the reply names an outcome.
pub(crate) fn is_sure_throughout(joined: &Joined) -> bool
    ensures { result ≡ (is_one_case joined.now.reply && list_all (λ (write : model.Read). is_one_case write.cases) joined.now.writes.items) }
{
    is_sure(&joined.reply) && are_sure(&joined.writes)
}

/// Whether the value names no outcome.
pub(crate) fn is_sure<V: Exact>(value: &Poly<V>) -> bool
    ensures { result ≡ is_one_case value.now }
{
    pv_cases::is_sure(value.cases())
}

// Whether none of the writes names an outcome.
fn are_sure(writes: &[Read]) -> bool
    ensures { result ≡ list_all (λ (write : model.Read). is_one_case write.cases) writes.now }
{
    writes.iter().all(|write| is_sure(&write.value))
}
