// Cases that name nothing.
ghost use Rattle.std.specs.Prelude.{◌≡◌};
ghost use Rattle.pv_cases.specs.Sure.{is_one_case};

use pv_base::Case;

/// Whether there is one case alone, which is always met. Of canonical cases that says that they name no outcome.
pub fn is_sure<V>(cases: &[Case<V>]) -> bool
    ensures { result ≡ is_one_case cases.now }
{
    match cases {
        [case] => case.when.is_empty(),
        _ => false,
    }
}
