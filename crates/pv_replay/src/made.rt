// Polyvalues of cases as they were read.
ghost use Rattle.std.specs.Prelude.{◌≡◌, ◌∷◌, [], ◌<◌, ◌^◌, length, map, MatchOption, IfOk, IfErr};
ghost use Rattle.std.specs.List.{sum};
ghost use Rattle.pv_base.specs.CaseFaults.{fault_of as case_fault_of};
ghost use Rattle.pv_base.specs.declared.limits.TheConstants.{HELD_NAMES};
ghost use Rattle.pv_cases.specs.JoinedCases.{IsKept};
ghost use Rattle.pv_replay.specs.Refused.{IsRefused};

use crate::PolyError;
use crate::choice::{choice_of, chosen};
use crate::order::look_canonical;
use crate::room::with_room;
use pv_base::{Case, CaseError};
use pv_cases::no_canonical_fault;
use pv_tree::Poly;
use std::alloc::Global;

/// The polyvalue of the only case of the polyvalue at this place. Where it is always met, no list of cases is made.
pub(crate) fn poly_of_case(
    alloc: Global,
    case: Case<i64>,
    place: usize,
) -> Result<Poly<i64>, PolyError>
    requires { length case.when < 256 }
    ensures kept { IfOk result (IsKept HELD_NAMES (case ∷ [])) }
    ensures refused { IfErr result (IsRefused (case ∷ []) place) }
{
    if case.when.is_empty() {
        return Ok(Poly::sure(alloc, case.value)?);
    }
    let mut only = with_room(alloc, 1)?;
    only.push(case)?;
    poly_of(alloc, only, place)
}

/// The polyvalue of these cases of the polyvalue at this place, as they were read.
pub(crate) fn poly_of(
    alloc: Global,
    cases: Vec<Case<i64>>,
    place: usize,
) -> Result<Poly<i64>, PolyError>
    requires few_cases { length cases.items < 2 ^ 32 }
    requires few_literals { sum (map (λ case. length case.when) cases.items) < 2 ^ 32 }
    ensures kept { IfOk result (IsKept HELD_NAMES cases.items) }
    ensures refused { IfErr result (IsRefused cases.items place) }
{
    if let Some(choice) = choice_of(&cases) {
        return Ok(chosen(alloc, choice)?);
    }
    let cases = match Poly::of_leaves(alloc, cases)? {
        Ok(poly) => return Ok(poly),
        Err(cases) => cases,
    };
    if !look_canonical(&cases) {
        return Err(PolyError::BadPoly(place));
    }
    no_canonical_fault::<i64>();
    match Poly::from_cases(alloc, cases) {
        Ok(poly) => Ok(poly),
        Err(e) => Err(refusal(&e, place)),
    }
}

// The refusal of the polyvalue at this place, where its cases are refused for this cause.
fn refusal(cause: &CaseError, place: usize) -> PolyError
    ensures { MatchOption (case_fault_of cause.now) (result ≡ PolyError.NoMemory) (λ _. result ≡ PolyError.BadPoly place) }
{
    match cause {
        CaseError::NoMemory => PolyError::NoMemory,
        _ => PolyError::BadPoly(place),
    }
}
