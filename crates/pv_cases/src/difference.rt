// Where lists of cases differ.
ghost use Rattle.std.specs.Prelude.{◌≡◌, slice_get, MatchOption, MatchBool};
ghost use Rattle.pv_base.specs.CaseFaults.{DifferFrom};

use pv_base::{Case, Exact};

/// The first place at which the lists differ, if they do.
pub fn first_difference<V: Exact>(cases: &[Case<V>], others: &[Case<V>]) -> Option<usize>
    ensures { MatchOption result (cases.now ≡ others.now) (DifferFrom cases.now others.now) }
{
    let longest = cases.len().max(others.len());
    for place in 0..longest {
        if !are_same_at(cases, others, place) {
            return Some(place);
        }
    }
    None
}

// Whether the lists have the same at this place: equal cases, or both none.
fn are_same_at<V: Exact>(cases: &[Case<V>], others: &[Case<V>], place: usize) -> bool
    ensures { MatchBool result (slice_get cases.now place ≡ slice_get others.now place) (slice_get cases.now place ≡ slice_get others.now place → ⊥) }
{
    let Some(case) = cases.get(place) else {
        return others.len() <= place;
    };
    let Some(other) = others.get(place) else {
        return false;
    };
    is_same(case, other)
}

// Whether they are one case.
fn is_same<V: Exact>(case: &Case<V>, other: &Case<V>) -> bool
    ensures { MatchBool result (case.now ≡ other.now) (case.now ≡ other.now → ⊥) }
{
    case == other
}
