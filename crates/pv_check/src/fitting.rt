// Whether a plan is the one that a program has. No memory is taken, so whoever is handed both can tell at any time.
ghost use Rattle.std.specs.Prelude.{◌≡◌, ◌↔◌, ◌<◌, ◌+◌, ◌==◌, ◌&&◌, ℕ, suc, List, true, false, length, MatchOption};
ghost use Rattle.std.specs.Cmp.Lexicographic.{pointwise};
ghost use Rattle.std.specs.List.{cons_option, list_any};
ghost use Rattle.pv_base.specs.Want as wanted;
ghost use Rattle.pv_check.specs.Fits.{HasPlan, are_covered, are_own_parts, home_of, is_own_part, is_same_want, wanted_at, wants_between};
ghost use Rattle.pv_check.specs.Marks.{mark_at};
ghost use Rattle.pv_model.specs.Check as model;

use crate::checking::refusal;
use crate::marks::{Mark, count_named, marks_of, marks_within};
use crate::scan::names_below;
use crate::{Part, Plan};
use pv_ast::Program;
use pv_base::{Catalog, ItemId, SiteId, Want};

/// Whether the program names items of the catalog alone, and [`check`](crate::check) answers this plan for it where it is no query and there
/// is memory. It takes none itself.
///
/// The program is read twice, which recurses as deep as its tree, and the catalog once for each part of the plan and once more for all, each item
/// beside the plan's parts; a table of 1,024 marks is cleared besides.
pub fn fits(program: &Program, catalog: &Catalog, plan: &Plan) -> bool
    ensures { (result ≡ true) ↔ HasPlan program.now catalog.now.items plan.now.parts.items }
{
    if !names_below(program, catalog.len()) {
        return false;
    }
    let table = marks_of(program);
    let marks = marks_within(&table, catalog);
    if refusal(program, count_named(marks), false).is_some() {
        return false;
    }
    are_own_parts(marks, catalog, &plan.parts) && are_covered(marks, catalog, &plan.parts)
}

// Whether each part is what is wanted of its site, which is something, and the sites ascend.
fn are_own_parts(marks: &[Mark], catalog: &Catalog, parts: &[Part]) -> bool
    ensures { result ≡ are_own_parts (λ site. wants_between catalog.now.items marks.now site 0 (length catalog.now.items)) 0 parts.now }
{
    let mut least = 0;
    for part in parts {
        let site = part.site.0 as u32;
        if site < least || !is_own_part(marks, catalog, part) {
            return false;
        }
        least = site + 1;
    }
    true
}

// Whether the part is what is wanted of its site, which is something.
fn is_own_part(marks: &[Mark], catalog: &Catalog, part: &Part) -> bool
    ensures { result ≡ is_own_part (λ site. wants_between catalog.now.items marks.now site 0 (length catalog.now.items)) part.now }
{
    !part.wants.is_empty() && are_wants(marks, catalog, part.site, &part.wants)
}

// Whether these are the wants of the site.
fn are_wants(marks: &[Mark], catalog: &Catalog, site: SiteId, wants: &[Want]) -> bool
    ensures { result ≡ pointwise is_same_want wants.now (wants_between catalog.now.items marks.now site.0 0 (length catalog.now.items)) }
{
    let mut left = wants;
    for number in 0..catalog.len() {
        match behind(left, wanted_at(marks, catalog, site, ItemId(number))) {
            Some(rest) => left = rest,
            None => return false,
        }
    }
    left.is_empty()
}

// What is wanted of the item, if it is of the site.
fn wanted_at(marks: &[Mark], catalog: &Catalog, site: SiteId, item: ItemId) -> Option<Want>
    requires { item.0 < length catalog.now.items }
    ensures { result ≡ wanted_at marks.now site.0 (home_of catalog.now.items item.0) item.0 }
{
    let mark = mark_of(marks, item);
    if catalog.site_of(item) != site || mark == Mark::Unnamed {
        return None;
    }
    let exclusive = mark == Mark::Exclusive;
    Some(Want { item, exclusive })
}

// The wants that are left behind the one that is wanted, if any is, unless another comes first.
fn behind(left: &[Want], first: Option<Want>) -> Option<&[Want]>
    ensures { (after : List wanted.Want) → MatchOption result (pointwise is_same_want left.now (cons_option first after) ≡ false)
        (λ rest. pointwise is_same_want rest.now after ≡ pointwise is_same_want left.now (cons_option first after)) }
{
    let Some(first) = first else {
        return Some(left);
    };
    match left {
        [want, rest @ ..] if *want == first => Some(rest),
        _ => None,
    }
}

// Whether the site of each item that is marked has a part.
fn are_covered(marks: &[Mark], catalog: &Catalog, parts: &[Part]) -> bool
    ensures { result ≡ are_covered catalog.now.items marks.now parts.now 0 (length catalog.now.items) }
{
    for number in 0..catalog.len() {
        if !is_covered(marks, catalog, parts, ItemId(number)) {
            return false;
        }
    }
    true
}

// Whether the item isn't marked, or its site has a part.
fn is_covered(marks: &[Mark], catalog: &Catalog, parts: &[Part], item: ItemId) -> bool
    requires { item.0 < length catalog.now.items }
    ensures { (count : ℕ) → are_covered catalog.now.items marks.now parts.now item.0 (suc count)
        ≡ (result && are_covered catalog.now.items marks.now parts.now (item.0 + 1) count) }
{
    mark_of(marks, item) == Mark::Unnamed || has_part(parts, catalog.site_of(item))
}

// The mark of the item.
fn mark_of(marks: &[Mark], item: ItemId) -> Mark
    ensures { result ≡ mark_at marks.now item.0 }
{
    match marks.get(item.0 as usize) {
        Some(mark) => *mark,
        None => Mark::Unnamed,
    }
}

// Whether one of the parts is of the site.
fn has_part(parts: &[Part], site: SiteId) -> bool
    ensures { result ≡ list_any (λ (part : model.Part). part.site == site.0) parts.now }
{
    parts.iter().any(|part| part.site == site)
}
