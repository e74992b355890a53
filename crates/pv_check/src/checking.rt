// Whether a program may run, and what it then wants of each site.
ghost use Rattle.std.specs.Prelude.{◌≡◌, ◌<◌, ℕ, List, Err, Some, None, length, All, IsTrue, IfOk};
ghost use Rattle.pv_base.specs.Answer.{Refuses};
ghost use Rattle.pv_model.specs.Syntax as model;
ghost use Rattle.pv_model.specs.Check.{names_item, AreItems, IsPlan};
ghost use Rattle.pv_check.specs.CheckRefusal.{check_refusal};
ghost use Rattle.pv_check.specs.Wants.{AreWants, wants_at};

use crate::marks::{ROOM, count_named, marks_of, marks_within, wants_of};
use crate::scan::{has_assignment, has_return};
use crate::{CheckError, Part, Plan};
use pv_ast::Program;
use pv_base::{Catalog, MAX_PROGRAM_ITEMS, NoMemory, SiteId, Want};
use std::alloc::Global;

/// What the program, each item of which is in the catalog, wants of each site: each item that it names, once, at the
/// item's site, exclusive where it assigns it.
///
/// It is refused with the first of these that holds:
///
/// 1. `NoItem`: the program names no item.
/// 2. `TooManyItems`: the program names more than [`MAX_PROGRAM_ITEMS`] items. The error says how many.
/// 3. `Assigns`: it is a query, and an assignment stands in the program.
/// 4. `NoReturn`: it is a query, and no `return` stands in the program.
/// 5. `NoMemory`: there was no memory for the plan.
///
/// The program is read once, and for a query up to twice more, until an assignment or a `return` is found. That recurses as
/// deep as the program's tree: a chain of n operators has n levels. Besides, the
/// cost is bounded by a constant, whatever the catalog holds: a table of a mark for each item that any catalog may hold is
/// cleared, the marks of the catalog's items are read twice, and the wants, at most [`MAX_PROGRAM_ITEMS`], are read once
/// for each site.
pub fn check(
    alloc: Global,
    program: &Program,
    catalog: &Catalog,
    query: bool,
) -> Result<Plan, CheckError>
    requires { (n : ℕ) → IsTrue (names_item program.now n) → n < length catalog.now.items }
    // There is one such plan: a law.
    ensures plan { IfOk result (λ plan. IsPlan program.now catalog.now.items plan.parts.items) }

    // Any list of the items that the program names is the same; that there is one is a law.
    ensures refused { (items : List ℕ) → AreItems program.now items →
        Refuses (check_refusal MAX_PROGRAM_ITEMS (length items) program.now query) CheckError.NoMemory result }
{
    // The table of marks has room for each item of the catalog.
    prove!(catalog.len() as usize <= ROOM);
    let table = marks_of(program);
    let marks = marks_within(&table, catalog);
    if let Some(cause) = refusal(program, count_named(marks), query) {
        return Err(cause);
    }
    let wants = wants_of(alloc, marks)?;
    let parts = parts_of(alloc, catalog, &wants)?;
    Ok(Plan { parts })
}

// Why a program is refused that names this many items.
pub(crate) fn refusal(program: &Program, count: u32, query: bool) -> Option<CheckError>
    ensures { result ≡ check_refusal MAX_PROGRAM_ITEMS count program.now query }
{
    if count == 0 {
        return Some(CheckError::NoItem);
    }
    if count > MAX_PROGRAM_ITEMS {
        return Some(CheckError::TooManyItems(count));
    }
    if !query {
        return None;
    }
    if has_assignment(program) {
        return Some(CheckError::Assigns);
    }
    if !has_return(program) {
        return Some(CheckError::NoReturn);
    }
    None
}

// The wants, part by part.
fn parts_of(alloc: Global, catalog: &Catalog, wants: &[Want]) -> Result<Vec<Part>, NoMemory>
    requires { All (λ want. want.item < length catalog.now.items) wants.now }
    ensures { IfOk result (λ parts. (program : model.Program) → AreWants program wants.now → IsPlan program catalog.now.items parts.items) }
{
    let mut parts = Vec::new(alloc);
    for site in 0..catalog.sites() {
        let site = SiteId(site);
        let wants = wants_at(alloc, catalog, site, wants)?;
        if !wants.is_empty() {
            parts.push(Part { site, wants })?;
        }
    }
    Ok(parts)
}

// Those of the wants that are of items of the site.
fn wants_at(
    alloc: Global,
    catalog: &Catalog,
    site: SiteId,
    wants: &[Want],
) -> Result<Vec<Want>, NoMemory>
    requires { All (λ want. want.item < length catalog.now.items) wants.now }
    ensures { IfOk result (λ found. found.items ≡ wants_at catalog.now.items site.0 wants.now) }
{
    let mut found = Vec::new(alloc);
    for want in wants {
        if catalog.site_of(want.item) == site {
            found.push(*want)?;
        }
    }
    Ok(found)
}
