// Items that have to be certain: whether each is at the lock point, with the outcomes put in that the site knows.
ghost use Rattle.std.specs.Prelude.{◌≡◌, None, IfOk};
ghost use Rattle.pv_site.specs.Doubts.{doubt_in, least_from, lesser, names_left};

use pv_ast::Program;
use pv_base::{ItemId, NoMemory};
use pv_store::Store;
use pv_tree::Read;
use std::alloc::Global;

// An item that has to be certain and isn't.
#[derive(Clone, Copy, Debug)]
pub(crate) struct Doubt {
    // The item.
    pub(crate) item: ItemId,
    // How many outcomes its value depends on that the site doesn't know.
    pub(crate) outcomes: u32,
}

// The least item of the reads that the program requires to be certain and that isn't.
pub(crate) fn first_doubt(
    alloc: Global,
    store: &Store,
    program: &Program,
    reads: &[Read],
) -> Result<Option<Doubt>, NoMemory>
    ensures { IfOk result (λ first. first ≡ least_from store.now.records program.now None reads.now) }
{
    let mut first = None;
    for read in reads {
        first = lesser(first, doubt_of(alloc, store, program, read)?);
    }
    Ok(first)
}

// Whether the program requires the item of the read to be certain, and it isn't.
fn doubt_of(
    alloc: Global,
    store: &Store,
    program: &Program,
    read: &Read,
) -> Result<Option<Doubt>, NoMemory>
    ensures { IfOk result (λ doubt. doubt ≡ doubt_in store.now.records program.now read.now) }
{
    if !program.requires_certain(read.item) {
        return Ok(None);
    }
    let outcomes = outcomes_left(alloc, store, read)?;
    if outcomes == 0 {
        return Ok(None);
    }
    Ok(Some(Doubt {
        item: read.item,
        outcomes,
    }))
}

// How many outcomes the value depends on that the site doesn't know.
fn outcomes_left(alloc: Global, store: &Store, read: &Read) -> Result<u32, NoMemory>
    ensures { IfOk result (λ count. count ≡ names_left store.now.records read.now) }
{
    let settled = store.settled(alloc, &read.value)?;
    Ok(settled.names(alloc)?.len() as u32)
}

// Of the two that of the lesser item.
fn lesser(first: Option<Doubt>, other: Option<Doubt>) -> Option<Doubt>
    ensures { result ≡ lesser first other }
{
    let Some(one) = first else {
        return other;
    };
    let Some(two) = other else {
        return Some(one);
    };
    if two.item.0 < one.item.0 {
        return Some(two);
    }
    Some(one)
}
