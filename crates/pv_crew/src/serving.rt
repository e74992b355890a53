// From values to values: each is in a turn while workers serve clients.
ghost use Rattle.std.specs.Prelude.{◌≡◌, ◌<◌, ◌≤◌, [], All, IfOk, vec_len};
ghost use mathlib.Core.List.{IsPrefix};
ghost use Rattle.pv_base.specs.declared.limits.TheConstants.{MAX_SITES};
ghost use Rattle.pv_post.specs.Ends.{posted};
ghost use Rattle.pv_rings.specs.Rings.{Each};
ghost use Rattle.pv_crew.specs.Asking.{HasPlayed};

use crate::client::Client;
use crate::closing::close_all;
use crate::dealing::deal_all;
use crate::gate::Gate;
use crate::running::run;
use crate::visited::Visited;
use pv_base::NoMemory;
use pv_turn::Entries;
use std::alloc::Global;
use std::sync::Wait;
use std::thread::Threads;

/// Serves the clients: each value is in a turn, `workers` threads go round the turns and visit what they find there, and all clients ask at the same time. It ends
/// when all have ended, and gives the values and the clients back, in order.
///
/// The worker of number w begins at the value of number w modulo the count of values. A worker ends when all clients have ended, or after
/// [`MAX_IDLE`](crate::MAX_IDLE) visits in a row that took nothing. The gate is told of each visit, with the number of its value. Where no thread can be made, the
/// workers and then the clients go one after another in this one: a worker ends by its idle visits then, and a client hears nothing.
///
/// Without memory, which it takes before, while and after threads run, the values and the clients are gone.
pub fn serve<
    T: Threads + Wait + Sync,
    V: Visited + Send + Drop,
    Q: Send + Drop,
    A: Send + Drop,
    G: Gate + Sync,
>(
    rt: &T,
    alloc: Global,
    values: Vec<V>,
    workers: u32,
    clients: Vec<Client<Q, A>>,
    gate: &G,
) -> Result<(Vec<V>, Vec<Client<Q, A>>), NoMemory>
    requires values { (0 < vec_len values) × (vec_len values ≤ MAX_SITES) }
    requires workers { 0 < workers }
    requires clients { All (λ client. posted client.asks ≡ []) clients.items }

    // The entries of each value begin with those that it had.
    ensures values { IfOk result (λ served. Each (λ _ old new. IsPrefix (V.entries old) (V.entries new)) values.items served.0.items) }
    ensures clients { IfOk result (λ served. Each (λ _. HasPlayed) clients.items served.1.items) }
{
    let (turns, rounds) = deal_all(alloc, values, workers)?;
    let (rounds, clients) = run(rt, &turns, rounds, clients, gate)?;
    let values = close_all(alloc, turns, rounds)?;
    Ok((values, clients))
}
