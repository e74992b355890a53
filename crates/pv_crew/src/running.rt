// Workers that go their rounds and clients that ask, each in a thread of its own.
ghost use Rattle.std.specs.Prelude.{◌≡◌, ◌≤◌, [], All, IfOk, length};
ghost use Rattle.pv_base.specs.declared.limits.TheConstants.{MAX_SITES};
ghost use Rattle.pv_post.specs.Ends.{posted};
ghost use Rattle.pv_rings.specs.Rings.{Each};
ghost use Rattle.pv_crew.specs.Asking.{HasPlayed};
ghost use Rattle.pv_crew.specs.Rounds.{IsLaterRound, IsRoundOf};

use crate::client::Client;
use crate::gate::Gate;
use crate::round::Round;
use crate::visited::Visited;
use crate::work::work;
use pv_base::NoMemory;
use pv_turn::Turn;
use std::sync::Wait;
use std::sync::atomic::{AtomicBool, Ordering};
use std::thread;
use std::thread::Threads;

/// Lets the workers go their rounds and the clients ask, all at the same time, until all have ended. Rounds and clients come back in order.
pub(crate) fn run<
    T: Threads + Wait + Sync,
    V: Visited + Send + Drop,
    Q: Send + Drop,
    A: Send + Drop,
    G: Gate + Sync,
>(
    rt: &T,
    turns: &[Turn<V>],
    rounds: Vec<Round<V, V::Entry>>,
    clients: Vec<Client<Q, A>>,
    gate: &G,
) -> Result<(Vec<Round<V, V::Entry>>, Vec<Client<Q, A>>), NoMemory>
    requires turns { length turns.now ≤ MAX_SITES }
    requires rounds { All (IsRoundOf turns.now) rounds.items }
    requires clients { All (λ client. posted client.asks ≡ []) clients.items }
    ensures rounds { IfOk result (λ ended. Each (λ _. IsLaterRound) rounds.items ended.0.items) }
    ensures clients { IfOk result (λ ended. Each (λ _. HasPlayed) clients.items ended.1.items) }
{
    let ended = AtomicBool::new(false);
    let (rounds, clients) = thread::join(
        rt,
        || -> Result<Vec<Round<V, V::Entry>>, NoMemory>
            requires { (length turns.now ≤ MAX_SITES) × All (IsRoundOf turns.now) rounds.items }
            ensures { IfOk result (λ back. Each (λ _. IsLaterRound) rounds.items back.items) }
        { work_all(rt, turns, rounds, gate, &ended) },
        || -> Result<Vec<Client<Q, A>>, NoMemory>
            requires { All (λ client. posted client.asks ≡ []) clients.items }
            ensures { IfOk result (λ back. Each (λ _. HasPlayed) clients.items back.items) }
        { play_all(rt, clients, &ended) },
    );
    Ok((rounds?, clients?))
}

// Lets each worker go its round, in a thread of its own.
fn work_all<T: Threads + Wait + Sync, V: Visited + Send + Drop, G: Gate + Sync>(
    rt: &T,
    turns: &[Turn<V>],
    rounds: Vec<Round<V, V::Entry>>,
    gate: &G,
    ended: &AtomicBool,
) -> Result<Vec<Round<V, V::Entry>>, NoMemory>
    requires turns { length turns.now ≤ MAX_SITES }
    requires rounds { All (IsRoundOf turns.now) rounds.items }
    ensures { IfOk result (λ back. Each (λ _. IsLaterRound) rounds.items back.items) }
{
    let back = thread::map_vec(
        rt,
        rounds,
        &|round: Round<V, V::Entry>| -> Round<V, V::Entry>
            requires { (length turns.now ≤ MAX_SITES) × IsRoundOf turns.now round }
            ensures { IsLaterRound round result }
        { work(rt, turns, round, gate, ended) },
    )?;
    Ok(back)
}

// Lets each client ask, in a thread of its own; when all have ended, workers hear of it.
fn play_all<T: Threads + Sync, Q: Send + Drop, A: Send + Drop>(
    rt: &T,
    clients: Vec<Client<Q, A>>,
    ended: &AtomicBool,
) -> Result<Vec<Client<Q, A>>, NoMemory>
    requires { All (λ client. posted client.asks ≡ []) clients.items }
    ensures { IfOk result (λ back. Each (λ _. HasPlayed) clients.items back.items) }
{
    let back = thread::map_vec(
        rt,
        clients,
        &|client: Client<Q, A>| -> Client<Q, A>
            requires { posted client.asks ≡ [] }
            ensures { HasPlayed client result }
        { played(client) },
    );
    // Also where there was no memory for the clients: else the workers would go on.
    ended.store(true, Ordering::SeqCst);
    Ok(back?)
}

// The client, once it has asked.
fn played<Q: Drop, A: Drop>(client: Client<Q, A>) -> Client<Q, A>
    requires { posted client.asks ≡ [] }
    ensures { HasPlayed client result }
{
    let mut client = client;
    client.play();
    client
}
