// A client: what it asks for by one ring, and what it hears by another.
ghost use Rattle.std.specs.Prelude.{◌≡◌, ◌≤◌, ◌+◌, ◌++◌, reverse, length, vec_capacity};
ghost use Rattle.pv_crew.specs.Messages.{messages_of, no_faults, once_each};
ghost use Rattle.pv_post.specs.Ends.{plan_of, posted, taken};

use pv_base::{History, NoMemory};
use pv_post::{In, Out, Posted};
use std::alloc::Global;
use std::{hint, thread};

/// After so many looks in a row that found no answer a client asks no more.
pub const MAX_LOOKS: u32 = 10_000_000;

// After each of so many looks in a row that found no answer another thread may have the processor, and then after half as many whenever the looks have doubled.
const POLITE_LOOKS: u32 = 128;

// How far the other looks are apart: as far as gives an answer seconds to come, and no minutes.
const SPINS: u32 = 8;

/// A client. It asks for what its script says, in order, and for the next thing only after as many answers as it has asked for things.
///
/// Contracts see its `script`; what it has asked for is what was `posted` on `asks`, each once, and what it has heard is what was `taken` of `hears`.
#[derive(Drop)]
pub struct Client<Q: Drop, A: Drop> {
    /// What isn't asked for yet, the next one last.
    pub left: Vec<Q>,
    /// The end of the ring by which it asks.
    pub asks: Out<Q>,
    /// The end of the ring by which it hears.
    pub hears: In<A>,
    /// What it has heard, in order.
    pub heard: Vec<A>,
    /// All that it is to ask for, in order.
    pub script: History<Q>,
    ghost no_faults: { plan_of asks ≡ no_faults },
    ghost in_order: { posted asks ++ once_each (reverse left.items) ≡ once_each script.items },
    ghost heard_of_asked: { length heard.items ≤ length (posted asks) },
    ghost one_by_one: { length (posted asks) ≤ length heard.items + 1 },
    ghost all_heard: { messages_of (taken hears) ≡ heard.items },
    ghost room: { length heard.items + length left.items ≤ vec_capacity heard },
}

impl<Q: Drop, A: Drop> Client<Q, A> {
    ghost use Rattle.std.specs.Prelude.{◌<◌, [], true, false, IfOk};
    ghost use Rattle.pv_post.specs.Ends.{known};
    ghost use Rattle.pv_crew.specs.Asking.{GoesOn, HasEnded};

    /// A client with this script, by rings on which nothing was posted and none fails.
    pub fn new(
        alloc: Global,
        requests: Vec<Q>,
        asks: Out<Q>,
        hears: In<A>,
    ) -> Result<Client<Q, A>, NoMemory>
        requires plan { plan_of asks ≡ no_faults }
        requires fresh { (posted asks ≡ []) × (taken hears ≡ []) }
        ensures script { IfOk result (λ client. client.script.items ≡ requests.items) }
        ensures rings { IfOk result (λ client. (client.asks ≡ asks) × (client.hears ≡ hears)) }
    {
        let heard = Vec::with_capacity(alloc, requests.len())?;
        let mut script = History::new();
        script.extend(&requests);
        let mut left = requests;
        left.reverse();
        Ok(Client {
            left,
            asks,
            hears,
            heard,
            script,
        })
    }

    /// Asks for all that is left, in order, until all is asked for and heard. It ends early where no answer comes for [`MAX_LOOKS`] looks in a row, or where the ring
    /// has no free place.
    pub fn play(&mut self)
        requires { length (posted self.old.asks) ≤ length self.old.heard.items }
        ensures same { GoesOn self.old self.new }
        ensures ended { HasEnded self.new }
    {
        while self.ask() {
            if !self.hear() {
                return;
            }
        }
    }

    // Asks for the next thing, and tells whether it could.
    fn ask(&mut self) -> bool
        requires { length (posted self.old.asks) ≤ length self.old.heard.items }
        ensures same { GoesOn self.old self.new }
        ensures asked { result ≡ true → (length self.new.left.items + 1 ≡ length self.old.left.items) × (length self.new.heard.items + length self.new.left.items < vec_capacity self.new.heard) }
        ensures unheard { result ≡ true → length self.new.heard.items < length (posted self.new.asks) }
        ensures ended { result ≡ false → HasEnded self.new }
    {
        let Some(request) = self.left.pop() else {
            return false;
        };
        match self.asks.post(request) {
            Posted::Once | Posted::Twice => true,
            Posted::Dropped(request) | Posted::Full(request) => {
                self.left.push_reserved(request);
                false
            }
        }
    }

    // Waits for the answer to what was asked last, and tells whether it came.
    fn hear(&mut self) -> bool
        requires room { length self.old.heard.items + length self.old.left.items < vec_capacity self.old.heard }
        requires unheard { length self.old.heard.items < length (posted self.old.asks) }
        ensures same { GoesOn self.old self.new }
        ensures left { self.new.left ≡ self.old.left }
        ensures heard { result ≡ true → length (posted self.new.asks) ≤ length self.new.heard.items }
        ensures ended { result ≡ false → HasEnded self.new }
    {
        for looks in 1..MAX_LOOKS {
            if self.look() {
                return true;
            }
            pause(looks);
        }
        self.look()
    }

    // Looks for an answer, and tells whether it was there.
    fn look(&mut self) -> bool
        requires room { length self.old.heard.items + length self.old.left.items < vec_capacity self.old.heard }
        requires unheard { length self.old.heard.items < length (posted self.old.asks) }
        ensures same { GoesOn self.old self.new }
        ensures left { self.new.left ≡ self.old.left }
        ensures asks { self.new.asks ≡ self.old.asks }
        ensures heard { result ≡ true → length (posted self.new.asks) ≤ length self.new.heard.items }
        ensures none { result ≡ false → (self.new.heard ≡ self.old.heard) × (known self.new.hears ≡ []) }
    {
        let Some((answer, _)) = self.hears.take() else {
            return false;
        };
        self.heard.push_reserved(answer);
        true
    }
}

// Waits a moment after so many looks in a row that found no answer.
//
// A client that hands its processor over leaves it to a worker, for whom the answer may wait. Where processors are busy it gets it back milliseconds later, so that one
// that did so after each of its looks might wait for hours. Therefore it does so ever more rarely: where the count of looks is a small number times a power of two.
fn pause(looks: u32) {
    if looks.wrapping_shr(looks.trailing_zeros()) < POLITE_LOOKS {
        thread::yield_now();
        return;
    }
    for _ in 0..SPINS {
        hint::spin_loop();
    }
}
