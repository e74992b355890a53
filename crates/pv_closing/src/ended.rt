// Clients whose threads have ended.
ghost use Rattle.std.specs.Prelude.{◌≡◌, ◌++◌, reverse};
ghost use Rattle.pv_crew.specs.Messages.{no_faults, once_each};
ghost use Rattle.pv_post.specs.Ends.{plan_of, posted};

use pv_base::History;
use pv_post::{Out, Posted};
use pv_script::Request;

/// A client whose thread has ended. What it asks for now it asks without waiting for answers.
#[derive(Drop)]
pub struct Ended {
    /// What it hasn't asked for, the next one last.
    pub left: Vec<Request>,
    /// The end of the ring by which it asks.
    pub asks: Out<Request>,
    /// All that it is to ask for, in order.
    pub script: History<Request>,
    ghost no_faults: { plan_of asks ≡ no_faults },
    ghost in_order: { posted asks ++ once_each (reverse left.items) ≡ once_each script.items },
}

impl Ended {
    ghost use Rattle.std.specs.Prelude.{◌≡◌, ◌+◌, IfNone, IfSome, length};
    ghost use Rattle.pv_closing.specs.Ended.{AsksOn};

    /// Asks for the next thing, and tells its number; nothing is asked for where nothing is left, or where the ring has no free place.
    pub(crate) fn post(&mut self) -> Option<u32>
        ensures on { AsksOn self.old self.new }
        ensures asked { IfSome result (λ number. length self.new.left.items + 1 ≡ length self.old.left.items) }
        ensures none { IfNone result (length self.new.left.items ≡ length self.old.left.items) }
    {
        let Some(request) = self.left.pop() else {
            return None;
        };
        let number = request.number;
        match self.asks.post(request) {
            Posted::Once | Posted::Twice => Some(number),
            Posted::Dropped(request) | Posted::Full(request) => {
                self.left.push_reserved(request);
                None
            }
        }
    }
}
