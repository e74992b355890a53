// A value that workers visit, for the tests: a desk that answers each number with the one behind it.
ghost use Rattle.std.specs.Prelude.{[]};

use crate::watch::Watch;
use pv_crew::Visited;
use pv_post::{In, Out};
use pv_turn::Entries;

/// A desk at which one client asks. It shows no entries.
#[derive(Drop)]
pub struct Desk<'a> {
    pub asked: In<u64>,
    pub answers: Out<u64>,
    pub watch: &'a Watch,
}

impl Entries for Desk<'_> {
    type Entry = u64;

    ghost entries = { λ desk. [] };

    fn count(&self) -> u64 {
        0
    }
}

impl Visited for Desk<'_> {
    fn visit(&mut self) -> bool {
        self.watch.visit();
        let Some((number, _)) = self.asked.take() else {
            return false;
        };
        self.answers.post(number.wrapping_add(1));
        true
    }
}
