// Boxes are visited in their turns.
ghost use Rattle.pv_shown.specs.Sights.{sights_of};

use crate::shown::{Shown, Sight};
use pv_cell::{Visit, boxes_keep_their_course, boxes_stay_the_same};
use pv_crew::Visited;
use pv_disk::Log;
use pv_turn::Entries;

impl<L: Log> Entries for Shown<L> {
    type Entry = Sight<L>;

    ghost entries = { sights_of };

    fn count(&self) -> u64 {
        self.inner.history().len() as u64 + 1
    }
}

impl<L: Log> Visited for Shown<L> {
    fn visit(&mut self) -> bool {
        boxes_keep_their_course::<L>();
        boxes_stay_the_same::<L>();
        matches!(self.inner.visit(), Visit::Took)
    }
}
