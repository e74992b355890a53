// What a worker has.
use pv_base::NoMemory;
use pv_turn::Seat;

/// A worker's round: a seat of each turn, in the order of the turns, and the place of the one at which it begins.
#[derive(Drop)]
pub(crate) struct Round<V, E> {
    /// The turn at which it begins.
    pub(crate) from: usize,
    /// Its seats.
    pub(crate) seats: Vec<Seat<V, E>>,
}

impl<V, E> Round<V, E> {
    ghost use Rattle.std.specs.Prelude.{◌<◌, OnOk, vec_len};
    ghost use Rattle.pv_crew.specs.Dealing.{IsWith};

    /// One more seat, the last.
    pub(crate) fn put(&mut self, seat: Seat<V, E>) -> Result<(), NoMemory>
        ensures { OnOk result (IsWith seat self.old self.new) }
    {
        self.seats.push(seat)?;
        Ok(())
    }

    /// The last seat comes out.
    pub(crate) fn take(&mut self) -> Seat<V, E>
        requires { 0 < vec_len self.old.seats }
        ensures { IsWith result self.new self.old }
    {
        self.seats.pop().unwrap()
    }
}
