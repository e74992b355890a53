// How wide the writes are that a vote is asked for.
ghost use Rattle.pv_law_acts.specs.Acts.{Acts};
ghost use Rattle.pv_law_complete.specs.Narrow.{VotesStayNarrow};
ghost use Rattle.pv_protocol.specs.State.{Setup};
ghost use Rattle.pv_protocol.specs.World.{World, opening};

/// In every world that acts lead to, where a site is asked to vote for a transaction that is worked on and holds its grant there, an item that
/// was read for it would name no more than was taken for it, and the transaction itself.
pub fn votes_stay_narrow()
    ensures { (setup : Setup) (world : World) → Acts setup (opening setup) world → VotesStayNarrow setup world }
{}
