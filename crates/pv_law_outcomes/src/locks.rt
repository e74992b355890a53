// Laws of locks in every world that acts lead to.
ghost use Rattle.pv_law_acts.specs.Acts.{Acts};
ghost use Rattle.pv_law_outcomes.specs.Coherent.{IsCoherent};
ghost use Rattle.pv_protocol.specs.State.{Setup};
ghost use Rattle.pv_protocol.specs.World.{opening, World};

/// Whatever acts lead to a world, its grants, entries, messages, records and its order fit together: no two transactions hold an item
/// where one holds it exclusively; what is promised is promised by a transaction of the order, under the grant that it took.
pub fn locks_are_coherent()
    ensures { (setup : Setup) (world : World) → Acts setup (opening setup) world → IsCoherent setup world }
{}
