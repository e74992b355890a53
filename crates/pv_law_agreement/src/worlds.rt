// What makes a world agree.
ghost use Rattle.pv_law_agreement.specs.Grounds.{HasGrounds};
ghost use Rattle.pv_law_agreement.specs.Orderly.{IsOrderly};
ghost use Rattle.pv_law_agreement.specs.Sequence.{IsInSequence};
ghost use Rattle.pv_law_agreement.specs.Serialized.{IsSerialized};
ghost use Rattle.pv_protocol.specs.Agreement.{Agrees};
ghost use Rattle.pv_protocol.specs.State.{Setup};
ghost use Rattle.pv_protocol.specs.World.{World};

/// A world agrees where promises and grants are those of the order, in its sequence, and what is promised is what the serial run
/// leaves.
pub fn orderly_worlds_agree()
    ensures { (setup : Setup) (world : World) → IsOrderly setup world → Agrees setup world }
{}

/// And so does a world that the steps kept in order.
pub fn kept_worlds_agree()
    ensures { (setup : Setup) (world : World) → HasGrounds setup world → IsInSequence world → IsSerialized setup world → Agrees setup world }
{}
