// What a decider says to the others where it proposes.
use pv_base::{SiteId, TxnId};
use pv_disk::{ListLog, Log};
use pv_quorum::{Ballot, Decider, QuorumInput, QuorumMessage, QuorumSend};
use std::test::Fail;

const T: TxnId = TxnId {
    site: SiteId(0),
    epoch: 1,
    number: 0,
};

// The first ballot of decider 0.
const FIRST: Ballot = Ballot {
    number: 1,
    decider: 0,
};

#[test]
fn a_proposal_asks_the_others(rt: HostRuntime) -> Result<(), Fail> {
    let alloc = rt.alloc();
    let mut zero = Decider::open(alloc, ListLog::new(alloc, 1000, Vec::new(alloc)), 0, 3)?;
    let proposed = zero.step(&QuorumInput::Propose {
        txn: T,
        commits: true,
    })?;
    let prepare = QuorumMessage::Prepare {
        txn: T,
        ballot: FIRST,
    };
    let asked = [
        QuorumSend {
            to: 1,
            message: prepare,
        },
        QuorumSend {
            to: 2,
            message: prepare,
        },
    ];
    assert!(rt; proposed.sends.as_slice() == asked.as_slice());
    assert!(rt; zero.close().read_all()?.len() == 1);
    Ok(())
}
