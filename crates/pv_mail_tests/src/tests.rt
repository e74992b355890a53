// What comes in from one ring, what is posted to a site, and what a client hears.
ghost use Rattle.std.specs.Prelude.{IfOk, IfSome};
ghost use Rattle.pv_site.specs.Inputs.{IsSpelledFrom};

use pv_base::{SiteId, TxnId};
use pv_mail::{Answer, Arrival, Asker, Begun, Ends, Parcel, Telling, What, post_all};
use pv_post::{FaultPlan, pair};
use pv_script::Line;
use pv_site::{Note, Outgoing};
use pv_wire::{WireError, decode};
use std::alloc::Global;
use std::test::Fail;

// A plan by which no message fails.
const NONE: FaultPlan = FaultPlan {
    drop_each: 0,
    double_each: 0,
};

#[test]
fn a_parcel_comes_from_its_site(rt: HostRuntime) -> Result<(), Fail> {
    let alloc = rt.alloc();
    let (mut out, inlet) = pair::<Parcel>(alloc, NONE)?;
    let mut ends = Ends {
        sites_in: vec![in alloc; inlet]?,
        sites_out: Vec::new(alloc),
        clients_in: Vec::new(alloc),
        clients_out: Vec::new(alloc),
    };
    out.post(Parcel {
        stamp: 3,
        place: 1,
        bytes: Vec::new(alloc),
    });
    let mut next = 0;
    assert!(rt;
        matches!(
            ends.take_next(&mut next),
            Some((
                Arrival::Parcel {
                    from: SiteId(0),
                    parcel: Parcel {
                        stamp: 3,
                        place: 1,
                        ..
                    },
                },
                1
            ))
        )
    );
    assert!(rt; ends.take_next(&mut next).is_none());
    Ok(())
}

// What site 1 asks site 0: the outcome of that one's first transaction.
const QUESTION: &[u8] = &[8, 1, 0, 0, 0, 0, 0, 1, 0, 0, 0, 0];

// The message that the bytes spell, if site 1 sends it.
fn outgoing_of(alloc: Global, bytes: &[u8]) -> Result<Option<Outgoing>, WireError>
    ensures { IfOk result (λ read. IfSome read (IsSpelledFrom 1)) }
{
    let envelope = decode(alloc, bytes)?;
    if envelope.from != SiteId(1) {
        return Ok(None);
    }
    Ok(Some(Outgoing {
        to: envelope.to,
        message: envelope.message,
    }))
}

#[test]
fn a_message_is_posted_to_its_site(rt: HostRuntime) -> Result<(), Fail> {
    let alloc = rt.alloc();
    let (out, mut inlet) = pair::<Parcel>(alloc, NONE)?;
    let mut outs = vec![in alloc; out]?;
    let Ok(Some(outgoing)) = outgoing_of(alloc, QUESTION) else {
        return Err(Fail::new("no message"));
    };
    let sends = vec![in alloc; outgoing]?;
    let short = post_all(alloc, &mut outs, SiteId(1), 3, sends);
    assert_eq!(rt; short, 0);
    let Some((parcel, 1)) = inlet.take() else {
        return Err(Fail::new("no parcel"));
    };
    assert_eq!(rt; parcel.stamp, 3);
    assert_eq!(rt; parcel.place, 0);
    assert!(rt; parcel.bytes.as_slice() == QUESTION);
    Ok(())
}

#[test]
fn a_client_hears_of_its_transaction(rt: HostRuntime) -> Result<(), Fail> {
    let alloc = rt.alloc();
    let (out, mut inlet) = pair::<Answer>(alloc, NONE)?;
    let mut outs = vec![in alloc; out]?;
    let txn = TxnId {
        site: SiteId(2),
        epoch: 1,
        number: 0,
    };
    let asker = Asker {
        client: 0,
        number: 9,
    };
    let mut begun = vec![in alloc; Begun { txn, asker }]?;
    let notes = vec![in alloc;
        Note::Commit {
            txn,
            replies: Vec::new(alloc)
        },
    ]?;
    let telling = Telling {
        alloc,
        site: SiteId(2),
        seen: 5,
    };
    telling.all(&mut outs, None, &mut begun, &notes);
    assert!(rt; begun.is_empty());
    assert!(rt;
        matches!(
            inlet.take(),
            Some((
                Answer {
                    number: 9,
                    seen: 5,
                    what: What::Line(Line::Commit { .. }),
                },
                1
            ))
        )
    );
    Ok(())
}
