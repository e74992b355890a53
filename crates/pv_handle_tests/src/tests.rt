// Slots as a host uses them.
use pv_embed::EMPTY_JOURNAL;
use pv_handle::{Given, REPORT, SiteSlot, WorldSlot};
use std::test::Fail;

// One item at one site.
const CONFIG: &[u8] = b"sites 1\nitem a 0 100\n";

#[test]
fn worlds_are_stepped(rt: HostRuntime) -> Result<(), Fail> {
    let alloc = rt.alloc();
    let mut slot = WorldSlot::closed(alloc);
    assert!(rt; slot.open(alloc, CONFIG).is_ok());
    assert!(rt; slot.step(alloc, b"submit 0 a := a - 10").is_ok());
    // `txn 0.1.0` and a line feed, in two pieces.
    let mut out = [0; 8];
    assert_eq!(rt; slot.take(alloc, &mut out), Some(8));
    assert_eq!(rt; out, *b"txn 0.1.");
    assert_eq!(rt; slot.take(alloc, &mut out), Some(2));
    slot.close(alloc);
    Ok(())
}

#[test]
fn sites_wait_for_their_files(rt: HostRuntime) -> Result<(), Fail> {
    let alloc = rt.alloc();
    let mut slot = SiteSlot::closed(alloc);
    let mut out = [0; 64];
    let mut tag = 1;
    assert!(rt; slot.open(alloc, CONFIG, 0, &EMPTY_JOURNAL).is_ok());
    assert!(rt; slot.submit(alloc, b"a := a - 10", false, 7).is_ok());
    assert!(rt; slot.tick(alloc).is_ok());

    // The record of the epoch: its length, five bytes and a closed gate, behind the gate; and then the gate.
    assert_eq!(rt; slot.take(alloc, &mut out, &mut tag), Ok(Given::Nothing));
    assert_eq!(rt;
        slot.next_write(alloc, &mut out),
        Some(Given::Bytes { count: 10, to: 9 })
    );
    assert!(rt; slot.written(alloc, 9, 10).is_ok());
    assert_eq!(rt;
        slot.next_write(alloc, &mut out),
        Some(Given::Bytes { count: 1, to: 8 })
    );
    assert!(rt; slot.written(alloc, 8, 1).is_ok());

    // The lock message to itself, of 18 bytes, and the report, which has the request's tag.
    assert_eq!(rt;
        slot.take(alloc, &mut out, &mut tag),
        Ok(Given::Bytes { count: 18, to: 0 })
    );
    assert_eq!(rt; tag, 0);
    assert_eq!(rt;
        slot.take(alloc, &mut out, &mut tag),
        Ok(Given::Bytes {
            count: 10,
            to: REPORT
        })
    );
    assert_eq!(rt; tag, 7);
    assert_eq!(rt;
        slot.read(alloc, b"a", &mut out),
        Ok(Given::Bytes { count: 11, to: 0 })
    );
    let (line, _) = out.split_at(11);
    assert_eq!(rt; line, b"item a 100\n".as_slice());
    slot.close(alloc);
    Ok(())
}
