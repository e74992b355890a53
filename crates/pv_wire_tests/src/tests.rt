// Worked messages of each kind, byte for byte, and faults with their places.
use pv_base::NoMemory;
use pv_wire::*;
use std::alloc::{AllocFailed, Global};
use std::test::Fail;

// Messages of each kind, worked by hand from the format: the bytes in hexadecimal, and the message.
const MESSAGES: &[(&str, &str)] = &[
    (
        "01 00 01 00 00000001 00000000 02 00000000 01 00000003 00",
        "Envelope { from: SiteId(0), to: SiteId(1), message: Lock { txn: TxnId { site: SiteId(0), epoch: 1, number: 0 }, wants: [Want { item: ItemId(0), exclusive: true }, Want { item: ItemId(3), exclusive: false }] } }",
    ),
    (
        "12 01 00 00 00000001 00000000 00000001 00000002 01 00000003 0002 01 01 00000001 00000000 00 0000000000000032 00 000000000000003c",
        "Envelope { from: SiteId(1), to: SiteId(0), message: Granted { txn: TxnId { site: SiteId(0), epoch: 1, number: 0 }, grant: GrantId { epoch: 1, number: 2 }, values: [Read { item: ItemId(3), value: Poly { tree: Tree { held: Two([Case { when: [Literal { txn: TxnId { site: SiteId(1), epoch: 1, number: 0 }, commits: false }], value: 50 }, Case { when: [Literal { txn: TxnId { site: SiteId(1), epoch: 1, number: 0 }, commits: true }], value: 60 }]) } } }] } }",
    ),
    (
        "02 01 00 00 00000001 00000000 00000001 00000002 01 00000003 0001 00 0000000000000032",
        "Envelope { from: SiteId(1), to: SiteId(0), message: Granted { txn: TxnId { site: SiteId(0), epoch: 1, number: 0 }, grant: GrantId { epoch: 1, number: 2 }, values: [Read { item: ItemId(3), value: Poly { tree: Tree { held: One([Case { when: [], value: 50 }]) } } }] } }",
    ),
    (
        "14 00 01 00 00000001 00000000 00000001 00000000 01 00000000 0002 01 01 00000001 00000000 00 0000000000000032 00 000000000000003c",
        "Envelope { from: SiteId(0), to: SiteId(1), message: Prepare { txn: TxnId { site: SiteId(0), epoch: 1, number: 0 }, grant: GrantId { epoch: 1, number: 0 }, writes: [Read { item: ItemId(0), value: Poly { tree: Tree { held: Two([Case { when: [Literal { txn: TxnId { site: SiteId(1), epoch: 1, number: 0 }, commits: false }], value: 50 }, Case { when: [Literal { txn: TxnId { site: SiteId(1), epoch: 1, number: 0 }, commits: true }], value: 60 }]) } } }] } }",
    ),
    (
        "03 01 00 00 00000001 00000000 000003ff 01 00000001 00000007",
        "Envelope { from: SiteId(1), to: SiteId(0), message: Denied { txn: TxnId { site: SiteId(0), epoch: 1, number: 0 }, item: ItemId(1023), holder: TxnId { site: SiteId(1), epoch: 1, number: 7 } } }",
    ),
    (
        "04 00 0f 00 00000001 00000000 00000001 00000000 01 00000000 0001 00 ffffffffffffffff",
        "Envelope { from: SiteId(0), to: SiteId(15), message: Prepare { txn: TxnId { site: SiteId(0), epoch: 1, number: 0 }, grant: GrantId { epoch: 1, number: 0 }, writes: [Read { item: ItemId(0), value: Poly { tree: Tree { held: One([Case { when: [], value: -1 }]) } } }] } }",
    ),
    (
        "04 00 01 00 00000001 00000000 00000001 00000000 00",
        "Envelope { from: SiteId(0), to: SiteId(1), message: Prepare { txn: TxnId { site: SiteId(0), epoch: 1, number: 0 }, grant: GrantId { epoch: 1, number: 0 }, writes: [] } }",
    ),
    (
        "05 01 00 00 00000001 00000000",
        "Envelope { from: SiteId(1), to: SiteId(0), message: Yes { txn: TxnId { site: SiteId(0), epoch: 1, number: 0 } } }",
    ),
    (
        "06 01 00 00 00000001 00000000 01",
        "Envelope { from: SiteId(1), to: SiteId(0), message: No { txn: TxnId { site: SiteId(0), epoch: 1, number: 0 }, cause: GrantLost } }",
    ),
    (
        "06 01 00 00 00000001 00000000 02 0000000000000042",
        "Envelope { from: SiteId(1), to: SiteId(0), message: No { txn: TxnId { site: SiteId(0), epoch: 1, number: 0 }, cause: JournalFull(66) } }",
    ),
    (
        "07 00 01 00 00000001 00000000 01",
        "Envelope { from: SiteId(0), to: SiteId(1), message: Outcome { txn: TxnId { site: SiteId(0), epoch: 1, number: 0 }, commits: true } }",
    ),
    (
        "07 00 01 00 00000001 00000000 00",
        "Envelope { from: SiteId(0), to: SiteId(1), message: Outcome { txn: TxnId { site: SiteId(0), epoch: 1, number: 0 }, commits: false } }",
    ),
    (
        "08 01 00 00 00000001 00000000",
        "Envelope { from: SiteId(1), to: SiteId(0), message: Ask { txn: TxnId { site: SiteId(0), epoch: 1, number: 0 } } }",
    ),
];

// The value of a hexadecimal digit.
fn digit(text: u8) -> Option<u8> {
    match text {
        b'0'..=b'9' => Some(text - b'0'),
        b'a'..=b'f' => Some(text - b'a' + 10),
        _ => None,
    }
}

// The bytes of a text of hexadecimal digits, two for each. Blanks don't count.
fn bytes_of(alloc: Global, text: &str) -> Result<Vec<u8>, AllocFailed<u8>> {
    let mut bytes = Vec::new(alloc);
    let mut high = None;
    for byte in text.as_bytes() {
        let Some(low) = digit(*byte) else { continue };
        match high {
            None => high = Some(low),
            Some(first) => {
                bytes.push(u8::wrapping_mul(first, 16).wrapping_add(low))?;
                high = None;
            }
        }
    }
    Ok(bytes)
}

// The message read and written again, if the bytes are one.
fn again(alloc: Global, bytes: &[u8]) -> Result<Option<Vec<u8>>, NoMemory> {
    match decode(alloc, bytes) {
        Ok(envelope) => Ok(Some(encode(alloc, &envelope)?)),
        Err(WireError::NoMemory) => Err(NoMemory),
        Err(_) => Ok(None),
    }
}

#[test]
fn each_kind_of_message_is_read_and_written(rt: HostRuntime) -> Result<(), Fail> {
    let alloc = rt.alloc();
    for (hex, text) in MESSAGES {
        let bytes = bytes_of(alloc, hex)?;
        let envelope = decode(alloc, &bytes)?;
        assert!(rt; format!(in alloc; "{envelope:?}")?.as_str() == *text);
        assert!(rt;
            again(alloc, &bytes)?.is_some_and(|written| written.as_slice() == bytes.as_slice())
        );
    }
    Ok(())
}

// The refusal of bytes that are no message.
fn refusal(alloc: Global, hex: &str) -> Result<Option<WireError>, AllocFailed<u8>> {
    let bytes = bytes_of(alloc, hex)?;
    Ok(decode(alloc, &bytes).err())
}

// Bytes that are no message, and their first fault.
const FAULTS: &[(&str, WireError)] = &[
    ("", WireError::Short(0)),
    ("09", WireError::BadKind(9)),
    ("00 ff ff", WireError::BadKind(0)),
    ("07 00 01 00 00000001 00000000", WireError::Short(12)),
    ("07 00 01 00 00000001 00000000 02", WireError::BadField(12)),
    ("07 00 01 00 00000001 00000000 01 00", WireError::Extra(13)),
    ("07 10 01 00 00000001 00000000 02", WireError::BadField(1)),
    ("07 00 10 00 00000001 00000000 02", WireError::BadField(2)),
    ("07 00 01 10 00000001 00000000 02", WireError::BadField(3)),
    ("07 00 01 00 000001", WireError::Short(4)),
    // No want; seventeen; items that don't ascend; an item too great.
    ("01 00 01 00 00000001 00000000 00", WireError::BadField(12)),
    ("01 00 01 00 00000001 00000000 11", WireError::BadField(12)),
    (
        "01 00 01 00 00000001 00000000 02 00000003 01 00000003 01",
        WireError::BadField(18),
    ),
    (
        "03 01 00 00 00000001 00000000 00000400 00",
        WireError::BadField(12),
    ),
    // A third cause; a length that isn't whole.
    ("06 01 00 00 00000001 00000000 03", WireError::BadField(12)),
    (
        "06 01 00 00 00000001 00000000 02 00000000000000",
        WireError::Short(13),
    ),
    // Kinds between those of sure values and those of others.
    ("11", WireError::BadKind(17)),
    ("13", WireError::BadKind(19)),
    // A value that isn't sure under the kind of those that are; equal sides; each with a byte too many, which comes later.
    (
        "04 00 01 00 00000001 00000000 00000001 00000000 01 00000000 0002 01 01 00000001 00000000 00 0000000000000032 00 000000000000003c 00",
        WireError::BadPoly(25),
    ),
    (
        "14 00 01 00 00000001 00000000 00000001 00000000 01 00000000 0002 01 01 00000001 00000000 00 0000000000000032 00 0000000000000032 00",
        WireError::BadPoly(25),
    ),
    // Sure values alone under the kind of others; with a byte too many, which comes before that.
    (
        "14 00 01 00 00000001 00000000 00000001 00000000 01 00000000 0001 00 0000000000000032",
        WireError::BadField(0),
    ),
    (
        "14 00 01 00 00000001 00000000 00000001 00000000 00",
        WireError::BadField(0),
    ),
    (
        "14 00 01 00 00000001 00000000 00000001 00000000 00 00",
        WireError::Extra(21),
    ),
    (
        "04 00 01 00 00000001 00000000 00000001 00000000 00 00",
        WireError::Extra(21),
    ),
];

#[test]
fn the_first_fault_is_answered(rt: HostRuntime) -> Result<(), Fail> {
    let alloc = rt.alloc();
    for (hex, error) in FAULTS {
        assert!(rt; refusal(alloc, hex)? == Some(*error));
    }
    Ok(())
}
