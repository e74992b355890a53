// Worked records and polyvalues, byte for byte; old spellings; and many cases that overlap.
ghost use Rattle.std.specs.Prelude.{IfOk, IfSome};
ghost use Rattle.pv_format.specs.RecordSpelling.{IsReadAs};
ghost use Rattle.pv_replay.specs.Values.{record_of};

use pv_base::NoMemory;
use pv_bytes::{Put, Take};
use pv_replay::*;
use std::alloc::{AllocFailed, Global};
use std::test::Fail;

// Records of each kind, worked by hand from the format: the bytes in hexadecimal, and the record.
const RECORDS: &[(&str, &str)] = &[
    ("01 00000001", "Epoch(1)"),
    (
        "02 00 00000001 00000000 01 00000000 0001 00 0000000000000065",
        "Prepared { txn: TxnId { site: SiteId(0), epoch: 1, number: 0 }, writes: [Read { item: ItemId(0), value: Poly { tree: Tree { held: One([Case { when: [], value: 101 }]) } } }] }",
    ),
    (
        "02 01 00000002 00000003 00",
        "Prepared { txn: TxnId { site: SiteId(1), epoch: 2, number: 3 }, writes: [] }",
    ),
    (
        "04 00 00000001 00000000 02 00000001 0001 00 ffffffffffffffff 000003ff 0002 01 01 00000001 00000000 00 0000000000000032 00 000000000000003c",
        "Prepared { txn: TxnId { site: SiteId(0), epoch: 1, number: 0 }, writes: [Read { item: ItemId(1), value: Poly { tree: Tree { held: One([Case { when: [], value: -1 }]) } } }, Read { item: ItemId(1023), value: Poly { tree: Tree { held: Two([Case { when: [Literal { txn: TxnId { site: SiteId(1), epoch: 1, number: 0 }, commits: false }], value: 50 }, Case { when: [Literal { txn: TxnId { site: SiteId(1), epoch: 1, number: 0 }, commits: true }], value: 60 }]) } } }] }",
    ),
    (UNSURE, UNSURE_TEXT),
    (
        "03 00 00000001 00000000 01",
        "Outcome { txn: TxnId { site: SiteId(0), epoch: 1, number: 0 }, commits: true }",
    ),
];

// The second of them.
const PROMISE: &str = "02 00 00000001 00000000 01 00000000 0001 00 0000000000000065";

// A promise of a value that depends on one outcome, the record that it is, and its old spelling.
const UNSURE: &str =
    "04 00 00000001 00000001 01 00000000 0002 01 00 00000001 00000000 00 0000000000000032 00 000000000000003c";

const UNSURE_TEXT: &str =
    "Prepared { txn: TxnId { site: SiteId(0), epoch: 1, number: 1 }, writes: [Read { item: ItemId(0), value: Poly { tree: Tree { held: Two([Case { when: [Literal { txn: TxnId { site: SiteId(0), epoch: 1, number: 0 }, commits: false }], value: 50 }, Case { when: [Literal { txn: TxnId { site: SiteId(0), epoch: 1, number: 0 }, commits: true }], value: 60 }]) } } }] }";

const OLD: &str =
    "02 00 00000001 00000001 01 00000000 0002 01 00 00 00000001 00000000 0000000000000032 01 01 00 00000001 00000000 000000000000003c";

// The value of a hexadecimal digit.
fn digit(text: u8) -> Option<u8> {
    match text {
        b'0'..=b'9' => Some(text - b'0'),
        b'a'..=b'f' => Some(text - b'a' + 10),
        _ => None,
    }
}

// The bytes of a text of hexadecimal digits, two for each. Blanks don't count.
fn bytes_of(alloc: Global, text: &str) -> Result<Vec<u8>, AllocFailed<u8>> {
    let mut bytes = Vec::new(alloc);
    let mut high = None;
    for byte in text.as_bytes() {
        let Some(low) = digit(*byte) else { continue };
        match high {
            None => high = Some(low),
            Some(first) => {
                bytes.push(u8::wrapping_mul(first, 16).wrapping_add(low))?;
                high = None;
            }
        }
    }
    Ok(bytes)
}

// The record that the content is, if it is one.
fn decode_record(alloc: Global, content: &[u8]) -> Result<Option<Record>, NoMemory>
    ensures { IfOk result (λ found. IfSome found (λ value. IsReadAs (record_of value) content.now)) }
{
    let mut contents = Vec::new(alloc);
    contents.push(content.to_vec(alloc)?)?;
    match replay(alloc, &contents) {
        Ok(mut past) => Ok(past.records.pop()),
        Err(ReplayError::BadRecord(_)) => Ok(None),
        Err(ReplayError::NoMemory) => Err(NoMemory),
    }
}

// The content read and written again, if it is a record.
fn again(alloc: Global, content: &[u8]) -> Result<Option<Vec<u8>>, NoMemory> {
    match decode_record(alloc, content)? {
        Some(record) => Ok(Some(encode_record(alloc, &record)?)),
        None => Ok(None),
    }
}

#[test]
fn each_kind_of_record_is_read_and_written(rt: HostRuntime) -> Result<(), Fail> {
    let alloc = rt.alloc();
    for (hex, text) in RECORDS {
        let bytes = bytes_of(alloc, hex)?;
        let record = decode_record(alloc, &bytes)?;
        assert!(rt;
            format!(in alloc; "{record:?}")?.as_str() == format!(in alloc; "Some({text})")?.as_str()
        );
        assert!(rt;
            again(alloc, &bytes)?.is_some_and(|written| written.as_slice() == bytes.as_slice())
        );
    }
    Ok(())
}

#[test]
fn an_old_spelling_is_read_and_spelled_anew(rt: HostRuntime) -> Result<(), Fail> {
    let alloc = rt.alloc();
    let old = bytes_of(alloc, OLD)?;
    let new = bytes_of(alloc, UNSURE)?;
    let record = decode_record(alloc, &old)?;
    assert!(rt;
        format!(in alloc; "{record:?}")?.as_str()
            == format!(in alloc; "Some({UNSURE_TEXT})")?.as_str()
    );
    assert!(rt;
        respelled(alloc, &old)?.is_some_and(|written| written.as_slice() == new.as_slice())
    );
    Ok(())
}

// Bytes that are no record: a tree of a test under the kind of promises of sure values, a promise of a sure value under the kind of others, and promises of
// a value with equal sides, in either spelling.
const NO_RECORDS: &[&str] = &[
    "02 00 00000001 00000001 01 00000000 0002 01 00 00000001 00000000 00 0000000000000032 00 000000000000003c",
    "04 00 00000001 00000000 01 00000000 0001 00 0000000000000065",
    "04 00 00000001 00000001 01 00000000 0002 01 00 00000001 00000000 00 0000000000000032 00 0000000000000032",
    "02 00 00000001 00000001 01 00000000 0002 01 00 00 00000001 00000000 0000000000000032 01 01 00 00000001 00000000 0000000000000032",
];

#[test]
fn other_promises_are_no_records(rt: HostRuntime) -> Result<(), Fail> {
    let alloc = rt.alloc();
    for hex in NO_RECORDS {
        assert!(rt; decode_record(alloc, &bytes_of(alloc, hex)?)?.is_none());
    }
    Ok(())
}

#[test]
fn a_journal_is_replayed(rt: HostRuntime) -> Result<(), Fail> {
    let alloc = rt.alloc();
    let mut contents = Vec::new(alloc);
    contents.push(bytes_of(alloc, "01 00000001")?)?;
    contents.push(bytes_of(alloc, PROMISE)?)?;
    let past = replay(alloc, &contents)?;
    assert!(rt; past.epoch == 1 && past.records.len() == 2);
    Ok(())
}

// The polyvalue at the front read and written again, if there is one.
fn poly_again(alloc: Global, bytes: &[u8]) -> Result<Option<Vec<u8>>, NoMemory> {
    let mut take = Take::new(bytes);
    match take_poly(alloc, &mut take) {
        Ok(value) => {
            let mut put = Put::new(alloc);
            put_poly(&mut put, &value)?;
            Ok(Some(put.done()))
        }
        Err(PolyError::NoMemory) => Err(NoMemory),
        Err(_) => Ok(None),
    }
}

#[test]
fn a_polyvalue_is_read_and_written(rt: HostRuntime) -> Result<(), Fail> {
    let alloc = rt.alloc();
    let bytes = bytes_of(alloc, "0001 00 0000000000000065")?;
    assert!(rt;
        poly_again(alloc, &bytes)?.is_some_and(|written| written.as_slice() == bytes.as_slice())
    );
    Ok(())
}

// Bytes that begin with no polyvalue, and their first fault.
const FAULTS: &[(&str, PolyError)] = &[
    ("", PolyError::Short(0)),
    ("0000", PolyError::Short(2)),
    // No leaf is counted, and there is one; three are, and there are two.
    ("0000 00 0000000000000065", PolyError::BadPoly(0)),
    (
        "0003 01 00 00000001 00000000 00 0000000000000032 00 000000000000003c",
        PolyError::BadPoly(0),
    ),
    // A node that is neither a leaf nor a test, and then a site of 16.
    ("0001 02 10", PolyError::BadField(2)),
    ("0002 01 10", PolyError::BadField(3)),
    // Both sides are equal.
    (
        "0002 01 00 00000001 00000000 00 0000000000000032 00 0000000000000032",
        PolyError::BadPoly(0),
    ),
];

#[test]
fn the_first_fault_is_answered(rt: HostRuntime) -> Result<(), Fail> {
    let alloc = rt.alloc();
    for (hex, error) in FAULTS {
        let bytes = bytes_of(alloc, hex)?;
        let mut take = Take::new(&bytes);
        assert!(rt; take_poly(alloc, &mut take).err() == Some(*error));
    }
    Ok(())
}

// A promise in an old spelling of a value of so many cases: twelve that ask for the outcome of one transaction each, and then cases that are always met. They
// name twelve transactions, and each overlaps each other one.
fn many_cases(alloc: Global, count: u16) -> Result<Vec<u8>, NoMemory> {
    let mut put = Put::new(alloc);
    put.bytes(b"\x02\0\0\0\0\x01\0\0\0\0\x01\0\0\0\0")?;
    put.u16(count)?;
    for number in 0..u32::from(count) {
        if number < 12 {
            put.bytes(b"\x01\x01\0\0\0\0\x01")?;
            put.u32(number)?;
        } else {
            put.u8(0)?;
        }
        put.i64(i64::from(number))?;
    }
    Ok(put.done())
}

// Whether so many cases are refused, each of twenty times. `bench/cases` times the two tests that follow.
fn are_refused(alloc: Global, count: u16) -> Result<bool, NoMemory> {
    let mut contents = Vec::new(alloc);
    contents.push(many_cases(alloc, count)?)?;
    for _ in 0..20 {
        match replay(alloc, &contents) {
            Err(ReplayError::BadRecord(0)) => {}
            _ => return Ok(false),
        }
    }
    Ok(true)
}

#[test]
fn refuses_6_553_cases(rt: HostRuntime) -> Result<(), Fail> {
    assert!(rt; are_refused(rt.alloc(), 6_553)?);
    Ok(())
}

// As many as a count can say.
#[test]
fn refuses_65_535_cases(rt: HostRuntime) -> Result<(), Fail> {
    assert!(rt; are_refused(rt.alloc(), 65_535)?);
    Ok(())
}
