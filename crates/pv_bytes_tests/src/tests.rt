// Numbers of each size written and read back, byte for byte.
use pv_bytes::*;
use std::test::Fail;

#[test]
fn numbers_stand_with_the_most_significant_byte_first(rt: HostRuntime) -> Result<(), Fail> {
    let mut put = Put::with_room(rt.alloc(), 27)?;
    put.u8(7)?;
    put.u16(258)?;
    put.u32(0x0102_0304)?;
    put.u64(0x0506_0708_090a_0b0c)?;
    put.i64(-1)?;
    put.bytes(b"rest")?;
    let bytes = put.done();
    assert!(rt;
        bytes.as_slice()
            == b"\x07\x01\x02\x01\x02\x03\x04\x05\x06\x07\x08\x09\x0a\x0b\x0c\xff\xff\xff\xff\xff\xff\xff\xffrest".as_slice()
    );
    Ok(())
}
