// Each public call once, and the faults that are made to come.
use pv_base::Failed;
use pv_io::{MemSink, MemSource, ReadEnd, Sink, Source, StdSink, StdSource, read_all, write_all};
use std::test::Fail;

#[test]
fn the_limit_counts(rt: HostRuntime) -> Result<(), Fail> {
    let alloc = rt.alloc();
    let mut source = MemSource::new(b"abc".to_vec(alloc)?, Vec::new(alloc));
    assert_eq!(rt;
        read_all(alloc, &mut source, 3)?.as_slice(),
        b"abc".as_slice()
    );
    assert!(rt; source.left().is_empty());

    let mut source = MemSource::new(b"abc".to_vec(alloc)?, Vec::new(alloc));
    assert_eq!(rt;
        read_all(alloc, &mut source, 2).err(),
        Some(ReadEnd::TooLong)
    );
    assert_eq!(rt; source.faults(), 0);
    Ok(())
}

#[test]
fn several_pieces_come_whole(rt: HostRuntime) -> Result<(), Fail> {
    let alloc = rt.alloc();
    let mut bytes = Vec::new(alloc);
    for i in 0..200_000u32 {
        bytes.push((i % 251) as u8)?;
    }
    let mut source = MemSource::new(bytes.to_vec(alloc)?, Vec::new(alloc));
    let read = read_all(alloc, &mut source, u64::MAX)?;
    assert!(rt; read.as_slice() == bytes.as_slice());
    Ok(())
}

#[test]
fn a_read_fails(rt: HostRuntime) -> Result<(), Fail> {
    let alloc = rt.alloc();
    let mut source = MemSource::new(b"abc".to_vec(alloc)?, vec![in alloc; 0]?);
    assert_eq!(rt;
        read_all(alloc, &mut source, 3).err(),
        Some(ReadEnd::Failed)
    );
    assert_eq!(rt; source.faults(), 1);
    assert_eq!(rt; source.left(), b"abc".as_slice());

    // The second piece doesn't come.
    let mut source = MemSource::new(vec![in alloc; 7; 100_000]?, vec![in alloc; 1]?);
    assert_eq!(rt;
        read_all(alloc, &mut source, 200_000).err(),
        Some(ReadEnd::Failed)
    );
    assert_eq!(rt; source.left().len(), 34_464);
    Ok(())
}

#[test]
fn a_sink_takes_all(rt: HostRuntime) -> Result<(), Fail> {
    let alloc = rt.alloc();
    let mut sink = MemSink::new(alloc, Vec::new(alloc));
    write_all(&mut sink, b"one ")?;
    write_all(&mut sink, b"two")?;
    assert_eq!(rt; sink.bytes(), b"one two".as_slice());
    Ok(())
}

#[test]
fn a_write_fails(rt: HostRuntime) -> Result<(), Fail> {
    let alloc = rt.alloc();
    let mut sink = MemSink::new(alloc, vec![in alloc; 0]?);
    assert_eq!(rt; write_all(&mut sink, b"one"), Err(Failed));
    assert!(rt; sink.bytes().is_empty());
    assert_eq!(rt; sink.faults(), 1);
    Ok(())
}

#[test]
fn std_passes_the_bytes_on(rt: HostRuntime) -> Result<(), Fail> {
    let alloc = rt.alloc();
    let mut source = StdSource::new(b"in and out".as_slice());
    let bytes = read_all(alloc, &mut source, 10)?;
    assert!(rt; source.into_inner().is_empty());

    let mut sink = StdSink::new(Vec::new(alloc));
    write_all(&mut sink, &bytes)?;
    assert_eq!(rt; sink.into_inner().as_slice(), b"in and out".as_slice());
    Ok(())
}
