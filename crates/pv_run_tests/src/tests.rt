// A run of a text in memory, its trace, the disks that it leaves, and what is written where a write or a request for memory fails.
use pv_base::SiteId;
use pv_disk::MemBay;
use pv_io::{MemSink, MemSource};
use pv_run::*;
use std::test::Fail;

const TRANSFER: &str =
    "sites 2\nitem a 0 100\nitem b 1 50\nsubmit 0 a := a - 10 ; b := b + 10\npump\nreport\n";

const TRANSFER_OUTPUT: &str =
    "txn 0.1.0\ncommit 0.1.0 certain nothing\norder 0.1.0\ncommitted 0.1.0\nopen\nitem a 90\nitem b 60\nend\n";

#[test]
fn a_text_is_run_and_its_disks_are_kept(rt: HostRuntime) -> Result<(), Fail> {
    let alloc = rt.alloc();
    let mut source = MemSource::new(TRANSFER.as_bytes().to_vec(alloc)?, Vec::new(alloc));
    let mut sink = MemSink::new(alloc, Vec::new(alloc));
    let mut bay = MemBay::new(Vec::new(alloc))?;
    let end = read_and_run(alloc, Form::Text, &mut source, &mut sink, &mut bay);
    assert!(rt; status_of_run(end).code() == 0);
    assert!(rt; sink.bytes() == TRANSFER_OUTPUT.as_bytes());
    assert!(rt; bay.kept(SiteId(0)).is_some() && bay.kept(SiteId(1)).is_some());
    assert!(rt; bay.kept(SiteId(2)).is_none());
    Ok(())
}

// The same schedule with what doesn't count: a comment, an empty line, blanks at the ends of lines, carriage returns, no line feed at the end.
const SPACED: &str =
    "# a transfer\n\tsites 2  \r\nitem a 0 100\n\n item b 1 50\nsubmit 0 a := a - 10 ; b := b + 10\t\r\n  pump\nreport ";

const DECLARED: &str = "> sites 2\n> item a 0 100\n> item b 1 50\n";

const TRACED: &str =
    "> submit 0 a := a - 10 ; b := b + 10\ntxn 0.1.0\n> pump\ncommit 0.1.0 certain nothing\n> report\norder 0.1.0\ncommitted 0.1.0\nopen\nitem a 90\nitem b 60\nend\n";

#[test]
fn a_trace_has_the_lines_of_its_schedule(rt: HostRuntime) -> Result<(), Fail> {
    let alloc = rt.alloc();
    let mut sink = MemSink::new(alloc, Vec::new(alloc));
    let mut bay = MemBay::new(Vec::new(alloc))?;
    let end = run_text(alloc, SPACED.as_bytes(), Form::Trace, &mut sink, &mut bay);
    assert!(rt; end == TextEnd::Done);
    assert!(rt; sink.bytes().starts_with(DECLARED.as_bytes()));
    assert!(rt; sink.bytes().ends_with(TRACED.as_bytes()));
    assert!(rt; sink.bytes().len() == DECLARED.len().wrapping_add(TRACED.len()));
    Ok(())
}

// The lines that declare something are written before the first event is, so they stand there where that can't be written.
#[test]
fn what_is_declared_is_written_first(rt: HostRuntime) -> Result<(), Fail> {
    let alloc = rt.alloc();
    let mut sink = MemSink::new(alloc, [1].as_slice().to_vec(alloc)?);
    let mut bay = MemBay::new(Vec::new(alloc))?;
    let end = run_text(alloc, SPACED.as_bytes(), Form::Trace, &mut sink, &mut bay);
    assert!(rt; end == TextEnd::WriteFault && sink.bytes() == DECLARED.as_bytes());
    Ok(())
}

// A sink that finds no memory for what it is to hold has failed: that ends a run as a sink does that fails otherwise, and not as want of memory in the run itself. What is asserted
// holds at any request that is refused; bench/hostile refuses each in turn.
#[test]
fn a_sink_without_memory_holds_a_beginning(rt: HostRuntime) -> Result<(), Fail> {
    let alloc = rt.alloc();
    let mut sink = MemSink::new(alloc, Vec::new(alloc));
    let mut bay = MemBay::new(Vec::new(alloc))?;
    let end = run_text(alloc, TRANSFER.as_bytes(), Form::Text, &mut sink, &mut bay);
    let code = end.status().code();
    assert!(rt; TRANSFER_OUTPUT.as_bytes().starts_with(sink.bytes()));
    assert!(rt; (code == 5) == (sink.faults() == 1));
    assert!(rt; code != 0 || sink.bytes() == TRANSFER_OUTPUT.as_bytes());
    assert!(rt; code == 0 || code == 5 || code == 7);
    Ok(())
}
